//! Tests of what is admitted, and of which step comes next.

mod admissions;
mod areas;
mod steps;
