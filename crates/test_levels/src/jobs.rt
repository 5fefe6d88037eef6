//! Tests of jobs in slots.

mod accepting;
mod reading;
mod subject;
