//! Checks of what lives leave, and a caller of both.

#[cfg(test)]
mod faults;
mod whole;

pub use whole::check_after_lives;
