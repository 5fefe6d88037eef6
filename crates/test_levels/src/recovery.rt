//! Tests of formats and openings on devices in memory, of images that are given by their bytes. What else openings find and refuse is
//! shown by runs of the program (`tests/runs.sh`, `tests/checked.sh`).

mod devices;
mod format;
mod old;
mod openings;
