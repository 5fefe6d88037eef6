//! Tests of the devices, and of images.

mod calls;
mod file;
mod images;
mod memory;
mod sectors;
