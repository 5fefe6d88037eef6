//! Images: the sectors that a crash leaves, kept as what differs from others, and devices in memory that begin on them.
#![tactic(auto)]

mod device;
mod image;
mod laid;

pub use device::ImageDevice;
pub use image::{Image, sectors_of};
