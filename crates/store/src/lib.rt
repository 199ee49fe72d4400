// A store of 64-bit words: what it means, and its two kinds.
#![tactic(auto)]

pub mod fault;
mod image;
mod memory;
mod words;

pub use fault::{ImageFault, StoreFault};
pub use image::Image;
pub use memory::Memory;
pub use words::Store;
