//! Hopping windows, one element at a time.
#![tactic(auto)]

mod by_end;
mod entry;
mod given;
mod image_laws;
mod image_reader;
mod image_writer;
mod pane;
mod panes;
mod puts;
mod total;
mod window;

pub use image_laws::{image_examples, images_are_read_again};
pub use ss_image::ImageFault;
pub use std::alloc::AllocError as Memory;
pub use window::{Window, few_arrivals_are_few_rows};
