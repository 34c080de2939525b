//! Temporal joins, one element at a time, and what joins by absence share with them: the rows of a side and their images.
#![tactic(auto)]

mod held;
mod image_laws;
mod image_reader;
mod image_writer;
mod join;
mod matching;
mod pairs;
mod side;

pub use image_laws::{
    image_examples, images_are_read_again, images_have_early_rows, images_have_one_spelling,
    wide_image_examples,
};
pub use image_reader::read_image;
pub use image_writer::put_image;
pub use join::Join;
pub use matching::matches;
pub use pairs::count;
pub use side::Side;
pub use ss_image::ImageFault;
pub use std::alloc::AllocError as Memory;
