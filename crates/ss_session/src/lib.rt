//! Session windows and joins by absence, one element at a time.
#![tactic(auto)]

mod absence;
mod except;
mod session;
mod session_closing;
mod session_entry;
mod session_image_laws;
mod session_image_reader;
mod session_image_writer;
mod session_puts;

pub use except::Except;
pub use session::{Session, few_arrivals_are_few_rows};
pub use session_image_laws::{images_are_read_again, session_image_examples};
pub use ss_image::ImageFault;
pub use std::alloc::AllocError as Memory;
