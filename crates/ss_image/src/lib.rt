//! The bytes in which a snapshot holds what an operator remembers.
#![tactic(auto)]

mod image_fault;
mod laws;
mod number_laws;
mod numbers;
mod row_form;

pub use image_fault::ImageFault;
pub use laws::images_have_lengths;
pub use number_laws::{numbers_are_read_again, numbers_have_one_spelling};
pub use numbers::{
    bytes_of_i64, bytes_of_i128, bytes_of_key, bytes_of_u32, bytes_of_u64, i64_at, i128_at,
    read_key, u32_at, u64_at,
};
pub use row_form::RowForm;
