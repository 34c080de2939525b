//! Operators that take one element at a time and give exactly what it adds to their output.
#![tactic(auto)]

mod given;
mod kept;
mod laws;
mod oper;

pub use laws::images_are_read_again;
pub use oper::Oper;
pub use std::alloc::AllocError as Memory;
