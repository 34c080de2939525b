//! The tail of a stream: its newest elements, held in memory, which may be lost before they are stored.
#![tactic(auto)]

mod answers;
mod page;
mod page_list;
mod pages;
mod tail;

pub use answers::{Batch, Shown, Wrote};
pub use std::alloc::AllocError as Memory;
pub use tail::Tail;
