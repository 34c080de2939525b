//! The bytes in which elements and snapshots are stored. Each value has one spelling, and bytes that are none are
//! refused with the first thing that is wrong with them.
#![tactic(auto)]

mod fault;
mod frame;
mod frame_reader;
mod frame_writer;
mod laws;
mod numbers;
mod put;
mod record;
mod record_reader;

pub use fault::{CodecFault, FrameFault};
pub use frame::{Frame, Image};
pub use frame_reader::get_frame;
pub use frame_writer::put_frame;
pub use laws::{
    frames_are_read_again, frames_have_lengths, no_frame_begins_another, no_record_begins_another,
    old_records_are_read, records_are_read_again,
};
pub use record::put_element;
pub use record_reader::get_element;
pub use std::alloc::AllocError as Memory;
