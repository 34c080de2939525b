//! Instances of vertices: each takes what arrives one element at a time and gives its outputs with their numbers,
//! makes snapshots of itself, and goes on from one as if it had never stopped.
#![tactic(auto)]

mod fault;
mod frames;
mod inst;
mod known;
mod laws;
mod operating;
mod work;

pub use fault::{ExecFault, LoadFault, SnapFault};
pub use inst::Inst;
pub use laws::{instances_are_numbered, replicas_are_equal, snapshots_fit};
pub use std::alloc::AllocError as Memory;
