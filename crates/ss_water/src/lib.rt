//! The graph of a job: which nodes there are and which reads which; from which snapshot a vertex is recovered, and what
//! is needed of a stream so that each of its readers can be.
#![tactic(auto)]

mod graph;
mod needs;
mod node;
mod snap_row;

pub use graph::Graph;
pub use needs::need;
pub use node::{Kind, Node};
pub use snap_row::{SnapRow, start_of};
pub use std::alloc::AllocError as Memory;
