//! The merge of several streams, one element at a time: from how far each input has come, which one goes next.
#![tactic(auto)]

mod merger;

pub use merger::Merger;
