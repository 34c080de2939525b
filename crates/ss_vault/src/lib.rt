//! The durable side of a running job: the records of its streams, the snapshots of its vertices, what its sinks have
//! put, and a journal of all that was done to them.
//!
//! What a vault tells is `VaultTold` in `specs/`, and what is true of it between any two calls, whatever failed, is
//! `Sound`.
#![tactic(auto)]

mod answers;
mod collecting;
mod counts;
mod examples;
mod facts;
mod fault;
mod flushing;
mod keeping;
mod numbers;
mod passing;
mod readers;
mod reading;
mod snapshots;
mod starting;
mod storing;
mod taking;
mod vault;

pub use answers::{Flush, Keep, Read, Take};
pub use counts::Counts;
pub use examples::answer_examples;
pub use facts::plan_facts;
pub use fault::{Refused, VaultFault};
pub use std::alloc::AllocError as Memory;
pub use vault::Vault;
