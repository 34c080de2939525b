//! The serial driver: it brings a running job to its end in rounds, whatever fails in it that a script lists.
//!
//! A round gives each stream a bounded number of acts of its first replica and stores what they made, and then each
//! sink takes what is stored. A round that changes nothing is the last one.
#![tactic(auto)]

mod acting;
mod finishing;
mod state;
mod storing;
mod taking;
mod turns;

pub use finishing::{finish, round};
pub use ss_acts::EngineFault as SerialFault;
