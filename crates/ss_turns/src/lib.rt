//! Values in slots, which threads take and give back.
//!
//! A slot has a turn, one atomic word. A pass takes the slot's value by one compare and exchange of the turn and gives
//! it back by one store to it. Every call but `Turns::of` and `Turns::split` does without memory, and none waits.
#![tactic(auto)]

mod closed;
mod law;
mod member;
mod opening;
mod pass;
mod plays;
mod turns;
mod view;

pub use closed::Closed;
pub use member::Member;
pub use pass::Pass;
pub use turns::Turns;
pub use view::{TakeRecord, View};
