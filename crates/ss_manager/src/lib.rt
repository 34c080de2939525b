//! What a replica does next, and which triggers a write fires.
#![tactic(auto)]

mod deciding;
mod fired;
mod snapping;

pub use deciding::next_act;
pub use fired::next_fired;
pub use snapping::{is_numbered, is_snap_due, snap_due};
