//! The acts of a running job, each over the parts that it touches and no others: an instance, a tail, the vault.
#![tactic(auto)]

mod asking;
mod collecting;
mod facts;
mod fault;
mod flushing;
mod going;
mod kinds;
mod loading;
mod reading;
mod snapping;
mod taking;
mod writing;

pub use collecting::{act_collect, act_pass, act_trim};
pub use facts::act_facts;
pub use fault::{EngineFault, ReadPart};
pub use flushing::act_flush;
pub use going::{act_crash, act_lose};
pub use kinds::{is_operator, stream_read};
pub use loading::act_load;
pub use reading::{act_read, act_read_kept, act_read_source};
pub use snapping::act_snap;
pub use taking::act_take;
pub use writing::act_write;
