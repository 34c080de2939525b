//! A running job: its tails, the replicas of its vertices and its vault, and every act on them.
#![tactic(auto)]

mod allowed;
mod apart;
mod applying;
mod around;
mod durable;
mod laws;
mod plant;
mod playing;
mod readers;
mod reading;
mod replicas;
mod starting;
mod tails;
mod trace;
mod wiping;

pub use allowed::{is_sink, is_stream, may_apply, vertex_count};
pub use applying::apply;
pub use laws::joint_jobs_have_what_is_needed;
pub use plant::Plant;
pub use playing::{play, play_one};
pub use ss_acts::{
    EngineFault, ReadPart, act_collect, act_crash, act_flush, act_load, act_lose, act_pass,
    act_read, act_read_kept, act_read_source, act_snap, act_take, act_trim, act_write,
};
pub use trace::Trace;
