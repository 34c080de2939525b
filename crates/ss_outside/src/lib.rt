//! What the engine knows of the world outside: inputs, outputs and a depot, in memory and over real
//! files, and the gate that workers pass.
#![tactic(auto)]

mod depot;
mod depot_calls;
mod file_inputs;
mod file_outputs;
mod gate;
mod inputs;
mod meet;
mod meeting;
mod mem_depot;
mod mem_inputs;
mod mem_outputs;
mod open;
mod outputs;
mod records;

pub use depot::{Depot, DepotFault, Failed};
pub use depot_calls::DepotCall;
pub use file_inputs::FileInputs;
pub use file_outputs::FileOutputs;
pub use gate::{Gate, Place};
pub use inputs::{InputFault, Inputs};
pub use meet::Meet;
pub use mem_depot::MemDepot;
pub use mem_inputs::MemInputs;
pub use mem_outputs::MemOutputs;
pub use open::Open;
pub use outputs::{Outputs, PutFault};
pub use std::alloc::AllocError as Memory;
