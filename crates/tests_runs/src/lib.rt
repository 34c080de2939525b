//! The tests of the durable side, of running jobs and of whole runs, over devices in memory, a module for each. They
//! stand apart from what they test, so that no library is proved twice.
#![tactic(auto)]

#[cfg(test)]
mod batches;
#[cfg(test)]
mod between;
#[cfg(test)]
mod collections;
#[cfg(test)]
mod contents;
#[cfg(test)]
mod drains;
#[cfg(test)]
mod driving;
#[cfg(test)]
mod ends;
#[cfg(test)]
mod engine_faults;
#[cfg(test)]
mod failing;
#[cfg(test)]
mod faults;
#[cfg(test)]
mod serial_long;
#[cfg(test)]
mod starts;
#[cfg(test)]
mod whole_runs;
#[cfg(test)]
mod wipes;
