//! The tests of windows, joins and operators that no line of text can say. A crate with tests is proved twice, with
//! them and without, so they stand apart from what they test.
#![tactic(auto)]

#[cfg(test)]
mod harness;
#[cfg(test)]
mod join_memory;
#[cfg(test)]
mod panes;
#[cfg(test)]
mod window_memory;
