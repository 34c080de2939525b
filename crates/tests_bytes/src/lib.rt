//! The tests of what is stored as bytes: records, frames, the images of windows and joins; and of tails, a module for
//! each. A crate with tests is proved twice, with them and without, so they stand apart from what they test.
#![tactic(auto)]

#[cfg(test)]
mod changed;
#[cfg(test)]
mod frames;
#[cfg(test)]
mod joins;
#[cfg(test)]
mod records;
#[cfg(test)]
mod tails;
#[cfg(test)]
mod windows;
