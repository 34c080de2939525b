//! The tests of what is outside of a program: files, inputs and outputs in memory, depots; of gates that
//! workers pass; and of slots that threads share.
#![tactic(auto)]

#[cfg(test)]
mod depot;
#[cfg(test)]
mod files;
#[cfg(test)]
mod gates;
#[cfg(test)]
mod outside;
#[cfg(test)]
mod turns;
