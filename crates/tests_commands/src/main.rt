//! The tests of commands: walks over the worked rows and over files of cases, and tells how many of each pass.
#![tactic(auto)]

mod devices;
mod rows;
#[cfg(test)]
mod tests;
mod walk;
mod wanted;

use crate::rows::ROWS;
use crate::walk::Commands;
use cases::{tell_file, tell_files};
use std::test::Fail;

/// Walks over the worked rows, and over the files that its words name, which lie where it runs.
fn main(rt: HostRuntime) -> Result<(), Fail> {
    let told = tell_file::<Commands>(rt.alloc(), "rows", ROWS)?;
    print!(rt; "{told}")?;
    tell_files::<Commands>(&rt)
}
