//! Runs the cases of the parts of a job: elements, expressions, codecs, images, windows, joins and operators. Each file of
//! cases says at its head which words its cases have.
#![tactic(auto)]

mod bytes;
mod elements;
mod expressions;
mod images;
mod joins;
mod lines;
mod machine;
mod merged;
mod operators;
mod parts;
mod sessions;
mod spec;
mod told;
mod windows;

use crate::parts::JobParts;
use cases::tell_files;
use std::test::Fail;

/// Walks over the files that its words name, which lie where it runs.
fn main(rt: HostRuntime) -> Result<(), Fail> {
    tell_files::<JobParts>(&rt)
}
