//! Work to be timed by hand: digests, records, a tail, and a depot. Each part folds what it made into one number and
//! prints it.
#![tactic(auto)]

mod depot;
mod parts;

use crate::depot::{depot_append, depot_cut, depot_fetch};
use crate::parts::{digests, records, tail};
use ss_outside::{FileOutputs, Outputs, PutFault};
use std::alloc::Global;
use std::process::ExitCode;
use std::{env, io};

const USAGE: &[u8] = b"usage: ss_bench PART COUNT\n";

const PARTS: &[u8] = b"digests records tail depot_append depot_fetch depot_cut\n";

/// The words after the program's name.
fn words_of(rt: &HostRuntime) -> io::Result<Vec<String>> {
    let mut words = Vec::new(rt.alloc());
    for word in env::args(rt)?.skip(1) {
        words.push(word)?;
    }
    Ok(words)
}

/// The number that a part makes of so much work.
fn made_by(alloc: Global, words: &[String]) -> Option<u64> {
    match words {
        [part, count] => {
            let count = count.as_str().parse::<u32>().ok()?;
            match part.as_str() {
                "digests" => Some(digests(count)),
                "records" => records(alloc, count),
                "tail" => tail(alloc, count),
                "depot_append" => depot_append(alloc, count),
                "depot_fetch" => depot_fetch(alloc, count),
                "depot_cut" => depot_cut(alloc, count),
                _ => None,
            }
        }
        [] | [_] | [_, _, _, ..] => None,
    }
}

/// Puts the number, or the usage and the list of parts.
fn tell(alloc: Global, made: Option<u64>, outputs: &mut impl Outputs) -> Result<u8, PutFault> {
    match made {
        Some(made) => {
            let Ok(line) = format!(in alloc; "{made}\n") else {
                return Err(PutFault::Memory);
            };
            outputs.put("-", line.as_bytes())?;
            Ok(0)
        }
        None => {
            outputs.put("!", USAGE)?;
            outputs.put("-", PARTS)?;
            Ok(2)
        }
    }
}

fn main(rt: HostRuntime) -> ExitCode {
    let mut outputs = FileOutputs::new(&rt);
    let made = match words_of(&rt) {
        Ok(words) => made_by(rt.alloc(), words.as_slice()),
        Err(_) => None,
    };
    let status = tell(rt.alloc(), made, &mut outputs).unwrap_or(7);
    ExitCode::from(status)
}
