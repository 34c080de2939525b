//! How many cases of a file pass, and what came of the others.
use crate::case::Case;
use crate::fault::CasesFault;
use crate::reader::read_cases;
use crate::stop::Stop;
use std::alloc::Global;
use std::test::Fail;
use std::{env, fs};

/// What walks over cases.
pub trait Walker {
    /// Does what a case says, and tells why it doesn't pass. A fault of the walker itself ends the whole walk.
    fn check(alloc: Global, case: &Case) -> Result<Result<(), Stop>, Fail>;
}

/// Tells of the files that the program's words name, which lie where it runs.
pub fn tell_files<W: Walker>(rt: &HostRuntime) -> Result<(), Fail> {
    for name in env::args(rt)?.skip(1) {
        let text = fs::read_to_string(rt, name.as_str())?;
        let told = tell_file::<W>(rt.alloc(), name.as_str(), text.as_str())?;
        print!(rt; "{told}")?;
    }
    Ok(())
}

/// Tells of a file: what came of each case that doesn't pass, and how many pass.
pub fn tell_file<W: Walker>(alloc: Global, name: &str, text: &str) -> Result<String, Fail> {
    let cases = read_cases(alloc, text)?;
    let mut told = String::new(alloc);
    let mut passed = 0_u64;
    for case in cases.iter() {
        match W::check(alloc, case)? {
            Ok(()) => passed = passed.saturating_add(1),
            Err(stop) => tell_stop(alloc, name, case, stop, &mut told)?,
        }
    }
    let count = cases.len();
    let line = format!(in alloc; "{name}: {passed} of {count} pass\n")?;
    told.push_str(line.as_str())?;
    Ok(told)
}

/// Tells of a case that doesn't pass.
fn tell_stop(
    alloc: Global,
    name: &str,
    case: &Case,
    stop: Stop,
    told: &mut String,
) -> Result<(), Fail> {
    let head = format!(in alloc; "{name}: {}\n", case.name)?;
    told.push_str(head.as_str())?;
    match stop {
        Stop::Differs(difference) => {
            for line in difference.as_str().lines() {
                told.push_str("    ")?;
                told.push_str(line)?;
                told.push_str("\n")?;
            }
            Ok(())
        }
        Stop::Malformed(CasesFault::At { line, why }) => {
            let line = format!(in alloc; "    line {line}: {why:?}\n")?;
            told.push_str(line.as_str())?;
            Ok(())
        }
        Stop::Malformed(CasesFault::Memory) | Stop::Memory => Err(Fail::new("memory ran out")),
    }
}
