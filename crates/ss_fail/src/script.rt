ghost use Rattle.std.specs.Prelude.{◌≡◌, ◌<◌, ◌^◌, length, map};
ghost use Rattle.ss_fail.specs.Acts as spec;
ghost use Rattle.ss_fail.specs.Lines.{GivesScript, values_of};
ghost use Rattle.ss_fail.specs.SaidLine.{said};
ghost use Rattle.ss_fail.specs.Scripts.{acts_of, triggers_of};

use crate::act::Act;
use crate::act_reader::act_line;
use crate::failure_reader::trigger_line;
use crate::fault::{ScriptFault, ScriptWhy, ScriptsFault};
use crate::line::Line;
use crate::role::Role;
use crate::said_lines::said_lines;
use crate::trigger::Trigger;
use std::alloc::Global;

/// The acts that the bytes of a schedule say, for a job with these roles; else the first line at which something is
/// wrong, with its first fault.
#[tactic(auto, unfolding(crate::specs::Scripts::acts_of))]
pub fn read_schedule(alloc: Global, bytes: &[u8], roles: &[Role]) -> Result<Vec<Act>, ScriptsFault>
    requires { length roles.now < 2 ^ 32 }
    ensures { GivesScript result (acts_of roles.now bytes.now) }
{
    match said_lines(alloc, bytes) {
        Ok(lines) => read_acts(alloc, &lines, roles),
        Err(_) => Err(ScriptsFault::Memory),
    }
}

/// The triggers that the bytes of a failure file say, for a job with these roles; else the first line at which
/// something is wrong, with its first fault.
#[tactic(auto, unfolding(crate::specs::Scripts::triggers_of))]
pub fn read_failures(
    alloc: Global,
    bytes: &[u8],
    roles: &[Role],
) -> Result<Vec<Trigger>, ScriptsFault>
    requires { length roles.now < 2 ^ 32 }
    ensures { GivesScript result (triggers_of roles.now bytes.now) }
{
    match said_lines(alloc, bytes) {
        Ok(lines) => read_triggers(alloc, &lines, roles),
        Err(_) => Err(ScriptsFault::Memory),
    }
}

fn read_acts(alloc: Global, lines: &[Line<'_>], roles: &[Role]) -> Result<Vec<Act>, ScriptsFault>
    requires { length roles.now < 2 ^ 32 }
    ensures { GivesScript result (values_of (spec.act_line roles.now) (map said lines.now)) }
{
    let mut acts = Vec::new(alloc);
    for line in lines {
        match act_line(&line.words, roles) {
            Ok(act) => match acts.push(act) {
                Ok(()) => (),
                Err(_) => return Err(ScriptsFault::Memory),
            },
            Err(why) => return Err(fault_at(line.number, why)),
        }
    }
    Ok(acts)
}

fn read_triggers(
    alloc: Global,
    lines: &[Line<'_>],
    roles: &[Role],
) -> Result<Vec<Trigger>, ScriptsFault>
    requires { length roles.now < 2 ^ 32 }
    ensures { GivesScript result (values_of (spec.trigger_line roles.now) (map said lines.now)) }
{
    let mut triggers = Vec::new(alloc);
    for line in lines {
        match trigger_line(&line.words, roles) {
            Ok(trigger) => match triggers.push(trigger) {
                Ok(()) => (),
                Err(_) => return Err(ScriptsFault::Memory),
            },
            Err(why) => return Err(fault_at(line.number, why)),
        }
    }
    Ok(triggers)
}

fn fault_at(line: u64, why: ScriptWhy) -> ScriptsFault
    ensures { result ≡ ScriptsFault.At (record { line = line; why = why }) }
{
    ScriptsFault::At(ScriptFault { line, why })
}
