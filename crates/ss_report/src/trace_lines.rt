//! The lines of traces.
ghost use Rattle.std.specs.Prelude.{◌≡◌, ◌<◌, ◌++◌, OnOk, OnErr, length};
ghost use Rattle.std.specs.Fmt.{decimal};
ghost use Rattle.ss_report.specs.Joined.{Extends};
ghost use Rattle.ss_report.specs.TraceText.{IsActOf, act_text, name_text, numbered_text, outcome_text, pair_text};
ghost use Rattle.ss_report.specs.TraceText.{trace_text};

use crate::Memory;
use crate::put::put;
use crate::state_lines::name_of;
use itoa::Buffer;
use ss_fail::{Act, Outcome, Role};

/// Appends the line of an act and what came of it, with its newline, or nothing where memory runs out: the act as a
/// schedule writes it, a colon, a space, and the outcome. `roles` are those of the job whose vertices the act numbers.
pub fn trace_line(
    act: &Act,
    outcome: &Outcome,
    roles: &[Role],
    out: &mut Vec<u8>,
) -> Result<(), Memory>
    requires { IsActOf roles.now act.now }
    ensures line { OnOk result (out.new.items ≡ out.old.items ++ trace_text roles.now act.now outcome.now) }
    ensures kept { OnErr result (out.new.items ≡ out.old.items) }
{
    let length = out.len();
    match write_trace(act, outcome, roles, out) {
        Ok(()) => Ok(()),
        Err(memory) => {
            out.truncate(length);
            Err(memory)
        }
    }
}

/// Appends the line, or a part of it where memory runs out.
fn write_trace(
    act: &Act,
    outcome: &Outcome,
    roles: &[Role],
    out: &mut Vec<u8>,
) -> Result<(), Memory>
    requires { IsActOf roles.now act.now }
    ensures line { OnOk result (out.new.items ≡ out.old.items ++ trace_text roles.now act.now outcome.now) }
    ensures part { OnErr result (Extends out.old.items out.new.items) }
{
    put_act(act, roles, out)?;
    put(out, &[b": "])?;
    put_outcome(outcome, out)?;
    put(out, &[b"\n"])
}

/// Appends an act as a schedule writes it, or nothing.
fn put_act(act: &Act, roles: &[Role], out: &mut Vec<u8>) -> Result<(), Memory>
    requires { IsActOf roles.now act.now }
    ensures text { OnOk result (out.new.items ≡ out.old.items ++ act_text roles.now act.now) }
    ensures kept { OnErr result (out.new.items ≡ out.old.items) }
{
    match act {
        Act::Read { v, r } => put_numbered(b"read ", *v, *r, roles, out),
        Act::Write { v, r } => put_numbered(b"write ", *v, *r, roles, out),
        Act::Snap { v, r } => put_numbered(b"snap ", *v, *r, roles, out),
        Act::Crash { v, r } => put_numbered(b"crash ", *v, *r, roles, out),
        Act::Load { v, r } => put_numbered(b"load ", *v, *r, roles, out),
        Act::Lose { v } => put_named(b"lose ", *v, roles, out),
        Act::Flush { v, count } => put_numbered(b"flush ", *v, *count, roles, out),
        Act::Take { k } => put_named(b"take ", *k, roles, out),
        Act::Collect { v } => put_named(b"collect ", *v, roles, out),
        Act::Trim { v } => put_named(b"trim ", *v, roles, out),
        Act::Pass => put(out, &[b"pass"]),
    }
}

/// Appends a word and the name of a vertex, or nothing.
fn put_named(word: &[u8], v: u32, roles: &[Role], out: &mut Vec<u8>) -> Result<(), Memory>
    requires { v < length roles.now }
    ensures text { OnOk result (out.new.items ≡ out.old.items ++ name_text word.now roles.now v) }
    ensures kept { OnErr result (out.new.items ≡ out.old.items) }
{
    put(out, &[word, name_of(roles, v)])
}

/// Appends a word, the name of a vertex and a number, or nothing.
fn put_numbered(
    word: &[u8],
    v: u32,
    number: u32,
    roles: &[Role],
    out: &mut Vec<u8>,
) -> Result<(), Memory>
    requires { v < length roles.now }
    ensures text { OnOk result (out.new.items ≡ out.old.items ++ numbered_text word.now roles.now v number) }
    ensures kept { OnErr result (out.new.items ≡ out.old.items) }
{
    put(
        out,
        &[
            word,
            name_of(roles, v),
            b" ",
            Buffer::new().format(number).as_bytes(),
        ],
    )
}

/// Appends what came of an act, or nothing.
fn put_outcome(outcome: &Outcome, out: &mut Vec<u8>) -> Result<(), Memory>
    ensures text { OnOk result (out.new.items ≡ out.old.items ++ outcome_text outcome.now) }
    ensures kept { OnErr result (out.new.items ≡ out.old.items) }
{
    match outcome {
        Outcome::Down => put(out, &[b"down"]),
        Outcome::Pending { left } => put_number(b"pending ", *left, out),
        Outcome::Ended => put(out, &[b"ended"]),
        Outcome::Got { input, n } => put_pair(b"got ", u64::from(*input), *n, out),
        Outcome::Gone { input, n } => put_pair(b"gone ", u64::from(*input), *n, out),
        Outcome::Wait { input, n } => put_pair(b"wait ", u64::from(*input), *n, out),
        Outcome::Gap { end } => put_number(b"gap ", *end, out),
        Outcome::Idle => put(out, &[b"idle"]),
        Outcome::Stored { n } => put_number(b"stored ", *n, out),
        Outcome::Known { n } => put_number(b"known ", *n, out),
        Outcome::Old { n } => put_number(b"old ", *n, out),
        Outcome::Kept { n } => put_number(b"kept ", *n, out),
        Outcome::Crashed => put(out, &[b"crashed"]),
        Outcome::Up => put(out, &[b"up"]),
        Outcome::Loaded { n } => put_number(b"loaded ", *n, out),
        Outcome::Lost { count } => put_number(b"lost ", *count, out),
        Outcome::Flushed { count } => put_number(b"flushed ", *count, out),
        Outcome::PassDue { since } => put_number(b"pass_due ", *since, out),
        Outcome::Apart { from, dur } => put_pair(b"apart ", *from, *dur, out),
        Outcome::Took { n } => put_number(b"took ", *n, out),
        Outcome::WaitDur { dur } => put_number(b"wait ", *dur, out),
        Outcome::Base { n } => put_number(b"base ", *n, out),
        Outcome::Low { n } => put_number(b"low ", *n, out),
        Outcome::Mark { n } => put_number(b"mark ", *n, out),
        Outcome::Passed => put(out, &[b"passed"]),
    }
}

/// Appends a word and a number, or nothing.
fn put_number(word: &[u8], number: u64, out: &mut Vec<u8>) -> Result<(), Memory>
    ensures text { OnOk result (out.new.items ≡ out.old.items ++ (word.now ++ decimal number)) }
    ensures kept { OnErr result (out.new.items ≡ out.old.items) }
{
    put(out, &[word, Buffer::new().format(number).as_bytes()])
}

/// Appends a word and two numbers, or nothing.
fn put_pair(word: &[u8], first: u64, second: u64, out: &mut Vec<u8>) -> Result<(), Memory>
    ensures text { OnOk result (out.new.items ≡ out.old.items ++ pair_text word.now first second) }
    ensures kept { OnErr result (out.new.items ≡ out.old.items) }
{
    put(
        out,
        &[
            word,
            Buffer::new().format(first).as_bytes(),
            b" ",
            Buffer::new().format(second).as_bytes(),
        ],
    )
}
