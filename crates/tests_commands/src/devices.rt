//! The devices that a case asks for: files to be read, outputs and a store, each with the calls that are to fail.
ghost use Rattle.std.specs.Prelude.{◌≡◌, IfOk, true};
ghost use Rattle.ss_outside.specs.Depot.{no_contents};
ghost use Rattle.ss_outside.specs.DepotCalls.{gives_bytes};
ghost use Rattle.ss_outside.specs.MemDepot.{mem_depot_told};
ghost use Rattle.ss_outside.specs.MemOutputs.{mem_outputs_told};
ghost use Rattle.ss_vault.specs.Calls.{HaveNoBytes};

use crate::wanted::put_schedule;
use cases::{Case, Field, Stop, bad_words, number_of, one_word, text_of, words_of};
use ss_outside::{DepotCall, MemDepot, MemInputs, MemOutputs};
use std::alloc::Global;

/// The name under which the acts of a case are found.
const SCHEDULE: &str = "s.txt";

/// The files of a case.
pub(crate) fn inputs_of(alloc: Global, case: &Case) -> Result<MemInputs, Stop> {
    let mut inputs = MemInputs::new(alloc);
    for field in case.fields.iter() {
        match field.word.as_str() {
            "file" => {
                let name = one_word(alloc, field)?;
                let bytes = text_of(alloc, field)?;
                inputs.add(name.as_str(), bytes.as_slice())?;
            }
            "acts" => {
                let mut schedule = Vec::new(alloc);
                put_schedule(alloc, field, &mut schedule)?;
                inputs.add(SCHEDULE, schedule.as_slice())?;
            }
            "fail" => list_read(alloc, field, &mut inputs)?,
            _ => (),
        }
    }
    Ok(inputs)
}

/// Lists a read that is to fail, if the field says one.
fn list_read(alloc: Global, field: &Field, inputs: &mut MemInputs) -> Result<(), Stop> {
    let words = words_of(alloc, field)?;
    match words.as_slice() {
        [kind, number] if kind.as_str() == "read" => {
            inputs.fail(number_of(field, number.as_str())?)?;
            Ok(())
        }
        _ => Ok(()),
    }
}

/// The outputs of a case, to which nothing was put.
pub(crate) fn outputs_of(alloc: Global, case: &Case) -> Result<MemOutputs, Stop>
    ensures { IfOk result (λ outputs. HaveNoBytes (mem_outputs_told outputs)) }
{
    let mut outputs = MemOutputs::new(alloc);
    for field in case.fields.iter() {
        list_put(alloc, field, &mut outputs)?;
    }
    Ok(outputs)
}

/// Lists a put that is to fail, if the field says one.
fn list_put(alloc: Global, field: &Field, outputs: &mut MemOutputs) -> Result<(), Stop>
    ensures told { mem_outputs_told outputs.new ≡ mem_outputs_told outputs.old }
{
    if field.word.as_str() == "put" {
        let (number, kept) = put_of(alloc, field)?;
        outputs.fail(number, kept)?;
    }
    Ok(())
}

/// The number of a put that is to fail, and how many bytes it keeps: `put 4 keeps 2`.
fn put_of(alloc: Global, field: &Field) -> Result<(u64, u64), Stop> {
    let words = words_of(alloc, field)?;
    match words.as_slice() {
        [number, keeps, kept] if keeps.as_str() == "keeps" => Ok((
            number_of(field, number.as_str())?,
            number_of(field, kept.as_str())?,
        )),
        _ => Err(bad_words(field)),
    }
}

/// What is listed of a store.
#[derive(Clone, Copy)]
enum Listed {
    Fails(DepotCall, u64),
    ShortFetch(u64),
    ShortLoad(u64),
}

/// The store of a case, which holds nothing.
pub(crate) fn depot_of(alloc: Global, case: &Case) -> Result<MemDepot, Stop>
    ensures { IfOk result (λ depot. (mem_depot_told depot).contents ≡ no_contents) }
{
    let mut depot = MemDepot::new(alloc);
    for field in case.fields.iter() {
        list_call(alloc, field, &mut depot)?;
    }
    Ok(depot)
}

/// Lists a call of a store, if the field says one.
fn list_call(alloc: Global, field: &Field, depot: &mut MemDepot) -> Result<(), Stop>
    ensures told { mem_depot_told depot.new ≡ mem_depot_told depot.old }
{
    match listed_by(alloc, field)? {
        Some(Listed::Fails(which, number)) => depot.fail(which, number)?,
        Some(Listed::ShortFetch(number)) => depot.damage(DepotCall::Fetch, number)?,
        Some(Listed::ShortLoad(number)) => depot.damage(DepotCall::Load, number)?,
        None => (),
    }
    Ok(())
}

/// What a field lists of a store: `fail append 3`, `damage load 1`. A read of a file is none of it.
fn listed_by(alloc: Global, field: &Field) -> Result<Option<Listed>, Stop> {
    match field.word.as_str() {
        "fail" => failure_of(alloc, field),
        "damage" => damage_of(alloc, field),
        _ => Ok(None),
    }
}

/// The call that a field `fail` says.
fn failure_of(alloc: Global, field: &Field) -> Result<Option<Listed>, Stop> {
    let (kind, number) = call_of(alloc, field)?;
    let which = match kind.as_str() {
        "append" => DepotCall::Append,
        "fetch" => DepotCall::Fetch,
        "cut" => DepotCall::Cut,
        "keep" => DepotCall::Keep,
        "load" => DepotCall::Load,
        "drop" => DepotCall::DropBelow,
        "read" => return Ok(None),
        _ => return Err(bad_words(field)),
    };
    Ok(Some(Listed::Fails(which, number)))
}

/// The call that a field `damage` says.
fn damage_of(alloc: Global, field: &Field) -> Result<Option<Listed>, Stop> {
    let (kind, number) = call_of(alloc, field)?;
    match kind.as_str() {
        "fetch" => Ok(Some(Listed::ShortFetch(number))),
        "load" => Ok(Some(Listed::ShortLoad(number))),
        _ => Err(bad_words(field)),
    }
}

/// The kind of a call, and its number among the calls of that kind.
fn call_of(alloc: Global, field: &Field) -> Result<(String, u64), Stop> {
    let mut words = words_of(alloc, field)?;
    match (words.pop(), words.pop(), words.is_empty()) {
        (Some(number), Some(kind), true) => Ok((kind, number_of(field, number.as_str())?)),
        (_, _, _) => Err(bad_words(field)),
    }
}
