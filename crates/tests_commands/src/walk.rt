//! Does what a case says, and compares what is left.
use crate::devices::{depot_of, inputs_of, outputs_of};
use crate::wanted::{Text, texts_of, wanted_under};
use cases::{
    Case, Field, Stop, Walker, bad_words, compare, compare_numbers, is_among, number_of, one_word,
    text_of, unknown, words_of,
};
use ss_command::{Done, Outside, perform};
use ss_outside::{MemDepot, MemInputs, MemOutputs};
use std::alloc::Global;
use std::test::Fail;

type Left = Done<MemInputs, MemOutputs, MemDepot>;

/// The names under which a case that doesn't name them wants nothing.
const NAMES: [&str; 16] = [
    "-", "!", "out.csv", "o.csv", "x.csv", "y.csv", "z.csv", "in.csv", "s.csv", "one.csv",
    "two.csv", "l.csv", "r.csv", "job.toml", "s.txt", "t.txt",
];

/// The walker over commands.
#[derive(Drop)]
pub(crate) enum Commands {}

impl Walker for Commands {
    fn check(alloc: Global, case: &Case) -> Result<Result<(), Stop>, Fail> {
        Ok(check(alloc, case))
    }
}

/// Does each command of a case, each over devices of its own, and compares what it leaves. A case has a command.
fn check(alloc: Global, case: &Case) -> Result<(), Stop> {
    check_words(case)?;
    let texts = texts_of(alloc, case)?;
    let mut commands = 0_u64;
    for field in case.fields.iter() {
        if field.word.as_str() == "words" {
            commands = commands.saturating_add(1);
            let left = left_by(alloc, case, words_of(alloc, field)?.as_slice())?;
            check_left(alloc, case, texts.as_slice(), &left)?;
        }
    }
    compare_numbers(alloc, "cases without a command", 0, (commands == 0) as u64)
}

/// Each field of a case has a word that a case may have, and one has the words of a command.
fn check_words(case: &Case) -> Result<(), Stop> {
    for field in case.fields.iter() {
        match field.word.as_str() {
            "words"
            | "file"
            | "acts"
            | "fail"
            | "damage"
            | "put"
            | "status"
            | "text"
            | "begins"
            | "has"
            | "alike"
            | "released" => (),
            _ => return Err(unknown(field)),
        }
    }
    Ok(())
}

/// What these words leave, over the devices of a case.
fn left_by(alloc: Global, case: &Case, words: &[String]) -> Result<Left, Stop> {
    let inputs = inputs_of(alloc, case)?;
    let outputs = outputs_of(alloc, case)?;
    let depot = depot_of(alloc, case)?;
    let outside = Outside {
        inputs,
        outputs,
        depot,
    };
    Ok(perform(alloc, words, outside))
}

/// Compares all that a case speaks of.
fn check_left(alloc: Global, case: &Case, texts: &[Text], left: &Left) -> Result<(), Stop> {
    compare_numbers(alloc, "status", status_of(alloc, case)?, left.status as u64)?;
    let loose = loose_names(alloc, case)?;
    let outputs = &left.outside.outputs;
    for name in NAMES {
        check_name(alloc, outputs, texts, loose.as_slice(), name)?;
    }
    for text in texts {
        check_name(alloc, outputs, texts, loose.as_slice(), text.name.as_str())?;
    }
    for field in case.fields.iter() {
        check_field(alloc, case, field, left)?;
    }
    Ok(())
}

/// The status that a case wants: 0 where it names none.
fn status_of(alloc: Global, case: &Case) -> Result<u64, Stop> {
    let mut status = 0;
    for field in case.fields.iter() {
        if field.word.as_str() == "status" {
            status = number_of(field, one_word(alloc, field)?.as_str())?;
        }
    }
    Ok(status)
}

/// The names of which a case doesn't say all bytes.
fn loose_names(alloc: Global, case: &Case) -> Result<Vec<String>, Stop> {
    let mut names = Vec::new(alloc);
    for field in case.fields.iter() {
        match field.word.as_str() {
            "begins" | "has" | "alike" => {
                for name in words_of(alloc, field)? {
                    names.push(name)?;
                }
            }
            _ => (),
        }
    }
    Ok(names)
}

/// Compares the bytes of a name, which was not put to where nothing is wanted.
fn check_name(
    alloc: Global,
    outputs: &MemOutputs,
    texts: &[Text],
    loose: &[String],
    name: &str,
) -> Result<(), Stop> {
    match wanted_under(texts, name) {
        Some(wanted) => compare(alloc, name, wanted, outputs.bytes(name)),
        None if is_among(loose, name) || !outputs.was_put_to(name) => Ok(()),
        None => {
            compare(alloc, name, &[], outputs.bytes(name))?;
            let told = format!(in alloc;
                "{name}: wanted: no put\n{name}: came:   a put of nothing"
            )?;
            Err(Stop::Differs(told))
        }
    }
}

/// Compares what a field says beyond whole texts.
fn check_field(alloc: Global, case: &Case, field: &Field, left: &Left) -> Result<(), Stop> {
    match field.word.as_str() {
        "begins" => check_begin(alloc, field, left),
        "has" => check_lines(alloc, field, left),
        "alike" => check_alike(alloc, case, field, left),
        "released" => check_mark(alloc, field, left),
        _ => Ok(()),
    }
}

/// The bytes of a name begin with these lines.
fn check_begin(alloc: Global, field: &Field, left: &Left) -> Result<(), Stop> {
    let name = one_word(alloc, field)?;
    let wanted = text_of(alloc, field)?;
    let came = left.outside.outputs.bytes(name.as_str());
    if came.starts_with(wanted.as_slice()) {
        Ok(())
    } else {
        compare(alloc, name.as_str(), wanted.as_slice(), came)
    }
}

/// Each of these lines is the begin of some line of a name.
fn check_lines(alloc: Global, field: &Field, left: &Left) -> Result<(), Stop> {
    let name = one_word(alloc, field)?;
    let wanted = text_of(alloc, field)?;
    let wanted = String::from_utf8_lossy(alloc, wanted.as_slice())?;
    let came = String::from_utf8_lossy(alloc, left.outside.outputs.bytes(name.as_str()))?;
    for line in wanted.as_str().lines() {
        if !came.as_str().lines().any(|other| other.starts_with(line)) {
            let told = format!(in alloc; "{name}: wanted: {line}\n{name}: came:   no such line")?;
            return Err(Stop::Differs(told));
        }
    }
    Ok(())
}

/// The bytes of these names are those that `plain` leaves of the same files.
fn check_alike(alloc: Global, case: &Case, field: &Field, left: &Left) -> Result<(), Stop> {
    let mut words = Vec::new(alloc);
    for word in ["plain", "job.toml"] {
        words.push(String::from_str(alloc, word)?)?;
    }
    let plain = left_by(alloc, case, words.as_slice())?;
    compare_numbers(alloc, "status of plain", 0, plain.status as u64)?;
    for name in words_of(alloc, field)? {
        let name = name.as_str();
        let wanted = plain.outside.outputs.bytes(name);
        compare(alloc, name, wanted, left.outside.outputs.bytes(name))?;
    }
    Ok(())
}

/// A file is released up to a mark: `released s.csv 64`.
fn check_mark(alloc: Global, field: &Field, left: &Left) -> Result<(), Stop> {
    let words = words_of(alloc, field)?;
    match words.as_slice() {
        [name, mark] => {
            let wanted = number_of(field, mark.as_str())?;
            match left.outside.inputs.mark(name.as_str()) {
                Some(came) => compare_numbers(alloc, "released", wanted, came),
                None => Err(bad_words(field)),
            }
        }
        _ => Err(bad_words(field)),
    }
}
