ghost use Rattle.std.specs.Prelude.{◌≡◌, ◌<◌, ◌^◌, length, map};
ghost use Rattle.ss_fail.specs.Acts as spec;

use crate::act_reader::{act_of, count_to, vertex_of};
use crate::fault::ScriptWhy;
use crate::role::Role;
use crate::trigger::Trigger;
use crate::word::{ActWord, ReplicaWord, StreamWord};

const MOST_COUNT: u64 = (1 << 63) - 1;

/// The trigger of a failure file's line with these words.
pub(crate) fn trigger_line(words: &[&[u8]], roles: &[Role]) -> Result<Trigger, ScriptWhy>
    requires { length roles.now < 2 ^ 32 }
    ensures { result ≡ spec.trigger_line roles.now (map (λ word. word.now) words.now) }
{
    match words {
        [] => Err(ScriptWhy::BadWord),
        [first, others @ ..] => {
            if *first == b"when".as_slice() {
                trigger_of(others, roles)
            } else {
                Err(ScriptWhy::BadWord)
            }
        }
    }
}

/// The trigger of what stands behind the word `when`.
fn trigger_of(words: &[&[u8]], roles: &[Role]) -> Result<Trigger, ScriptWhy>
    requires { length roles.now < 2 ^ 32 }
    ensures { result ≡ spec.trigger_of roles.now (map (λ word. word.now) words.now) }
{
    match words {
        [name, number, act, others @ ..] => {
            let word = failure_word(act)?;
            trigger_with(word, name, number, others, roles)
        }
        [] | [_] | [_, _] => Err(ScriptWhy::BadCount),
    }
}

/// The word of an act that may follow a write.
fn failure_word(word: &[u8]) -> Result<ActWord, ScriptWhy>
    ensures { result ≡ spec.failure_word word.now }
{
    if word == b"crash".as_slice() {
        Ok(ActWord::OfReplica(ReplicaWord::Crash))
    } else if word == b"lose".as_slice() {
        Ok(ActWord::OfStream(StreamWord::Lose))
    } else {
        Err(ScriptWhy::BadWord)
    }
}

/// The trigger with these words around that of its act.
fn trigger_with(
    word: ActWord,
    name: &[u8],
    number: &[u8],
    others: &[&[u8]],
    roles: &[Role],
) -> Result<Trigger, ScriptWhy>
    requires { length roles.now < 2 ^ 32 }
    ensures { result ≡ spec.trigger_with roles.now word name.now number.now (map (λ word. word.now) others.now) }
{
    if !fits(word, others) {
        return Err(ScriptWhy::BadCount);
    }
    let v = vertex_of(false, roles, name)?;
    let count = count_to(MOST_COUNT, number)?;
    let act = act_of(word, others, roles)?;
    Ok(Trigger { v, count, act })
}

/// Whether so many words may stand behind the word of an act.
fn fits(word: ActWord, others: &[&[u8]]) -> bool
    ensures { result ≡ spec.fits word (map (λ word. word.now) others.now) }
{
    match word {
        ActWord::OfReplica(_) => others.len() == 2,
        ActWord::OfStream(_) | ActWord::Flush | ActWord::Take | ActWord::Pass => others.len() == 1,
    }
}
