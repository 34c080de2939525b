ghost use Rattle.std.specs.Prelude.{◌≡◌, ◌<◌, ◌≤◌, ◌^◌, [], ◌∷◌, length, map, option_map, position, IfOk, IfSome};
ghost use Rattle.ss_fail.specs.Acts as spec;
ghost use Rattle.ss_water.specs.Graph.{is_sink};

use crate::act::Act;
use crate::decimal::number_below;
use crate::fault::ScriptWhy;
use crate::role::Role;
use crate::word::{ActWord, ReplicaWord, StreamWord, act_word};
use ss_water::Kind;

/// The act of a schedule's line with these words.
pub(crate) fn act_line(words: &[&[u8]], roles: &[Role]) -> Result<Act, ScriptWhy>
    requires { length roles.now < 2 ^ 32 }
    ensures { result ≡ spec.act_line roles.now (map (λ word. word.now) words.now) }
{
    match words {
        [] => Err(ScriptWhy::BadWord),
        [first, others @ ..] => {
            let word = act_word(first).ok_or(ScriptWhy::BadWord)?;
            act_of(word, others, roles)
        }
    }
}

/// The act of a word with what stands behind it.
pub(crate) fn act_of(word: ActWord, others: &[&[u8]], roles: &[Role]) -> Result<Act, ScriptWhy>
    requires { length roles.now < 2 ^ 32 }
    ensures { result ≡ spec.act_of word roles.now (map (λ word. word.now) others.now) }
{
    match word {
        ActWord::OfReplica(word) => {
            let (name, number) = word_pair(others).ok_or(ScriptWhy::BadCount)?;
            replica_act(word, name, number, roles)
        }
        ActWord::OfStream(word) => {
            let name = only_word(others).ok_or(ScriptWhy::BadCount)?;
            Ok(stream_act(word, vertex_of(false, roles, name)?))
        }
        ActWord::Flush => {
            let (name, number) = word_pair(others).ok_or(ScriptWhy::BadCount)?;
            flush_act(name, number, roles)
        }
        ActWord::Take => {
            let name = only_word(others).ok_or(ScriptWhy::BadCount)?;
            let k = vertex_of(true, roles, name)?;
            Ok(Act::Take { k })
        }
        ActWord::Pass => match others {
            [] => Ok(Act::Pass),
            [_, ..] => Err(ScriptWhy::BadCount),
        },
    }
}

/// The word, where it is the only one.
fn only_word<'a>(words: &[&'a [u8]]) -> Option<&'a [u8]>
    ensures { option_map (λ word. word.now) result ≡ spec.only_word (map (λ word. word.now) words.now) }
{
    match words {
        [word] => Some(word),
        [] | [_, _, ..] => None,
    }
}

/// The two words, where there are just two.
fn word_pair<'a>(words: &[&'a [u8]]) -> Option<(&'a [u8], &'a [u8])>
    ensures { option_map (λ pair. (pair.0.now, pair.1.now)) result ≡ spec.word_pair (map (λ word. word.now) words.now) }
{
    match words {
        [first, second] => Some((first, second)),
        [] | [_] | [_, _, _, ..] => None,
    }
}

fn replica_act(
    word: ReplicaWord,
    name: &[u8],
    number: &[u8],
    roles: &[Role],
) -> Result<Act, ScriptWhy>
    requires { length roles.now < 2 ^ 32 }
    ensures { result ≡ spec.act_of (ActWord.OfReplica word) roles.now (name.now ∷ number.now ∷ []) }
{
    let v = vertex_of(false, roles, name)?;
    let r = replica_of(roles, v, number)?;
    Ok(match word {
        ReplicaWord::Read => Act::Read { v, r },
        ReplicaWord::Write => Act::Write { v, r },
        ReplicaWord::Snap => Act::Snap { v, r },
        ReplicaWord::Crash => Act::Crash { v, r },
        ReplicaWord::Load => Act::Load { v, r },
    })
}

fn stream_act(word: StreamWord, v: u32) -> Act
    ensures { result ≡ spec.stream_act word v }
{
    match word {
        StreamWord::Lose => Act::Lose { v },
        StreamWord::Collect => Act::Collect { v },
        StreamWord::Trim => Act::Trim { v },
    }
}

fn flush_act(name: &[u8], number: &[u8], roles: &[Role]) -> Result<Act, ScriptWhy>
    requires { length roles.now < 2 ^ 32 }
    ensures { result ≡ spec.act_of ActWord.Flush roles.now (name.now ∷ number.now ∷ []) }
{
    let v = vertex_of(false, roles, name)?;
    let count = count_to(64, number)? as u32;
    Ok(Act::Flush { v, count })
}

/// The vertex with this name, among the sinks or among the others.
pub(crate) fn vertex_of(sink: bool, roles: &[Role], name: &[u8]) -> Result<u32, ScriptWhy>
    requires { length roles.now < 2 ^ 32 }
    ensures vertex { result ≡ spec.vertex_of sink roles.now name.now }
    ensures within { IfOk result (λ v. v < length roles.now) }
{
    match find_vertex(sink, roles, name) {
        Some(v) => Ok(v as u32),
        None => Err(ScriptWhy::UnknownName),
    }
}

fn find_vertex(sink: bool, roles: &[Role], name: &[u8]) -> Option<usize>
    ensures vertex { result ≡ position (spec.is_wanted sink name.now) roles.now }
    ensures within { IfSome result (λ v. v < length roles.now) }
{
    roles.iter().position(|role| is_wanted(sink, name, role))
}

fn is_wanted(sink: bool, name: &[u8], role: &Role) -> bool
    ensures { result ≡ spec.is_wanted sink name.now role.now }
{
    role.name.as_slice() == name && suits(sink, role.kind)
}

/// Whether the kind is the wanted one.
fn suits(sink: bool, kind: Kind) -> bool
    ensures { result ≡ spec.suits sink kind }
{
    if sink { is_sink(kind) } else { !is_sink(kind) }
}

fn is_sink(kind: Kind) -> bool
    ensures { result ≡ is_sink kind }
{
    matches!(kind, Kind::Sink)
}

/// The replica of vertex `v` with this number.
fn replica_of(roles: &[Role], v: u32, number: &[u8]) -> Result<u32, ScriptWhy>
    requires { v < length roles.now }
    ensures { result ≡ spec.replica_of roles.now v number.now }
{
    let Some(r) = number_below(1 << 32, number) else {
        return Err(ScriptWhy::BadNumber);
    };
    if r < u64::from(roles[v as usize].replicas) {
        Ok(r as u32)
    } else {
        Err(ScriptWhy::NoReplica)
    }
}

/// A number from 1 to `most`.
pub(crate) fn count_to(most: u64, number: &[u8]) -> Result<u64, ScriptWhy>
    ensures count { result ≡ spec.count_to most number.now }
    ensures most { IfOk result (λ count. count ≤ most) }
{
    let Some(count) = number_below(1 << 64, number) else {
        return Err(ScriptWhy::BadNumber);
    };
    if 1 <= count && count <= most {
        Ok(count)
    } else {
        Err(ScriptWhy::BadNumber)
    }
}
