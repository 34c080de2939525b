ghost use Rattle.std.specs.Prelude.{◌≡◌, ◌+◌, ◌^◌, ◌<◌, ◌≤◌, ◌++◌, length, take, drop, All};
ghost use Rattle.std.specs.Prelude.{vec_len, vec_capacity};
ghost use Rattle.std.specs.List.{prefix_len};
ghost use Rattle.ss_meaning.specs.SessionLists.{AreApart, is_apart, joined_first, put_session};
ghost use Rattle.ss_session.specs.SessionHeld.{join_of, extended};

use crate::session_entry::Entry;
use ss_expr::Agg;
use ss_meaning::sessions_are_apart;

/// How many sessions in front stand before this one.
fn place(entries: &[Entry], session: &Entry, gap: u64) -> usize
    requires gap { gap ≤ 2 ^ 40 }
    requires apart { AreApart gap entries.now }
    requires times { All (λ e. e.first ≤ e.last) entries.now }
    ensures place { result ≡ prefix_len (λ e. is_apart gap e session.now) entries.now }
    ensures within { result ≤ length entries.now }
{
    entries.partition_point(|entry| entry.is_apart(session, gap))
}

/// The session as one with the one at a place, which is taken out, where they are not apart.
fn absorb(entries: &mut Vec<Entry>, at: usize, session: &Entry, gap: u64, agg: Agg) -> Entry
    requires gap { gap ≤ 2 ^ 40 }
    requires within { at ≤ length entries.old.items }
    requires few { All (λ e. e.rows < 2 ^ 62) entries.old.items }
    requires rows { session.now.rows ≤ 2 ^ 62 }
    ensures session { result ≡ (joined_first gap (join_of agg) session.now (drop at entries.old.items)).0 }
    ensures items { entries.new.items ≡ take at entries.old.items ++ (joined_first gap (join_of agg) session.now (drop at entries.old.items)).1 }
    ensures len { vec_len entries.new ≤ vec_len entries.old }
    ensures capacity { vec_capacity entries.new ≡ vec_capacity entries.old }
    ensures rows { result.rows < session.now.rows + 2 ^ 62 }
    ensures few_left { All (λ e. e.rows < 2 ^ 62) entries.new.items }
{
    if at < entries.len() && !session.is_apart(&entries[at], gap) {
        entries.remove(at).joined(session, agg)
    } else {
        *session
    }
}

/// Joins the session to the one at a place, and then to the next one, where they are not apart.
fn extend(entries: &mut Vec<Entry>, at: usize, session: &Entry, gap: u64, agg: Agg)
    requires gap { gap ≤ 2 ^ 40 }
    requires inside { at < length entries.old.items }
    requires one { session.now.rows ≡ 1 }
    requires few { All (λ e. e.rows < 2 ^ 62) entries.old.items }
    ensures { entries.new.items ≡ extended gap (join_of agg) session.now at entries.old.items }
{
    let joined = entries[at].joined(session, agg);
    let with_second = absorb(entries, at + 1, &joined, gap, agg);
    entries[at] = with_second;
}

/// Puts the session of one row in its place, as one with those from which it isn't apart, of which there are at most
/// two.
pub(crate) fn put(entries: &mut Vec<Entry>, session: &Entry, gap: u64, agg: Agg)
    requires least { 1 ≤ gap }
    requires most { gap ≤ 2 ^ 40 }
    requires single { session.now.first ≡ session.now.last }
    requires one { session.now.rows ≡ 1 }
    requires room { vec_len entries.old < vec_capacity entries.old }
    requires few { All (λ e. e.rows < 2 ^ 62) entries.old.items }
    requires apart { AreApart gap entries.old.items }
    requires times { All (λ e. e.first ≤ e.last) entries.old.items }
    ensures { entries.new.items ≡ put_session gap (join_of agg) session.now entries.old.items }
{
    sessions_are_apart();
    let at = place(entries.as_slice(), session, gap);
    if at == entries.len() || session.is_apart(&entries[at], gap) {
        entries.insert(at, *session).unwrap();
    } else {
        extend(entries, at, session, gap, agg);
    }
}
