ghost use Rattle.std.specs.Prelude.{◌≡◌, ◌+◌, ◌<◌, ◌≤◌, ◌^◌, ◌==◌, ◌++◌, [], ◌∷◌, ℕ, length, map, not, IfOk, OnOk};
ghost use Rattle.std.specs.Prelude.{IsTrue, nat_lt, position, unwrap_or, ◌↔◌, true};
ghost use Rattle.std.specs.Prelude.{if◌then◌else◌, replicate};
ghost use Rattle.std.specs.List.{list_all, list_any};
ghost use Rattle.ss_state.specs.Journal.{enter, flushed, is_one_of, kept, took};
ghost use Rattle.ss_state.specs.Acts.{flush_entry};
ghost use Rattle.ss_state.specs.Numbers.{JobNumbers};
ghost use Rattle.ss_state.specs.State.{row_at};
ghost use Rattle.ss_state.specs.declared.entry.Entry.TheVariants as entry;
ghost use Rattle.ss_water.specs.Graph.{is_sink, is_stream};
ghost use Rattle.ss_water.specs.Needs.{IsNeed};
ghost use Rattle.ss_water.specs.Starts.{HasStart, RisesInN};
ghost use Rattle.ss_vault.specs.Numbers.{spare};
ghost use Rattle.ss_vault.specs.NumbersHeld.{first_rows, put_snap, snaps_from_number};

use crate::Memory;
use ss_state::Entry;
use ss_water::{Graph, Kind, SnapRow, need, start_of};
use std::alloc::Global;
use std::marker::Model;

/// The numbers of a vault, each kind of them in a list by vertex, and the journal of all that changed them. What a
/// vertex of its kind doesn't have is 0, or no snapshot.
#[derive(Drop)]
pub(crate) struct Numbers {
    base: Vec<u64>,
    dur: Vec<u64>,
    mark: Vec<u64>,
    taken: Vec<u64>,
    /// Whether it has no lines left to put, as each vertex but a sink has none from the start.
    ended: Vec<bool>,
    /// Its stored snapshots, rising.
    snaps: Vec<Vec<SnapRow>>,
    since: u64,
    journal: Vec<Entry>,
}

impl Model for Numbers {
    ghost use Rattle.ss_vault.specs.NumbersHeld.{NumbersHeld};

    ghost Value = { NumbersHeld };

    ghost use Rattle.ss_vault.specs.Numbers.{AreNumbers, columns, numbers_held};

    ghost view = { λ n. numbers_held
        (columns n.base.items n.dur.items n.mark.items n.taken.items n.ended.items n.snaps.items)
        n.since n.journal };

    ghost invariant = { λ n. AreNumbers
        (columns n.base.items n.dur.items n.mark.items n.taken.items n.ended.items n.snaps.items) n.since };
}

impl Numbers {
    ghost use Rattle.ss_vault.specs.NumbersHeld.{AreFirst, all_stored, ended_held, greatest_within, places_held};
    ghost use Rattle.ss_vault.specs.NumbersHeld.{CanRecover, IsSameBesidesLedger, dropped, lifted, marked, put_snap};
    ghost use Rattle.ss_vault.specs.NumbersHeld.{snaps_from_number, snaps_held, stored_of};

    /// The numbers of a job with these vertices, before anything is stored.
    pub(crate) fn new(alloc: Global, graph: &Graph) -> Result<Numbers, Memory>
        ensures { IfOk result (AreFirst graph.now) }
    {
        let count = graph.count() as usize;
        let base = zeros(alloc, count)?;
        let dur = zeros(alloc, count)?;
        let mark = zeros(alloc, count)?;
        let taken = zeros(alloc, count)?;
        let ended = first_ended(alloc, graph)?;
        let snaps = first_snaps(alloc, graph)?;
        Ok(Numbers {
            base,
            dur,
            mark,
            taken,
            ended,
            snaps,
            since: 0,
            journal: Vec::new(alloc),
        })
    }

    /// The number of the first element that is still stored.
    pub(crate) fn base(&self, v: u32) -> u64
        requires { v < length self.now.numbers.ledger.rows }
        ensures { result ≡ (row_at self.now.numbers.ledger v).base }
    {
        self.base[v as usize]
    }

    /// The number of the first element that isn't stored yet.
    pub(crate) fn dur(&self, v: u32) -> u64
        requires { v < length self.now.numbers.ledger.rows }
        ensures { result ≡ (row_at self.now.numbers.ledger v).dur }
    {
        self.dur[v as usize]
    }

    /// Below which element the list of a source isn't asked any more.
    pub(crate) fn mark(&self, v: u32) -> u64
        requires { v < length self.now.numbers.ledger.rows }
        ensures { result ≡ (row_at self.now.numbers.ledger v).mark }
    {
        self.mark[v as usize]
    }

    /// How many lines a sink has put.
    pub(crate) fn taken(&self, k: u32) -> u64
        requires { k < length self.now.numbers.ledger.rows }
        ensures { result ≡ (row_at self.now.numbers.ledger k).taken }
    {
        self.taken[k as usize]
    }

    /// Whether a vertex has no lines left to put.
    pub(crate) fn ended(&self, k: u32) -> bool
        requires { k < length self.now.numbers.ledger.rows }
        ensures { result ≡ ended_held self.now k }
    {
        self.ended[k as usize]
    }

    /// Whether no vertex has.
    pub(crate) fn all_ended(&self) -> bool
        ensures { IsTrue result ↔ ((k : ℕ) → k < length self.now.numbers.ledger.rows → ended_held self.now k ≡ true) }
    {
        have_ended(self.ended.as_slice())
    }

    /// How many elements were stored since the last whole pass.
    pub(crate) fn since(&self) -> u64
        ensures { result ≡ self.now.numbers.ledger.since }
    {
        self.since
    }

    /// How many entries the journal has.
    pub(crate) fn entries(&self) -> u64
        ensures { result ≡ length self.now.numbers.journal }
    {
        self.journal.len() as u64
    }

    /// The stored snapshots of a vertex, rising.
    pub(crate) fn snaps(&self, v: u32) -> &[SnapRow]
        requires { v < length self.now.numbers.ledger.rows }
        ensures snaps { result.now ≡ snaps_held self.now v }
        ensures numbers { map (λ snap. snap.n) result.now ≡ (row_at self.now.numbers.ledger v).snaps }
    {
        self.snaps[v as usize].as_slice()
    }

    /// Whether snapshot `n` of a vertex is stored.
    pub(crate) fn has_snap(&self, v: u32, n: u64) -> bool
        requires { v < length self.now.numbers.ledger.rows }
        ensures { result ≡ is_one_of n (row_at self.now.numbers.ledger v).snaps }
    {
        is_among(self.snaps(v), n)
    }

    /// The greatest stored snapshot of a vertex that has given at most `limit` elements.
    pub(crate) fn within(&self, v: u32, limit: u64) -> u64
        requires vertex { v < length self.now.numbers.ledger.rows }
        requires rise { RisesInN (snaps_held self.now v) }
        requires start { HasStart (snaps_held self.now v) limit }
        ensures { result ≡ greatest_within (snaps_held self.now v) limit }
    {
        let snaps = self.snaps(v);
        snaps[start_of(snaps, limit)].n
    }

    /// Reserves a place in the journal.
    pub(crate) fn reserve_entry(&mut self) -> Result<(), Memory>
        ensures place { OnOk result (0 < self.new.places) }
        ensures numbers { self.new.numbers ≡ self.old.numbers }
        ensures snaps { self.new.snaps ≡ self.old.snaps }
        ensures ended { self.new.ended ≡ self.old.ended }
    {
        self.journal.reserve(1)
    }

    /// Reserves a place behind the snapshots of a vertex.
    pub(crate) fn reserve_snap(&mut self, v: u32) -> Result<(), Memory>
        requires { v < length self.old.numbers.ledger.rows }
        ensures place { OnOk result (0 < places_held self.new v) }
        ensures numbers { self.new.numbers ≡ self.old.numbers }
        ensures snaps { self.new.snaps ≡ self.old.snaps }
        ensures ended { self.new.ended ≡ self.old.ended }
        ensures places { self.new.places ≡ self.old.places }
    {
        let snaps = &mut self.snaps[v as usize];
        snaps.reserve(1)
    }

    /// Reserves a place in the journal and one behind the snapshots of a vertex.
    pub(crate) fn reserve_keep(&mut self, v: u32) -> Result<(), Memory>
        requires { v < length self.old.numbers.ledger.rows }
        ensures place { OnOk result (0 < self.new.places) }
        ensures snap_place { OnOk result (0 < places_held self.new v) }
        ensures numbers { self.new.numbers ≡ self.old.numbers }
        ensures snaps { self.new.snaps ≡ self.old.snaps }
        ensures ended { self.new.ended ≡ self.old.ended }
    {
        self.reserve_entry()?;
        self.reserve_snap(v)
    }

    /// Tells that `count` more elements of stream `v` are stored.
    fn flushed(&mut self, v: u32, count: u64)
        requires vertex { v < length self.old.numbers.ledger.rows }
        requires place { 0 < self.old.places }
        requires few { all_stored self.old.numbers.ledger + count < 2 ^ 64 }
        ensures ledger { self.new.numbers.ledger ≡ flushed self.old.numbers.ledger v count }
        ensures journal { self.new.numbers.journal ≡ self.old.numbers.journal ++ entry.Flushed v count ∷ [] }
        ensures snaps { self.new.snaps ≡ self.old.snaps }
        ensures ended { self.new.ended ≡ self.old.ended }
    {
        self.dur[v as usize] += count;
        self.since += count;
        self.journal.push_reserved(Entry::Flushed { v, count });
    }

    /// Tells that `count` more elements of stream `v` are stored, if any are.
    pub(crate) fn stored(&mut self, v: u32, count: u64)
        requires vertex { v < length self.old.numbers.ledger.rows }
        requires place { 0 < self.old.places }
        requires few { all_stored self.old.numbers.ledger + count < 2 ^ 64 }
        ensures numbers { (job : JobNumbers) → self.new.numbers ≡ enter job self.old.numbers (flush_entry v count) }
        ensures snaps { self.new.snaps ≡ self.old.snaps }
        ensures ended { self.new.ended ≡ self.old.ended }
    {
        if count == 0 {
            return;
        }
        self.flushed(v, count);
    }

    /// Tells that this snapshot of vertex `v` is stored.
    pub(crate) fn kept(&mut self, v: u32, snap: SnapRow)
        requires vertex { v < length self.old.numbers.ledger.rows }
        requires place { 0 < self.old.places }
        requires snap_place { 0 < places_held self.old v }
        ensures ledger { self.new.numbers.ledger ≡ kept self.old.numbers.ledger v snap.n }
        ensures journal { self.new.numbers.journal ≡ self.old.numbers.journal ++ entry.Kept v snap.n ∷ [] }
        ensures snaps { (w : ℕ) → snaps_held self.new w
            ≡ (if w == v then put_snap snap (snaps_held self.old v) else snaps_held self.old w) }
        ensures ended { self.new.ended ≡ self.old.ended }
    {
        let snaps = &mut self.snaps[v as usize];
        put_in_place(snaps, snap);
        self.journal.push_reserved(Entry::Kept { v, n: snap.n });
    }

    /// Tells that sink `k` has put one line more, and whether it was the last.
    pub(crate) fn took(&mut self, k: u32, ended: bool)
        requires vertex { k < length self.old.numbers.ledger.rows }
        requires place { 0 < self.old.places }
        requires few { (row_at self.old.numbers.ledger k).taken + 1 < 2 ^ 64 }
        ensures ledger { self.new.numbers.ledger ≡ took self.old.numbers.ledger k }
        ensures journal { self.new.numbers.journal ≡ self.old.numbers.journal ++ entry.Took k ∷ [] }
        ensures snaps { self.new.snaps ≡ self.old.snaps }
        ensures ended { (w : ℕ) → ended_held self.new w ≡ (if w == k then ended else ended_held self.old w) }
    {
        self.taken[k as usize] += 1;
        self.ended[k as usize] = ended;
        self.journal.push_reserved(Entry::Took { k });
    }

    /// The first element of stream `v` that one of its readers asks for.
    pub(crate) fn need(&self, graph: &Graph, v: u32) -> u64
        requires count { length graph.now ≡ length self.now.numbers.ledger.rows }
        requires recovered { CanRecover graph.now self.now }
        requires stream { is_stream graph.now v ≡ true }
        ensures { IsNeed graph.now (stored_of self.now) v result }
    {
        need(
            graph,
            self.snaps.as_slice(),
            self.dur.as_slice(),
            self.taken.as_slice(),
            v,
        )
    }

    /// Tells that the elements of stream `v` below number `base` were dropped, with no entry in the journal.
    pub(crate) fn collected(&mut self, v: u32, base: u64)
        requires { v < length self.old.numbers.ledger.rows }
        ensures ledger { self.new.numbers.ledger ≡ lifted self.old.numbers.ledger v base }
        ensures besides { IsSameBesidesLedger self.old self.new }
        ensures snaps { self.new.snaps ≡ self.old.snaps }
    {
        self.base[v as usize] = base;
        self.dur[v as usize] = self.dur[v as usize].max(base);
    }

    /// Tells that the snapshots of vertex `v` below number `low` were dropped, with no entry in the journal.
    pub(crate) fn trimmed(&mut self, v: u32, low: u64)
        requires { v < length self.old.numbers.ledger.rows }
        ensures ledger { self.new.numbers.ledger ≡ dropped self.old.numbers.ledger v low }
        ensures besides { IsSameBesidesLedger self.old self.new }
        ensures snaps { (w : ℕ) → snaps_held self.new w
            ≡ (if w == v then snaps_from_number low (snaps_held self.old v) else snaps_held self.old w) }
    {
        let snaps = &mut self.snaps[v as usize];
        drop_below(snaps, low);
    }

    /// Tells that the list of source `v` is asked for no element any more that is stored, with no entry in the
    /// journal.
    pub(crate) fn marked(&mut self, v: u32)
        requires { v < length self.old.numbers.ledger.rows }
        ensures ledger { self.new.numbers.ledger ≡ marked self.old.numbers.ledger v }
        ensures besides { IsSameBesidesLedger self.old self.new }
        ensures snaps { self.new.snaps ≡ self.old.snaps }
    {
        self.mark[v as usize] = self.dur[v as usize];
    }

    /// Counts anew how many elements are stored, as behind a whole pass, with no entry in the journal.
    pub(crate) fn count_anew(&mut self)
        ensures ledger { self.new.numbers.ledger ≡ record self.old.numbers.ledger { since = 0 } }
        ensures besides { IsSameBesidesLedger self.old self.new }
        ensures snaps { self.new.snaps ≡ self.old.snaps }
    {
        self.since = 0;
    }

    /// Puts an entry of what was told already into the journal.
    pub(crate) fn enter(&mut self, entry: Entry)
        requires { 0 < self.old.places }
        ensures ledger { self.new.numbers.ledger ≡ self.old.numbers.ledger }
        ensures journal { self.new.numbers.journal ≡ self.old.numbers.journal ++ entry ∷ [] }
        ensures snaps { self.new.snaps ≡ self.old.snaps }
        ensures ended { self.new.ended ≡ self.old.ended }
    {
        self.journal.push_reserved(entry);
    }
}

/// So many zeros.
fn zeros(alloc: Global, count: usize) -> Result<Vec<u64>, Memory>
    ensures { IfOk result (λ zeros. zeros.items ≡ replicate count 0) }
{
    vec![in alloc; 0; count]
}

/// Whether a vertex of this kind has no lines to put.
fn has_none(kind: Kind) -> bool
    ensures { result ≡ not (is_sink kind) }
{
    kind != Kind::Sink
}

/// Whether vertices have no lines left to put, before anything is stored.
fn first_ended(alloc: Global, graph: &Graph) -> Result<Vec<bool>, Memory>
    ensures { IfOk result (λ ended. ended.items ≡ map (λ node. not (is_sink node.kind)) graph.now) }
{
    let mut ended = Vec::new(alloc);
    for v in 0..graph.count() {
        ended.push(has_none(graph.node(v).kind))?;
    }
    Ok(ended)
}

/// The stored snapshots of vertices before anything else is stored.
fn first_snaps(alloc: Global, graph: &Graph) -> Result<Vec<Vec<SnapRow>>, Memory>
    ensures { IfOk result (λ snaps. map (λ row. row.items) snaps.items ≡ map (λ node. first_rows node.kind) graph.now) }
{
    let mut snaps = Vec::new(alloc);
    for v in 0..graph.count() {
        let row = first_row(alloc, graph.node(v).kind)?;
        snaps.push(row)?;
    }
    Ok(snaps)
}

/// The stored snapshots of a vertex before anything else is stored.
fn first_row(alloc: Global, kind: Kind) -> Result<Vec<SnapRow>, Memory>
    ensures { IfOk result (λ row. row.items ≡ first_rows kind) }
{
    let mut row = Vec::new(alloc);
    if kind == Kind::Inner {
        row.push(SnapRow {
            n: 0,
            out: 0,
            pos: [0; 8],
        })?;
    }
    Ok(row)
}

/// Drops the snapshots below this number.
fn drop_below(snaps: &mut Vec<SnapRow>, low: u64)
    ensures { snaps.new.items ≡ snaps_from_number low snaps.old.items }
{
    let mut kept = 0;
    for place in 0..snaps.len() {
        let snap = snaps[place];
        if snap.n >= low {
            snaps[kept] = snap;
            kept += 1;
        }
    }
    snaps.truncate(kept);
}

/// Puts a snapshot in its place among rising ones.
fn put_in_place(snaps: &mut Vec<SnapRow>, snap: SnapRow)
    requires { 0 < spare snaps.old }
    ensures { snaps.new.items ≡ put_snap snap snaps.old.items }
{
    let place = place_above(snaps.as_slice(), snap.n);
    let _ = snaps.insert(place, snap);
}

/// The place of the first snapshot above number `n`, or that behind all.
fn place_above(snaps: &[SnapRow], n: u64) -> usize
    ensures place { result ≡ unwrap_or (position (λ snap. nat_lt n snap.n) snaps.now) (length snaps.now) }
    ensures within { result ≤ length snaps.now }
{
    first_above(snaps, n).unwrap_or(snaps.len())
}

/// The place of the first snapshot above number `n`.
fn first_above(snaps: &[SnapRow], n: u64) -> Option<usize>
    ensures { result ≡ position (λ snap. nat_lt n snap.n) snaps.now }
{
    snaps.iter().position(|snap| n < snap.n)
}

/// Whether snapshot `n` is one of these.
fn is_among(snaps: &[SnapRow], n: u64) -> bool
    ensures { result ≡ list_any (λ snap. snap.n == n) snaps.now }
{
    snaps.iter().any(|snap| snap.n == n)
}

/// Whether none of these vertices has lines left to put.
fn have_ended(ended: &[bool]) -> bool
    ensures { result ≡ list_all (λ has_ended. has_ended) ended.now }
{
    ended.iter().all(|has_ended| *has_ended)
}
