ghost use Rattle.std.specs.Prelude.{◌≡◌, ◌≢◌, ◌<◌, ◌≤◌, IsSome, length, map, true};
ghost use Rattle.ss_water.specs.Graph.{is_stream, reads};
ghost use Rattle.ss_water.specs.Needs.{AreStored, AreWanted, IsAtInput, IsLeastIfAny, IsNeed, NodeWants, lesser};
ghost use Rattle.ss_water.specs.Starts.{HasStart, RisesInN};
ghost use Rattle.ss_water.specs.declared.node.Kind.TheVariants as kind;

use crate::graph::Graph;
use crate::node::{Kind, Node};
use crate::snap_row::{SnapRow, start_of};

/// The first element of stream `j` that one of its readers asks for, where each operator goes on from the snapshot from
/// which it is recovered, and each sink behind what it has taken. Below it nothing of the stream is needed.
///
/// Of each node `rows` has its stored snapshots, `dur` how many elements of its stream are stored, and `taken` how many
/// lines it has put.
pub fn need(graph: &Graph, rows: &[Vec<SnapRow>], dur: &[u64], taken: &[u64], j: u32) -> u64
    requires stored { AreStored graph.now
        (record { rows = map (λ snaps. snaps.items) rows.now; dur = dur.now; taken = taken.now }) }
    requires stream { is_stream graph.now j ≡ true }
    ensures { IsNeed graph.now
        (record { rows = map (λ snaps. snaps.items) rows.now; dur = dur.now; taken = taken.now }) j result }
{
    let mut least = None;
    for w in 0..graph.count() {
        let place = w as usize;
        let node = graph.node(w);
        let snaps = rows[place].as_slice();
        let wanted = wanted_by(&node, snaps, dur[place], taken[place], j);
        least = lesser(least, wanted);
    }
    match least {
        Some(n) => n,
        None => unreachable!(),
    }
}

/// The first element of stream `j` that a node asks for, if it reads the stream.
fn wanted_by(node: &Node, snaps: &[SnapRow], dur: u64, taken: u64, j: u32) -> Option<u64>
    requires width { node.now.width ≤ 8 }
    requires source { node.now.kind ≡ kind.Source → node.now.width ≡ 0 }
    requires rise { node.now.kind ≡ kind.Inner → RisesInN snaps.now }
    requires start { node.now.kind ≡ kind.Inner → HasStart snaps.now dur }
    ensures least { IsLeastIfAny (NodeWants node.now snaps.now dur taken j) result }
    ensures some { reads node.now j ≡ true → IsSome result }
{
    if !reads(node, j) || node.kind == Kind::Source {
        return None;
    }
    least_read(node, &wanted(node.kind, snaps, dur, taken), j)
}

/// Whether one of the inputs of a node is stream `j`.
fn reads(node: &Node, j: u32) -> bool
    requires { node.now.width ≤ 8 }
    ensures { result ≡ reads node.now j }
{
    node.inputs[..node.width as usize].iter().any(|u| *u == j)
}

/// What each input of a node asks for, if it has so many.
fn wanted(of: Kind, snaps: &[SnapRow], dur: u64, taken: u64) -> [u64; 8]
    requires reader { of ≢ kind.Source }
    requires rise { of ≡ kind.Inner → RisesInN snaps.now }
    requires start { of ≡ kind.Inner → HasStart snaps.now dur }
    ensures { AreWanted of snaps.now dur taken result }
{
    match of {
        Kind::Source => unreachable!(),
        Kind::Inner => snaps[start_of(snaps, dur)].pos,
        Kind::Sink => [taken; 8],
    }
}

/// The least of these numbers, one of each input, at the inputs that are stream `j`.
fn least_read(node: &Node, positions: &[u64; 8], j: u32) -> Option<u64>
    requires { node.now.width ≤ 8 }
    ensures { IsLeastIfAny (IsAtInput node.now positions.now j node.now.width) result }
{
    let mut least = None;
    for i in 0..node.width as usize {
        if node.inputs[i] == j {
            least = lesser(least, Some(positions[i]));
        }
    }
    least
}

/// The lesser of two numbers that may be missing.
fn lesser(a: Option<u64>, b: Option<u64>) -> Option<u64>
    ensures { result ≡ lesser a b }
{
    match (a, b) {
        (None, b) => b,
        (a, None) => a,
        (Some(a), Some(b)) => Some(a.min(b)),
    }
}
