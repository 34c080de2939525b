ghost use Rattle.std.specs.Prelude.{◌≡◌, ◌<◌, length};
ghost use Rattle.ss_water.specs.Starts.{out_at};

use ss_water::{Graph, Kind, Node, SnapRow, start_of};
use std::test::Fail;

#[test]
fn keeps_three_nodes(rt: HostRuntime) -> Result<(), Fail> {
    let source = Node {
        kind: Kind::Source,
        inputs: [0; 8],
        width: 0,
    };
    let union = Node {
        kind: Kind::Inner,
        inputs: [0; 8],
        width: 2,
    };
    let sink = Node {
        kind: Kind::Sink,
        inputs: [1, 0, 0, 0, 0, 0, 0, 0],
        width: 1,
    };
    let graph = Graph::new(rt.alloc(), &[source, union, sink])?;
    assert_eq!(rt; graph.count(), 3);
    assert_eq!(rt; graph.node(0), source);
    assert_eq!(rt; graph.node(1), union);
    assert_eq!(rt; graph.node(2), sink);
    Ok(())
}

/// A snapshot after `n` accepted elements, which has given `out`.
fn snap(n: u64, out: u64) -> SnapRow {
    SnapRow {
        n,
        out,
        pos: [n, 0, 0, 0, 0, 0, 0, 0],
    }
}

fn out_of(rows: &[SnapRow], place: usize) -> u64
    requires { place < length rows.now }
    ensures { result ≡ out_at rows.now place }
{
    rows[place].out
}

/// Where a vertex starts, if its first snapshot has not given too much.
fn start(rows: &[SnapRow], dur: u64) -> Option<usize> {
    if 0 < rows.len() {
        if out_of(rows, 0) <= dur {
            return Some(start_of(rows, dur));
        }
    }
    None
}

#[test]
fn a_vertex_starts_from_its_last_snapshot_that_gave_no_more(rt: HostRuntime) {
    let rows = [snap(0, 0), snap(3, 2), snap(5, 2), snap(9, 4)];
    let cases = [(0, 0), (1, 0), (2, 2), (3, 2), (4, 3), (u64::MAX, 3)];
    for (dur, place) in cases {
        assert_eq!(rt; start(&rows, dur), Some(place), "{dur}");
    }
    // A snapshot may be the only one, and the first may have given some elements.
    assert_eq!(rt; start(&rows[3..], 4), Some(0));
    assert_eq!(rt; start(&rows[1..3], 7), Some(1));
}
