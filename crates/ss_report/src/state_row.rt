use ss_job::Op;
use ss_water::SnapRow;

/// A line of a report. Vertices go by their numbers, which count from 0 in the order of the job file.
#[derive(Clone, Copy, Debug)]
pub enum StateRow<'a> {
    /// The stream of a source: `stream NAME base BASE dur DUR from FROM end END torn TORN mark MARK`, where `TORN` is
    /// `yes` or `no`.
    Source {
        /// The source.
        v: u32,
        /// The least number of an element that the store keeps.
        base: u64,
        /// The number of the first element that isn't durable.
        dur: u64,
        /// The least number of an element that the tail shows.
        from: u64,
        /// The number behind the last element that was written.
        end: u64,
        /// Whether elements of the tail were lost.
        torn: bool,
        /// The source's mark in the store.
        mark: u64,
    },
    /// The stream of an inner vertex: `stream NAME base BASE dur DUR from FROM end END torn TORN snaps`, and behind
    /// that the number of each snapshot.
    Inner {
        /// The vertex.
        v: u32,
        /// The least number of an element that the store keeps.
        base: u64,
        /// The number of the first element that isn't durable.
        dur: u64,
        /// The least number of an element that the tail shows.
        from: u64,
        /// The number behind the last element that was written.
        end: u64,
        /// Whether elements of the tail were lost.
        torn: bool,
        /// The stored snapshots, in the order in which they are listed.
        snaps: &'a [SnapRow],
    },
    /// A replica that is up: `inst NAME REPLICA up n N next NEXT left LEFT`.
    Up {
        /// The vertex.
        v: u32,
        /// The replica, counted from 0.
        r: u32,
        /// How many elements it has accepted.
        n: u64,
        /// The number of the element that it writes next.
        next: u64,
        /// How many elements it still has to write.
        left: u64,
    },
    /// A replica that is down: `inst NAME REPLICA down`.
    Down {
        /// The vertex.
        v: u32,
        /// The replica, counted from 0.
        r: u32,
    },
    /// What a sink has taken so far: `sink NAME taken TAKEN`.
    Sink {
        /// The sink.
        k: u32,
        /// How many elements it took.
        taken: u64,
    },
    /// The journal of the store: `journal ENTRIES since SINCE`.
    Journal {
        /// How many entries it has.
        entries: u64,
        /// How many elements were made durable since the last pass.
        since: u64,
    },
    /// A vertex of a job: `NUMBER NAME OP`, and behind that the names of the vertices that it reads.
    Vertex {
        /// The vertex.
        v: u32,
        /// What it does.
        op: Op,
        /// The vertices that it reads, in the order of its inputs: the first `width` of them. The others say
        /// nothing.
        inputs: [u32; 8],
        /// How many vertices it reads, 0 to 8.
        width: u32,
    },
    /// A job is in order: `ok COUNT`.
    Checked {
        /// How many vertices the job has.
        count: u64,
    },
    /// What a sink took: `sink NAME TAKEN`.
    Summary {
        /// The sink.
        k: u32,
        /// How many elements it took.
        taken: u64,
    },
    /// A run is done: `done`.
    Done,
    /// A job with large event files was made: `written FILE FILE FILE`.
    Written,
}
