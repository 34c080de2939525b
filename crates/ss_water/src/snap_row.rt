ghost use Rattle.std.specs.Prelude.{◌≡◌, ℕ, ◌<◌, ◌≤◌, length};
ghost use Rattle.ss_water.specs.Starts.{HasStart, IsGreatestStart, RisesInN, out_at};

/// A stored snapshot of a vertex.
#[derive(Clone, Copy, Debug, PartialEq, Eq)]
pub struct SnapRow {
    /// How many elements of its inputs, merged, the vertex had accepted.
    pub n: u64,
    /// How many elements it had given for them.
    pub out: u64,
    /// How many of the elements came from each input; 0 where it has fewer inputs.
    pub pos: [u64; 8],
}

/// The place of the last snapshot that has given at most `dur` elements. Where the snapshots rise in `n`, it is the one
/// from which the vertex would be recovered.
pub fn start_of(rows: &[SnapRow], dur: u64) -> usize
    requires { HasStart rows.now dur }
    ensures within { result < length rows.now }
    ensures given { out_at rows.now result ≤ dur }
    ensures last { (k : ℕ) → result < k → k < length rows.now → dur < out_at rows.now k }
    ensures greatest { RisesInN rows.now → IsGreatestStart rows.now dur result }
{
    let mut start = 0;
    for place in 0..rows.len() {
        if out_of(rows, place) <= dur {
            start = place;
        }
    }
    start
}

/// How many elements the snapshot at this place has given.
fn out_of(rows: &[SnapRow], place: usize) -> u64
    requires { place < length rows.now }
    ensures { result ≡ out_at rows.now place }
{
    rows[place].out
}
