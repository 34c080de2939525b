ghost use Rattle.std.specs.Prelude.{◌≡◌, ◌+◌, ◌*◌, ◌<◌, ◌++◌, OnErr, OnOk};
ghost use Rattle.ss_gen.specs.Draws.{state_after};
ghost use Rattle.ss_gen.specs.Events.{cti_text, drawn_of, events_text, less_500, row_text, rows_text};
ghost use Rattle.ss_gen.specs.Rows.{row_told};
ghost use Rattle.ss_gen.specs.Texts.{Extends};

use crate::Memory;
use crate::draws::Draws;
use crate::put::put;
use crate::row::Row;
use itoa::Buffer;

/// How many rows a file has.
const ROWS: u64 = 20_000;

/// Appends the text of an event file that is the same whenever it is made with this seed, or nothing.
pub fn gen_events(seed: u64, out: &mut Vec<u8>) -> Result<(), Memory>
    ensures text { OnOk result (out.new.items ≡ out.old.items ++ events_text seed) }
    ensures kept { OnErr result (out.new.items ≡ out.old.items) }
{
    let length = out.len();
    match put_file(seed, out) {
        Ok(()) => Ok(()),
        Err(fault) => {
            out.truncate(length);
            Err(fault)
        }
    }
}

/// Appends the file, or a part of it where memory runs out.
fn put_file(seed: u64, out: &mut Vec<u8>) -> Result<(), Memory>
    ensures text { OnOk result (out.new.items ≡ out.old.items ++ events_text seed) }
    ensures part { OnErr result (Extends out.old.items out.new.items) }
{
    put(out, &[b"kind,start,end,key,a,b\n"])?;
    put_rows(seed, out)
}

/// Appends the lines of all rows, or a part of them where memory runs out.
fn put_rows(seed: u64, out: &mut Vec<u8>) -> Result<(), Memory>
    ensures text { OnOk result (out.new.items ≡ out.old.items ++ rows_text seed 20000) }
    ensures part { OnErr result (Extends out.old.items out.new.items) }
{
    let mut draws = Draws::from(seed);
    for i in 0..ROWS {
        let row = drawn_row(i, seed, &mut draws);
        put_row(&row, out)?;
        put_cti(i, out)?;
    }
    Ok(())
}

/// Draws row `i`, in whose place the draws of this seed stand.
fn drawn_row(i: u64, seed: u64, draws: &mut Draws) -> Row
    requires few { i < 20000 }
    requires place { draws.old ≡ state_after seed (5 * i) }
    ensures place { draws.new ≡ state_after seed (5 * (i + 1)) }
    ensures drawn { row_told result ≡ drawn_of seed i }
{
    let start = 8 * i + draws.below(8);
    let end = start + 1 + draws.below(64);
    let key = draws.below(50);
    let first = draws.below(1000);
    let second = draws.below(10);
    Row {
        start,
        end,
        key,
        first,
        second,
    }
}

/// Appends the line of a row, or a part of it where memory runs out.
fn put_row(row: &Row, out: &mut Vec<u8>) -> Result<(), Memory>
    ensures text { OnOk result (out.new.items ≡ out.old.items ++ row_text (row_told row.now)) }
    ensures part { OnErr result (Extends out.old.items out.new.items) }
{
    put(
        out,
        &[
            b"event,",
            Buffer::new().format(row.start).as_bytes(),
            b",",
            Buffer::new().format(row.end).as_bytes(),
            b",k",
            Buffer::new().format(row.key).as_bytes(),
            b",",
        ],
    )?;
    put_less_500(row.first, out)?;
    put(
        out,
        &[b",", Buffer::new().format(row.second).as_bytes(), b"\n"],
    )
}

/// Appends n - 500, or a part of it where memory runs out.
fn put_less_500(n: u64, out: &mut Vec<u8>) -> Result<(), Memory>
    ensures text { OnOk result (out.new.items ≡ out.old.items ++ less_500 n) }
    ensures part { OnErr result (Extends out.old.items out.new.items) }
{
    if n < 500 {
        put(out, &[b"-", Buffer::new().format(500 - n).as_bytes()])
    } else {
        put(out, &[Buffer::new().format(n - 500).as_bytes()])
    }
}

/// Behind each hundredth row, appends the line that says that no later row begins before this, or a part of it where
/// memory runs out.
fn put_cti(i: u64, out: &mut Vec<u8>) -> Result<(), Memory>
    requires { i < 20000 }
    ensures text { OnOk result (out.new.items ≡ out.old.items ++ cti_text i) }
    ensures part { OnErr result (Extends out.old.items out.new.items) }
{
    if i % 100 == 99 {
        put(
            out,
            &[b"cti,", Buffer::new().format(8 * (i + 1)).as_bytes(), b"\n"],
        )
    } else {
        Ok(())
    }
}
