use ss_events::{EventFault, EventWhy, EventsFault, Late, read_events};
use std::alloc::Global;
use std::test::Fail;

const TOO_MANY: Option<EventFault> = Some(EventFault {
    row: 131_073,
    why: EventWhy::TooManyRows,
});

/// The fault of a file, if it has one.
fn fault_of(alloc: Global, file: &[u8]) -> Option<EventFault> {
    match read_events(alloc, file, Late::Refuse) {
        Err(EventsFault::At(fault)) => Some(fault),
        Ok(_) | Err(EventsFault::Memory) => None,
    }
}

/// A file with this row so often, between two texts.
fn file_of(
    alloc: Global,
    before: &str,
    row: &str,
    count: u32,
    after: &str,
) -> Result<Vec<u8>, Fail> {
    let mut file = before.as_bytes().to_vec(alloc)?;
    for _ in 0..count {
        file.extend_from_slice(row.as_bytes())?;
    }
    file.extend_from_slice(after.as_bytes())?;
    Ok(file)
}

/// A header counts as a row.
#[test]
fn a_file_has_at_most_131_072_rows(rt: HostRuntime) -> Result<(), Fail> {
    let row = "event,0,1,k,0,0\n";
    for (before, count) in [("", 131_072), ("kind,start,end,key,a\n", 131_071)] {
        let full = file_of(rt.alloc(), before, row, count, "")?;
        let list = read_events(rt.alloc(), &full, Late::Refuse)?;
        assert_eq!(rt; list.len() as u64, count as u64 + 1);
        let over = file_of(rt.alloc(), before, row, count, row)?;
        assert_eq!(rt; fault_of(rt.alloc(), &over), TOO_MANY);
    }
    Ok(())
}

/// Rows for a place where a file may have none, behind a `cti` of time 5.
const ONE_ROW_MORE: [&str; 8] = [
    "cti,5\n",
    "x\n",
    "cti\n",
    "cti,x\n",
    "event,5,6,,0,0\n",
    "event,7,7,k,0,0\n",
    "event,4,6,k,0,0\n",
    "cti,4\n",
];

#[test]
fn one_row_too_many_comes_before_its_other_faults(rt: HostRuntime) -> Result<(), Fail> {
    for more in ONE_ROW_MORE {
        let file = file_of(rt.alloc(), "", "cti,5\n", 131_072, more)?;
        assert_eq!(rt; fault_of(rt.alloc(), &file), TOO_MANY, "{more:?}");
    }
    let ended = file_of(rt.alloc(), "", "cti,5\n", 131_071, "end\nend\n")?;
    assert_eq!(rt; fault_of(rt.alloc(), &ended), TOO_MANY);
    Ok(())
}
