//! Tests of commands that a test runs: the worked rows, long files, and loops over all failures.

mod long;
mod recovery;
mod release;

use crate::rows::ROWS;
use crate::tests::long::LONG;
use crate::walk::Commands;
use cases::tell_file;
use std::test::Fail;

#[test]
fn the_worked_rows_are_given(rt: HostRuntime) -> Result<(), Fail> {
    let told = tell_file::<Commands>(rt.alloc(), "rows", ROWS)?;
    assert!(rt; told.as_str() == "rows: 39 of 39 pass\n", "{told}");
    Ok(())
}

#[test]
fn files_at_the_limit_of_their_rows_are_read(rt: HostRuntime) -> Result<(), Fail> {
    let told = tell_file::<Commands>(rt.alloc(), "long", LONG)?;
    assert!(rt; told.as_str() == "long: 15 of 15 pass\n", "{told}");
    Ok(())
}
