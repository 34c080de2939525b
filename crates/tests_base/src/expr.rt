ghost use Rattle.std.specs.Prelude.{IfOk};
ghost use Rattle.ss_expr.specs.Kinds.{HasKind};

use ss_elem::Element;
use ss_events::{Late, read_events};
use ss_expr::{Expr, ValueKind, check_kind, parse, select};
use std::alloc::Global;
use std::test::Fail;

/// The expression of a number.
fn number(alloc: Global, text: &str) -> Result<Expr, Fail>
    ensures { IfOk result (λ e. HasKind e ValueKind.Num) }
{
    let e = parse(alloc, text)?;
    check_kind(&e, ValueKind::Num)?;
    Ok(e)
}

#[test]
fn selects_compute_all_values_from_the_old_ones(rt: HostRuntime) -> Result<(), Fail> {
    let a = number(rt.alloc(), "b")?.copied(rt.alloc())?;
    check_kind(&a, ValueKind::Num)?;
    let (b, c, d) = (
        number(rt.alloc(), "a")?,
        number(rt.alloc(), "d")?,
        number(rt.alloc(), "c")?,
    );
    let rows = read_events(
        rt.alloc(),
        b"event,5,9,k,3,4,7,-2\nevent,5,9,k,4,3,-2,7\n",
        Late::Refuse,
    )?;
    assert_eq!(rt; rows.len(), 3);
    match rows[0] {
        Element::Row(row) => {
            let given = select(&None, &a, &b, &c, &d, &row);
            assert!(rt; given.map(Element::Row) == Some(rows[1]));
        }
        Element::Cti(_) | Element::End => assert!(rt; false),
    }
    Ok(())
}
