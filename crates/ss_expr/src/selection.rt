ghost use Rattle.std.specs.Prelude.{◌≡◌, true};
ghost use Rattle.std.specs.Option.{option_to_list};
ghost use Rattle.ss_expr.specs.Operators.{passes, selected, is_row_by_row, AreRowsAt, HasShortRow, IsComputable};
ghost use Rattle.ss_expr.specs.Operators.{IsTest};
ghost use Rattle.ss_expr.specs.Values.{HasShortTimes};
ghost use Rattle.ss_elem.specs.declared.element.Element.TheVariants.{Row};
ghost use Rattle.ss_expr.specs.declared.stream_operator.Spec.TheVariants.{Select};

use crate::evaluation::{number, truth};
use crate::expr::Expr;
use crate::stream_operator::Spec;
use ss_elem::{Element, Event};

/// The row that a select gives for a row: the same row with all four values computed from the old ones, where its test
/// holds or there is none.
pub fn select(
    test: &Option<Expr>,
    a: &Expr,
    b: &Expr,
    c: &Expr,
    d: &Expr,
    row: &Event,
) -> Option<Event>
    requires computable { IsComputable (Select test.now a.now b.now c.now d.now) }
    requires times { HasShortTimes row.now }
    ensures { result ≡ selected test.now a.now b.now c.now d.now row.now }
{
    if !does_pass(test, row) {
        return None;
    }
    Some(Event {
        start: row.start,
        end: row.end,
        key: row.key,
        a: number(a, row),
        b: number(b, row),
        c: number(c, row),
        d: number(d, row),
    })
}

fn does_pass(test: &Option<Expr>, row: &Event) -> bool
    requires computable { IsTest test.now }
    requires times { HasShortTimes row.now }
    ensures { result ≡ passes test.now row.now }
{
    match test {
        Some(test) => truth(test, row),
        None => true,
    }
}

/// The row that a select or a union gives at an element, where it gives one.
pub fn row_given(spec: &Spec, x: &Element) -> Option<Event>
    requires row_by_row { is_row_by_row spec.now ≡ true }
    requires computable { IsComputable spec.now }
    requires times { HasShortRow x.now }
    ensures { AreRowsAt spec.now x.now (option_to_list result) }
{
    match x {
        Element::Row(row) => row_for(spec, row),
        Element::Cti(_) => None,
        Element::End => None,
    }
}

fn row_for(spec: &Spec, row: &Event) -> Option<Event>
    requires row_by_row { is_row_by_row spec.now ≡ true }
    requires computable { IsComputable spec.now }
    requires times { HasShortTimes row.now }
    ensures { AreRowsAt spec.now (Row row.now) (option_to_list result) }
{
    match spec {
        Spec::Select { test, a, b, c, d } => select(test, a, b, c, d, row),
        Spec::Union => Some(*row),
        Spec::Window { .. } => unreachable!(),
        Spec::Join => unreachable!(),
        Spec::Session { .. } => unreachable!(),
        Spec::Except => unreachable!(),
    }
}
