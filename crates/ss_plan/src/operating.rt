ghost use Rattle.std.specs.Prelude.{◌≡◌, ◌≤◌, ◌<◌, ◌^◌, true, length, map, ◌++◌, All, OnOk, IfOk};
ghost use Rattle.ss_expr.specs.Operators.{operator_of, is_row_by_row, HasShortRow, IsComputable};
ghost use Rattle.ss_meaning.specs.Emit.{output};
ghost use Rattle.std.specs.Option.{option_to_list};
ghost use Rattle.ss_meaning.specs.Jobs.{IsBefore, Takes};
ghost use Rattle.ss_plan.specs.Steps.{moved, Adds, EachMayFollow, NeverFalls};
ghost use Rattle.ss_elem.specs.declared.element.Element.TheVariants.{Row};

use crate::arrived::Arrived;
use crate::bounds::Bounds;
use crate::excepts::except_output;
use crate::joins::join_output;
use crate::sessions::session_output;
use crate::windows::window_output;
use ss_elem::{Element, Event};
use ss_expr::{Spec, row_given};
use ss_meaning::{bounds_tell_what_is_next, output_only_grows};
use std::alloc::{AllocError, Global};

/// What an operator with so many inputs gives over all that arrives.
pub(crate) fn operator_output(
    alloc: Global,
    spec: &Spec,
    width: u32,
    arrived: &[Arrived],
) -> Result<Vec<Element>, AllocError>
    requires computable { IsComputable spec.now }
    requires takes { Takes (operator_of spec.now) width }
    requires some { 1 ≤ width }
    requires few { width ≤ 8 }
    requires inputs { All (λ x. x.input < width) arrived.now }
    requires times { All (λ x. HasShortRow x.element) arrived.now }
    requires early { All (λ x. IsBefore (2 ^ 63) x.element) arrived.now }
    requires rises { NeverFalls width arrived.now }
    requires follow { EachMayFollow arrived.now }
    ensures { IfOk result (λ list. list.items ≡ output (operator_of spec.now) width arrived.now) }
{
    match spec {
        Spec::Select { .. } => row_by_row_output(alloc, spec, width, arrived),
        Spec::Union => row_by_row_output(alloc, spec, width, arrived),
        Spec::Window { size, hop, agg, of } => {
            window_output(alloc, *size, *hop, *agg, *of, width, arrived)
        }
        Spec::Join => join_output(alloc, width, arrived),
        Spec::Session { gap, agg, of } => session_output(alloc, *gap, *agg, *of, width, arrived),
        Spec::Except => except_output(alloc, width, arrived),
    }
}

/// What a select or a union gives over all that arrives: at each element its row, and then how far all inputs have
/// come, where that rose.
fn row_by_row_output(
    alloc: Global,
    spec: &Spec,
    width: u32,
    arrived: &[Arrived],
) -> Result<Vec<Element>, AllocError>
    requires row_by_row { is_row_by_row spec.now ≡ true }
    requires computable { IsComputable spec.now }
    requires some { 1 ≤ width }
    requires few { width ≤ 8 }
    requires inputs { All (λ x. x.input < width) arrived.now }
    requires times { All (λ x. HasShortRow x.element) arrived.now }
    ensures { IfOk result (λ list. list.items ≡ output (operator_of spec.now) width arrived.now) }
{
    bounds_tell_what_is_next();
    output_only_grows();
    let mut bounds = Bounds::new(width);
    let mut list = Vec::new(alloc);
    for x in arrived {
        step(spec, x, &mut bounds, &mut list)?;
    }
    Ok(list)
}

/// Adds what is given at one element.
fn step(
    spec: &Spec,
    x: &Arrived,
    bounds: &mut Bounds,
    list: &mut Vec<Element>,
) -> Result<(), AllocError>
    requires row_by_row { is_row_by_row spec.now ≡ true }
    requires computable { IsComputable spec.now }
    requires input { x.now.input < length bounds.old }
    requires times { HasShortRow x.now.element }
    ensures bounds { OnOk result (bounds.new ≡ moved bounds.old x.now) }
    ensures given { OnOk result (Adds (operator_of spec.now) x.now bounds.old list.old.items list.new.items) }
{
    let row = row_given(spec, &x.element);
    push_given(list, as_element(row))?;
    let mark = bounds.advance(x.input, &x.element);
    push_given(list, mark)?;
    Ok(())
}

fn as_element(row: Option<Event>) -> Option<Element>
    ensures { option_to_list result ≡ map (λ row. Row row) (option_to_list row) }
{
    match row {
        Some(row) => Some(Element::Row(row)),
        None => None,
    }
}

/// Adds an element where there is one.
fn push_given(list: &mut Vec<Element>, given: Option<Element>) -> Result<(), AllocError>
    ensures { OnOk result (list.new.items ≡ list.old.items ++ option_to_list given) }
{
    match given {
        Some(x) => {
            list.push(x)?;
            Ok(())
        }
        None => Ok(()),
    }
}
