ghost use Rattle.std.specs.Prelude.{◌≡◌, ◌<◌, ◌≤◌, ◌++◌, length, All, IfOk, OnOk};
ghost use Rattle.std.specs.Option.{option_to_list};
ghost use Rattle.ss_expr.specs.Operators.{operator_of};
ghost use Rattle.ss_expr.specs.declared.stream_operator.Spec.TheVariants as spec;
ghost use Rattle.ss_meaning.specs.Emit.{output};
ghost use Rattle.ss_meaning.specs.Emit as meaning;
ghost use Rattle.ss_plan.specs.Steps.{moved, EachMayFollow, SideSteps};

use crate::arrived::Arrived;
use crate::bounds::Bounds;
use ss_elem::{Element, Out};
use ss_join::Join;
use ss_meaning::{bounds_tell_what_is_next, output_only_grows};
use std::alloc::{AllocError, Global};

/// What a join gives over all that arrives from its two inputs.
pub(crate) fn join_output(
    alloc: Global,
    width: u32,
    arrived: &[Arrived],
) -> Result<Vec<Element>, AllocError>
    requires two { width ≡ 2 }
    requires inputs { All (λ x. x.input < width) arrived.now }
    requires follow { EachMayFollow arrived.now }
    ensures { IfOk result (λ list. list.items ≡ output (operator_of spec.Join) width arrived.now) }
{
    bounds_tell_what_is_next();
    output_only_grows();
    let mut join = Join::new(alloc);
    let mut bounds = Bounds::new(width);
    let mut out = Out::new(alloc);
    for x in arrived {
        step(&mut join, x, &mut bounds, &mut out)?;
    }
    Vec::from_slice(alloc, out.as_slice())
}

/// Adds what a join gives at one element.
fn step(join: &mut Join, x: &Arrived, bounds: &mut Bounds, out: &mut Out) -> Result<(), AllocError>
    requires two { length bounds.old ≡ 2 }
    requires input { x.now.input < 2 }
    ensures bounds { OnOk result (bounds.new ≡ moved bounds.old x.now) }
    ensures given { OnOk result (
        SideSteps meaning.Join join.old join.new bounds.old out.old.elements out.new.elements x.now) }
{
    bounds_tell_what_is_next();
    let mark = bounds.advance(x.input, &x.element);
    join.step(x.input, &x.element, bounds.to_array(), out)?;
    out.reserve(1)?;
    push_mark(out, mark);
    Ok(())
}

/// Appends an element where there is one.
pub(crate) fn push_mark(out: &mut Out, mark: Option<Element>)
    requires { 1 ≤ out.old.spare }
    ensures { out.new.elements ≡ out.old.elements ++ option_to_list mark }
{
    match mark {
        Some(mark) => out.push(mark),
        None => (),
    }
}
