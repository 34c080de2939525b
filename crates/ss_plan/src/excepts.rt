ghost use Rattle.std.specs.Prelude.{◌≡◌, ◌^◌, ◌<◌, ◌≤◌, length, All, IfOk, OnOk};
ghost use Rattle.ss_expr.specs.Operators.{operator_of};
ghost use Rattle.ss_expr.specs.declared.stream_operator.Spec.TheVariants as spec;
ghost use Rattle.ss_meaning.specs.Emit.{output};
ghost use Rattle.ss_meaning.specs.Jobs.{IsBefore};
ghost use Rattle.ss_meaning.specs.Emit as meaning;
ghost use Rattle.ss_plan.specs.Steps.{moved, EachMayFollow, SideSteps};

use crate::arrived::Arrived;
use crate::bounds::Bounds;
use crate::joins::push_mark;
use ss_elem::{Element, Out};
use ss_meaning::{bounds_tell_what_is_next, output_only_grows};
use ss_session::Except;
use std::alloc::{AllocError, Global};

/// What a join by absence gives over all that arrives from its two inputs.
pub(crate) fn except_output(
    alloc: Global,
    width: u32,
    arrived: &[Arrived],
) -> Result<Vec<Element>, AllocError>
    requires two { width ≡ 2 }
    requires inputs { All (λ x. x.input < width) arrived.now }
    requires early { All (λ x. IsBefore (2 ^ 63) x.element) arrived.now }
    requires follow { EachMayFollow arrived.now }
    ensures { IfOk result (λ list. list.items ≡ output (operator_of spec.Except) width arrived.now) }
{
    bounds_tell_what_is_next();
    output_only_grows();
    let mut except = Except::new(alloc);
    let mut bounds = Bounds::new(width);
    let mut out = Out::new(alloc);
    for x in arrived {
        step(&mut except, x, &mut bounds, &mut out)?;
    }
    Vec::from_slice(alloc, out.as_slice())
}

/// Adds what a join by absence gives at one element.
fn step(
    except: &mut Except,
    x: &Arrived,
    bounds: &mut Bounds,
    out: &mut Out,
) -> Result<(), AllocError>
    requires two { length bounds.old ≡ 2 }
    requires input { x.now.input < 2 }
    requires early { IsBefore (2 ^ 63) x.now.element }
    ensures bounds { OnOk result (bounds.new ≡ moved bounds.old x.now) }
    ensures given { OnOk result (
        SideSteps meaning.Except except.old except.new bounds.old out.old.elements out.new.elements x.now) }
{
    bounds_tell_what_is_next();
    let mark = bounds.advance(x.input, &x.element);
    except.step(x.input, &x.element, bounds.to_array(), out)?;
    out.reserve(1)?;
    push_mark(out, mark);
    Ok(())
}
