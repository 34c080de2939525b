ghost use Rattle.std.specs.Prelude.{◌≡◌, ◌≤◌, ◌<◌, ◌^◌, All, IfOk};
ghost use Rattle.ss_expr.specs.Operators.{operator_of, HasGap};
ghost use Rattle.ss_expr.specs.declared.stream_operator.Spec.TheVariants as spec;
ghost use Rattle.ss_meaning.specs.Emit.{output};
ghost use Rattle.ss_meaning.specs.Jobs.{IsBefore};
ghost use Rattle.ss_plan.specs.Steps.{EachMayFollow, NeverFalls};

use crate::arrived::Arrived;
use crate::one_input::{MOST_ARRIVALS, bound_behind, push_rise};
use ss_elem::{Bound, Element, Out};
use ss_expr::{Agg, Field};
use ss_meaning::output_only_grows;
use ss_session::{Session, few_arrivals_are_few_rows};
use std::alloc::{AllocError, Global};

/// What a session window gives over all that arrives from its one input.
pub(crate) fn session_output(
    alloc: Global,
    gap: u64,
    agg: Agg,
    of: Field,
    width: u32,
    arrived: &[Arrived],
) -> Result<Vec<Element>, AllocError>
    requires gap { HasGap gap }
    requires one { width ≡ 1 }
    requires inputs { All (λ x. x.input < width) arrived.now }
    requires early { All (λ x. IsBefore (2 ^ 63) x.element) arrived.now }
    requires rises { NeverFalls width arrived.now }
    requires follow { EachMayFollow arrived.now }
    ensures { IfOk result (λ list. list.items ≡ output (operator_of (spec.Session gap agg of)) width arrived.now) }
{
    output_only_grows();
    few_arrivals_are_few_rows();
    // So many elements fit no memory.
    if arrived.len() >= MOST_ARRIVALS {
        return Err(AllocError);
    }
    let mut session = Session::new(alloc, gap, agg, of);
    let mut bound = Bound::ZERO;
    let mut out = Out::new(alloc);
    for x in arrived {
        let next = bound_behind(bound, &x.element);
        session.step(&x.element, next, &mut out)?;
        push_rise(&mut out, bound, next);
        bound = next;
    }
    Vec::from_slice(alloc, out.as_slice())
}
