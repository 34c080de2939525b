ghost use Rattle.std.specs.Prelude.{◌≡◌, ◌<◌, ◌≤◌, ◌^◌, [], true, IfOk, IfErr, Ok, OnOk, OnErr, Err};
ghost use Rattle.ss_expr.specs.Operators.{IsComputable};
ghost use Rattle.ss_image.specs.Faults.{Fails};
ghost use Rattle.ss_image.specs.Images.{image_of};
ghost use Rattle.ss_image.specs.declared.image_fault.ImageFault.TheVariants.{At};
ghost use Rattle.ss_meaning.specs.Jobs.{IsBefore};
ghost use Rattle.ss_oper.specs.Kept.{CountsRows, GivesRows, IsKept, RemembersNothing, entries_kept, spec_kept};
ghost use Rattle.ss_oper.specs.Standing.{CountFew, nothing_in, remembered};
ghost use Rattle.ss_meaning.specs.Entries.{NoEntries};

use crate::given::push_row;
use ss_elem::{Bound, Element, Out};
use ss_expr::{Spec, row_given};
use ss_image::ImageFault;
use ss_join::Join;
use ss_meaning::{entries_follow, sessions_close_in_time, sessions_follow};
use ss_merge::Merger;
use ss_session::{Except, Session};
use ss_window::Window;
use std::alloc::{AllocError, Global};

/// What is kept of an operator between elements.
#[derive(Drop)]
pub(crate) enum Kept {
    /// A select or a union, which gives at each element what that alone says.
    RowByRow(Spec),
    /// A window, with what it remembers.
    Hopping(Window),
    /// A join, with what it remembers.
    Joining(Join),
    /// A session window, with what it remembers.
    InSessions(Session),
    /// A join by absence, with what it remembers.
    Excepting(Except),
}

/// What is kept of the operator before any element.
pub(crate) fn kept_before_all(alloc: Global, spec: &Spec) -> Result<Kept, AllocError>
    requires { IsComputable spec.now }
    ensures kept { IfOk result IsKept }
    ensures spec { IfOk result (λ kept. spec_kept kept ≡ spec.now) }
    ensures nothing { IfOk result RemembersNothing }
{
    match spec {
        Spec::Window { size, hop, agg, of } => {
            let window = Window::new(alloc, *size, *hop, *agg, *of);
            Ok(Kept::Hopping(window))
        }
        Spec::Select { .. } => Ok(Kept::RowByRow(spec.copied(alloc)?)),
        Spec::Union => Ok(Kept::RowByRow(Spec::Union)),
        Spec::Join => Ok(Kept::Joining(Join::new(alloc))),
        Spec::Session { gap, agg, of } => {
            let session = Session::new(alloc, *gap, *agg, *of);
            Ok(Kept::InSessions(session))
        }
        Spec::Except => Ok(Kept::Excepting(Except::new(alloc))),
    }
}

/// What is kept of the operator whose image these bytes are, where the merge of its inputs stands so.
pub(crate) fn kept_of_image(
    alloc: Global,
    spec: &Spec,
    merger: &Merger,
    bytes: &[u8],
) -> Result<Kept, ImageFault>
    requires { IsComputable spec.now }
    ensures kept { IfOk result IsKept }
    ensures spec { IfOk result (λ kept. spec_kept kept ≡ spec.now) }
    ensures ok { IfOk result (λ kept. remembered spec.now merger.now.bounds bytes.now ≡ Ok (entries_kept kept)) }
    ensures spelling { IfOk result (λ kept. bytes.now ≡ image_of (entries_kept kept)) }
    ensures fault { IfErr result (λ e. Fails e (remembered spec.now merger.now.bounds bytes.now)) }
{
    match spec {
        Spec::Window { size, hop, agg, of } => {
            let low = merger.low();
            let window = Window::of_image(alloc, *size, *hop, *agg, *of, low, bytes)?;
            Ok(Kept::Hopping(window))
        }
        Spec::Select { .. } => {
            refuse_any(bytes)?;
            Ok(Kept::RowByRow(spec.copied(alloc)?))
        }
        Spec::Union => {
            refuse_any(bytes)?;
            Ok(Kept::RowByRow(Spec::Union))
        }
        Spec::Join => Ok(Kept::Joining(Join::of_image(alloc, merger.bounds(), bytes)?)),
        Spec::Session { gap, agg, of } => {
            let low = merger.low();
            let session = Session::of_image(alloc, *gap, *agg, *of, low, bytes)?;
            Ok(Kept::InSessions(session))
        }
        Spec::Except => Ok(Kept::Excepting(Except::of_image(alloc, merger.bounds(), bytes)?)),
    }
}

/// Refuses each byte, at 0.
fn refuse_any(bytes: &[u8]) -> Result<(), ImageFault>
    ensures ok { OnOk result (nothing_in bytes.now ≡ Ok NoEntries) }
    ensures none { OnOk result (bytes.now ≡ []) }
    ensures fault { IfErr result (λ e. (e ≡ At 0) × (nothing_in bytes.now ≡ Err 0)) }
{
    if bytes.is_empty() {
        Ok(())
    } else {
        Err(ImageFault::At { at: 0 })
    }
}

/// Takes an element of this input and appends the rows that the operator gives at it. `low` is Low after the element,
/// and `bounds` are those of the inputs. A place is left for what is given behind the rows.
pub(crate) fn give_rows(
    kept: &mut Kept,
    input: u32,
    x: &Element,
    low: Bound,
    bounds: [u64; 8],
    out: &mut Out,
) -> Result<(), AllocError>
    requires kept { IsKept kept.old }
    requires early { IsBefore (2 ^ 63) x.now }
    requires few { CountFew (entries_kept kept.old) }
    ensures kept { IsKept kept.new }
    ensures spec { spec_kept kept.new ≡ spec_kept kept.old }
    ensures rows { OnOk result (
        GivesRows kept.old kept.new out.old.elements out.new.elements input x.now low bounds) }
    ensures place { OnOk result (1 ≤ out.new.spare) }
    ensures err { OnErr result (kept.new ≡ kept.old) }
    ensures err_out { OnErr result (out.new.elements ≡ out.old.elements) }
{
    match kept {
        Kept::RowByRow(spec) => {
            out.reserve(2)?;
            push_row(out, row_given(spec, x));
            Ok(())
        }
        Kept::Hopping(window) => window.step(x, low, out),
        Kept::Joining(join) => join.step(side_of(input), x, bounds, out),
        Kept::InSessions(session) => session.step(x, low, out),
        Kept::Excepting(except) => except.step(side_of(input), x, bounds, out),
    }
}

/// How many rows the operator gives at an element of this input, after which Low is `low` and the inputs have these
/// bounds.
pub(crate) fn count_rows(kept: &Kept, input: u32, x: &Element, low: Bound, bounds: [u64; 8]) -> u64
    requires kept { IsKept kept.now }
    requires early { IsBefore (2 ^ 63) x.now }
    ensures rows { CountsRows kept.now input x.now low bounds result }
    ensures few { result < 2 ^ 63 }
{
    entries_follow();
    sessions_follow();
    sessions_close_in_time();
    match kept {
        Kept::RowByRow(spec) => match row_given(spec, x) {
            Some(_) => 1,
            None => 0,
        },
        Kept::Hopping(window) => window.due(low),
        Kept::Joining(join) => join.count_given(side_of(input), x),
        Kept::InSessions(session) => session.due(low),
        Kept::Excepting(except) => except.count_given(side_of(input), x, bounds),
    }
}

/// The input of a join, which has no others than 0 and 1.
fn side_of(input: u32) -> u32
    ensures side { result < 2 }
    ensures same { input < 2 → result ≡ input }
{
    input.min(1)
}
