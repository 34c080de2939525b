ghost use Rattle.std.specs.Prelude.{◌≡◌, ◌≤◌, ◌<◌, ℕ, length, slice_index, slice_set, []};
ghost use Rattle.std.specs.Option.{option_to_list};
ghost use Rattle.ss_meaning.specs.Bound.{bound_after};
ghost use Rattle.ss_meaning.specs.Inputs.{bounds, least_bound};
ghost use Rattle.ss_meaning.specs.Low.{advance};

use ss_elem::Element;
use std::marker::Model;

const MOST_INPUTS: usize = 8;

const TOP_TIME: u64 = 1 << 63;

/// The bounds of several inputs.
#[derive(Drop)]
pub(crate) struct Bounds {
    width: u32,
    bounds: [u64; MOST_INPUTS],
}

impl Model for Bounds {
    ghost use Rattle.std.specs.Prelude.{◌≤◌, ℕ, List, take};

    ghost Value = { List ℕ };

    ghost view = { λ b. take b.width b.bounds };

    ghost invariant = { λ b. b.width ≤ 8 };
}

impl Bounds {
    /// The bounds of so many inputs before any element.
    pub(crate) fn new(width: u32) -> Bounds
        requires { width ≤ 8 }
        ensures { result ≡ bounds width [] }
    {
        Bounds {
            width,
            bounds: [0; MOST_INPUTS],
        }
    }

    /// Moves the bound of an input behind an element of it. Where the least of all bounds rose, the element that
    /// tells it is given: `Cti`, and `End` where all inputs have ended.
    pub(crate) fn advance(&mut self, input: u32, x: &Element) -> Option<Element>
        requires { input < length self.old }
        ensures bounds { self.new ≡ slice_set self.old input (bound_after (slice_index self.old input) x.now) }
        ensures given { option_to_list result ≡ advance (least_bound self.old) (least_bound self.new) }
    {
        let before = self.least();
        self.set(input, x);
        let after = self.least();
        given_for(before, after)
    }

    /// The bounds in the order of the inputs; what stands behind them is none.
    pub(crate) fn to_array(&self) -> [u64; MOST_INPUTS]
        ensures { (input : ℕ) → input < length self.now → slice_index result input ≡ slice_index self.now input }
    {
        self.bounds
    }

    fn set(&mut self, input: u32, x: &Element)
        requires { input < length self.old }
        ensures { self.new ≡ slice_set self.old input (bound_after (slice_index self.old input) x.now) }
    {
        let at = input as usize;
        match x {
            Element::Row(_) => (),
            Element::Cti(time) => self.bounds[at] = *time,
            Element::End => self.bounds[at] = TOP_TIME,
        }
    }

    fn least(&self) -> u64
        ensures { result ≡ least_bound self.now }
    {
        least_of(&self.bounds[..self.width as usize])
    }
}

/// What tells that the least bound is now this one.
fn given_for(before: u64, after: u64) -> Option<Element>
    ensures { option_to_list result ≡ advance before after }
{
    if before >= after {
        return None;
    }
    if after < TOP_TIME {
        Some(Element::Cti(after))
    } else {
        Some(Element::End)
    }
}

fn least_of(bounds: &[u64]) -> u64
    ensures { result ≡ least_bound bounds.now }
{
    let mut least = TOP_TIME;
    for input in (0..bounds.len()).rev() {
        least = least.min(bounds[input]);
    }
    least
}
