ghost use Rattle.std.specs.Prelude.{◌≡◌, ◌≤◌, ◌<◌, ◌^◌, ℕ, [], length, take, All, IfSome, IsSome, IsNone, ◌↔◌, Some};
ghost use Rattle.std.specs.Prelude.{slice_index};
ghost use Rattle.ss_elem.specs.Validity.{top, next_bound};
ghost use Rattle.ss_meaning.specs.Bound.{bound_after};
ghost use Rattle.ss_meaning.specs.Inputs.{least_bound, next_from, next_input};
ghost use Rattle.ss_merge.specs.Merging.{merger_after, first_inputs, accepted, IsLow, IsOfNext, MayBeNext};
ghost use Rattle.ss_merge.specs.Merging.{StandsAfterNext};

use ss_elem::{Bound, Element};
use ss_meaning::bounds_tell_what_is_next;
use std::marker::Model;

const MOST_INPUTS: usize = 8;

const TOP_TIME: u64 = 1 << 63;

/// How far a merge of streams has come: of each input its bound, and how many of its elements were accepted.
///
/// The next element is of the input with the least bound, and of the lowest among those with equal bounds.
#[derive(Drop)]
pub struct Merger {
    width: u32,
    bounds: [u64; MOST_INPUTS],
    positions: [u64; MOST_INPUTS],
}

impl Model for Merger {
    ghost use Rattle.std.specs.Prelude.{◌≤◌};
    ghost use Rattle.ss_merge.specs.Merging.{MergerState, IsMergerState, first_inputs};

    ghost Value = { MergerState };

    ghost view = { λ m. first_inputs m.width m.bounds m.positions };

    ghost invariant = { λ m. IsMergerState (first_inputs m.width m.bounds m.positions) × (m.width ≤ 8) };
}

impl Merger {
    /// The merge of so many inputs, 1 to 8, before any element.
    pub fn new(width: u32) -> Merger
        requires some { 1 ≤ width }
        requires few { width ≤ 8 }
        ensures { result ≡ merger_after width [] }
    {
        Merger {
            width,
            bounds: [0; MOST_INPUTS],
            positions: [0; MOST_INPUTS],
        }
    }

    /// The merge whose inputs have these bounds and positions; those behind the first `width` say nothing.
    pub fn at(width: u32, bounds: [u64; 8], pos: [u64; 8]) -> Merger
        requires some { 1 ≤ width }
        requires few { width ≤ 8 }
        requires times { All (λ b. b ≤ top) (take width bounds) }
        ensures { result ≡ first_inputs width bounds pos }
    {
        Merger {
            width,
            bounds,
            positions: pos,
        }
    }

    /// The same once more.
    pub fn copied(&self) -> Merger
        ensures { result ≡ self.now }
    {
        Merger {
            width: self.width,
            bounds: self.bounds,
            positions: self.positions,
        }
    }

    /// The input of the next element, or `None` exactly where all inputs have ended.
    pub fn choose(&self) -> Option<u32>
        ensures input { result ≡ next_input self.now.bounds }
        ensures next { IsOfNext self.now result }
        ensures within { IfSome result (λ input. input < length self.now.bounds) }
        ensures ended { IsNone result ↔ (least_bound self.now.bounds ≡ top) }
    {
        bounds_tell_what_is_next();
        next_of(&self.bounds[..self.width as usize])
    }

    /// Takes the next element, which is one of the input that `choose` names.
    pub fn accept(&mut self, x: &Element)
        requires { MayBeNext self.old x.now }
        ensures accepted { IfSome (next_input self.old.bounds) (λ input. self.new ≡ accepted self.old input x.now) }
        ensures stands { IfSome (next_input self.old.bounds) (λ input. StandsAfterNext self.old self.new input x.now) }
    {
        bounds_tell_what_is_next();
        let input = self.choose().unwrap();
        self.take(input, x);
    }

    /// Takes an element of this input.
    fn take(&mut self, input: u32, x: &Element)
        requires input { input < length self.old.bounds }
        requires follows { IsSome (next_bound (slice_index self.old.bounds input) x.now) }
        requires room { slice_index self.old.positions input < 2 ^ 63 }
        ensures { self.new ≡ accepted self.old input x.now }
    {
        let at = input as usize;
        let bound = bound_after(self.bounds[at], x);
        self.bounds[at] = bound;
        self.positions[at] += 1;
    }

    /// The least of the inputs' bounds: no row to come starts before it.
    pub fn low(&self) -> Bound
        ensures least { result ≡ least_bound self.now.bounds }
        ensures low { IsLow self.now result }
    {
        bounds_tell_what_is_next();
        Bound::at(least_of(&self.bounds[..self.width as usize]))
    }

    /// How many elements of this input were accepted.
    pub fn pos(&self, i: u32) -> u64
        requires { i < length self.now.bounds }
        ensures { result ≡ slice_index self.now.positions i }
    {
        self.positions[i as usize]
    }

    /// The bound of this input.
    pub fn bound(&self, i: u32) -> Bound
        requires { i < length self.now.bounds }
        ensures { result ≡ slice_index self.now.bounds i }
    {
        Bound::at(self.bounds[i as usize])
    }

    /// The bounds of all inputs in their order, and 0 behind them.
    pub fn bounds(&self) -> [u64; MOST_INPUTS]
        ensures { (input : ℕ) → slice_index result input ≡ slice_index self.now.bounds input }
    {
        let mut all = [0; MOST_INPUTS];
        let width = self.width as usize;
        all[..width].copy_from_slice(&self.bounds[..width]);
        all
    }
}

/// The first of the inputs with the least of these bounds, where that is not the one of an end.
fn next_of(bounds: &[u64]) -> Option<u32>
    requires { length bounds.now ≤ 8 }
    ensures { result ≡ next_input bounds.now }
{
    let mut next = None;
    let mut least = TOP_TIME;
    for input in (0..bounds.len()).rev() {
        if bounds[input] < TOP_TIME && bounds[input] <= least {
            next = Some(input as u32);
        }
        least = least.min(bounds[input]);
    }
    next
}

fn least_of(bounds: &[u64]) -> u64
    ensures { result ≡ least_bound bounds.now }
{
    let mut least = TOP_TIME;
    for input in (0..bounds.len()).rev() {
        least = least.min(bounds[input]);
    }
    least
}

/// The bound of an input after an element that may follow in it.
fn bound_after(bound: u64, x: &Element) -> u64
    ensures { result ≡ bound_after bound x.now }
{
    match x {
        Element::Row(_) => bound,
        Element::Cti(time) => *time,
        Element::End => TOP_TIME,
    }
}
