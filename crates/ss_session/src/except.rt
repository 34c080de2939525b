ghost use Rattle.std.specs.Prelude.{◌≡◌, ◌+◌, ◌^◌, ◌<◌, ◌≤◌, ◌==◌, ◌++◌, ◌∷◌, [], nat_le, ◌&&◌, map, length};
ghost use Rattle.std.specs.Prelude.{filter, slice_index, if◌then◌else◌};
ghost use Rattle.std.specs.Prelude.{OnOk, OnErr, IfOk, IfErr, Ok};
ghost use Rattle.ss_elem.specs.declared.element.Element.TheVariants.{Row};
ghost use Rattle.ss_image.specs.Images.{join_image};
ghost use Rattle.ss_image.specs.Faults.{Fails};
ghost use Rattle.ss_join.specs.ImageTests.{image_read};
ghost use Rattle.ss_join.specs.States.{StandsAs, StepsAs};
ghost use Rattle.ss_meaning.specs.Emit as meaning;
ghost use Rattle.ss_meaning.specs.Entries.{rows_ending_above};
ghost use Rattle.ss_meaning.specs.Except.{absent_row, alone, is_alone};
ghost use Rattle.ss_meaning.specs.ExceptLaws.{ending_up_to};
ghost use Rattle.ss_meaning.specs.Jobs.{IsBefore};
ghost use Rattle.ss_join.specs.ImageLaws.{HasEarlyTimes};
ghost use Rattle.ss_session.specs.ExceptStates.{CountsGiven};

use crate::absence::{give, give_ended, is_alone, keep_open};
use ss_elem::{Element, Event, Out};
use ss_image::ImageFault;
use ss_join::{Side, images_have_early_rows, images_have_one_spelling, put_image, read_image};
use ss_meaning::{absent_rows_follow, join_sides_follow};
use std::alloc::{AllocError, Global};
use std::marker::Model;

/// A join by absence: it gives the rows of its left input that no row of the right one with their key overlaps, once
/// none can any more. Input 0 is the left one.
///
/// It remembers of the left input the rows that are alone so far and end above the right bound, and of the right input
/// the rows that end above the left bound, each in the order of their arrival.
#[derive(Drop)]
pub struct Except {
    left: Side,
    right: Side,
}

impl Model for Except {
    ghost use Rattle.std.specs.Prelude.{All};
    ghost use Rattle.ss_join.specs.States.{Sides};
    ghost use Rattle.ss_join.specs.ImageLaws.{HasEarlyTimes};

    ghost Value = { Sides };

    ghost view = { λ e. record { left = e.left; right = e.right } };

    ghost invariant = { λ e. All HasEarlyTimes e.left };
}

impl Except {
    /// A join by absence to which nothing has arrived. It takes no memory.
    pub fn new(alloc: Global) -> Except
        ensures { StandsAs meaning.Except result [] }
    {
        Except {
            left: Side::new(alloc),
            right: Side::new(alloc),
        }
    }

    /// Takes the next element, and appends the rows that the operator gives at it. `bounds` are those of the inputs
    /// after the element, in their order. A place is left for what is given behind the rows.
    ///
    /// An error is want of memory.
    pub fn step(
        &mut self,
        input: u32,
        x: &Element,
        bounds: [u64; 8],
        out: &mut Out,
    ) -> Result<(), AllocError>
        requires side { input < 2 }
        requires early { IsBefore (2 ^ 63) x.now }
        ensures ok { OnOk result (
            StepsAs meaning.Except self.old self.new out.old.elements out.new.elements input x.now bounds) }
        ensures place { OnOk result (1 ≤ out.new.spare) }
        ensures err { OnErr result (self.new ≡ self.old) }
        ensures err_out { OnErr result (out.new.elements ≡ out.old.elements) }
    {
        absent_rows_follow();
        join_sides_follow();
        match x {
            Element::Row(row) => {
                if input == 0 {
                    self.take_left(row, bounds[1], out)
                } else {
                    self.take_right(row, bounds[0], out)
                }
            }
            Element::Cti(_) => self.take_rise(input, bounds, out),
            Element::End => self.take_rise(input, bounds, out),
        }
    }

    /// How many rows a step would give at an element of this input, without making it. `bounds` are those of the
    /// inputs after the element.
    pub fn count_given(&self, input: u32, x: &Element, bounds: [u64; 8]) -> u64
        requires { input < 2 }
        ensures given { CountsGiven self.now input x.now bounds result }
        ensures few { result < 2 ^ 63 }
    {
        absent_rows_follow();
        match x {
            Element::Row(row) => self.count_at_row(input, row, bounds[1]),
            Element::Cti(_) => self.count_at_rise(input, bounds[1]),
            Element::End => self.count_at_rise(input, bounds[1]),
        }
    }

    /// How many rows are remembered.
    pub fn held(&self) -> u64
        ensures { result ≡ length self.now.left + length self.now.right }
    {
        self.left.len() as u64 + self.right.len() as u64
    }

    /// Appends the image of the rows that are remembered.
    ///
    /// An error is want of memory.
    pub fn image(&self, out: &mut Vec<u8>) -> Result<(), AllocError>
        requires { length self.now.left + length self.now.right < 2 ^ 32 }
        ensures ok { OnOk result (out.new.items ≡ out.old.items ++ join_image self.now.left self.now.right) }
        ensures err { OnErr result (out.new.items ≡ out.old.items) }
    {
        let left = self.left.to_rows()?;
        let right = self.right.to_rows()?;
        put_image(out, &left, &right)
    }

    /// The join by absence whose image these bytes are, where the inputs have these bounds.
    pub fn of_image(alloc: Global, bounds: [u64; 8], bytes: &[u8]) -> Result<Except, ImageFault>
        ensures ok { IfOk result (λ except. image_read bounds bytes.now ≡ Ok except) }
        // Bytes that are taken are the image of what is remembered then, so no state has two images.
        ensures spelling { IfOk result (λ except. bytes.now ≡ join_image except.left except.right) }
        ensures fault { IfErr result (λ fault. Fails fault (image_read bounds bytes.now)) }
    {
        images_have_early_rows();
        images_have_one_spelling();
        let (left, right) = read_image(alloc, bounds, bytes)?;
        Ok(Except {
            left: Side::of_rows(alloc, &left)?,
            right: Side::of_rows(alloc, &right)?,
        })
    }

    /// Takes a left row, where the right bound is `bound`: it is given where it is alone and has ended by then, and
    /// remembered where it is alone and ends later.
    fn take_left(&mut self, row: &Event, bound: u64, out: &mut Out) -> Result<(), AllocError>
        requires { HasEarlyTimes row.now }
        ensures left { OnOk result (
            self.new.left ≡ self.old.left ++ rows_ending_above bound (alone self.old.right (row.now ∷ []))) }
        ensures right { OnOk result (self.new.right ≡ self.old.right) }
        ensures given { OnOk result (out.new.elements ≡ out.old.elements ++ map (λ r. Row r)
            (map absent_row (filter (λ r. nat_le r.end bound && is_alone self.old.right r) (row.now ∷ [])))) }
        ensures place { OnOk result (1 ≤ out.new.spare) }
        ensures err { OnErr result (self.new ≡ self.old) }
        ensures err_out { OnErr result (out.new.elements ≡ out.old.elements) }
    {
        out.reserve(2)?;
        if is_alone(row, &self.right) {
            if row.end <= bound {
                give(row, out);
            } else {
                self.left.push(row)?;
            }
        }
        Ok(())
    }

    /// Takes a right row, where the left bound is `bound`: the left rows that it overlaps are no longer alone.
    fn take_right(&mut self, row: &Event, bound: u64, out: &mut Out) -> Result<(), AllocError>
        ensures left { OnOk result (self.new.left ≡ alone (row.now ∷ []) self.old.left) }
        ensures right { OnOk result (self.new.right ≡ self.old.right ++ rows_ending_above bound (row.now ∷ [])) }
        ensures out { out.new.elements ≡ out.old.elements }
        ensures place { OnOk result (1 ≤ out.new.spare) }
        ensures err { OnErr result (self.new ≡ self.old) }
    {
        out.reserve(1)?;
        keep_open(&mut self.right, row, bound)?;
        self.left.remove_matches(row);
        Ok(())
    }

    /// Takes a Cti or the end of an input.
    fn take_rise(&mut self, input: u32, bounds: [u64; 8], out: &mut Out) -> Result<(), AllocError>
        requires { input < 2 }
        ensures left { OnOk result (self.new.left
            ≡ (if input == 0 then self.old.left else rows_ending_above (slice_index bounds 1) self.old.left)) }
        ensures right { OnOk result (self.new.right
            ≡ (if input == 0 then rows_ending_above (slice_index bounds 0) self.old.right else self.old.right)) }
        ensures given { OnOk result (out.new.elements ≡ out.old.elements ++ map (λ r. Row r) (map absent_row
            (if input == 0 then [] else ending_up_to (slice_index bounds 1) self.old.left))) }
        ensures place { OnOk result (1 ≤ out.new.spare) }
        ensures err { OnErr result (self.new ≡ self.old) }
        ensures err_out { OnErr result (out.new.elements ≡ out.old.elements) }
    {
        absent_rows_follow();
        if input == 0 {
            out.reserve(1)?;
            self.right.forget(bounds[0]);
        } else {
            out.reserve(self.left.count_ended(bounds[1]) + 1)?;
            give_ended(&mut self.left, bounds[1], out);
        }
        Ok(())
    }

    fn count_at_row(&self, input: u32, row: &Event, bound: u64) -> u64
        ensures { result ≡ (if input == 0
            then length (filter (λ r. nat_le r.end bound && is_alone self.now.right r) (row.now ∷ [])) else 0) }
    {
        if input == 0 && row.end <= bound && is_alone(row, &self.right) {
            1
        } else {
            0
        }
    }

    fn count_at_rise(&self, input: u32, bound: u64) -> u64
        ensures given { result ≡ (if input == 0 then 0 else length (ending_up_to bound self.now.left)) }
        ensures few { result < 2 ^ 63 }
    {
        absent_rows_follow();
        if input == 0 {
            0
        } else {
            self.left.count_ended(bound)
        }
    }
}
