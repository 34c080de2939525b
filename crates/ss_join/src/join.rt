ghost use Rattle.std.specs.Prelude.{◌≡◌, ◌+◌, ◌^◌, ◌<◌, ◌≤◌, ◌++◌, [], ◌∷◌, length, OnOk, OnErr, IfOk, IfErr, Ok};
ghost use Rattle.ss_image.specs.Images.{join_image};
ghost use Rattle.ss_image.specs.Faults.{Fails};
ghost use Rattle.ss_join.specs.ImageTests.{image_read};
ghost use Rattle.ss_join.specs.States.{StandsAfter, StepsFromAll, CountsGiven, with_row, without_ended, given_at};
ghost use Rattle.ss_join.specs.States.{joined_elements, key_count};
ghost use Rattle.ss_meaning.specs.Entries.{rows_ending_above};

use crate::image_reader::read_image;
use crate::image_writer::put_image;
use crate::pairs::{count, give};
use crate::side::Side;
use ss_elem::{Element, Event, Out};
use ss_image::{ImageFault, numbers_have_one_spelling};
use ss_meaning::join_sides_follow;
use std::alloc::{AllocError, Global};
use std::marker::Model;

/// A temporal join: for two rows of its two inputs with one key and overlapping spans it gives the time that they have
/// in common. Input 0 is the left one.
///
/// It remembers of each input the rows that end above the other input's bound, in the order of their arrival.
#[derive(Drop)]
pub struct Join {
    left: Side,
    right: Side,
}

impl Model for Join {
    ghost use Rattle.ss_join.specs.States.{Sides};

    ghost Value = { Sides };

    ghost view = { λ j. record { left = j.left; right = j.right } };
}

impl Join {
    /// A join to which nothing has arrived. It takes no memory.
    pub fn new(alloc: Global) -> Join
        ensures { StandsAfter result [] }
    {
        Join {
            left: Side::new(alloc),
            right: Side::new(alloc),
        }
    }

    /// Takes the next element, and appends the rows that the join gives at it. `bounds` are those of the inputs after
    /// the element, in their order. A place is left for what is given behind the rows.
    ///
    /// An error is want of memory.
    pub fn step(
        &mut self,
        input: u32,
        x: &Element,
        bounds: [u64; 8],
        out: &mut Out,
    ) -> Result<(), AllocError>
        requires { input < 2 }
        ensures ok { OnOk result (StepsFromAll self.old self.new out.old.elements out.new.elements input x.now bounds) }
        ensures place { OnOk result (1 ≤ out.new.spare) }
        ensures err { OnErr result (self.new ≡ self.old) }
        ensures err_out { OnErr result (out.new.elements ≡ out.old.elements) }
    {
        join_sides_follow();
        match x {
            Element::Row(row) => self.take_row(input, row, bounds, out),
            Element::Cti(_) => self.take_rise(input, bounds, out),
            Element::End => self.take_rise(input, bounds, out),
        }
    }

    /// How many rows a step would give at an element of this input, without making it.
    pub fn count_given(&self, input: u32, x: &Element) -> u64
        requires { input < 2 }
        ensures given { CountsGiven self.now input x.now result }
        ensures few { result < 2 ^ 63 }
    {
        join_sides_follow();
        match x {
            Element::Row(row) => self.count_matches(input, row),
            Element::Cti(_) => 0,
            Element::End => 0,
        }
    }

    /// How many rows the join remembers.
    pub fn held(&self) -> u64
        ensures { result ≡ length self.now.left + length self.now.right }
    {
        self.left.len() as u64 + self.right.len() as u64
    }

    /// How many different keys the remembered rows have.
    pub fn keys(&self) -> u64
        ensures { result ≡ key_count (self.now.left ++ self.now.right) }
    {
        self.left.keys_beside(&self.right) + self.right.keys()
    }

    /// Appends the image of the rows that the join remembers.
    ///
    /// An error is want of memory.
    pub fn image(&self, out: &mut Vec<u8>) -> Result<(), AllocError>
        requires { length self.now.left + length self.now.right < 2 ^ 32 }
        ensures ok { OnOk result (out.new.items ≡ out.old.items ++ join_image self.now.left self.now.right) }
        ensures err { OnErr result (out.new.items ≡ out.old.items) }
    {
        let left = self.left.to_rows()?;
        let right = self.right.to_rows()?;
        put_image(out, &left, &right)
    }

    /// The join whose image these bytes are, where the inputs have these bounds.
    pub fn of_image(alloc: Global, bounds: [u64; 8], bytes: &[u8]) -> Result<Join, ImageFault>
        ensures ok { IfOk result (λ join. image_read bounds bytes.now ≡ Ok join) }
        // Bytes that are taken are the image of what is remembered then, so no state has two images.
        ensures spelling { IfOk result (λ join. bytes.now ≡ join_image join.left join.right) }
        ensures fault { IfErr result (λ fault. Fails fault (image_read bounds bytes.now)) }
    {
        numbers_have_one_spelling();
        let (left, right) = read_image(alloc, bounds, bytes)?;
        Ok(Join {
            left: Side::of_rows(alloc, &left)?,
            right: Side::of_rows(alloc, &right)?,
        })
    }

    /// How many remembered rows of the other input a row of this one joins.
    fn count_matches(&self, input: u32, row: &Event) -> u64
        ensures given { result ≡ length (given_at input row.now self.now) }
        ensures few { result < 2 ^ 63 }
    {
        if input == 0 {
            count(row, &self.right)
        } else {
            count(row, &self.left)
        }
    }

    /// Gives what the row joins, and keeps it.
    fn take_row(
        &mut self,
        input: u32,
        row: &Event,
        bounds: [u64; 8],
        out: &mut Out,
    ) -> Result<(), AllocError>
        ensures kept { OnOk result (self.new ≡ with_row input row.now bounds self.old) }
        ensures given { OnOk result (out.new.elements ≡ out.old.elements ++ given_at input row.now self.old) }
        ensures place { OnOk result (1 ≤ out.new.spare) }
        ensures err { OnErr result (self.new ≡ self.old) }
        ensures err_out { OnErr result (out.new.elements ≡ out.old.elements) }
    {
        if input == 0 {
            take_row(input, row, &mut self.left, &self.right, bounds[1], out)
        } else {
            take_row(input, row, &mut self.right, &self.left, bounds[0], out)
        }
    }

    /// Forgets the rows of the other input that end at this input's bound or before it.
    fn take_rise(&mut self, input: u32, bounds: [u64; 8], out: &mut Out) -> Result<(), AllocError>
        ensures kept { OnOk result (self.new ≡ without_ended input bounds self.old) }
        ensures out { out.new.elements ≡ out.old.elements }
        ensures place { OnOk result (1 ≤ out.new.spare) }
        ensures err { OnErr result (self.new ≡ self.old) }
    {
        out.reserve(1)?;
        if input == 0 {
            self.right.forget(bounds[0]);
        } else {
            self.left.forget(bounds[1]);
        }
        Ok(())
    }
}

/// Gives what a row of this input joins of the other side, and keeps it on its own side where it ends above `bound`,
/// the bound of the other input.
fn take_row(
    input: u32,
    row: &Event,
    own: &mut Side,
    other: &Side,
    bound: u64,
    out: &mut Out,
) -> Result<(), AllocError>
    ensures kept { OnOk result (own.new ≡ own.old ++ rows_ending_above bound (row.now ∷ [])) }
    ensures given { OnOk result (out.new.elements ≡ out.old.elements ++ joined_elements input row.now other.now) }
    ensures place { OnOk result (1 ≤ out.new.spare) }
    ensures err { OnErr result (own.new ≡ own.old) }
    ensures err_out { OnErr result (out.new.elements ≡ out.old.elements) }
{
    out.reserve(other.len() as u64 + 1)?;
    if row.end > bound {
        own.push(row)?;
    }
    give(input, row, other, out);
    Ok(())
}
