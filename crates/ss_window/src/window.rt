ghost use Rattle.std.specs.Prelude.{◌≡◌, ◌+◌, ◌^◌, ◌<◌, ◌≤◌, ◌++◌, [], length, All, OnOk, OnErr, IfOk, IfErr, Ok};
ghost use Rattle.std.specs.Prelude.{IsTrue, ◌↔◌};
ghost use Rattle.ss_expr.specs.Operators.{HasWholeHops, field_of};
ghost use Rattle.ss_meaning.specs.Jobs.{IsBefore};
ghost use Rattle.ss_image.specs.Images.{window_image};
ghost use Rattle.ss_image.specs.Faults.{Fails};
ghost use Rattle.ss_window.specs.ImageTests.{image_read};
ghost use Rattle.ss_window.specs.States.{StandsAfter, StepsFromAll, CountsFew, FewArrivalsAreFewRows};
ghost use Rattle.ss_window.specs.States.{with_row, left, reached, given_at, pane_count};

use crate::given::give_reached;
use crate::image_reader::read_image;
use crate::image_writer::put_image;
use crate::panes::Panes;
use crate::puts::put_all;
use ss_elem::{Bound, Element, Event, Out};
use ss_expr::{Agg, Field};
use ss_image::{ImageFault, numbers_have_one_spelling};
use ss_meaning::{entries_are_in_order, entries_follow};
use std::alloc::{AllocError, Global};
use std::marker::Model;

/// A hopping window: it ends at each multiple of `hop`, and gives an aggregate of the rows of the last `size` for
/// each key that has one.
///
/// It remembers a pane for each end above Low with a row, in the order of ends, and in the pane a total for each key
/// with a row at that end, in the order of keys.
#[derive(Drop)]
pub struct Window {
    size: u64,
    hop: u64,
    agg: Agg,
    of: Field,
    panes: Panes,
}

impl Model for Window {
    ghost use Rattle.ss_expr.specs.Operators.{HasWholeHops};
    ghost use Rattle.ss_window.specs.States.{State, state_of};

    ghost Value = { State };

    ghost view = { λ w. state_of w.size w.hop w.agg w.of w.panes };

    ghost invariant = { λ w. HasWholeHops w.size w.hop };
}

impl Window {
    /// A window to which nothing has arrived. It takes no memory.
    pub fn new(alloc: Global, size: u64, hop: u64, agg: Agg, of: Field) -> Window
        requires { HasWholeHops size hop }
        ensures settings { result.settings ≡ record { size = size; hop = hop; agg = agg; field = of } }
        ensures stands { StandsAfter result [] }
    {
        Window {
            size,
            hop,
            agg,
            of,
            panes: Panes::new(alloc),
        }
    }

    /// Takes the next element, and appends the rows that the window gives at it. `low` is Low after the element. A
    /// place is left for what is given behind the rows.
    ///
    /// An error is want of memory.
    pub fn step(&mut self, x: &Element, low: Bound, out: &mut Out) -> Result<(), AllocError>
        requires early { IsBefore (2 ^ 63) x.now }
        requires few { All CountsFew self.old.entries }
        ensures settings { self.new.settings ≡ self.old.settings }
        ensures ok { OnOk result (StepsFromAll self.old self.new out.old.elements out.new.elements x.now low) }
        ensures place { OnOk result (1 ≤ out.new.spare) }
        ensures err { OnErr result (self.new ≡ self.old) }
        ensures err_out { OnErr result (out.new.elements ≡ out.old.elements) }
    {
        entries_follow();
        match x {
            Element::Row(row) => self.take_row(row, low.get(), out),
            Element::Cti(_) => self.take_rise(low.get(), out),
            Element::End => self.take_rise(low.get(), out),
        }
    }

    /// Whether each entry counts fewer than 2^62 rows, so that the window may take a row.
    pub fn counts_few(&self) -> bool
        ensures { IsTrue result ↔ All CountsFew self.now.entries }
    {
        self.panes.counts_few()
    }

    /// How many rows the window gives where Low rises to `low`.
    pub fn due(&self, low: Bound) -> u64
        ensures due { result ≡ length (reached low self.now.entries) }
        ensures few { result < 2 ^ 63 }
    {
        self.panes.due(low.get())
    }

    /// How many entries the window remembers.
    pub fn held(&self) -> u64
        ensures { result ≡ length self.now.entries }
    {
        self.panes.held()
    }

    /// How many different ends the remembered entries have.
    pub fn panes(&self) -> u64
        ensures { result ≡ pane_count self.now.entries }
    {
        self.panes.count()
    }

    /// Appends the image of the window's entries.
    ///
    /// An error is want of memory.
    pub fn image(&self, out: &mut Vec<u8>) -> Result<(), AllocError>
        requires { length self.now.entries < 2 ^ 32 }
        ensures ok { OnOk result (out.new.items ≡ out.old.items ++ window_image self.now.entries) }
        ensures err { OnErr result (out.new.items ≡ out.old.items) }
    {
        put_image(out, &self.panes)
    }

    /// The window whose image these bytes are, where Low is `low`.
    pub fn of_image(
        alloc: Global,
        size: u64,
        hop: u64,
        agg: Agg,
        of: Field,
        low: Bound,
        bytes: &[u8],
    ) -> Result<Window, ImageFault>
        requires { HasWholeHops size hop }
        ensures settings { IfOk result (λ w. w.settings ≡ record { size = size; hop = hop; agg = agg; field = of }) }
        ensures ok { IfOk result (λ w. image_read hop agg low bytes.now ≡ Ok w.entries) }
        // Bytes that are taken are the image of what is remembered then, so no state has two images.
        ensures spelling { IfOk result (λ w. bytes.now ≡ window_image w.entries) }
        ensures fault { IfErr result (λ fault. Fails fault (image_read hop agg low bytes.now)) }
    {
        numbers_have_one_spelling();
        let panes = read_image(alloc, hop, agg, low.get(), bytes)?;
        Ok(Window {
            size,
            hop,
            agg,
            of,
            panes,
        })
    }

    /// Puts a row into the entries of its ends above `low`.
    fn take_row(&mut self, row: &Event, low: u64, out: &mut Out) -> Result<(), AllocError>
        requires early { row.now.start < 2 ^ 63 }
        requires few { All CountsFew self.old.entries }
        ensures hops { HasWholeHops self.old.settings.size self.old.settings.hop }
        ensures settings { self.new.settings ≡ self.old.settings }
        ensures entries { OnOk result (self.new.entries ≡ with_row self.old.settings row.now low self.old.entries) }
        ensures out { out.new.elements ≡ out.old.elements }
        ensures place { OnOk result (1 ≤ out.new.spare) }
        ensures err { OnErr result (self.new ≡ self.old) }
    {
        let before = row.start / self.hop;
        let last = (row.start + self.size) / self.hop;
        out.reserve(1)?;
        put_all(
            &mut self.panes,
            self.hop,
            before + 1,
            last + 1,
            low,
            &row.key,
            value(row, self.of),
            self.agg,
        )
    }

    /// Gives the entries up to `low` as rows, and forgets them.
    fn take_rise(&mut self, low: u64, out: &mut Out) -> Result<(), AllocError>
        requires { low ≤ 2 ^ 63 }
        ensures settings { self.new.settings ≡ self.old.settings }
        ensures entries { OnOk result (self.new.entries ≡ left low self.old.entries) }
        ensures given { OnOk result (out.new.elements ≡ out.old.elements ++ given_at low self.old) }
        ensures place { OnOk result (1 ≤ out.new.spare) }
        ensures err { OnErr result (self.new ≡ self.old) }
        ensures err_out { OnErr result (out.new.elements ≡ out.old.elements) }
    {
        out.reserve(self.panes.due(low) + 1)?;
        give_reached(&mut self.panes, self.hop, low, out);
        Ok(())
    }
}

/// The value of a row that is aggregated.
fn value(row: &Event, of: Field) -> i64
    ensures { result ≡ field_of of row.now }
{
    match of {
        Field::A => row.a,
        Field::B => row.b,
        Field::C => row.c,
        Field::D => row.d,
    }
}

/// No entry counts more rows than elements have arrived, so that a window to which fewer than 2^62 have arrived may
/// take the next one.
pub fn few_arrivals_are_few_rows()
    ensures { FewArrivalsAreFewRows }
{
    entries_are_in_order();
}
