ghost use Rattle.std.specs.Prelude.{◌≡◌, ◌+◌, ◌^◌, ◌<◌, ◌≤◌, ◌++◌, [], length, All, Ok, OnOk, OnErr, IfOk, IfErr};
ghost use Rattle.std.specs.Prelude.{IsTrue, ◌↔◌};
ghost use Rattle.ss_expr.specs.Operators.{HasGap, field_of};
ghost use Rattle.ss_image.specs.Faults.{Fails};
ghost use Rattle.ss_image.specs.Images.{session_image};
ghost use Rattle.ss_meaning.specs.Jobs.{IsBefore};
ghost use Rattle.ss_session.specs.ImageTests.{image_read};
ghost use Rattle.ss_session.specs.States.{StandsAfter, StepsFromAll, CountsFew, FewArrivalsAreFewRows, reached};
ghost use Rattle.ss_session.specs.SessionSteps.{NoneCloseBefore, with_row, left, given_at};

use crate::session_closing::{closed, give};
use crate::session_entry::Entry;
use crate::session_image_reader::read_image;
use crate::session_image_writer::put_image;
use crate::session_puts::put;
use ss_elem::{Bound, Element, Event, Out};
use ss_expr::{Agg, Field};
use ss_image::{ImageFault, numbers_have_one_spelling};
use ss_meaning::{sessions_are_apart, sessions_close_in_time, sessions_follow};
use std::alloc::{AllocError, Global};
use std::marker::Model;

/// A session window: rows of a key belong to one session where each starts less than `gap` after the one before it,
/// and a session is given as one row once Low has come `gap` past its last start.
///
/// It remembers the sessions that are open, in the order of keys and then of starts.
#[derive(Drop)]
pub struct Session {
    alloc: Global,
    gap: u64,
    agg: Agg,
    of: Field,
    entries: Vec<Entry>,
    /// No session closes before this time.
    soonest: u64,
}

impl Model for Session {
    ghost use Rattle.ss_session.specs.States.{State};
    ghost use Rattle.ss_session.specs.SessionSteps.{state_of, AreHeld};

    ghost Value = { State };

    ghost view = { λ s. state_of s.gap s.agg s.of s.entries.items };

    ghost invariant = { λ s. AreHeld s.gap s.soonest s.entries.items };
}

impl Session {
    /// A session window to which nothing has arrived. It takes no memory.
    pub fn new(alloc: Global, gap: u64, agg: Agg, of: Field) -> Session
        requires { HasGap gap }
        ensures settings { result.settings ≡ record { gap = gap; agg = agg; field = of } }
        ensures stands { StandsAfter result [] }
    {
        Session {
            alloc,
            gap,
            agg,
            of,
            entries: Vec::new(alloc),
            soonest: u64::MAX,
        }
    }

    /// Takes the next element, and appends the rows that are given at it. `low` is Low after the element. A place is
    /// left for what is given behind the rows.
    ///
    /// An error is want of memory.
    pub fn step(&mut self, x: &Element, low: Bound, out: &mut Out) -> Result<(), AllocError>
        requires early { IsBefore (2 ^ 63) x.now }
        requires few { All CountsFew self.old.entries }
        ensures settings { self.new.settings ≡ self.old.settings }
        ensures ok { OnOk result (StepsFromAll self.old self.new out.old.elements out.new.elements x.now low) }
        ensures place { OnOk result (1 ≤ out.new.spare) }
        ensures err { OnErr result (self.new ≡ self.old) }
        ensures err_out { OnErr result (out.new.elements ≡ out.old.elements) }
    {
        sessions_follow();
        sessions_close_in_time();
        match x {
            Element::Row(row) => self.take_row(row, out),
            Element::Cti(_) => self.take_rise(low.get(), out),
            Element::End => self.take_rise(low.get(), out),
        }
    }

    /// Whether each session counts fewer than 2^62 rows, so that a row may be taken.
    pub fn counts_few(&self) -> bool
        ensures { IsTrue result ↔ All CountsFew self.now.entries }
    {
        self.entries.iter().all(|entry| entry.rows() < 1 << 62)
    }

    /// How many rows are given where Low rises to `low`.
    pub fn due(&self, low: Bound) -> u64
        ensures due { result ≡ length (reached self.now.settings.gap low self.now.entries) }
        ensures few { result < 2 ^ 63 }
    {
        if low.get() < self.soonest {
            return 0;
        }
        count_closed(self.entries.as_slice(), self.gap, low.get())
    }

    /// How many sessions are remembered.
    pub fn held(&self) -> u64
        ensures { result ≡ length self.now.entries }
    {
        self.entries.len() as u64
    }

    /// Appends the image of the sessions.
    ///
    /// An error is want of memory.
    pub fn image(&self, out: &mut Vec<u8>) -> Result<(), AllocError>
        requires { length self.now.entries < 2 ^ 32 }
        ensures ok { OnOk result (out.new.items ≡ out.old.items ++ session_image self.now.entries) }
        ensures err { OnErr result (out.new.items ≡ out.old.items) }
    {
        put_image(out, &self.entries)
    }

    /// The session window whose image these bytes are, where Low is `low`.
    pub fn of_image(
        alloc: Global,
        gap: u64,
        agg: Agg,
        of: Field,
        low: Bound,
        bytes: &[u8],
    ) -> Result<Session, ImageFault>
        requires { HasGap gap }
        ensures settings { IfOk result (λ s. s.settings ≡ record { gap = gap; agg = agg; field = of }) }
        ensures ok { IfOk result (λ s. image_read gap agg low bytes.now ≡ Ok s.entries) }
        // Bytes that are taken are the image of what is remembered then, so no state has two images.
        ensures spelling { IfOk result (λ s. bytes.now ≡ session_image s.entries) }
        ensures fault { IfErr result (λ fault. Fails fault (image_read gap agg low bytes.now)) }
    {
        numbers_have_one_spelling();
        let entries = read_image(alloc, gap, agg, low.get(), bytes)?;
        let soonest = soonest(entries.as_slice(), gap);
        Ok(Session {
            alloc,
            gap,
            agg,
            of,
            entries,
            soonest,
        })
    }

    /// Puts a row into the sessions of its key.
    fn take_row(&mut self, row: &Event, out: &mut Out) -> Result<(), AllocError>
        requires early { row.now.start < 2 ^ 63 }
        requires few { All CountsFew self.old.entries }
        ensures gap { OnOk result (HasGap self.old.settings.gap) }
        ensures settings { self.new.settings ≡ self.old.settings }
        ensures entries { OnOk result (self.new.entries ≡ with_row self.old.settings row.now self.old.entries) }
        ensures out { out.new.elements ≡ out.old.elements }
        ensures place { OnOk result (1 ≤ out.new.spare) }
        ensures err { OnErr result (self.new ≡ self.old) }
    {
        sessions_are_apart();
        out.reserve(1)?;
        self.entries.reserve(1)?;
        let session = Entry::single(row.key, row.start, value(row, self.of));
        put(&mut self.entries, &session, self.gap, self.agg);
        self.soonest = self.soonest.min(session.closing(self.gap));
        Ok(())
    }

    /// Gives the sessions that have closed at `low`, and forgets them.
    fn take_rise(&mut self, low: u64, out: &mut Out) -> Result<(), AllocError>
        ensures gap { OnOk result (HasGap self.old.settings.gap) }
        ensures settings { self.new.settings ≡ self.old.settings }
        ensures entries { OnOk result (self.new.entries ≡ left self.old.settings.gap low self.old.entries) }
        ensures given { OnOk result (out.new.elements ≡ out.old.elements ++ given_at low self.old) }
        ensures place { OnOk result (1 ≤ out.new.spare) }
        ensures err { OnErr result (self.new ≡ self.old) }
        ensures err_out { OnErr result (out.new.elements ≡ out.old.elements) }
    {
        if low < self.soonest {
            out.reserve(1)?;
            return Ok(());
        }
        let by_closing = closed(self.alloc, self.entries.as_slice(), self.gap, low)?;
        out.reserve(by_closing.len() as u64 + 1)?;
        give(&by_closing, self.gap, out);
        forget(&mut self.entries, self.gap, low);
        self.soonest = soonest(self.entries.as_slice(), self.gap);
        Ok(())
    }
}

/// How many of these sessions have closed at `low`.
fn count_closed(entries: &[Entry], gap: u64, low: u64) -> u64
    requires { gap ≤ 2 ^ 40 }
    ensures closed { result ≡ length (reached gap low entries.now) }
    ensures within { result ≤ length entries.now }
{
    entries
        .iter()
        .filter(|entry| entry.closing(gap) <= low)
        .count() as u64
}

/// A time before which none of these sessions closes.
fn soonest(entries: &[Entry], gap: u64) -> u64
    requires { gap ≤ 2 ^ 40 }
    ensures { NoneCloseBefore gap result entries.now }
{
    let mut least = u64::MAX;
    for entry in entries {
        least = least.min(entry.closing(gap));
    }
    least
}

/// Takes out the sessions that have closed at `low`.
fn forget(entries: &mut Vec<Entry>, gap: u64, low: u64)
    requires { gap ≤ 2 ^ 40 }
    ensures { entries.new.items ≡ left gap low entries.old.items }
{
    entries.retain(|entry| entry.closing(gap) > low);
}

/// The value of a row that is aggregated.
fn value(row: &Event, of: Field) -> i64
    ensures { result ≡ field_of of row.now }
{
    match of {
        Field::A => row.a,
        Field::B => row.b,
        Field::C => row.c,
        Field::D => row.d,
    }
}

/// No session counts more rows than elements have arrived, so that a session window to which fewer than 2^62 have
/// arrived may take the next one.
pub fn few_arrivals_are_few_rows()
    ensures { FewArrivalsAreFewRows }
{
    sessions_follow();
    sessions_are_apart();
}
