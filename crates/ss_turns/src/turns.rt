//! The slots with their turns, which threads share.
ghost use Rattle.std.specs.Prelude.{◌≡◌, ℕ, ◌+◌, ◌<◌, true, [], length, vec_len, replicate, slice_get, Some, IfOk};
ghost use Rattle.std.specs.Prelude.{IfErr, IfSome, IfNone};
ghost use Rattle.ss_turns.specs.View.{times, fresh, took, missed, gave_back, asked, looked, fewer, one_share, merged};
ghost use Rattle.ss_turns.specs.Values.{IsPassOf, AtPlaces, HaveOnePlan};

use crate::closed::Closed;
use crate::law::{Law, Opening};
use crate::member::Member;
use crate::opening::{Room, move_back, move_in};
use crate::pass::{Pass, bring};
use crate::plays::{Ask, Cut, Give, Glue, Look, Take};
use crate::view::View;
use atomic_table::{Refused, Table};
use std::alloc::{AllocError, Global};
use std::collections::VecDeque;
use std::marker::Model;
use std::snapshot::Snapshot;

/// Slots, each with a value at home or out with a pass, and a word that says whether a stop was asked for.
#[derive(Drop)]
pub struct Turns<V: Member> {
    table: Table<Option<V>, View<V::Plan>, Opening<V>, Law<V>, Global>,
}

impl<V: Member> Model for Turns<V> {
    ghost use Rattle.std.specs.Prelude.{◌≡◌, ◌+◌};
    ghost use Rattle.ss_turns.specs.Values.{TurnsValue};

    ghost Value = { TurnsValue };

    ghost view = { λ t. record { of = t.table.shared.table_id; passes = t.table.shared.key.passes } };

    // The stop word comes after the turns.
    ghost invariant = { λ t. t.table.shared.table_id.words ≡ t.table.shared.table_id.slots + 1 };
}

impl<V: Member> Turns<V> {
    /// Puts each value in the slot of its place, and gives the first pass, which has all shares. On want of memory the
    /// values come back.
    pub fn of(
        alloc: Global,
        mut values: Vec<V>,
        passes: u32,
    ) -> Result<(Turns<V>, Pass<V>), (Vec<V>, AllocError)>
        requires some { 0 < vec_len values }
        requires places { AtPlaces V.place values.items }
        requires plan { HaveOnePlan V.plan values.items }
        requires passes { 0 < passes }
        ensures slots { IfOk result (λ t. t.0.of.slots ≡ vec_len values) }
        ensures passes { IfOk result (λ t. t.0.passes ≡ passes) }
        ensures pass { IfOk result (λ t. IsPassOf t.0 t.1) }
        ensures view { IfOk result (λ t. t.1.view ≡ fresh t.1.view.plan passes) }
        ensures plan { IfOk result (λ t. (k : ℕ) (x : V)
            → slice_get values.items k ≡ Some x → t.1.view.plan ≡ Some (V.plan x)) }
        ensures refused { IfErr result (λ e. e.0.items ≡ values.items) }
    {
        let Ok(room) = Room::of(alloc, values.len()) else {
            return Err((values, AllocError));
        };
        let key = Opening {
            of: Snapshot::of(&values[0]),
            passes,
        };
        let Room {
            words,
            mut slots,
            held,
        } = room;
        move_in(&mut values, &mut slots);
        match Table::new(alloc, words.as_slice(), slots, &key) {
            Ok((table, seat)) => Ok((Turns { table }, Pass { seat, held })),
            Err(Refused { slots }) => {
                move_back(slots, &mut values);
                Err((values, AllocError))
            }
        }
    }

    /// One try to take the value of a slot: `None` where another pass has it.
    pub fn take(&self, pass: &mut Pass<V>, slot: u32) -> Option<V>
        requires pass { IsPassOf self.now pass.old }
        requires slot { slot < self.now.of.slots }
        requires free { times slot pass.old.view.has ≡ 0 }
        ensures pass { IsPassOf self.now pass.new }
        ensures some { IfSome result (λ x. pass.new.view ≡ took pass.old.view slot (V.numbers x)) }
        ensures value { IfSome result (λ x. (V.place x ≡ slot) × (pass.old.view.plan ≡ Some (V.plan x))) }
        ensures none { IfNone result (pass.new.view ≡ missed pass.old.view) }
    {
        let word = slot as usize;
        let shared = &self.table.shared;
        if shared.compare_exchange::<Take<V>>(&mut pass.seat, word, 0, 1) != 0 {
            return None;
        }
        pass.held.push_front_reserved(slot);
        shared.exchange(&mut pass.seat, word, None)
    }

    /// Puts a value back into the slot that it was taken from, and lets others take it.
    pub fn give(&self, pass: &mut Pass<V>, slot: u32, value: V)
        requires pass { IsPassOf self.now pass.old }
        requires held { 0 < times slot pass.old.view.has }
        requires place { V.place value ≡ slot }
        requires plan { pass.old.view.plan ≡ Some (V.plan value) }
        ensures pass { IsPassOf self.now pass.new }
        ensures view { pass.new.view ≡ gave_back pass.old.view slot (V.numbers value) }
    {
        bring(&mut pass.seat, &mut pass.held, slot);
        let word = slot as usize;
        let shared = &self.table.shared;
        let None = shared.exchange(&mut pass.seat, word, Some(value)) else {
            unreachable!()
        };
        shared.store::<Give<V>>(&mut pass.seat, word, 0);
        pass.held.pop_front();
    }

    /// Asks all to stop.
    pub fn stop(&self, pass: &mut Pass<V>)
        requires { IsPassOf self.now pass.old }
        ensures pass { IsPassOf self.now pass.new }
        ensures view { pass.new.view ≡ asked pass.old.view }
    {
        let word = self.table.slot_count();
        self.table.shared.store::<Ask>(&mut pass.seat, word, 1);
    }

    /// Whether some pass has asked to stop. A pass that asked itself, or was told before, is told again.
    pub fn stopped(&self, pass: &mut Pass<V>) -> bool
        requires { IsPassOf self.now pass.old }
        ensures pass { IsPassOf self.now pass.new }
        ensures view { pass.new.view ≡ looked pass.old.view result }
        ensures again { 0 < pass.old.view.stops + pass.old.view.heard → result ≡ true }
    {
        let word = self.table.slot_count();
        self.table.shared.load::<Look>(&mut pass.seat, word) != 0
    }

    /// A new pass with one of this pass's shares.
    pub fn split(&self, alloc: Global, pass: &mut Pass<V>) -> Result<Pass<V>, AllocError>
        requires pass { IsPassOf self.now pass.old }
        requires share { 1 < pass.old.view.share }
        ensures pass { IsPassOf self.now pass.new }
        ensures new { IfOk result (λ p. IsPassOf self.now p × (p.view ≡ one_share pass.old.view)) }
        ensures view { IfOk result (λ _. pass.new.view ≡ fewer pass.old.view) }
        ensures refused { IfErr result (λ _. pass.new.view ≡ pass.old.view) }
    {
        let held = VecDeque::with_capacity(alloc, self.table.slot_count())?;
        let seat = self.table.shared.split_seat::<Cut>(&mut pass.seat);
        Ok(Pass { seat, held })
    }

    /// Takes in another pass, with its share and its counts. The records stay those of this pass.
    pub fn join(&self, pass: &mut Pass<V>, other: Pass<V>)
        requires pass { IsPassOf self.now pass.old }
        requires other { IsPassOf self.now other }
        requires free { other.view.has ≡ [] }
        ensures pass { IsPassOf self.now pass.new }
        ensures view { pass.new.view ≡ merged pass.old.view other.view }
    {
        let Pass { seat, held: _ } = other;
        self.table.shared.join_seat::<Glue>(&mut pass.seat, seat);
    }

    /// Ends the taking. A pass with all shares finds every value at home.
    pub fn close(self, pass: Pass<V>) -> Closed<V>
        requires pass { IsPassOf self pass }
        requires free { pass.view.has ≡ [] }
        ensures plan { result.plan ≡ pass.view.plan }
        ensures slots { length result.there ≡ self.of.slots }
        ensures whole { pass.view.share ≡ self.passes → result.there ≡ replicate self.of.slots true }
        ensures stop { pass.view.share ≡ self.passes → 0 < pass.view.heard → 0 < pass.view.stops }
    {
        Closed::of(self.table, pass)
    }
}
