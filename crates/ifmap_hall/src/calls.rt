//! The calls of a hall.
ghost use Rattle.std.specs.Prelude.{◌≡◌, ℕ, ◌+◌, ◌-◌, ◌*◌, ◌^◌, ◌<◌, ◌≤◌, true, [], IfOk, OnErr};
ghost use Rattle.ifmap_hall.specs.Books.{sight_of, IsBook};
ghost use Rattle.ifmap_hall.specs.Sights.{CarriesOn};
ghost use Rattle.ifmap_hall.specs.Places.{times};
ghost use Rattle.ifmap_hall.specs.Plays.{FindsBook};
ghost use Rattle.ifmap_hall.specs.SeatViews.{share_of};
ghost use Rattle.ifmap_hall.specs.Views.{first_view, kept_view, given_view, joint_view};
ghost use Rattle.ifmap_hall.specs.Views.{sight_by, IsSoundView};
ghost use Rattle.ifmap_hall.specs.HallAsks.{TookATurn, AnsweredFromHistory, AnsweredFromBase};
ghost use Rattle.ifmap_hall.specs.Passes.{IsOf, view_of, pass_number, pass_parts};

use crate::book::{Asked, Book};
use crate::hall::{Hall, Pass};
use crate::hall_asks::{ask_seat, await_turn};
use crate::machine::Machine;
use crate::steps::{cut, draw, glue, look_at_rest};
use crate::view::{HallHistory, Terms};
use atomic_table::Table;
use std::alloc::{AllocError as NoMemory, Global};
use std::collections::VecDeque;
use std::snapshot::Snapshot;
use std::sync::Wait;

// A pass that is split off gets one in so many of the parts.
const SHARE_DIVISOR: u64 = 65_536;

// How many of its parts a pass gives to one that is split from it.
fn share_of(parts: u64) -> u64
    ensures { result ≡ share_of parts }
{
    if parts < SHARE_DIVISOR {
        1
    } else {
        parts / SHARE_DIVISOR
    }
}

impl<M: Machine + Drop> Hall<M>
where
    M::Event: Drop,
    M::Reply: Drop,
{
    /// A hall with no entry yet, and its first pass. Its two machines must be in one state, the
    /// opening state; twice the heaviest weight must be at most the limit, both in bytes.
    pub fn begin(
        alloc: Global,
        machine: M,
        base: M,
        limit: u64,
        heaviest: u64,
    ) -> Result<(Hall<M>, Pass<M>), NoMemory>
        requires same { machine ≡ base }
        requires room { 2 * heaviest ≤ limit }
        ensures hall { IfOk result (λ r. IsOf r.0 r.1) }
        ensures view { IfOk result (λ r. view_of r.1 ≡ first_view (view_of r.1).terms) }
        ensures sound { IfOk result (λ r. IsSoundView (view_of r.1)) }
        ensures parts { IfOk result (λ r. pass_parts r.1 ≡ 2 ^ 64 - 1) }
        ensures opening { IfOk result (λ r. (view_of r.1).terms.opening.value ≡ base) }
        ensures limit { IfOk result (λ r. (view_of r.1).terms.limit ≡ limit) }
        ensures heaviest { IfOk result (λ r. (view_of r.1).terms.heaviest ≡ heaviest) }
    {
        let terms = Terms {
            opening: Snapshot::of(&base),
            limit,
            heaviest,
        };
        let mut slots = Vec::with_capacity(alloc, 1)?;
        slots.push(Some(Book {
            base,
            machine,
            from: 0,
            journal: VecDeque::new(alloc),
            bytes: 0,
            limit,
            heaviest,
        }))?;
        let Ok((table, seat)) = Table::new(alloc, &[0, 0], slots, &terms) else {
            return Err(NoMemory);
        };
        Ok((
            Hall { table },
            Pass {
                seat,
                number: 0,
                made: 0,
                parts: u64::MAX,
            },
        ))
    }

    /// Another pass of this hall, which has seen the same and has asked nothing. It gets a 65,536th
    /// of the parts that this one has to give away, or one where there are fewer than 65,536. `Err`
    /// comes only where there are fewer than two, and leaves the pass as it was. A new hall's pass
    /// has 2^64 - 1, which last for more than two million splits of one pass, and for four levels
    /// of splits of splits.
    pub fn split(&self, pass: &mut Pass<M>) -> Result<Pass<M>, NoMemory>
        requires hall { IsOf self.now pass.old }
        ensures hall { IsOf self.now pass.new }
        ensures number { pass_number pass.new ≡ pass_number pass.old }
        ensures kept { IfOk result (λ _. view_of pass.new ≡ kept_view (view_of pass.old)) }
        ensures given { IfOk result (λ p. view_of p ≡ given_view (view_of pass.old)) }
        ensures given_hall { IfOk result (λ p. IsOf self.now p) }
        ensures sound { IsSoundView (view_of pass.new) }
        ensures given_sound { IfOk result (λ p. IsSoundView (view_of p)) }
        ensures parts { IfOk result (λ p. (pass_parts p ≡ share_of (pass_parts pass.old))
            × (pass_parts pass.new + pass_parts p ≡ pass_parts pass.old)) }
        ensures err { OnErr result ((view_of pass.new ≡ view_of pass.old)
            × (pass_parts pass.new ≡ pass_parts pass.old)) }
        ensures err_when { OnErr result (pass_parts pass.old < 2) }
    {
        if pass.parts < 2 {
            return Err(NoMemory);
        }
        let parts = share_of(pass.parts);
        let seat = cut(&self.table.shared, &mut pass.seat);
        pass.parts -= parts;
        pass.made = pass.made.wrapping_add(1);
        let number = pass.number.wrapping_add(pass.made);
        Ok(Pass {
            seat,
            number,
            made: 0,
            parts,
        })
    }

    /// Joins another pass of this hall to this one. The history is then that of the one of the two
    /// that carries on the other, and the places are those of both, which have none in common.
    pub fn join(&self, into: &mut Pass<M>, from: Pass<M>)
        requires hall { IsOf self.now into.old × IsOf self.now from }
        ensures hall { IsOf self.now into.new }
        ensures number { pass_number into.new ≡ pass_number into.old }
        ensures view { view_of into.new ≡ joint_view (view_of into.old) (view_of from) }
        ensures carries_this { CarriesOn M.next
            (sight_by M.next (view_of into.old)) (sight_by M.next (view_of into.new)) }
        ensures carries_other { CarriesOn M.next
            (sight_by M.next (view_of from)) (sight_by M.next (view_of into.new)) }
        ensures apart { (x : ℕ)
            → times x (view_of into.old).mine + times x (view_of from).mine ≤ 1 }
        ensures sound { IsSoundView (view_of into.new) }
        ensures parts { pass_parts into.new ≡ pass_parts into.old + pass_parts from }
    {
        let Pass {
            seat,
            number: _,
            made: _,
            parts,
        } = from;
        glue(&self.table.shared, &mut into.seat, seat);
        look_at_rest(&self.table.shared, &mut into.seat);
        into.parts = into.parts.saturating_add(parts);
    }

    /// Asks the book in turn, and may wait for it. What the pass has seen is afterwards all that
    /// the book has seen. The answer is that of `Book::turn` on the book as the turn found it.
    pub fn ask<R: Wait>(
        &self,
        rt: &R,
        alloc: Global,
        pass: &mut Pass<M>,
        event: M::Event,
    ) -> Asked<M::Event, M::Reply>
        requires hall { IsOf self.now pass.old }
        requires light { M.weight_of event ≤ (view_of pass.old).terms.heaviest }
        ensures hall { IsOf self.now pass.new }
        ensures number { pass_number pass.new ≡ pass_number pass.old }
        ensures parts { pass_parts pass.new ≡ pass_parts pass.old }
        ensures carries { CarriesOn M.next
            (sight_by M.next (view_of pass.old)) (sight_by M.next (view_of pass.new)) }
        ensures took { TookATurn (view_of pass.old) (view_of pass.new) }
        ensures answered { AnsweredFromHistory M.next M.holds_on M.reply
            (view_of pass.old) (view_of pass.new) (pass_number pass.old) event result }
        ensures from_base { AnsweredFromBase M.next M.holds_on M.reply
            (sight_by M.next (view_of pass.new)) (pass_number pass.old) event result }
    {
        let number = pass.number;
        ask_seat(rt, &self.table.shared, alloc, &mut pass.seat, number, event)
    }

    /// Takes the book out in turn, and ends the hall. It may wait. Another pass that was not joined
    /// can ask nothing any more.
    pub fn close<R: Wait>(self, rt: &R, pass: Pass<M>) -> Book<M>
        requires hall { IsOf self pass }
        ensures carries { CarriesOn M.next (sight_by M.next (view_of pass)) (sight_of result) }
        ensures book { IsBook M.next M.weight_of result }
        ensures limit { result.limit ≡ (view_of pass).terms.limit }
        ensures heaviest { result.heaviest ≡ (view_of pass).terms.heaviest }
        ensures whole { (h : HallHistory M.Event)
            × FindsBook M.next M.weight_of (view_of pass) h result }
    {
        let Hall { table } = self;
        let Pass {
            mut seat,
            number: _,
            made: _,
            parts: _,
        } = pass;
        let ticket = draw(&table.shared, &mut seat);
        await_turn(rt, &table.shared, &mut seat, ticket);
        let Some(book) = table.shared.exchange(&mut seat, 0, None) else {
            unreachable!();
        };
        book
    }
}
