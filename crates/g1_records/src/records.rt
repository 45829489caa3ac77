//! The records beside a history.
ghost use Rattle.std.specs.Prelude.{◌≡◌, ◌+◌, [], IfOk};
ghost use Rattle.g1_records.specs.Views.{entries_by};
ghost use Rattle.g1_records.specs.Records.{recorded, own_record, gained, made};

use crate::asks::Asks;
use crate::caller_record::CallerRecord;
use crate::rule::{Entered, Exact, Gains, Learns, Leaves, Makes, Takes};
use crate::view::View;
use atomic_table::{Badge, Seat, Table};
use std::alloc::{AllocError, Global};
use std::marker::{Brand, Model};
use std::mem;

/// The entries of a history and how many callers were made, in proofs alone. It is one word of
/// memory, which never changes.
#[derive(Drop)]
pub struct Records {
    table: Table<(), View, (), Exact, Global>,
    seat: Seat<(), View>,
}

impl Model for Records {
    ghost use Rattle.std.specs.Prelude.{◌≡◌, []};
    ghost use Rattle.g1_records.specs.Views.{keeper};
    ghost use Rattle.g1_records.specs.Records.{Recorded, recorded};

    ghost Value = { Recorded };

    ghost view = { λ a. recorded a.table.shared.table_id a.seat.me.0.all a.seat.me.0.callers };

    ghost invariant = { λ a. (a.table.shared.table_id.words ≡ 1)
        × (a.seat.table_id ≡ a.table.shared.table_id)
        × (a.seat.me ≡ (keeper a.seat.me.0.all a.seat.me.0.callers, [])) };
}

impl Records {
    /// No entry and no caller.
    pub fn open(alloc: Global) -> Result<Records, AllocError>
        ensures { IfOk result (λ r. r ≡ recorded r.table [] 0) }
    {
        let (table, seat) = Table::of_words(alloc, &[0], &())?;
        Ok(Records { table, seat })
    }

    /// One more caller. It has made what the history has of its number.
    pub fn caller(&mut self) -> CallerRecord
        ensures records { self.new
            ≡ recorded self.old.table self.old.entries (self.old.callers + 1) }
        ensures caller { result ≡ own_record self.old.table self.old.callers
            (entries_by self.old.callers self.old.entries) }
    {
        let Records { table, seat } = self;
        let own = table.shared.split_seat::<Makes>(seat);
        CallerRecord {
            badge: own.into_badge(),
        }
    }

    /// Enters a call of this caller, with its answer, in the history and in its own record. Two
    /// loads.
    #[inline(always)]
    pub fn enter<Q: Asks<A>, A>(&mut self, own: &mut CallerRecord, asked: &Q, answer: &A)
        requires table { own.old.table ≡ self.old.table }
        requires by { (Q.entry own.old.number asked.now answer.now).caller ≡ own.old.number }
        ensures records { self.new
            ≡ gained self.old (Q.entry own.old.number asked.now answer.now) }
        ensures caller { own.new ≡ made own.old (Q.entry own.old.number asked.now answer.now) }
    {
        self.enter_chosen::<Brand, Q, A>(own, asked, answer)
    }

    // The same with an entry that a type stands for, since only a type parameter takes it into the
    // step of the seats.
    #[inline(always)]
    fn enter_chosen<B: Entered, Q: Asks<A>, A>(
        &mut self,
        own: &mut CallerRecord,
        _asked: &Q,
        _answer: &A,
    )
        requires table { own.old.table ≡ self.old.table }
        requires by { B.entry.caller ≡ own.old.number }
        requires chosen { B.entry ≡ Q.entry own.old.number _asked.now _answer.now }
        ensures records { self.new ≡ gained self.old B.entry }
        ensures caller { own.new ≡ made own.old B.entry }
    {
        let Records { table, seat } = self;
        let badge = mem::replace(&mut own.badge, Badge::blank());
        let shared = &table.shared;
        shared.join_seat::<Gains<B>>(seat, badge.into_seat());
        own.badge = shared.split_seat::<Leaves>(seat).into_badge();
    }

    /// A caller's record is what the history has of it.
    pub fn check(&mut self, own: &mut CallerRecord)
        requires { own.old.table ≡ self.old.table }
        ensures same { (self.new ≡ self.old) × (own.new ≡ own.old) }
        ensures exact { own.old.entries ≡ entries_by own.old.number self.old.entries }
    {
        let Records { table, seat } = self;
        let badge = mem::replace(&mut own.badge, Badge::blank());
        let shared = &table.shared;
        shared.join_seat::<Takes>(seat, badge.into_seat());
        shared.load::<Learns>(seat, 0);
        own.badge = shared.split_seat::<Leaves>(seat).into_badge();
    }
}
