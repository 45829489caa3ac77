//! The queue of completed buffers between threads.
ghost use Rattle.std.specs.Prelude.{◌≡◌, ◌∷◌, ◌++◌, ◌+◌, ◌-◌, ◌<◌, ◌≤◌, ◌^◌, ◌⊎◌};
ghost use Rattle.g1_log.specs.Prelude.{false, [], length, map, fold, sum_by, MatchResult};
ghost use Rattle.g1_log.specs.Prelude.{MatchOption, IfOk, OnOk, IsTrue, All, view, IsPassOf};
ghost use Rattle.g1_log.specs.Prelude.{IsSamePass, ruled_capacity};
ghost use Rattle.g1_log.specs.Line.{maker, newcomer, joined, whole};

use crate::buffer::Buffer;
use crate::ends::{Sender, Settled, Taker};
use crate::parcel::Parcel;
use crate::rule::{
    EndsLine, ForSender, ForTaker, JoinsEnd, Opens, PutsParcel, Queue, TakesParcel, TakesRest,
};
use crate::view::PassView;
use crossbeam_queue::Pass;
use crossbeam_queue::protocol::Free;
use g1_layout::NoMemory;
use std::alloc::Global;
use std::sync::Wait;

/// The queue of completed buffers: a bounded queue without a lock. Senders put into it and takers
/// take from it, each in a thread of its own.
///
/// Between any two steps of any threads, under every schedule:
///
/// - each buffer that a sender has put is exactly once in the queue and all takers' lists together,
///   as the parcel of that sender and of its place among that sender's buffers, and nothing else is
///   there (`each_parcel_stands_once`);
/// - the numbers of one sender rise in the queue and in each taker's list, and those taken are
///   below those in the queue.
///
/// The rules are in docs/rules.md, The queue of completed buffers.
#[derive(Drop)]
pub struct Line {
    queue: Queue,
    ghost few: { ruled_capacity queue ≤ 1024 },
}

// No sender puts more buffers than this, so that its numbers stay within their type.
const MOST_PUT: u64 = 1 << 58;

impl Line {
    ghost use Rattle.g1_log.specs.Ends.{IsSenderOf, IsTakerOf, IsSameSender, IsSameTaker, put_of};
    ghost use Rattle.g1_log.specs.Ends.{taken_of, capacity_of, WasFull, WasEmpty, AreNewSenders};
    ghost use Rattle.g1_log.specs.Ends.{IsNewTaker, sender_rights, taker_rights, AreAll};
    ghost use Rattle.g1_log.specs.Ends.{sender_view, taker_view, put_count, taken_count};
    ghost use Rattle.g1_log.specs.Ends.{EachTakenOrLeft, AreNumberedApart, RiseInto, left_of};
    ghost use Rattle.g1_log.specs.Ends.{sent_of, left_count};

    /// Makes an empty queue of at most `capacity` buffers, with its senders, numbered from 0, and
    /// its takers.
    ///
    /// Only this call takes memory: for the queue, the two lists and nothing else. It returns
    /// `NoMemory` if a growth was refused.
    pub fn new(
        alloc: Global,
        capacity: usize,
        senders: u32,
        takers: u32,
    ) -> Result<(Line, Vec<Sender>, Vec<Taker>), NoMemory>
        requires capacity { (1 ≤ capacity) × (capacity ≤ 1024) }
        requires senders { (1 ≤ senders) × (senders ≤ 8) }
        requires takers { (1 ≤ takers) × (takers ≤ 12) }
        ensures capacity { IfOk result (λ r. capacity_of r.0 ≡ capacity) }
        ensures senders { IfOk result (λ r. (length r.1.items ≡ senders)
            × AreNewSenders r.0 0 r.1.items × All (IsSenderOf r.0) r.1.items) }
        ensures takers { IfOk result (λ r. (length r.2.items ≡ takers)
            × All (IsNewTaker r.0) r.2.items × All (IsTakerOf r.0) r.2.items) }
        ensures all { IfOk result (λ r. AreAll r.1.items r.2.items) }
    {
        let (queue, mut maker) = Queue::ruled(alloc, capacity)?;
        let line = Line { queue };
        let _ = line.queue.another::<Opens>(&mut maker);
        let senders = line.make_senders(alloc, &mut maker, senders)?;
        let takers = line.make_takers(alloc, maker, takers)?;
        Ok((line, senders, takers))
    }

    /// Puts a buffer last into the queue, under this sender's next number.
    ///
    /// `Err` hands the buffer back, and uses up no number. It comes only if the queue was full at
    /// some moment of the call, or if this sender has put 2^58 buffers. (The clause names a state
    /// in which the queue was full, but ties it to no moment: it is tests that show when puts
    /// succeed, as docs/DECISIONS.md says.) The call is one step of the queue, which moves the
    /// buffer. It takes no memory.
    #[inline(always)]
    pub fn put<R: Wait>(&self, rt: &R, sender: &mut Sender, buffer: Buffer) -> Result<(), Buffer>
        requires { IsSenderOf self.now sender.old }
        ensures same { IsSameSender sender.new sender.old }
        ensures put { MatchResult result
            (λ _. put_of sender.new ≡ put_of sender.old ++ buffer ∷ [])
            (λ back. (back ≡ buffer) × (put_of sender.new ≡ put_of sender.old)
            × ((length (put_of sender.old) ≡ 2 ^ 58) ⊎ WasFull self.now sender.old)) }
    {
        if sender.next >= MOST_PUT {
            return Err(buffer);
        }
        let parcel = Parcel {
            sender: sender.number,
            number: sender.next,
            buffer,
        };
        match self
            .queue
            .push_as::<PutsParcel, R>(rt, &mut sender.pass, parcel)
        {
            Ok(()) => {
                sender.next += 1;
                Ok(())
            }
            Err(back) => Err(back.buffer),
        }
    }

    /// Takes the oldest parcel of the queue.
    ///
    /// `None` comes only if the queue was empty at some moment of the call. (The clause names a
    /// state in which the queue was empty, but ties it to no moment: it is tests that show when
    /// takes find a parcel, as docs/DECISIONS.md says.) No clause says that the parcel is the
    /// oldest. The rule says that the numbers of each sender rise in what a taker takes. The call
    /// is one step of the queue, which moves the buffer. It takes no memory.
    #[inline(always)]
    pub fn take<R: Wait>(&self, rt: &R, taker: &mut Taker) -> Option<Parcel>
        requires { IsTakerOf self.now taker.old }
        ensures same { IsSameTaker taker.new taker.old }
        ensures taken { MatchOption result
            ((taken_of taker.new ≡ taken_of taker.old) × WasEmpty taker.old)
            (λ x. taken_of taker.new ≡ taken_of taker.old ++ x ∷ []) }
    {
        self.queue.pop_as::<TakesParcel, R>(rt, &mut taker.pass)
    }

    /// Whether the queue was seen empty at some moment of the call: a take that is not made.
    ///
    /// `true` means what the `None` of [`Line::take`] means, by the same clause. The call costs two
    /// loads and moves no parcel. If there are other takers, `false` does not mean that a take
    /// finds a parcel. It takes no memory.
    pub fn is_empty_for(&self, taker: &mut Taker) -> bool
        requires { IsTakerOf self.now taker.old }
        ensures same { IsSameTaker taker.new taker.old }
        ensures view { taker_view taker.new ≡ taker_view taker.old }
        ensures taken { taken_of taker.new ≡ taken_of taker.old }
        ensures empty { IsTrue result → WasEmpty taker.old }
    {
        self.queue.is_empty_as::<TakesParcel>(&mut taker.pass)
    }

    /// How many parcels the queue holds at most, as it was made. Constant time; no memory.
    pub fn capacity(&self) -> usize
        ensures capacity { result ≡ capacity_of self.now }
        ensures few { result ≤ 1024 }
    {
        self.queue.capacity()
    }

    /// How many parcels the queue held at some moment of the call. The clause says only that this
    /// is at most the capacity. It takes no memory.
    pub fn len<R: Wait>(&self, rt: &R) -> usize
        ensures within { result ≤ capacity_of self.now }
        ensures few { result ≤ 1024 }
    {
        let mut pass = self.queue.pass();
        self.queue.len_as::<Free, R>(rt, &mut pass)
    }

    /// Settles the queue, once all its senders and takers are back.
    ///
    /// What was put is what was taken and what is left, each parcel once: the clause says so for
    /// every way to weigh parcels. The call is one step of the queue for each sender and each
    /// taker, and one take. It takes no memory.
    pub fn settle<R: Wait>(self, rt: &R, senders: Vec<Sender>, takers: Vec<Taker>) -> Settled
        requires senders { All (IsSenderOf self) senders.items }
        requires takers { All (IsTakerOf self) takers.items }
        requires all { AreAll senders.items takers.items }
        ensures balance { EachTakenOrLeft senders.items takers.items (left_of result) }
        ensures numbers { AreNumberedApart senders.items }
        ensures order { RiseInto takers.items (left_of result) }
        ensures sent { sent_of result ≡ put_count senders.items }
        ensures taken { sent_of result ≡ taken_count takers.items + left_count result }
        ensures left { left_count result ≡ length (left_of result) }
    {
        let mut pass = self.queue.pass();
        let sent = self.gather_senders(&mut pass, senders);
        self.gather_takers(&mut pass, takers);
        let left = self.queue.len_as::<EndsLine, R>(rt, &mut pass) as u64;
        let ahead = self.queue.pop_as::<EndsLine, R>(rt, &mut pass);
        let Line { queue } = self;
        Settled {
            queue,
            pass,
            ahead,
            sent,
            left,
        }
    }

    // One right for each sender.
    fn make_senders(
        &self,
        alloc: Global,
        maker_pass: &mut Pass<Parcel, PassView>,
        count: u32,
    ) -> Result<Vec<Sender>, NoMemory>
        requires pass { IsPassOf self.now.queue maker_pass.old }
        requires view { view maker_pass.old ≡ maker whole 0 }
        requires count { count ≤ 8 }
        ensures pass { IsSamePass maker_pass.old maker_pass.new }
        ensures view { OnOk result (view maker_pass.new ≡ maker (whole - count) count) }
        ensures senders { IfOk result (λ v. (length v.items ≡ count)
            × AreNewSenders self.now 0 v.items × All (IsSenderOf self.now) v.items) }
        ensures rights { IfOk result (λ v. sum_by sender_rights v.items ≡ count) }
    {
        let mut senders = Vec::new(alloc);
        for number in 0..count {
            let pass = self.queue.another::<ForSender>(maker_pass);
            senders.push(Sender {
                pass,
                number,
                next: 0,
            })?;
        }
        Ok(senders)
    }

    // One right for each taker but the last, which is the maker itself and has the rest.
    fn make_takers(
        &self,
        alloc: Global,
        mut maker_pass: Pass<Parcel, PassView>,
        count: u32,
    ) -> Result<Vec<Taker>, NoMemory>
        requires pass { IsPassOf self.now.queue maker_pass }
        requires view { view maker_pass ≡ maker (view maker_pass).rights (view maker_pass).made }
        requires count { (0 < count) × (count ≤ (view maker_pass).rights) }
        ensures takers { IfOk result (λ v. (length v.items ≡ count)
            × All (IsNewTaker self.now) v.items × All (IsTakerOf self.now) v.items) }
        ensures rights { IfOk result (λ v. sum_by taker_rights v.items ≡ (view maker_pass).rights) }
    {
        let mut takers = Vec::new(alloc);
        for _ in 1..count {
            let pass = self.queue.another::<ForTaker>(&mut maker_pass);
            takers.push(Taker { pass })?;
        }
        takers.push(Taker { pass: maker_pass })?;
        Ok(takers)
    }

    // Joins the senders into the pass, and counts what they have put.
    fn gather_senders(&self, pass: &mut Pass<Parcel, PassView>, senders: Vec<Sender>) -> u64
        requires pass { IsPassOf self.now.queue pass.old × (view pass.old ≡ newcomer) }
        requires senders { All (IsSenderOf self.now) senders.items
            × (length senders.items ≤ whole) }
        ensures pass { IsSamePass pass.old pass.new }
        ensures view { view pass.new ≡ fold joined newcomer (map sender_view senders.items) }
        ensures count { result ≡ put_count senders.items }
    {
        let mut sent = 0;
        for sender in senders {
            let Sender {
                pass: theirs,
                number: _,
                next,
            } = sender;
            self.queue.absorb::<JoinsEnd>(pass, theirs);
            sent += next;
        }
        sent
    }

    // Joins the takers into the pass.
    fn gather_takers(&self, pass: &mut Pass<Parcel, PassView>, takers: Vec<Taker>)
        requires pass { IsPassOf self.now.queue pass.old
            × ((view pass.old ≡ newcomer) ⊎ ((view pass.old).fresh ≡ false)) }
        requires takers { All (IsTakerOf self.now) takers.items }
        ensures pass { IsSamePass pass.old pass.new }
        ensures view { view pass.new ≡ fold joined (view pass.old) (map taker_view takers.items) }
    {
        for taker in takers {
            let Taker { pass: theirs } = taker;
            self.queue.absorb::<JoinsEnd>(pass, theirs);
        }
    }
}

impl Settled {
    ghost use Rattle.g1_log.specs.Ends.{left_of, sent_of, left_count};

    /// How many buffers all senders of the queue have put.
    pub fn sent(&self) -> u64
        ensures { result ≡ sent_of self.now }
    {
        self.sent
    }

    /// How many parcels all takers of the queue have taken.
    pub fn taken(&self) -> u64
        ensures { sent_of self.now ≡ result + left_count self.now }
    {
        self.sent - self.left
    }

    /// How many parcels were left when the queue was settled. Calls of `next` do not change it.
    pub fn left(&self) -> u64
        ensures { result ≡ left_count self.now }
    {
        self.left
    }

    /// Takes the oldest parcel that is left. `None` exactly if none is left. One step of the queue;
    /// no memory.
    pub fn next<R: Wait>(&mut self, rt: &R) -> Option<Parcel>
        ensures next { MatchOption result ((left_of self.old ≡ []) × (left_of self.new ≡ []))
            (λ x. left_of self.old ≡ x ∷ left_of self.new) }
        ensures numbers { (sent_of self.new ≡ sent_of self.old)
            × (left_count self.new ≡ left_count self.old) }
    {
        let next = self.ahead.take()?;
        self.ahead = self.queue.pop_as::<TakesRest, R>(rt, &mut self.pass);
        Some(next)
    }
}
