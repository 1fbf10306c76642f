// What callers do.
ghost use Rattle.std.specs.Prelude.{◌≡◌, ◌+◌, ◌<◌, ◌^◌, true, [], length, Some};
ghost use Rattle.vx_turn.specs.Turning.{HoldsTurn, Out, ReadyBack, longer_by};
ghost use Rattle.vx_turn.specs.Acting.{NamesLink};
ghost use Rattle.vx_turn.specs.Passing.{PassCalls, Jobs, Meets, ClosesTurn, table_of, table_id_of, first_engine, start_of, IsSame};
ghost use Rattle.vx_turn.specs.declared.ask.Ask.TheVariants.{Ordered};
ghost use Rattle.vx_turn.specs.declared.ask.Said.TheVariants.{Replied};

use crate::ask::{Job, JobReply};
use crate::engine::Engine;
use crate::origin::Origin;
use crate::passes::Pass;
use crate::rule::{Add, Count, Give, Look, Meet, Take};
use crate::slot::{Last, Slot};
use crate::turn::Turn;
use crate::view::View;
use atomic_table::{Badge, Seat};
use std::marker::Brand;
use std::mem;
use std::snapshot::Snapshot;
use std::sync::Wait;
use vx_model::{Call, Reply, Update};

impl<E: Engine> Turn<E> {
    // Waits until the hold is free, takes the engine, and says how long the history is.
    fn take<B: Origin<E>, H: Wait>(&self, rt: &H, seat: &mut Seat<Option<Slot<E>>, View>) -> u64
        requires table { seat.old.table_id ≡ self.now.table.shared.table_id }
        requires first { B.first ≡ Some (first_engine self.now) }
        requires rest { (seat.old.me.1 ≡ []) × (seat.old.me.0.live ≡ true) }
        ensures same { (seat.new.table_id ≡ seat.old.table_id) × (seat.new.id ≡ seat.old.id) }
        ensures held { HoldsTurn E.state E.root (first_engine self.now) seat.old.me.0 result seat.new.me }
    {
        let shared = &self.table.shared;
        for _ in rt.forever() {
            if shared.compare_exchange::<Take<B>>(seat, 0, 0, 1) == 0 {
                return shared.load::<Count>(seat, 1);
            }
            shared.park(rt, 0, 1);
        }
        unreachable!()
    }

    // A history of 2^64 - 1 entries has no room for another, and the caller waits for ever.
    fn next<H: Wait>(rt: &H, count: u64) -> u64
        ensures { (result ≡ count + 1) × (result < 2 ^ 64) }
    {
        if count < u64::MAX {
            return count + 1;
        }
        for _ in rt.forever() {}
        unreachable!()
    }

    // Waits for the engine and takes it out, with the place that its next entry will have.
    fn out<B: Origin<E>, H: Wait>(&self, rt: &H, seat: &mut Seat<Option<Slot<E>>, View>) -> (u64, E)
        requires table { seat.old.table_id ≡ self.now.table.shared.table_id }
        requires first { B.first ≡ Some (first_engine self.now) }
        requires rest { (seat.old.me.1 ≡ []) × (seat.old.me.0.live ≡ true) }
        ensures same { (seat.new.table_id ≡ seat.old.table_id) × (seat.new.id ≡ seat.old.id) }
        ensures out { Out E.state E.root (first_engine self.now) seat.old.me.0 result.0 result.1 seat.new.me }
    {
        let count = self.take::<B, H>(rt, seat);
        let place = Self::next(rt, count);
        let Some(slot) = self.table.shared.exchange(seat, 0, None) else {
            unreachable!()
        };
        (place, slot.engine)
    }

    // Gives the engine back with what it was asked and said, which joins the history at the place.
    fn back(&self, seat: &mut Seat<Option<Slot<E>>, View>, slot: Slot<E>, place: u64)
        requires table { seat.old.table_id ≡ self.now.table.shared.table_id }
        requires ready { ReadyBack E.state E.root (first_engine self.now) seat.old.me place slot }
        ensures same { (seat.new.table_id ≡ seat.old.table_id) × (seat.new.id ≡ seat.old.id) }
        ensures back { seat.new.me ≡ (longer_by E.state seat.old.me.0 place slot, []) }
    {
        let shared = &self.table.shared;
        shared.exchange(seat, 0, Some(slot));
        shared.store::<Add>(seat, 1, place);
        shared.store::<Give>(seat, 0, 0);
        shared.wake_one(0);
    }

    fn call_from<B: Origin<E>, H: Wait>(&self, rt: &H, pass: &mut Pass, call: &Call) -> (u64, Reply)
        requires table { table_id_of pass.old ≡ table_of self.now }
        requires first { B.first ≡ Some (first_engine self.now) }
        ensures same { IsSame pass.old pass.new }
        ensures call { PassCalls pass.old (Ordered call.now) result.0 (Replied result.1) pass.new }
    {
        let badge = mem::replace(&mut pass.badge, Badge::blank());
        let mut seat = badge.into_seat::<Option<Slot<E>>>();
        let (place, mut engine) = self.out::<B, H>(rt, &mut seat);
        let before = Snapshot::of(&engine);
        let reply = engine.answer(call);
        let last = Last::Ordered(Snapshot::of(call), Snapshot::of(&reply));
        let slot = Slot {
            engine,
            before,
            last,
        };
        self.back(&mut seat, slot, place);
        pass.badge = seat.into_badge();
        (place, reply)
    }

    fn work_from<B: Origin<E>, H: Wait>(
        &self,
        rt: &H,
        pass: &mut Pass,
        job: &Job,
        into: &mut Update,
    ) -> JobReply
        requires table { table_id_of pass.old ≡ table_of self.now }
        requires link { NamesLink (length (start_of pass.old).nets) job.now }
        requires first { B.first ≡ Some (first_engine self.now) }
        ensures same { IsSame pass.old pass.new }
        ensures work { Jobs pass.old job.now result into.new pass.new }
    {
        let badge = mem::replace(&mut pass.badge, Badge::blank());
        let mut seat = badge.into_seat::<Option<Slot<E>>>();
        let (place, mut engine) = self.out::<B, H>(rt, &mut seat);
        let before = Snapshot::of(&engine);
        let reply = engine.job(job, into);
        let last = Last::Charged(Snapshot::of(job), Snapshot::of(&reply), Snapshot::of(into));
        let slot = Slot {
            engine,
            before,
            last,
        };
        self.back(&mut seat, slot, place);
        pass.badge = seat.into_badge();
        reply
    }

    fn close_from<B: Origin<E>, H: Wait>(self, rt: &H, pass: Pass) -> E
        requires table { table_id_of pass ≡ table_of self }
        requires first { B.first ≡ Some (first_engine self) }
        ensures { ClosesTurn E.state E.root (first_engine self) pass result }
    {
        let mut seat = pass.badge.into_seat::<Option<Slot<E>>>();
        let (_, engine) = self.out::<B, H>(rt, &mut seat);
        engine
    }

    /// Makes a call, and answers its place in the history and its reply. It waits for its turn.
    pub fn call<H: Wait>(&self, rt: &H, pass: &mut Pass, call: &Call) -> (u64, Reply)
        requires { table_id_of pass.old ≡ table_of self.now }
        ensures same { IsSame pass.old pass.new }
        ensures call { PassCalls pass.old (Ordered call.now) result.0 (Replied result.1) pass.new }
    {
        self.call_from::<Brand, H>(rt, pass, call)
    }

    /// Does a job, which joins the history too. It waits for its turn. A link that the job names exists.
    pub fn work<H: Wait>(&self, rt: &H, pass: &mut Pass, job: &Job, into: &mut Update) -> JobReply
        requires table { table_id_of pass.old ≡ table_of self.now }
        requires link { NamesLink (length (start_of pass.old).nets) job.now }
        ensures same { IsSame pass.old pass.new }
        ensures work { Jobs pass.old job.now result into.new pass.new }
    {
        self.work_from::<Brand, H>(rt, pass, job, into)
    }

    /// Sees what another pass has seen, and stands for its callers from now on. It does not wait.
    pub fn meet(&self, pass: &mut Pass, other: Pass)
        requires { (table_id_of pass.old ≡ table_of self.now) × (table_id_of other ≡ table_of self.now) }
        ensures same { IsSame pass.old pass.new }
        ensures met { Meets pass.old other pass.new }
    {
        let shared = &self.table.shared;
        let badge = mem::replace(&mut pass.badge, Badge::blank());
        let mut seat = badge.into_seat::<Option<Slot<E>>>();
        shared.join_seat::<Meet>(&mut seat, other.badge.into_seat());
        shared.load::<Look>(&mut seat, 1);
        pass.badge = seat.into_badge();
    }

    /// Ends the turn, and gives the engine back. It waits until no other caller has it.
    pub fn close<H: Wait>(self, rt: &H, pass: Pass) -> E
        requires { table_id_of pass ≡ table_of self }
        ensures { ClosesTurn E.state E.root (first_engine self) pass result }
    {
        self.close_from::<Brand, H>(rt, pass)
    }
}
