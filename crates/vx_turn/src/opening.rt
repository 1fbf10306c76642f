// How a turn begins.
ghost use Rattle.std.specs.Prelude.{◌≡◌, ◌<◌, ◌≤◌, ◌+◌, [], false, length, vec_capacity, IfOk, IfErr};
ghost use Rattle.vx_turn.specs.Passing.{PassesLeft, AreDealt, Pops, table_of, first_engine};
ghost use Rattle.vx_turn.specs.Turning.{first_view};

use crate::engine::Engine;
use crate::limits::MOST_CALLERS;
use crate::passes::{Pass, Passes};
use crate::rule::Deal;
use crate::slot::{Last, Opening, Slot};
use crate::turn::Turn;
use crate::view::View;
use atomic_table::{Refused, Seat, Table};
use std::alloc::{AllocFailed, Global};
use std::snapshot::Snapshot;
use vx_model::{Call, OutOfMemory, Reply};

impl<E: Engine> Turn<E> {
    // Cuts the first seat into the passes, the greatest number first.
    fn deal(&self, seat: Seat<Option<Slot<E>>, View>, left: Vec<Pass>, callers: u64) -> Vec<Pass>
        requires seat { (seat.table_id ≡ self.now.table.shared.table_id) × (seat.me ≡ (first_view callers seat.me.0.start, [])) }
        requires room { (left.items ≡ []) × (callers ≤ vec_capacity left) }
        ensures { PassesLeft self.now.table.shared.table_id seat.me.0.start callers result.items × (length result.items ≡ callers) }
    {
        let mut left = left;
        let mut seat = seat;
        let mut number = callers;
        while number > 0 {
            number -= 1;
            let dealt = self.table.shared.split_seat::<Deal>(&mut seat);
            let pass = Pass {
                number,
                badge: dealt.into_badge(),
            };
            if left.push(pass).is_err() {
                unreachable!();
            }
        }
        left
    }

    /// A turn over an engine that is not halted, with the passes of at least one caller. All memory that a turn takes is taken here. Without
    /// it the engine comes back as it was.
    pub fn new(
        alloc: Global,
        engine: E,
        callers: u32,
    ) -> Result<(Turn<E>, Passes), (E, OutOfMemory)>
        requires callers { (0 < callers) × (callers ≤ MOST_CALLERS) }
        requires runs { (E.state engine).halted ≡ false }
        ensures ok { IfOk result (λ t. AreDealt (table_of t.0) (E.state engine) callers callers t.1) }
        ensures first { IfOk result (λ t. first_engine t.0 ≡ engine) }
        ensures err { IfErr result (λ e. e.0 ≡ engine) }
    {
        let callers = callers as u64;
        let Ok(left) = Vec::with_capacity(alloc, callers as usize) else {
            return Err((engine, OutOfMemory));
        };
        let opening = Opening {
            callers,
            engine: Snapshot::of(&engine),
        };
        let before = Snapshot::of(&engine);
        let call = Call::Read {
            vol: 0,
            start: 0,
            count: 0,
        };
        let last = Last::Ordered(Snapshot::of(&call), Snapshot::of(&Reply::Done(0)));
        let slot = Slot {
            engine,
            before,
            last,
        };
        let mut slots = Vec::new(alloc);
        if let Err(failed) = slots.push(Some(slot)) {
            let AllocFailed { value } = failed;
            let Some(slot) = value else { unreachable!() };
            return Err((slot.engine, OutOfMemory));
        }
        let made = Table::new(alloc, &[0, 0], slots, &opening);
        let (table, seat) = match made {
            Ok(made) => made,
            Err(refused) => {
                let Refused { slots: mut back } = refused;
                let Some(Some(slot)) = back.pop() else {
                    unreachable!()
                };
                return Err((slot.engine, OutOfMemory));
            }
        };
        let turn = Turn { table };
        let left = turn.deal(seat, left, callers);
        Ok((turn, Passes { left }))
    }
}

impl Passes {
    /// The pass with the least number that is not given out yet, and `None` where all are out.
    pub fn pop(&mut self) -> Option<Pass>
        ensures { Pops self.old result self.new }
    {
        self.left.pop()
    }
}
