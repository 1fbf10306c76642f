// The workers of a burst, before they work.
ghost use Rattle.std.specs.Prelude.{◌≡◌, ◌+◌, ◌≤◌, ◌<◌, [], length, vec_capacity};
ghost use Rattle.vx_turn.specs.Passing.{table_of, first_engine};
ghost use Rattle.vx_settle.specs.Bringing.{HaveLinks};
ghost use Rattle.vx_burst_threads.specs.Planning.{AllCalls};
ghost use Rattle.vx_burst_threads.specs.Joining.{backs};
ghost use Rattle.vx_burst.specs.Setting.{AreThreadRooms, Set};

use crate::rooms::Space;
use vx_burst_threads::{Drainer, Planned, Worker, Writer};
use vx_settle::Peer;
use vx_turn::{Engine, Passes, Turn};

/// The writers of so many threads, with the next passes.
pub(crate) fn set_writers<E: Engine, P: Peer>(
    turn: &Turn<E>,
    passes: &mut Passes,
    callers: u32,
    rooms: Vec<Space>,
    plan: &[Planned],
    threads: u32,
    workers: Vec<Worker<P>>,
) -> Vec<Worker<P>>
    requires set { Set P.stand (table_of turn.now) (E.state (first_engine turn.now)) callers plan.now workers.items passes.old }
    requires none { workers.items ≡ [] }
    requires calls { AllCalls plan.now }
    requires rooms { AreThreadRooms plan.now threads rooms.items × (length rooms.items ≡ threads) }
    requires room { (threads < callers) × (threads ≤ vec_capacity workers) }
    ensures set { Set P.stand (table_of turn.now) (E.state (first_engine turn.now)) callers plan.now result.items passes.new }
    ensures back { (backs result.items ≡ []) × (length result.items ≡ threads) }
    ensures room { vec_capacity workers ≤ vec_capacity result }
{
    let mut rooms = rooms;
    let mut workers = workers;
    for thread in 0..threads {
        let Some(pass) = passes.pop() else {
            unreachable!();
        };
        let Some(room) = rooms.pop() else {
            unreachable!();
        };
        let writer = Writer {
            thread: thread + 1,
            pass,
            made: room.made,
        };
        if workers.push(Worker::Writes(writer)).is_err() {
            unreachable!();
        }
    }
    workers
}

/// A worker for each peer, the last one's first, with the next passes.
pub(crate) fn set_drainers<E: Engine, P: Peer>(
    turn: &Turn<E>,
    passes: &mut Passes,
    callers: u32,
    plan: &[Planned],
    peers: &mut Vec<P>,
    workers: Vec<Worker<P>>,
) -> Vec<Worker<P>>
    requires set { Set P.stand (table_of turn.now) (E.state (first_engine turn.now)) callers plan.now workers.items passes.old }
    requires links { HaveLinks P.stand (E.state (first_engine turn.now)) peers.old.items }
    requires room { (length workers.items + length peers.old.items < callers) × (length workers.items + length peers.old.items ≤ vec_capacity workers) }
    requires back { backs workers.items ≡ [] }
    ensures set { Set P.stand (table_of turn.now) (E.state (first_engine turn.now)) callers plan.now result.items passes.new }
    ensures back { backs result.items ≡ peers.old.items }
    ensures none { peers.new.items ≡ [] }
    ensures long { length result.items ≡ length workers.items + length peers.old.items }
    ensures room { vec_capacity peers.old ≤ vec_capacity peers.new }
{
    let mut workers = workers;
    while let Some(peer) = peers.pop() {
        let Some(pass) = passes.pop() else {
            unreachable!();
        };
        if workers
            .push(Worker::Drains(Drainer { pass, peer }))
            .is_err()
        {
            unreachable!();
        }
    }
    workers
}
