// The threads' part of a burst.
ghost use Rattle.std.specs.Prelude.{◌≡◌, ◌+◌, ◌≤◌, length, vec_capacity};
ghost use Rattle.vx_turn.specs.Passing.{table_of, table_id_of};
ghost use Rattle.vx_burst_threads.specs.Working.{AllSet};
ghost use Rattle.vx_burst_threads.specs.Joining.{WorkedAndMet};

use crate::gate::Gate;
use crate::joins::meet_all;
use crate::plan::{Answered, Planned};
use crate::worker::{Worker, work_each};
use std::sync::Wait;
use std::sync::atomic::AtomicU64;
use std::thread::Threads;
use vx_settle::Peer;
use vx_turn::{Engine, Pass, Turn};

/// All threads work, and the caller meets them. `busy` is the number of writers.
pub fn work_and_meet<H: Threads + Wait + Sync, E: Engine, P: Peer, G: Gate>(
    rt: &H,
    gate: &G,
    turn: &Turn<E>,
    plan: &[Planned],
    busy: &AtomicU64,
    pass: Pass,
    workers: Vec<Worker<P>>,
    peers: Vec<P>,
    answers: &mut [Answered],
) -> (Pass, Vec<P>)
    requires table { (table_id_of pass ≡ table_of turn.now) × AllSet P.stand (table_of turn.now) plan.now workers.items }
    requires room { length peers.items + length workers.items ≤ vec_capacity peers }
    ensures { WorkedAndMet P.stand P.root plan.now pass peers.items workers.items answers.old result.0 result.1.items answers.new }
{
    let mut workers = workers;
    work_each::<H, E, P, Turn<E>, G>(rt, gate, turn, plan, busy, workers.as_mut_slice());
    meet_all(turn, pass, workers, peers, answers)
}
