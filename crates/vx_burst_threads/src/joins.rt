// What the caller's own thread does behind the others.
ghost use Rattle.std.specs.Prelude.{◌≡◌, ◌+◌, ◌≤◌, length, vec_capacity};
ghost use Rattle.vx_turn.specs.Passing.{table_of, table_id_of};
ghost use Rattle.vx_burst_threads.specs.Laying.{LaidWith};
ghost use Rattle.vx_burst_threads.specs.Joining.{AllOf, Meeting, IsMadeBy};

use crate::laying::lay;
use crate::plan::Answered;
use crate::worker::Worker;
use vx_settle::Peer;
use vx_turn::{Engine, Pass, Turn};

/// Meets all workers' passes, lays what they made at the places of the plan, and takes the peers back.
pub(crate) fn meet_all<E: Engine, P: Peer>(
    turn: &Turn<E>,
    pass: Pass,
    workers: Vec<Worker<P>>,
    peers: Vec<P>,
    answers: &mut [Answered],
) -> (Pass, Vec<P>)
    requires table { (table_id_of pass ≡ table_of turn.now) × AllOf (table_of turn.now) workers.items }
    requires room { length peers.items + length workers.items ≤ vec_capacity peers }
    ensures met { Meeting pass peers.items workers.items result.0 result.1.items }
    ensures laid { LaidWith (IsMadeBy workers.items) answers.old answers.new }
{
    let mut pass = pass;
    let mut workers = workers;
    let mut peers = peers;
    while let Some(worker) = workers.pop() {
        match worker {
            Worker::Writes(writer) => {
                turn.meet(&mut pass, writer.pass);
                lay(answers, writer.made);
            }
            Worker::Drains(drainer) => {
                turn.meet(&mut pass, drainer.pass);
                if peers.push(drainer.peer).is_err() {
                    unreachable!();
                }
            }
        }
    }
    (pass, peers)
}
