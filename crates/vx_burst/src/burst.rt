// A burst.
ghost use Rattle.vx_turn.specs.Passing.{table_of, first_engine, AreDealt};
ghost use Rattle.std.specs.Prelude.{◌≡◌, ◌≤◌, ◌<◌, ◌+◌, false, [], length, vec_capacity, IfOk, IfErr};
ghost use Rattle.vx_settle.specs.Bringing.{HaveLinks};
ghost use Rattle.vx_burst_threads.specs.Planning.{AllCalls};
ghost use Rattle.vx_burst.specs.Setting.{HasBurstRoom, AreThreadRooms};
ghost use Rattle.vx_burst.specs.Ending.{HasJoined, Ran};

use crate::finishing::{ask_rest, wait_all};
use crate::limits::{MOST_PEERS, MOST_THREADS};
use crate::placing::renumber;
use crate::rooms::{Room, Space, take_room};
use crate::setting::{set_drainers, set_writers};
use std::alloc::Global;
use std::sync::Wait;
use std::sync::atomic::AtomicU64;
use std::thread::Threads;
use vx_burst_threads::{Answered, Gate, Gated, Planned, Worker, work_and_meet};
use vx_model::OutOfMemory;
use vx_settle::Peer;
use vx_turn::{Engine, Passes, Turn};

/// What a burst leaves: the engine, the peers in their order, and for each member of the plan its answer.
#[derive(Drop)]
pub struct Outcome<E, P> {
    pub engine: E,
    pub peers: Vec<P>,
    pub answers: Vec<Answered>,
}

// What the threads leave: the engine, the peers, and the answers by their places in the history.
#[derive(Drop)]
struct Left<E, P> {
    engine: E,
    peers: Vec<P>,
}

// Lets all threads work, and ends the turn.
fn join_all<H: Threads + Wait + Sync, E: Engine, P: Peer, G: Gate>(
    rt: &H,
    turn: Turn<E>,
    passes: Passes,
    callers: u32,
    peers: Vec<P>,
    plan: &[Planned],
    threads: u32,
    gate: &G,
    made: Vec<Space>,
    workers: Vec<Worker<P>>,
    back: Vec<P>,
    answers: &mut [Answered],
) -> Left<E, P>
    requires dealt { AreDealt (table_of turn) (E.state (first_engine turn)) callers callers passes }
    requires links { HaveLinks P.stand (E.state (first_engine turn)) peers.items }
    requires calls { AllCalls plan.now }
    requires rooms { AreThreadRooms plan.now threads made.items × (length made.items ≡ threads) }
    requires room { (workers.items ≡ []) × (threads + length peers.items ≤ vec_capacity workers) }
    requires callers { callers ≡ threads + length peers.items + 1 }
    requires back { (back.items ≡ []) × (callers ≤ vec_capacity back + 1) }
    ensures { HasJoined P.stand P.root E.state E.root (first_engine turn) (table_of turn) callers plan.now peers.items answers.old result.engine result.peers.items answers.new }
{
    let mut passes = passes;
    let mut peers = peers;
    let workers = set_writers(&turn, &mut passes, callers, made, plan, threads, workers);
    let workers = set_drainers(&turn, &mut passes, callers, plan, &mut peers, workers);
    let Some(pass) = passes.pop() else {
        unreachable!();
    };
    let busy = AtomicU64::new(threads as u64);
    let (pass, peers) = work_and_meet(rt, gate, &turn, plan, &busy, pass, workers, back, answers);
    let engine = turn.close(rt, pass);
    Left { engine, peers }
}

// The threads' part, and what they left open.
fn work_all<H: Threads + Wait + Sync, E: Engine, P: Peer, G: Gate>(
    rt: &H,
    turn: Turn<Gated<'_, E, G>>,
    passes: Passes,
    peers: Vec<P>,
    plan: &[Planned],
    threads: u32,
    gate: &G,
    room: Room<P>,
) -> Outcome<E, P>
    requires room { HasBurstRoom plan.now threads (length peers.items) room }
    requires dealt { AreDealt (table_of turn) (E.state (first_engine turn).inner) (threads + length peers.items + 1) (threads + length peers.items + 1) passes }
    requires links { HaveLinks P.stand (E.state (first_engine turn).inner) peers.items }
    requires calls { AllCalls plan.now }
    requires few { (threads ≤ MOST_THREADS) × (length peers.items ≤ MOST_PEERS) }
    ensures { Ran P.stand P.root E.state E.root plan.now (first_engine turn.entry).inner peers.items result.engine result.peers.items result.answers.items }
{
    let Room {
        answers,
        order,
        made,
        workers,
        peers: back,
    } = room;
    let mut answers = answers;
    let callers = threads + peers.len() as u32 + 1;
    let left = join_all(
        rt,
        turn,
        passes,
        callers,
        peers,
        plan,
        threads,
        gate,
        made,
        workers,
        back,
        answers.as_mut_slice(),
    );
    let mut engine = left.engine.inner;
    let mut peers = left.peers;
    let taken = renumber(answers.as_mut_slice(), order);
    let _ = ask_rest(
        &mut engine,
        peers.as_mut_slice(),
        plan,
        answers.as_mut_slice(),
        taken,
    );
    wait_all(&mut engine, peers.as_mut_slice(), answers.as_mut_slice());
    Outcome {
        engine,
        peers,
        answers,
    }
}

/// Lets so many threads make the calls of a plan, and brings what they left open to its end. All memory is taken before the first call,
/// and without it engine and peers come back as they were.
pub fn run<H: Threads + Wait + Sync, E: Engine, P: Peer, G: Gate>(
    rt: &H,
    alloc: Global,
    engine: E,
    peers: Vec<P>,
    plan: &[Planned],
    threads: u32,
    gate: &G,
) -> Result<Outcome<E, P>, (E, Vec<P>, OutOfMemory)>
    requires runs { (E.state engine).halted ≡ false }
    requires few { (threads ≤ MOST_THREADS) × (length peers.items ≤ MOST_PEERS) }
    requires calls { AllCalls plan.now }
    requires links { HaveLinks P.stand (E.state engine) peers.items }
    ensures ok { IfOk result (λ o. Ran P.stand P.root E.state E.root plan.now engine peers.items o.engine o.peers.items o.answers.items) }
    ensures err { IfErr result (λ e. (e.0 ≡ engine) × (e.1 ≡ peers)) }
{
    let Some(room) = take_room::<P>(alloc, plan, threads, peers.len()) else {
        return Err((engine, peers, OutOfMemory));
    };
    let gated = Gated {
        inner: engine,
        gate,
    };
    let callers = threads + peers.len() as u32 + 1;
    let (turn, passes) = match Turn::new(alloc, gated, callers) {
        Ok(made) => made,
        Err((gated, failed)) => return Err((gated.inner, peers, failed)),
    };
    Ok(work_all(rt, turn, passes, peers, plan, threads, gate, room))
}
