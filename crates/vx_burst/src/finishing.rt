// What the caller's own thread does behind the others.
ghost use Rattle.std.specs.Prelude.{◌≡◌, ◌≤◌, ◌<◌, ◌+◌, length};
ghost use Rattle.vx_settle.specs.Bringing.{HaveLinks};
ghost use Rattle.vx_burst_threads.specs.Planning.{IsCall, AllCalls};
ghost use Rattle.vx_burst.specs.Finishing.{AskedOne, StagesOn, ArePlaced, unplaced, waiting_end, WaitedOne, WaitsOn};

use vx_burst_threads::{Answered, Planned, Told, Waited, call_of, tell};
use vx_settle::{Ended, Peer, answer_again, wait_for};
use vx_turn::Engine;

// How the waiting ended.
fn waited(ended: Ended) -> Waited
    ensures { result ≡ waiting_end ended }
{
    match ended {
        Ended::No => Waited::No,
        Ended::Done => Waited::Done,
        Ended::Unconfirmed => Waited::Unconfirmed,
    }
}

// Asks a call that has no place, which gets this one.
fn ask_one<E: Engine, P: Peer>(
    engine: &mut E,
    peers: &mut [P],
    planned: &Planned,
    place: u64,
) -> Answered
    requires links { HaveLinks P.stand (E.state engine.old) peers.old }
    requires call { IsCall planned.now }
    ensures asked { AskedOne P.stand P.root (E.state engine.old) peers.old planned.now place result (E.state engine.new) peers.new }
    ensures root { E.root engine.new ≡ E.root engine.old }
{
    let reply = answer_again(engine, peers, &call_of(planned));
    Answered {
        place,
        reply: tell(&reply),
        waited: Waited::No,
    }
}

// Asks a member of the plan where it has no place, and says how many places are taken then.
fn ask_next<E: Engine, P: Peer>(
    engine: &mut E,
    peers: &mut [P],
    plan: &[Planned],
    answers: &mut [Answered],
    at: usize,
    taken: u64,
) -> u64
    requires links { HaveLinks P.stand (E.state engine.old) peers.old }
    requires calls { AllCalls plan.now }
    requires inside { (at < length plan.now) × (length answers.old ≡ length plan.now) }
    requires rest { taken + unplaced answers.old ≡ length plan.now }
    requires placed { ArePlaced answers.old at }
    ensures stages { StagesOn P.stand P.root plan.now (E.state engine.old) peers.old answers.old taken (E.state engine.new) peers.new answers.new result }
    ensures links { HaveLinks P.stand (E.state engine.new) peers.new }
    ensures rest { (result + unplaced answers.new ≡ length plan.now) × (length answers.new ≡ length plan.now) }
    ensures placed { ArePlaced answers.new (at + 1) }
    ensures root { E.root engine.new ≡ E.root engine.old }
{
    let Some(planned) = plan.get(at) else {
        unreachable!();
    };
    if answers[at].place > 0 {
        return taken;
    }
    answers[at] = ask_one(engine, peers, planned, taken + 1);
    taken + 1
}

/// Asks each call that has no place, in the plan's order, behind the places that are taken.
pub(crate) fn ask_rest<E: Engine, P: Peer>(
    engine: &mut E,
    peers: &mut [P],
    plan: &[Planned],
    answers: &mut [Answered],
    taken: u64,
) -> u64
    requires links { HaveLinks P.stand (E.state engine.old) peers.old }
    requires calls { AllCalls plan.now }
    requires long { length answers.old ≡ length plan.now }
    requires rest { taken + unplaced answers.old ≡ length plan.now }
    ensures stages { StagesOn P.stand P.root plan.now (E.state engine.old) peers.old answers.old taken (E.state engine.new) peers.new answers.new result }
    ensures links { HaveLinks P.stand (E.state engine.new) peers.new }
    ensures placed { ArePlaced answers.new (length plan.now) }
    ensures root { E.root engine.new ≡ E.root engine.old }
{
    let mut taken = taken;
    for k in 0..plan.len() {
        taken = ask_next(engine, peers, plan, answers, k, taken);
    }
    taken
}

// Waits for one call, where it is logged and a link is to confirm it.
fn wait_one<E: Engine, P: Peer>(engine: &mut E, peers: &mut [P], reply: &Told) -> Waited
    requires { HaveLinks P.stand (E.state engine.old) peers.old }
    ensures waited { WaitedOne P.stand P.root (E.state engine.old) peers.old reply.now result (E.state engine.new) peers.new }
    ensures root { E.root engine.new ≡ E.root engine.old }
{
    match reply {
        Told::Logged(number) => waited(wait_for(engine, peers, *number)),
        _ => Waited::No,
    }
}

/// Waits for each logged call that a link is to confirm.
pub(crate) fn wait_all<E: Engine, P: Peer>(
    engine: &mut E,
    peers: &mut [P],
    answers: &mut [Answered],
)
    requires { HaveLinks P.stand (E.state engine.old) peers.old }
    ensures waits { WaitsOn P.stand P.root (E.state engine.old) peers.old answers.old (length answers.old) (E.state engine.new) peers.new answers.new }
    ensures root { E.root engine.new ≡ E.root engine.old }
{
    for k in 0..answers.len() {
        answers[k].waited = wait_one(engine, peers, &answers[k].reply);
    }
}
