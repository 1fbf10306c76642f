// One thread, an engine and its peers.
ghost use Rattle.std.specs.Prelude.{◌≡◌, ◌≤◌, ◌<◌, ◌^◌, length};
ghost use Rattle.vx_settle.specs.Bringing.{Steps, Climbs, BringsPeer, BringsAll, AsksAgain, WaitEndsBy, Once, WaitsFor, HasLink, HaveLinks};

use crate::peer::Peer;
use vx_model::{Blocks, Call, Line, No, Reply, Update};
use vx_turn::{Engine, Job, JobReply};

/// An update for a job to write over.
pub fn unset() -> Update
    ensures { result.number ≡ 0 }
{
    Update {
        line: Line {
            generation: 0,
            origin: 0,
        },
        number: 0,
        vol: 0,
        block: 0,
        bytes: Blocks::filled(1, 0),
    }
}

// Fetches the next update and hands it over: what the peer has then received, or None where it got no further.
fn step<E: Engine, P: Peer>(
    engine: &mut E,
    peer: &mut P,
    net: u64,
    head: u64,
    update: &mut Update,
) -> Option<u64>
    requires head { head ≡ (E.state engine.old).head }
    requires net { (net ≡ (P.stand peer.old).net) × (net < head) }
    ensures steps { Steps (E.state engine.old) (P.stand peer.old) result (E.state engine.new) (P.stand peer.new) }
    ensures roots { (E.root engine.new ≡ E.root engine.old) × (P.root peer.new ≡ P.root peer.old) }
{
    let fetch = Job::Fetch { number: net + 1 };
    match engine.job(&fetch, update) {
        JobReply::Done(_) => {
            let ack = peer.hand(update);
            if ack.net > net { Some(ack.net) } else { None }
        }
        _ => None,
    }
}

// Hands over what the peer lacks, as far as it takes it.
fn climb<E: Engine, P: Peer>(engine: &mut E, peer: &mut P, net: u64, head: u64, update: &mut Update)
    requires head { head ≡ (E.state engine.old).head }
    requires net { net ≡ (P.stand peer.old).net }
    ensures climbs { Climbs (E.state engine.old) (P.stand peer.old) (E.state engine.new) (P.stand peer.new) }
    ensures roots { (E.root engine.new ≡ E.root engine.old) × (P.root peer.new ≡ P.root peer.old) }
{
    let mut net = net;
    while net < head {
        match step(engine, peer, net, head, update) {
            Some(more) => net = more,
            None => return,
        }
    }
}

/// Hands over what the peer lacks, lets it apply everything, and acknowledges what it has. Its link is one of the engine's.
pub fn bring<E: Engine, P: Peer>(engine: &mut E, peer: &mut P)
    requires { HasLink (E.state engine.old) (P.stand peer.old) }
    ensures brings { BringsPeer (E.state engine.old) (P.stand peer.old) (E.state engine.new) (P.stand peer.new) }
    ensures roots { (E.root engine.new ≡ E.root engine.old) × (P.root peer.new ≡ P.root peer.old) }
{
    let head = engine.head();
    let mut update = unset();
    let first = peer.finish();
    climb(engine, peer, first.net, head, &mut update);
    let last = peer.finish();
    let acked = Job::Acked {
        link: peer.link(),
        net: last.net,
        stored: last.stored,
    };
    engine.job(&acked, &mut update);
}

/// Brings each peer. Their links are the engine's.
pub fn bring_all<E: Engine, P: Peer>(engine: &mut E, peers: &mut [P])
    requires { HaveLinks P.stand (E.state engine.old) peers.old }
    ensures brings { BringsAll P.stand P.root (E.state engine.old) peers.old (E.state engine.new) peers.new }
    ensures root { E.root engine.new ≡ E.root engine.old }
{
    for i in 0..peers.len() {
        bring(engine, &mut peers[i]);
    }
}

/// Asks a call again, behind everything that the peers could be brought to take.
pub fn answer_again<E: Engine, P: Peer>(engine: &mut E, peers: &mut [P], call: &Call) -> Reply
    requires { HaveLinks P.stand (E.state engine.old) peers.old }
    ensures asks { AsksAgain P.stand P.root (E.state engine.old) peers.old call.now result (E.state engine.new) peers.new }
    ensures root { E.root engine.new ≡ E.root engine.old }
{
    bring_all(engine, peers);
    engine.answer(call)
}

/// How a waiting ended.
#[derive(Clone, Copy, Debug, PartialEq, Eq)]
pub enum Ended {
    /// It did not, or something stood in its way.
    No,
    Done,
    /// The write is logged and not confirmed.
    Unconfirmed,
}

// How a refused wait ends.
fn ended_by(cause: &No) -> Ended
    ensures { WaitEndsBy cause.now result }
{
    match cause {
        No::Unconfirmed { number: _ } => Ended::Unconfirmed,
        _ => Ended::No,
    }
}

// What one wait says.
fn wait_once<E: Engine>(engine: &mut E, number: u64) -> Ended
    ensures once { Once (E.state engine.old) number result (E.state engine.new) }
    ensures root { E.root engine.new ≡ E.root engine.old }
{
    let mut update = unset();
    match engine.job(&Job::Wait { number }, &mut update) {
        JobReply::Done(_) => Ended::Done,
        JobReply::Refused(cause) => ended_by(&cause),
        JobReply::Nothing => Ended::No,
        JobReply::Gone { low: _ } => Ended::No,
    }
}

/// Waits for a logged number, behind everything that the peers could be brought to take.
pub fn wait_for<E: Engine, P: Peer>(engine: &mut E, peers: &mut [P], number: u64) -> Ended
    requires { HaveLinks P.stand (E.state engine.old) peers.old }
    ensures waits { WaitsFor P.stand P.root (E.state engine.old) peers.old number result (E.state engine.new) peers.new }
    ensures root { E.root engine.new ≡ E.root engine.old }
{
    bring_all(engine, peers);
    wait_once(engine, number)
}
