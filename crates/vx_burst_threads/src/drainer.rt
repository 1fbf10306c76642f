// A thread that hands what the engine logs over to the peer of a link.
ghost use Rattle.std.specs.Prelude.{◌≡◌, ◌<◌, length};
ghost use Rattle.vx_turn.specs.Passing.{table_of, table_id_of, start_of};
ghost use Rattle.vx_burst_threads.specs.Draining.{Drained, DrainedWith, IsLinked, LeadsOn};

use crate::gate::Gate;
use std::sync::Wait;
use std::sync::atomic::{AtomicU64, Ordering};
use std::thread;
use vx_model::Update;
use vx_settle::{Ack, Peer, unset};
use vx_turn::{Engine, Job, JobReply, Pass, Turn};

/// A pass, and the peer of its link.
#[derive(Drop)]
pub struct Drainer<P> {
    pub pass: Pass,
    pub peer: P,
}

// How a worker goes on.
pub(crate) enum Next {
    From(u64),
    Idle,
    End,
}

// Tells the engine what the peer said that it has.
fn acknowledge<H: Wait, E: Engine, P: Peer>(
    rt: &H,
    turn: &Turn<E>,
    pass: &mut Pass,
    peer: &P,
    ack: Ack,
    update: &mut Update,
)
    requires table { table_id_of pass.old ≡ table_of turn.now }
    requires link { IsLinked pass.old (P.stand peer.now) }
    requires ack { (ack.net ≡ (P.stand peer.now).net) × (ack.stored ≡ (P.stand peer.now).stored) }
    ensures { Drained pass.old (P.stand peer.now) pass.new (P.stand peer.now) }
{
    let acked = Job::Acked {
        link: peer.link(),
        net: ack.net,
        stored: ack.stored,
    };
    turn.work(rt, pass, &acked, update);
}

// Fetches the update behind `net`, hands it over, and acknowledges what the peer has then.
fn hand_next<H: Wait, E: Engine, P: Peer, G: Gate>(
    rt: &H,
    gate: &G,
    turn: &Turn<E>,
    pass: &mut Pass,
    peer: &mut P,
    net: u64,
    update: &mut Update,
) -> Next
    requires table { table_id_of pass.old ≡ table_of turn.now }
    requires link { IsLinked pass.old (P.stand peer.old) }
    requires net { net ≡ (P.stand peer.old).net }
    ensures drained { Drained pass.old (P.stand peer.old) pass.new (P.stand peer.new) }
    ensures leads { LeadsOn result pass.new (P.stand peer.old) (P.stand peer.new) }
    ensures root { P.root peer.new ≡ P.root peer.old }
{
    let Some(number) = net.checked_add(1) else {
        return Next::End;
    };
    match turn.work(rt, pass, &Job::Fetch { number }, update) {
        JobReply::Done(_) => {
            gate.pass(2);
            let ack = peer.hand(update);
            acknowledge(rt, turn, pass, peer, ack, update);
            if ack.net > net {
                Next::From(ack.net)
            } else {
                Next::End
            }
        }
        JobReply::Nothing => Next::Idle,
        JobReply::Gone { low: _ } => Next::End,
        JobReply::Refused(_) => Next::End,
    }
}

// Lets the peer apply everything, and acknowledges what it has then.
fn finish<H: Wait, E: Engine, P: Peer>(
    rt: &H,
    turn: &Turn<E>,
    pass: &mut Pass,
    peer: &mut P,
    update: &mut Update,
)
    requires table { table_id_of pass.old ≡ table_of turn.now }
    requires link { IsLinked pass.old (P.stand peer.old) }
    ensures drained { Drained pass.old (P.stand peer.old) pass.new (P.stand peer.new) }
    ensures received { (P.stand peer.new).net ≡ (P.stand peer.old).net }
    ensures root { P.root peer.new ≡ P.root peer.old }
{
    let ack = peer.finish();
    acknowledge(rt, turn, pass, peer, ack, update);
}

// One turn of a worker: where nothing is left to hand over, or at the end, the peer finishes what was handed over before.
fn go_on<H: Wait, E: Engine, P: Peer, G: Gate>(
    rt: &H,
    gate: &G,
    turn: &Turn<E>,
    pass: &mut Pass,
    peer: &mut P,
    net: u64,
    fresh: bool,
    update: &mut Update,
) -> Next
    requires table { table_id_of pass.old ≡ table_of turn.now }
    requires link { IsLinked pass.old (P.stand peer.old) }
    requires net { net ≡ (P.stand peer.old).net }
    ensures drained { Drained pass.old (P.stand peer.old) pass.new (P.stand peer.new) }
    ensures leads { LeadsOn result pass.new (P.stand peer.old) (P.stand peer.new) }
    ensures root { P.root peer.new ≡ P.root peer.old }
{
    let next = hand_next(rt, gate, turn, pass, peer, net, update);
    match next {
        Next::From(more) => Next::From(more),
        Next::Idle => {
            if fresh {
                finish(rt, turn, pass, peer, update);
            }
            Next::Idle
        }
        Next::End => {
            finish(rt, turn, pass, peer, update);
            Next::End
        }
    }
}

impl<P: Peer> Drainer<P> {
    /// Hands over what is logged, until the writers are done and nothing is left, or the peer gets no further. `busy` is the number of
    /// writers that are not done.
    pub(crate) fn drain<H: Wait, E: Engine, G: Gate>(
        &mut self,
        rt: &H,
        gate: &G,
        turn: &Turn<E>,
        busy: &AtomicU64,
    )
        requires table { table_id_of self.old.pass ≡ table_of turn.now }
        requires link { IsLinked self.old.pass (P.stand self.old.peer) }
        ensures { DrainedWith P.stand P.root self.old self.new }
    {
        let mut update = unset();
        let mut net = self.peer.finish().net;
        let mut fresh = true;
        for _ in rt.forever() {
            let last = busy.load(Ordering::SeqCst) == 0;
            match go_on(
                rt,
                gate,
                turn,
                &mut self.pass,
                &mut self.peer,
                net,
                fresh,
                &mut update,
            ) {
                Next::From(more) => {
                    net = more;
                    fresh = true;
                }
                Next::Idle => {
                    if last {
                        return;
                    }
                    fresh = false;
                    thread::yield_now();
                }
                Next::End => return,
            }
        }
    }
}
