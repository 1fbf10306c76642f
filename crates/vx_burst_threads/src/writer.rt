// A thread that makes its calls in the plan's order.
ghost use Rattle.std.specs.Prelude.{◌≡◌, ◌≤◌, ◌<◌, [], length, vec_capacity};
ghost use Rattle.vx_turn.specs.Passing.{table_of, table_id_of};
ghost use Rattle.vx_burst_threads.specs.Planning.{IsCall, AllCalls, own_count};
ghost use Rattle.vx_burst_threads.specs.Writing.{WasAsked, WriterGoes, WriterWrote};

use crate::gate::Gate;
use crate::plan::{Planned, Told, call_of, is_stalled, tell};
use std::sync::Wait;
use vx_turn::{Engine, Pass, Turn};

/// A call that was made and not stalled: which member of the plan it is, its place in the history, and what it was told.
#[derive(Clone, Copy)]
pub struct Made {
    pub at: usize,
    pub place: u64,
    pub reply: Told,
}

/// A thread's number, its pass, and what it made.
#[derive(Drop)]
pub struct Writer {
    pub thread: u32,
    pub pass: Pass,
    pub made: Vec<Made>,
}

// Makes a call, and answers nothing where it is stalled.
fn ask<H: Wait, E: Engine, G: Gate>(
    rt: &H,
    gate: &G,
    turn: &Turn<E>,
    pass: &mut Pass,
    planned: &Planned,
    at: usize,
) -> Option<Made>
    requires table { table_id_of pass.old ≡ table_of turn.now }
    requires call { IsCall planned.now }
    ensures { WasAsked planned.now at pass.old result pass.new }
{
    gate.pass(3);
    let (place, reply) = turn.call(rt, pass, &call_of(planned));
    if is_stalled(&reply) {
        None
    } else {
        Some(Made {
            at,
            place,
            reply: tell(&reply),
        })
    }
}

impl Writer {
    // Makes the call where it is one of this thread, and says whether the thread goes on.
    fn write_one<H: Wait, E: Engine, G: Gate>(
        &mut self,
        rt: &H,
        gate: &G,
        turn: &Turn<E>,
        planned: &Planned,
        at: usize,
    ) -> bool
        requires table { table_id_of self.old.pass ≡ table_of turn.now }
        requires call { IsCall planned.now }
        requires room { planned.now.thread ≡ self.old.thread → length self.old.made.items < vec_capacity self.old.made }
        ensures { WriterGoes planned.now at self.old result self.new }
    {
        if planned.thread != self.thread {
            return true;
        }
        match ask(rt, gate, turn, &mut self.pass, planned, at) {
            None => false,
            Some(made) => {
                if self.made.push(made).is_err() {
                    unreachable!();
                }
                true
            }
        }
    }

    /// Makes the calls of this thread in the plan's order, up to the first that is stalled.
    pub(crate) fn write_all<H: Wait, E: Engine, G: Gate>(
        &mut self,
        rt: &H,
        gate: &G,
        turn: &Turn<E>,
        plan: &[Planned],
    )
        requires table { table_id_of self.old.pass ≡ table_of turn.now }
        requires calls { AllCalls plan.now }
        requires room { (self.old.made.items ≡ []) × (own_count self.old.thread plan.now ≤ vec_capacity self.old.made) }
        ensures { WriterWrote plan.now self.old self.new }
    {
        for k in 0..plan.len() {
            let Some(planned) = plan.get(k) else {
                unreachable!();
            };
            if !self.write_one(rt, gate, turn, planned, k) {
                return;
            }
        }
    }
}
