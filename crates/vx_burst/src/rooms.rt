// The memory of a burst, all of which is taken before its first call.
ghost use Rattle.std.specs.Prelude.{◌≡◌, ◌≤◌, ◌==◌, length, IfSome};
ghost use Rattle.vx_model.specs.Numbers.{one_if};
ghost use Rattle.vx_burst_threads.specs.Planning.{own_count};
ghost use Rattle.vx_burst.specs.Setting.{AreBlank, AreThreadRooms, HasBurstRoom};

use crate::limits::{MOST_PEERS, MOST_THREADS};
use crate::placing::Spot;
use std::alloc::Global;
use vx_burst_threads::{Answered, Made, Planned, Told, Waited, Worker};
use vx_model::No;

/// Room for what one thread makes.
#[derive(Drop)]
pub(crate) struct Space {
    pub made: Vec<Made>,
}

/// Room for the answers, for their order, for what each thread makes, and for the workers.
#[derive(Drop)]
pub(crate) struct Room<P> {
    pub answers: Vec<Answered>,
    pub order: Vec<Spot>,
    pub made: Vec<Space>,
    pub workers: Vec<Worker<P>>,
    pub peers: Vec<P>,
}

// Answers with no place.
fn blanks(alloc: Global, count: usize) -> Option<Vec<Answered>>
    ensures { IfSome result (λ v. (length v.items ≡ count) × AreBlank v.items) }
{
    let Ok(mut all) = Vec::with_capacity(alloc, count) else {
        return None;
    };
    for k in 0..count {
        let _ = k;
        let blank = Answered {
            place: 0,
            reply: Told::Refused(No::Down),
            waited: Waited::No,
        };
        if all.push(blank).is_err() {
            return None;
        }
    }
    Some(all)
}

// 1 for a member of the thread.
fn is_own(planned: &Planned, thread: u32) -> usize
    ensures { result ≡ one_if (planned.now.thread == thread) }
{
    if planned.thread == thread { 1 } else { 0 }
}

// How many members of the plan are the thread's.
fn own(plan: &[Planned], thread: u32) -> usize
    ensures { result ≡ own_count thread plan.now }
{
    let mut count = 0;
    for k in 0..plan.len() {
        let Some(planned) = plan.get(k) else {
            unreachable!();
        };
        count += is_own(planned, thread);
    }
    count
}

// Room for what each thread makes, the last thread's first.
fn spaces(alloc: Global, plan: &[Planned], threads: u32) -> Option<Vec<Space>>
    ensures { IfSome result (λ v. AreThreadRooms plan.now threads v.items × (length v.items ≡ threads)) }
{
    let Ok(mut all) = Vec::with_capacity(alloc, threads as usize) else {
        return None;
    };
    let mut thread = threads;
    while thread > 0 {
        let Ok(made) = Vec::with_capacity(alloc, own(plan, thread)) else {
            return None;
        };
        if all.push(Space { made }).is_err() {
            return None;
        }
        thread -= 1;
    }
    Some(all)
}

/// Takes all memory of a burst but that of its turn.
pub(crate) fn take_room<P: Drop>(
    alloc: Global,
    plan: &[Planned],
    threads: u32,
    peers: usize,
) -> Option<Room<P>>
    requires { (peers ≤ MOST_PEERS) × (threads ≤ MOST_THREADS) }
    ensures { IfSome result (λ r. HasBurstRoom plan.now threads peers r) }
{
    let answers = blanks(alloc, plan.len())?;
    let made = spaces(alloc, plan, threads)?;
    let Ok(order) = Vec::with_capacity(alloc, plan.len()) else {
        return None;
    };
    let Ok(workers) = Vec::with_capacity(alloc, threads as usize + peers) else {
        return None;
    };
    let Ok(back) = Vec::with_capacity(alloc, threads as usize + peers) else {
        return None;
    };
    Some(Room {
        answers,
        order,
        made,
        workers,
        peers: back,
    })
}
