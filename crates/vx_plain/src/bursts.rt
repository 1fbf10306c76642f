// Bursts over engines in memory.
ghost use Rattle.std.specs.Prelude.{◌≡◌, ◌<◌, ◌≤◌, length, IfSome};
ghost use Rattle.vx_burst_threads.specs.Planning.{AllCalls};

use crate::peer::{Idle, two_peers};
use crate::plans::reads;
use crate::shut::Shut;
use crate::small::Small;
use crate::taker::{Taker, two_takers};
use std::alloc::Global;
use std::sync::Wait;
use std::thread::Threads;
use vx_burst::{MOST_THREADS, Outcome, run};
use vx_burst_threads::{Gate, Planned};

/// So many reads by so many threads over the engine without volumes, with two peers.
pub fn burst_of<H: Threads + Wait + Sync, G: Gate>(
    rt: &H,
    alloc: Global,
    gate: &G,
    count: usize,
    threads: u32,
) -> Option<Outcome<Shut, Idle>>
    requires { (0 < threads) × (threads ≤ MOST_THREADS) }
    ensures { IfSome result (λ o. (length o.answers.items ≡ count) × (length o.peers.items ≡ 2)) }
{
    let plan = reads(alloc, count, threads)?;
    let peers = two_peers(alloc)?;
    match run(
        rt,
        alloc,
        Shut::new(),
        peers,
        plan.as_slice(),
        threads,
        gate,
    ) {
        Ok(outcome) => Some(outcome),
        Err(_) => None,
    }
}

/// The calls of a plan over the small engine, whose links may be `lag` writes behind, with two peers that take so many updates.
pub fn small_burst<H: Threads + Wait + Sync, G: Gate>(
    rt: &H,
    alloc: Global,
    gate: &G,
    lag: u64,
    most: [usize; 2],
    plan: &[Planned],
    threads: u32,
) -> Option<Outcome<Small, Taker>>
    requires calls { AllCalls plan.now }
    requires threads { threads ≤ MOST_THREADS }
    ensures { IfSome result (λ o. (length o.answers.items ≡ length plan.now) × (length o.peers.items ≡ 2)) }
{
    let peers = two_takers(alloc, most)?;
    match run(
        rt,
        alloc,
        Small::new(alloc, lag),
        peers,
        plan,
        threads,
        gate,
    ) {
        Ok(outcome) => Some(outcome),
        Err(_) => None,
    }
}
