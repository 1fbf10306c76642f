// Plans of reads, and of writes.
ghost use Rattle.std.specs.Prelude.{◌≡◌, ◌<◌, length, IfSome};
ghost use Rattle.vx_burst_threads.specs.Planning.{AllCalls};

use crate::small::VOLUME_BLOCKS;
use std::alloc::Global;
use vx_burst_threads::Planned;

/// So many reads, dealt to so many threads in turn.
pub fn reads(alloc: Global, count: usize, threads: u32) -> Option<Vec<Planned>>
    requires { 0 < threads }
    ensures { IfSome result (λ v. AllCalls v.items × (length v.items ≡ count)) }
{
    let Ok(mut plan) = Vec::with_capacity(alloc, count) else {
        return None;
    };
    for k in 0..count {
        let planned = Planned {
            thread: (k as u64 % threads as u64) as u32 + 1,
            vol: 0,
            start: 0,
            count: 1,
            fill: None,
        };
        if plan.push(planned).is_err() {
            return None;
        }
    }
    Some(plan)
}

/// So many writes of one block each, dealt to so many threads in turn. The byte and the block go by the place in the plan.
pub fn writes(alloc: Global, count: usize, threads: u32) -> Option<Vec<Planned>>
    requires { 0 < threads }
    ensures { IfSome result (λ v. AllCalls v.items × (length v.items ≡ count)) }
{
    let Ok(mut plan) = Vec::with_capacity(alloc, count) else {
        return None;
    };
    for k in 0..count {
        let planned = Planned {
            thread: (k as u64 % threads as u64) as u32 + 1,
            vol: 0,
            start: k as u64 % VOLUME_BLOCKS,
            count: 1,
            fill: Some((k % 256) as u8),
        };
        if plan.push(planned).is_err() {
            return None;
        }
    }
    Some(plan)
}
