// The time of writes, and of digests.
ghost use Rattle.std.specs.Prelude.{◌≤◌};
ghost use Rattle.vx_ringio.specs.Bodies.{IsBlocks};

use crate::groups::{group, make_room, write};
use std::alloc::Global;
use std::time::{Duration, Instant};
use vx_model::limits::{BLOCK, LEAST_BLOCKS, MOST_MEMORY_BLOCKS};
use vx_wire::digest;

// Nanoseconds, at most the greatest number.
fn nanos(time: Duration) -> u64 {
    time.as_secs()
        .saturating_mul(1_000_000_000)
        .saturating_add(time.subsec_nanos() as u64)
}

/// Nanoseconds of the fastest of so many writes, or the greatest number where one failed.
pub fn writing(rt: HostRuntime, alloc: Global, disk: u64, bytes: &[u8], count: u64) -> u64
    requires some { LEAST_BLOCKS ≤ disk }
    requires few { disk ≤ MOST_MEMORY_BLOCKS }
    requires blocks { IsBlocks bytes.now }
{
    let Some(mut rvg) = group(alloc, disk, u64::MAX) else {
        return u64::MAX;
    };
    let mut least = u64::MAX;
    for _ in 0..count {
        if rvg.free() < (bytes.len() / BLOCK) as u64 + 1 && !make_room(&mut rvg) {
            return u64::MAX;
        }
        let Ok(start) = Instant::now(&rt) else {
            return u64::MAX;
        };
        if !write(&mut rvg, 0, bytes) {
            return u64::MAX;
        }
        let Ok(time) = start.elapsed(&rt) else {
            return u64::MAX;
        };
        least = least.min(nanos(time));
    }
    least
}

// The bytes of a record's header that its digest is of.
const HEADER: [u8; 480] = [0x5a; 480];

/// Nanoseconds of the fastest of so many digests of a record of these blocks: of the blocks, and of its header.
pub fn hashing(rt: HostRuntime, bytes: &[u8], count: u64) -> u64 {
    let mut least = u64::MAX;
    let mut sum: u8 = 0;
    for _ in 0..count {
        let Ok(start) = Instant::now(&rt) else {
            return u64::MAX;
        };
        // A digest that is not looked at could be left out by the compiler.
        sum ^= digest(bytes)[0] ^ digest(&HEADER)[0];
        let Ok(time) = start.elapsed(&rt) else {
            return u64::MAX;
        };
        least = least.min(nanos(time));
    }
    least.saturating_add((sum >> 7) as u64)
}

/// Nanoseconds in which one of the writes of a full log comes into its volume, and is given up. They lie one behind the other.
pub fn bringing(rt: HostRuntime, alloc: Global, disk: u64, bytes: &[u8]) -> u64
    requires some { LEAST_BLOCKS ≤ disk }
    requires few { disk ≤ MOST_MEMORY_BLOCKS }
    requires blocks { IsBlocks bytes.now }
{
    let Some(mut rvg) = group(alloc, disk, u64::MAX) else {
        return u64::MAX;
    };
    let blocks = (bytes.len() / BLOCK) as u64;
    let mut writes: u64 = 0;
    for k in 0..disk {
        if rvg.free() <= blocks {
            break;
        }
        let start = k.wrapping_mul(blocks) % disk.saturating_sub(15).max(1);
        if !write(&mut rvg, start, bytes) {
            return u64::MAX;
        }
        writes = writes.saturating_add(1);
    }
    let Ok(start) = Instant::now(&rt) else {
        return u64::MAX;
    };
    if !make_room(&mut rvg) {
        return u64::MAX;
    }
    match start.elapsed(&rt) {
        Ok(time) => nanos(time) / writes.max(1),
        Err(_) => u64::MAX,
    }
}
