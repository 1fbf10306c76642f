// The time of mirrored writes, and of digests.
ghost use Rattle.std.specs.Prelude.{◌≡◌, None};

use crate::groups::{group, write};
use std::alloc::Global;
use std::time::{Duration, Instant};
use vx_layout::Shape;
use vx_wire::digest;

// Nanoseconds, at most the greatest number.
fn nanos(time: Duration) -> u64 {
    time.as_secs()
        .saturating_mul(1_000_000_000)
        .saturating_add(time.subsec_nanos() as u64)
}

/// Nanoseconds of the fastest of so many writes of one region, each made durable, or the greatest number where one failed.
pub fn writing(rt: HostRuntime, alloc: Global, want: &Shape, bytes: &[u8], count: u64) -> u64
    requires plain { want.now.prefer ≡ None }
{
    let Some(mut made) = group(alloc, want, u64::MAX) else {
        return u64::MAX;
    };
    let mut least = u64::MAX;
    for _ in 0..count {
        let Ok(start) = Instant::now(&rt) else {
            return u64::MAX;
        };
        if !write(&mut made, 0, bytes) {
            return u64::MAX;
        }
        let Ok(time) = start.elapsed(&rt) else {
            return u64::MAX;
        };
        least = least.min(nanos(time));
    }
    least
}

/// Nanoseconds of the fastest of so many digests of these bytes.
pub fn hashing(rt: HostRuntime, bytes: &[u8], count: u64) -> u64 {
    let mut least = u64::MAX;
    let mut sum: u8 = 0;
    for _ in 0..count {
        let Ok(start) = Instant::now(&rt) else {
            return u64::MAX;
        };
        // A digest that is not looked at could be left out by the compiler.
        sum ^= digest(bytes)[0];
        let Ok(time) = start.elapsed(&rt) else {
            return u64::MAX;
        };
        least = least.min(nanos(time));
    }
    least.saturating_add((sum >> 7) as u64)
}
