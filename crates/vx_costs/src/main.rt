//! The program for bench/layers: `vx_costs COUNT` times so many writes of a group over a shelf in memory, and SHA-256 over the same
//! records. Without a number it does nothing.
#![tactic(auto)]

mod groups;
mod times;

ghost use Rattle.std.specs.Prelude.{◌≤◌};
ghost use Rattle.vx_ringio.specs.Bodies.{IsBlocks};

use crate::groups::calls_of;
use crate::times::{bringing, hashing, writing};
use std::alloc::Global;
use std::env;
use vx_model::limits::{BLOCK, LEAST_BLOCKS, MOST_MEMORY_BLOCKS};

// The number that the program was called with.
fn wanted(rt: HostRuntime) -> Option<u64> {
    let Ok(all) = env::args(&rt) else {
        return None;
    };
    let Ok(words) = all.skip(1).collect::<Vec<String>>(rt.alloc()) else {
        return None;
    };
    if words.len() != 1 {
        return None;
    }
    match words[0].parse::<u64>() {
        Ok(count) => Some(count),
        Err(_) => None,
    }
}

// Prints one line: nanoseconds and calls of a write, nanoseconds of its digest, and those in which it comes into its volume.
fn line(rt: HostRuntime, alloc: Global, disk: u64, bytes: &[u8], count: u64)
    requires some { LEAST_BLOCKS ≤ disk }
    requires few { disk ≤ MOST_MEMORY_BLOCKS }
    requires blocks { IsBlocks bytes.now }
{
    let blocks = bytes.len() / BLOCK;
    let write = writing(rt, alloc, disk, bytes, count);
    let hash = hashing(rt, bytes, count);
    let room = bringing(rt, alloc, disk, bytes);
    let calls = calls_of(alloc, bytes);
    let _ = println!(rt;
        "disks of {disk} blocks, {blocks} a write: {write} ns, {calls} calls, SHA-256 {hash} ns, into its volume {room} ns"
    );
}

fn main(rt: HostRuntime) {
    let Some(count) = wanted(rt) else {
        return;
    };
    let alloc = rt.alloc();
    line(rt, alloc, 64, &[0x5a; BLOCK], count);
    line(rt, alloc, 64, &[0x5a; 8192], count);
    line(rt, alloc, 16384, &[0x5a; BLOCK], count);
    line(rt, alloc, 16384, &[0x5a; 8192], count);
}
