//! The program for bench/mirrors: `vx_mirror_costs COUNT` times so many writes of a mirrored volume in memory, with and without logs, and SHA-256
//! over the same bytes. Without a number it does nothing.
#![tactic(auto)]

mod groups;
mod times;

use crate::groups::{calls_of, shape};
use crate::times::{hashing, writing};
use std::alloc::Global;
use std::env;
use vx_model::limits::BLOCK;

// The number that the program was called with.
fn wanted(rt: HostRuntime) -> Option<u64> {
    let Ok(all) = env::args(&rt) else {
        return None;
    };
    let Ok(words) = all.skip(1).collect::<Vec<String>>(rt.alloc()) else {
        return None;
    };
    if words.len() != 1 {
        return None;
    }
    match words[0].parse::<u64>() {
        Ok(count) => Some(count),
        Err(_) => None,
    }
}

// Prints one line: calls and nanoseconds of a write of a volume with these logs, and nanoseconds of a digest of its bytes.
fn line(rt: HostRuntime, alloc: Global, drl: bool, fmr: bool, bytes: &[u8], count: u64) {
    let want = shape(drl, fmr);
    let blocks = bytes.len() / BLOCK;
    let calls = calls_of(alloc, &want, bytes);
    let write = writing(rt, alloc, &want, bytes, count);
    let hash = hashing(rt, bytes, count);
    let begin = calls.0;
    let first = calls.1;
    let next = calls.2;
    let _ = println!(rt;
        "drl {drl} fmr {fmr}, {blocks} a write: {begin} calls, {first}, then {next}, {write} ns, SHA-256 {hash} ns"
    );
}

fn main(rt: HostRuntime) {
    let Some(count) = wanted(rt) else {
        return;
    };
    let alloc = rt.alloc();
    for blocks in 0..2 {
        let bytes: &[u8] = if blocks == 0 {
            &[0x5a; BLOCK]
        } else {
            &[0x5a; 8192]
        };
        line(rt, alloc, false, false, bytes, count);
        line(rt, alloc, true, false, bytes, count);
        line(rt, alloc, true, true, bytes, count);
    }
}
