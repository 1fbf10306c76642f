//! The program for bench/turn: `vx_turn_costs COUNT` times so many reads of an engine without volumes, made by one thread alone, and by
//! 1, 2, 4 and 8 threads through a turn. Without a number it does nothing.
#![tactic(auto)]

mod times;

use crate::times::{alone, shared};
use std::env;

// The number that the program was called with.
fn wanted(rt: HostRuntime) -> Option<u64> {
    let Ok(all) = env::args(&rt) else {
        return None;
    };
    let Ok(words) = all.skip(1).collect::<Vec<String>>(rt.alloc()) else {
        return None;
    };
    if words.len() != 1 {
        return None;
    }
    match words[0].parse::<u64>() {
        Ok(count) => Some(count),
        Err(_) => None,
    }
}

fn main(rt: HostRuntime) {
    let Some(count) = wanted(rt) else {
        return;
    };
    let alloc = rt.alloc();
    let time = alone(rt, alloc, count as usize);
    let _ = println!(rt; "without a turn: {time} ns a call");
    let threads = [1u32, 2, 4, 8];
    for k in 0..threads.len() {
        let many = threads[k];
        let time = shared(rt, &rt, alloc, count as usize, many.clamp(1, 8));
        let _ = println!(rt; "through a turn, {many} threads: {time} ns a call");
    }
}
