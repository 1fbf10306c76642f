// The time of a call.
ghost use Rattle.std.specs.Prelude.{◌<◌, ◌≤◌};
ghost use Rattle.vx_burst_threads.specs.Planning.{AllCalls};

use std::alloc::Global;
use std::sync::Wait;
use std::thread::Threads;
use std::time::{Duration, Instant};
use vx_burst::{MOST_THREADS, run};
use vx_burst_threads::{Answered, OpenGate, Planned, Told, Waited, call_of, tell};
use vx_plain::{Idle, Shut, reads};
use vx_turn::Engine;

// Nanoseconds, at most the greatest number.
fn nanos(time: Duration) -> u64 {
    time.as_secs()
        .saturating_mul(1_000_000_000)
        .saturating_add(time.subsec_nanos() as u64)
}

// Makes each call of a plan, and keeps what it was told behind the others, as a burst does.
fn ask_all<E: Engine>(engine: &mut E, plan: &[Planned], answers: Vec<Answered>) -> Vec<Answered>
    requires { AllCalls plan.now }
{
    let mut answers = answers;
    for k in 0..plan.len() {
        let Some(planned) = plan.get(k) else {
            unreachable!();
        };
        let reply = engine.answer(&call_of(planned));
        let answered = Answered {
            place: k as u64,
            reply: tell(&reply),
            waited: Waited::No,
        };
        if answers.push(answered).is_err() {
            return answers;
        }
    }
    answers
}

// How many of these were refused. Answers that are not looked at could be left out by the compiler.
fn count_of(answers: &[Answered]) -> u64 {
    let mut count: u64 = 0;
    for answered in answers.iter() {
        if matches!(answered.reply, Told::Refused(_)) {
            count = count.saturating_add(1);
        }
    }
    count
}

/// Nanoseconds of one of so many calls that one thread makes without a turn, or the greatest number where there is no memory or clock.
pub fn alone(rt: HostRuntime, alloc: Global, count: usize) -> u64 {
    let Some(plan) = reads(alloc, count, 1) else {
        return u64::MAX;
    };
    let mut engine = Shut::new();
    let Ok(start) = Instant::now(&rt) else {
        return u64::MAX;
    };
    let Ok(answers) = Vec::with_capacity(alloc, count) else {
        return u64::MAX;
    };
    let answers = ask_all(&mut engine, plan.as_slice(), answers);
    let Ok(time) = start.elapsed(&rt) else {
        return u64::MAX;
    };
    let made = count_of(answers.as_slice());
    if made == 0 {
        return u64::MAX;
    }
    nanos(time) / made
}

/// The same of calls that so many threads make through a turn, with the making of their answers.
pub fn shared<H: Threads + Wait + Sync>(
    clock: HostRuntime,
    rt: &H,
    alloc: Global,
    count: usize,
    threads: u32,
) -> u64
    requires { (0 < threads) × (threads ≤ MOST_THREADS) }
{
    let Some(plan) = reads(alloc, count, threads) else {
        return u64::MAX;
    };
    if count == 0 {
        return u64::MAX;
    }
    let peers: Vec<Idle> = Vec::new(alloc);
    let Ok(start) = Instant::now(&clock) else {
        return u64::MAX;
    };
    let done = run(
        rt,
        alloc,
        Shut::new(),
        peers,
        plan.as_slice(),
        threads,
        &OpenGate,
    );
    let Ok(time) = start.elapsed(&clock) else {
        return u64::MAX;
    };
    if done.is_err() {
        return u64::MAX;
    }
    nanos(time) / count as u64
}
