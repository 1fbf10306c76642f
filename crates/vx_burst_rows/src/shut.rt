// Threads over an engine without volumes.
use std::process::Abort;
use std::sync::atomic::{AtomicU64, Ordering};
use std::test::*;
use vx_burst::Outcome;
use vx_burst_threads::{Gate, OpenGate, Told, Waited};
use vx_model::No;
use vx_plain::{Idle, Shut, burst_of};

// Each answer has the refusal of a read on no volume.
fn is_refused<R: Abort>(rt: &R, outcome: &Outcome<Shut, Idle>, count: usize) {
    assert!(rt; outcome.answers.len() == count);
    for answered in outcome.answers.iter() {
        assert!(rt; matches!(answered.reply, Told::Refused(No::Range)));
        assert!(rt; matches!(answered.waited, Waited::No));
        assert!(rt; answered.place > 0 && answered.place <= count as u64);
    }
}

// The places of so many threads, which take turns in the plan, rise in each of them.
fn rises<R: Abort>(rt: &R, outcome: &Outcome<Shut, Idle>, threads: usize) {
    for k in 0..outcome.answers.len() {
        if k >= threads {
            assert!(rt; outcome.answers[k - threads].place < outcome.answers[k].place);
        }
    }
}

#[test]
fn one_thread_has_the_places_of_its_plan(rt: HostRuntime) -> Result<(), Fail> {
    let Some(outcome) = burst_of(&rt, rt.alloc(), &OpenGate, 5, 1) else {
        return Err("no memory".into());
    };
    is_refused(&rt, &outcome, 5);
    for k in 0..outcome.answers.len() {
        assert!(&rt; outcome.answers[k].place == k as u64 + 1);
    }
    Ok(())
}

#[test]
fn a_hundred_thousand_calls_by_eight_threads(rt: HostRuntime) -> Result<(), Fail> {
    let Some(outcome) = burst_of(&rt, rt.alloc(), &OpenGate, 100_000, 8) else {
        return Err("no memory".into());
    };
    is_refused(&rt, &outcome, 100_000);
    rises(&rt, &outcome, 8);
    Ok(())
}

// Holds the second call at point 3 until a third is there, for no more than 100,000,000 turns.
#[derive(Drop)]
struct Crossing {
    threes: AtomicU64,
    late: AtomicU64,
}

impl Gate for Crossing {
    fn pass(&self, point: u8) {
        if point == 3 && self.threes.fetch_add(1, Ordering::SeqCst) == 0 {
            for _ in 0..100_000_000u64 {
                if self.threes.load(Ordering::SeqCst) > 1 {
                    return;
                }
            }
            self.late.fetch_add(1, Ordering::SeqCst);
        }
    }
}

#[test]
fn two_threads_are_at_the_gate_at_once(rt: HostRuntime) -> Result<(), Fail> {
    let gate = Crossing {
        threes: AtomicU64::new(0),
        late: AtomicU64::new(0),
    };
    let Some(outcome) = burst_of(&rt, rt.alloc(), &gate, 2, 2) else {
        return Err("no memory".into());
    };
    is_refused(&rt, &outcome, 2);
    assert!(&rt; gate.threes.load(Ordering::SeqCst) == 2);
    assert!(&rt; gate.late.load(Ordering::SeqCst) == 0);
    Ok(())
}
