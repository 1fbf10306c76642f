// Threads over an engine with a small log, and peers that take what they are handed.
use std::process::Abort;
use std::sync::atomic::{AtomicU64, Ordering};
use std::test::*;
use vx_burst::Outcome;
use vx_burst_threads::{Answered, Gate, OpenGate, Planned, Told, Waited};
use vx_model::{No, SiteName};
use vx_plain::{Small, Taker, VOLUME_BLOCKS, small_burst, writes};

// The places are 1 to the number of answers, each once.
fn places<R: Abort>(rt: &R, answers: &[Answered]) {
    for place in 1..=answers.len() as u64 {
        let mut times = 0u32;
        for answered in answers.iter() {
            if answered.place == place {
                times = times.saturating_add(1);
            }
        }
        assert!(rt; times == 1);
    }
}

// They rise in each of so many threads, which take turns in the plan.
fn rises<R: Abort>(rt: &R, answers: &[Answered], threads: usize) {
    for k in 0..answers.len() {
        if k >= threads {
            assert!(rt; answers[k - threads].place < answers[k].place);
        }
    }
}

// Each is a write that was logged under the number of its place, and confirmed.
fn are_confirmed<R: Abort>(rt: &R, answers: &[Answered]) {
    for answered in answers.iter() {
        assert!(rt; matches!(answered.reply, Told::Logged(n) if n == answered.place));
        assert!(rt; matches!(answered.waited, Waited::Done));
    }
}

// Each peer has so many updates in the order of their numbers, and each is that of the plan's member with this place.
fn are_brought<R: Abort>(rt: &R, outcome: &Outcome<Small, Taker>, plan: &[Planned], count: usize) {
    for peer in outcome.peers.iter() {
        assert!(rt; peer.handed.len() == count);
        for k in 0..plan.len() {
            if k < outcome.answers.len() {
                let place = outcome.answers[k].place;
                if place > 0 && place <= peer.handed.len() as u64 {
                    let update = &peer.handed[place as usize - 1];
                    assert!(rt; update.number == place);
                    assert!(rt; update.block == plan[k].start);
                    assert!(rt; update.bytes.as_bytes().len() == 512);
                    assert!(rt; plan[k].fill == Some(update.bytes.as_bytes()[0]));
                }
            }
        }
    }
}

#[test]
fn a_thousand_writes_of_four_threads_come_to_both_peers(rt: HostRuntime) -> Result<(), Fail> {
    let Some(plan) = writes(rt.alloc(), 1000, 4) else {
        return Err("no memory".into());
    };
    let Some(outcome) = small_burst(
        &rt,
        rt.alloc(),
        &OpenGate,
        u64::MAX,
        [1000, 1000],
        plan.as_slice(),
        4,
    ) else {
        return Err("no memory".into());
    };
    places(&rt, outcome.answers.as_slice());
    rises(&rt, outcome.answers.as_slice(), 4);
    are_confirmed(&rt, outcome.answers.as_slice());
    are_brought(&rt, &outcome, plan.as_slice(), 1000);
    Ok(())
}

#[test]
fn no_write_ends_as_stalled_where_both_peers_take_all(rt: HostRuntime) -> Result<(), Fail> {
    let Some(plan) = writes(rt.alloc(), 200, 4) else {
        return Err("no memory".into());
    };
    let Some(outcome) = small_burst(
        &rt,
        rt.alloc(),
        &OpenGate,
        8,
        [200, 200],
        plan.as_slice(),
        4,
    ) else {
        return Err("no memory".into());
    };
    places(&rt, outcome.answers.as_slice());
    rises(&rt, outcome.answers.as_slice(), 4);
    are_confirmed(&rt, outcome.answers.as_slice());
    are_brought(&rt, &outcome, plan.as_slice(), 200);
    Ok(())
}

// A peer that takes nothing lets 8 writes in, and the 12 others end as stalled for its link.
#[test]
fn a_peer_without_progress_stalls_all_but_eight(rt: HostRuntime) -> Result<(), Fail> {
    let Some(plan) = writes(rt.alloc(), 20, 2) else {
        return Err("no memory".into());
    };
    let Some(outcome) = small_burst(&rt, rt.alloc(), &OpenGate, 8, [20, 0], plan.as_slice(), 2)
    else {
        return Err("no memory".into());
    };
    places(&rt, outcome.answers.as_slice());
    rises(&rt, outcome.answers.as_slice(), 2);
    let mut logged = 0u32;
    for answered in outcome.answers.iter() {
        assert!(&rt; matches!(answered.waited, Waited::No));
        if answered.place <= 8 {
            assert!(&rt; matches!(answered.reply, Told::Logged(n) if n == answered.place));
            logged = logged.saturating_add(1);
        } else {
            assert!(&rt;
                matches!(
                    answered.reply,
                    Told::Refused(No::Stalled {
                        link: SiteName::Number(1)
                    })
                )
            );
        }
    }
    assert!(&rt; logged == 8);
    let mut first = true;
    for peer in outcome.peers.iter() {
        assert!(&rt; peer.handed.len() == if first { 8 } else { 0 });
        first = false;
    }
    Ok(())
}

// How often each point was passed, and how often a wait was given up.
#[derive(Drop)]
struct Counts {
    ones: AtomicU64,
    twos: AtomicU64,
    threes: AtomicU64,
    late: AtomicU64,
}

impl Counts {
    fn new() -> Counts {
        Counts {
            ones: AtomicU64::new(0),
            twos: AtomicU64::new(0),
            threes: AtomicU64::new(0),
            late: AtomicU64::new(0),
        }
    }

    // Waits for no more than 100,000,000 turns until so many are there.
    fn wait(&self, counter: &AtomicU64, least: u64) {
        for _ in 0..100_000_000u64 {
            if counter.load(Ordering::SeqCst) >= least {
                return;
            }
        }
        self.late.fetch_add(1, Ordering::SeqCst);
    }
}

// Holds the first call at point 1 until a second is at point 3, and that second one until a call is at point 1.
#[derive(Drop)]
struct TwoWriters {
    counts: Counts,
}

impl Gate for TwoWriters {
    fn pass(&self, point: u8) {
        if point == 1 && self.counts.ones.fetch_add(1, Ordering::SeqCst) == 0 {
            self.counts.wait(&self.counts.threes, 2);
        }
        if point == 3 && self.counts.threes.fetch_add(1, Ordering::SeqCst) == 1 {
            self.counts.wait(&self.counts.ones, 1);
        }
    }
}

#[test]
fn two_writers_see_each_other(rt: HostRuntime) -> Result<(), Fail> {
    let gate = TwoWriters {
        counts: Counts::new(),
    };
    let Some(plan) = writes(rt.alloc(), 2, 2) else {
        return Err("no memory".into());
    };
    let Some(outcome) = small_burst(&rt, rt.alloc(), &gate, 8, [2, 2], plan.as_slice(), 2) else {
        return Err("no memory".into());
    };
    assert!(&rt; gate.counts.threes.load(Ordering::SeqCst) == 2);
    assert!(&rt; gate.counts.ones.load(Ordering::SeqCst) == 2);
    assert!(&rt; gate.counts.late.load(Ordering::SeqCst) == 0);
    places(&rt, outcome.answers.as_slice());
    are_confirmed(&rt, outcome.answers.as_slice());
    Ok(())
}

// The second call at point 1 returns when a call at point 2 has begun, and the first call at point 2 when a second one at point 1 has. The
// second call at point 1 holds the turn, through which workers fetch: so all callers but the first come to it behind the first record taken.
#[derive(Drop)]
struct WriterAndWorker {
    counts: Counts,
}

impl Gate for WriterAndWorker {
    fn pass(&self, point: u8) {
        if point == 1 && self.counts.ones.fetch_add(1, Ordering::SeqCst) == 1 {
            self.counts.wait(&self.counts.twos, 1);
        }
        if point == 2 && self.counts.twos.fetch_add(1, Ordering::SeqCst) == 0 {
            self.counts.wait(&self.counts.ones, 2);
        }
        if point == 3 && self.counts.threes.fetch_add(1, Ordering::SeqCst) > 0 {
            self.counts.wait(&self.counts.twos, 1);
        }
    }
}

#[test]
fn a_writer_and_a_worker_see_each_other(rt: HostRuntime) -> Result<(), Fail> {
    let gate = WriterAndWorker {
        counts: Counts::new(),
    };
    let Some(plan) = writes(rt.alloc(), 4, 4) else {
        return Err("no memory".into());
    };
    let Some(outcome) = small_burst(&rt, rt.alloc(), &gate, 8, [4, 4], plan.as_slice(), 4) else {
        return Err("no memory".into());
    };
    assert!(&rt; gate.counts.threes.load(Ordering::SeqCst) == 4);
    assert!(&rt; gate.counts.ones.load(Ordering::SeqCst) == 4);
    assert!(&rt; gate.counts.twos.load(Ordering::SeqCst) >= 1);
    assert!(&rt; gate.counts.late.load(Ordering::SeqCst) == 0);
    places(&rt, outcome.answers.as_slice());
    are_confirmed(&rt, outcome.answers.as_slice());
    Ok(())
}

// Without threads the caller makes all calls, in the plan's order.
#[test]
fn a_burst_of_no_thread_has_the_places_of_its_plan(rt: HostRuntime) -> Result<(), Fail> {
    let Some(plan) = writes(rt.alloc(), 3, 1) else {
        return Err("no memory".into());
    };
    let Some(outcome) = small_burst(&rt, rt.alloc(), &OpenGate, 8, [3, 3], plan.as_slice(), 0)
    else {
        return Err("no memory".into());
    };
    for k in 0..outcome.answers.len() {
        assert!(&rt; outcome.answers[k].place == k as u64 + 1);
    }
    are_confirmed(&rt, outcome.answers.as_slice());
    are_brought(&rt, &outcome, plan.as_slice(), 3);
    Ok(())
}

#[test]
fn an_empty_plan_has_no_answer(rt: HostRuntime) -> Result<(), Fail> {
    let Some(outcome) = small_burst(&rt, rt.alloc(), &OpenGate, 8, [1, 1], &[], 2) else {
        return Err("no memory".into());
    };
    assert!(&rt; outcome.answers.len() == 0);
    for peer in outcome.peers.iter() {
        assert!(&rt; peer.handed.len() == 0);
    }
    Ok(())
}

// A write past the volume is refused with 3 and has a place, but no number. A read fails, as each of this engine does.
#[test]
fn refused_calls_have_places_and_no_numbers(rt: HostRuntime) -> Result<(), Fail> {
    let call = |start: u64, fill: Option<u8>| Planned {
        thread: 1,
        vol: 0,
        start,
        count: 1,
        fill,
    };
    let plan = [
        call(0, Some(1)),
        call(VOLUME_BLOCKS, Some(2)),
        call(5, None),
        call(1, Some(3)),
    ];
    let Some(outcome) = small_burst(&rt, rt.alloc(), &OpenGate, 8, [4, 4], &plan, 1) else {
        return Err("no memory".into());
    };
    places(&rt, outcome.answers.as_slice());
    let told = outcome.answers.as_slice();
    assert!(&rt; told.len() == 4);
    assert!(&rt; matches!(told[0].reply, Told::Logged(1)));
    assert!(&rt; matches!(told[1].reply, Told::Refused(No::Range)));
    assert!(&rt; matches!(told[2].reply, Told::Refused(No::Device { disk: 0 })));
    assert!(&rt; matches!(told[3].reply, Told::Logged(2)));
    Ok(())
}
