// Worked events of a secondary on the first line of site 0.
use vx_model::{Line, Mark, SPhase};
use vx_receiver::{RAction, REvent, RState, step};

fn line() -> Line {
    Line {
        generation: 1,
        origin: 0,
    }
}

fn fresh() -> RState {
    RState {
        line: line(),
        last: 0,
        waiting: 0,
        session: 1,
        mark: Mark::Consistent,
        phase: SPhase::Quiet,
        replay: 0,
        end: 0,
    }
}

fn update(number: u64) -> REvent {
    REvent::Update {
        line: line(),
        number,
    }
}

// The second update comes first and is ignored; the first is taken, and acknowledged again when it comes once more.
#[test]
fn takes_updates_in_order(rt: HostRuntime) {
    let mut state = fresh();
    for (number, wanted) in [
        (2, RAction::Ignored),
        (1, RAction::Take { ack: 1 }),
        (1, RAction::IgnoredAck { number: 1 }),
        (2, RAction::Take { ack: 2 }),
    ] {
        let action = step(&mut state, &update(number));
        assert!(rt; action == wanted);
    }
    assert!(rt; state.last == 2);
    assert!(rt; state.waiting == 2);
    let other = Line {
        generation: 2,
        origin: 1,
    };
    let foreign = REvent::Update {
        line: other,
        number: 3,
    };
    let action = step(&mut state, &foreign);
    assert!(rt; action == RAction::Ignored);
}

// Of 17 updates the last finds 16 that wait. What is applied makes room, and is acknowledged by its last number.
#[test]
fn sixteen_records_wait(rt: HostRuntime) {
    let mut state = fresh();
    for number in 1..17 {
        let action = step(&mut state, &update(number));
        assert!(rt; action == RAction::Take { ack: number });
    }
    let action = step(&mut state, &update(17));
    assert!(rt; action == RAction::Ignored);
    for (count, wanted) in [
        (0, RAction::Nothing),
        (3, RAction::DataAck { number: 3 }),
        (99, RAction::DataAck { number: 16 }),
        (1, RAction::Nothing),
    ] {
        let action = step(&mut state, &REvent::Applied { count });
        assert!(rt; action == wanted);
    }
    let action = step(&mut state, &update(17));
    assert!(rt; action == RAction::Take { ack: 17 });
}

// A crash loses the waiting record, and the session rises.
#[test]
fn a_restart_forgets_what_waits(rt: HostRuntime) {
    let mut state = fresh();
    let action = step(&mut state, &update(1));
    assert!(rt; action == RAction::Take { ack: 1 });
    let restart = REvent::Restart {
        last: 0,
        session: 2,
    };
    let action = step(&mut state, &restart);
    assert!(rt; action == RAction::Nothing);
    let mut wanted = fresh();
    wanted.session = 2;
    assert!(rt; state == wanted);
}

// A replay from 6 to 7: it is consistent once number 7 is applied, and not before.
#[test]
fn consistent_at_the_end_of_a_replay(rt: HostRuntime) {
    let mut state = fresh();
    state.last = 6;
    state.mark = Mark::Inconsistent;
    state.phase = SPhase::Regions;
    state.replay = 1;
    state.end = 7;
    let action = step(&mut state, &update(7));
    assert!(rt; action == RAction::Ignored);
    let action = step(&mut state, &update(6));
    assert!(rt; action == RAction::IgnoredAck { number: 6 });
    state.phase = SPhase::Log;
    let action = step(&mut state, &update(7));
    assert!(rt; action == RAction::Take { ack: 7 });
    assert!(rt; state.mark == Mark::Inconsistent);
    let action = step(&mut state, &REvent::Applied { count: 1 });
    assert!(rt; action == RAction::DataAck { number: 7 });
    assert!(rt; state.mark == Mark::Consistent);
    assert!(rt; state.phase == SPhase::Log);
}
