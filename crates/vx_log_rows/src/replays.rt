// Worked replays of a link from site 0 to site 1, on the first line of site 0.
use std::process::Abort;
use vx_history::RState;
use vx_model::{Line, Link, Mark, Mode, Phase, Prot, SPhase, SyncMode};
use vx_replay::{PAction, PEvent, QAction, QEvent, primary, secondary};

fn line() -> Line {
    Line {
        generation: 1,
        origin: 0,
    }
}

fn link(mode: Mode) -> Link {
    Link {
        site: 1,
        bunker: false,
        attached: true,
        connected: true,
        paused: false,
        sync: SyncMode::Off,
        prot: Prot::Autodcm,
        session: 1,
        net: 0,
        stored: 0,
        sent: 0,
        trimmed: 0,
        mode,
    }
}

fn replay(phase: Phase, left: u32, start: u64, end: u64) -> Mode {
    Mode::Replay {
        id: 1,
        phase,
        left,
        start,
        end,
    }
}

fn ack(kind: u8) -> PEvent {
    PEvent::Ack {
        id: 1,
        kind,
        marked: true,
    }
}

fn fresh() -> RState {
    RState {
        line: line(),
        last: 0,
        waiting: 0,
        session: 1,
        mark: Mark::Consistent,
        phase: SPhase::Quiet,
        replay: 0,
        end: 0,
    }
}

fn follows(rt: &impl Abort, link: &mut Link, event: &PEvent, wanted: PAction, mode: Mode) {
    let action = primary(link, event);
    assert!(rt; action == wanted);
    assert!(rt; link.mode == mode);
}

// Six writes overflowed the log, and one region is marked. It is read behind a seventh write.
#[test]
fn regions_are_sent_and_acknowledged(rt: HostRuntime) {
    let mut link = link(Mode::Dcm);
    let begin = PEvent::Begin {
        id: 1,
        head: 6,
        regions: 1,
    };
    let start = replay(Phase::Start, 1, 6, 6);
    let regions = replay(Phase::Regions, 1, 6, 6);
    let read = replay(Phase::Regions, 1, 6, 7);
    for (event, wanted, mode) in [
        (PEvent::Pump, PAction::Nothing, Mode::Dcm),
        (begin, PAction::SendStart, start),
        (PEvent::Pump, PAction::SendStart, start),
        (ack(1), PAction::Ignored, start),
        (ack(0), PAction::Nothing, regions),
        (PEvent::Pump, PAction::Nothing, regions),
        (PEvent::Read { head: 7 }, PAction::Nothing, read),
        (ack(0), PAction::Ignored, read),
        (ack(1), PAction::Nothing, replay(Phase::Done, 0, 6, 7)),
    ] {
        follows(&rt, &mut link, &event, wanted, mode);
    }
}

// Behind the last region the receiver stores the seventh write by the log, and the replay is over with it.
#[test]
fn the_log_follows_the_regions(rt: HostRuntime) {
    let done = replay(Phase::Done, 0, 6, 7);
    let log = replay(Phase::Log, 0, 6, 7);
    let mut link = link(done);
    for (event, wanted, mode) in [
        (PEvent::Pump, PAction::SendDone, done),
        (ack(2), PAction::Nothing, log),
        (PEvent::Pump, PAction::Nothing, log),
        (PEvent::Stored { number: 6 }, PAction::Nothing, log),
        (PEvent::Stored { number: 7 }, PAction::Finished, Mode::Log),
        (ack(2), PAction::Ignored, Mode::Log),
    ] {
        follows(&rt, &mut link, &event, wanted, mode);
    }
    assert!(rt; (link.net, link.stored, link.sent) == (6, 6, 6));
}

// A replay at the site that receives: it is consistent neither with the last region nor behind it, as the seventh write is still to come.
#[test]
fn a_replay_at_its_receiver(rt: HostRuntime) {
    let mut state = fresh();
    let (line, id, start, end) = (line(), 1, 6, 7);
    let done = QEvent::Done {
        line,
        id,
        start,
        end,
    };
    let start = QEvent::Start { line, id, start };
    let region = QEvent::Region { line, id };
    for (event, wanted, phase) in [
        (region, QAction::Ignored, SPhase::Quiet),
        (done, QAction::Ignored, SPhase::Quiet),
        (start, QAction::Begin, SPhase::Regions),
        (start, QAction::Again, SPhase::Regions),
        (region, QAction::Store, SPhase::Regions),
        (region, QAction::Store, SPhase::Regions),
        (done, QAction::Close, SPhase::Log),
        (done, QAction::Again, SPhase::Log),
        (region, QAction::Ignored, SPhase::Log),
        (start, QAction::Ignored, SPhase::Log),
    ] {
        let action = secondary(&mut state, &event);
        assert!(rt; action == wanted);
        assert!(rt; state.phase == phase);
    }
    let mut wanted = fresh();
    wanted.last = 6;
    wanted.mark = Mark::Inconsistent;
    wanted.phase = SPhase::Log;
    wanted.replay = 1;
    wanted.end = 7;
    assert!(rt; state == wanted);
}

// Where no region was read behind the start both ends are done with the last answer.
#[test]
fn nothing_was_written_meanwhile(rt: HostRuntime) {
    let mut link = link(replay(Phase::Done, 0, 6, 6));
    let action = primary(&mut link, &ack(2));
    assert!(rt; action == PAction::Finished);
    assert!(rt; link.mode == Mode::Log);
    assert!(rt; link.stored == 6);
    let mut state = fresh();
    state.mark = Mark::Inconsistent;
    state.phase = SPhase::Regions;
    state.replay = 1;
    let done = QEvent::Done {
        line: line(),
        id: 1,
        start: 6,
        end: 6,
    };
    let action = secondary(&mut state, &done);
    assert!(rt; action == QAction::Close);
    assert!(rt; (state.mark, state.last) == (Mark::Consistent, 6));
}

// A replay begins from a map or from nothing, and one of an empty map copies no region. A crash of the sending site puts it back to its map.
#[test]
fn how_a_replay_begins_and_falls_back(rt: HostRuntime) {
    let begin = PEvent::Begin {
        id: 1,
        head: 4,
        regions: 0,
    };
    let begun = replay(Phase::Start, 0, 4, 4);
    let other = replay(Phase::Regions, 2, 3, 3);
    for (mode, wanted, after) in [
        (Mode::Dcm, PAction::SendStart, begun),
        (Mode::Stale, PAction::SendStart, begun),
        (Mode::Log, PAction::Nothing, Mode::Log),
        (other, PAction::Nothing, other),
        (
            Mode::Fork { maps: 1 },
            PAction::Nothing,
            Mode::Fork { maps: 1 },
        ),
    ] {
        let mut link = link(mode);
        let action = primary(&mut link, &begin);
        assert!(rt; action == wanted);
        assert!(rt; link.mode == after);
    }
    let mut link = link(begun);
    let action = primary(&mut link, &ack(0));
    assert!(rt; action == PAction::Nothing);
    assert!(rt; link.mode == replay(Phase::Done, 0, 4, 4));
    let action = primary(&mut link, &PEvent::Restart);
    assert!(rt; action == PAction::Nothing);
    assert!(rt; link.mode == Mode::Dcm);
    let action = primary(&mut link, &ack(2));
    assert!(rt; action == PAction::Ignored);
}

// Answers of an earlier replay, out of turn, and of a region that is no longer marked.
#[test]
fn late_answers(rt: HostRuntime) {
    for (id, kind, marked, wanted, left) in [
        (1, 1, false, PAction::Ignored, 2),
        (0, 1, true, PAction::Ignored, 2),
        (2, 1, true, PAction::Ignored, 2),
        (1, 2, true, PAction::Ignored, 2),
        (1, 3, true, PAction::Ignored, 2),
        (1, 1, true, PAction::Nothing, 1),
    ] {
        let mut link = link(replay(Phase::Regions, 2, 6, 6));
        let action = primary(&mut link, &PEvent::Ack { id, kind, marked });
        assert!(rt; action == wanted);
        assert!(rt; link.mode == replay(Phase::Regions, left, 6, 6));
    }
}

// Messages of an earlier replay, of another line, and of a start that was passed.
#[test]
fn late_messages(rt: HostRuntime) {
    let elsewhere = Line {
        generation: 2,
        origin: 1,
    };
    for (line, id, start, wanted) in [
        (line(), 3, 6, QAction::Begin),
        (line(), 3, 5, QAction::Begin),
        (line(), 3, 4, QAction::Ignored),
        (line(), 2, 6, QAction::Ignored),
        (line(), 1, 6, QAction::Ignored),
        (elsewhere, 3, 6, QAction::Ignored),
    ] {
        let mut state = fresh();
        state.last = 5;
        state.replay = 2;
        let action = secondary(&mut state, &QEvent::Start { line, id, start });
        assert!(rt; action == wanted);
    }
    let mut state = fresh();
    state.phase = SPhase::Regions;
    state.replay = 2;
    for (line, id, wanted) in [
        (line(), 1, QAction::Ignored),
        (elsewhere, 2, QAction::Ignored),
        (line(), 2, QAction::Store),
    ] {
        let action = secondary(&mut state, &QEvent::Region { line, id });
        assert!(rt; action == wanted);
    }
}
