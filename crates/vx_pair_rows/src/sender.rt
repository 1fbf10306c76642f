// Worked events of a link from site 0 to site 1.
use vx_model::{Link, Mode, Phase, Prot, SyncMode};
use vx_sender::{Action, SEvent, SFacts, step};

fn link(mode: Mode) -> Link {
    Link {
        site: 1,
        bunker: false,
        attached: true,
        connected: true,
        paused: false,
        sync: SyncMode::Fail,
        prot: Prot::Fail,
        session: 1,
        net: 0,
        stored: 0,
        sent: 0,
        trimmed: 0,
        mode,
    }
}

fn replay(phase: Phase) -> Mode {
    Mode::Replay {
        id: 1,
        phase,
        left: 3,
        start: 6,
        end: 7,
    }
}

fn facts(safe: u64) -> SFacts {
    SFacts {
        safe,
        line_ok: true,
    }
}

// Session, net, stored and sent.
fn numbers(link: &Link) -> (u64, u64, u64, u64) {
    (link.session, link.net, link.stored, link.sent)
}

// A write is sent and acknowledged from memory. The receiver crashes and says hello with nothing: what it had in memory no longer
// counts, and an acknowledgement of its former session is ignored.
#[test]
fn a_new_session_forgets_memory(rt: HostRuntime) {
    let mut link = link(Mode::Log);
    let hello = SEvent::Hello {
        session: 2,
        number: 0,
        stored: 0,
    };
    let ack = SEvent::NetAck {
        session: 1,
        number: 1,
    };
    let later_ack = SEvent::NetAck {
        session: 2,
        number: 1,
    };
    let sent = Action::Updates { from: 1, to: 1 };
    for (event, wanted, after) in [
        (SEvent::Pump, sent, (1, 0, 0, 1)),
        (hello, Action::Taken, (2, 0, 0, 0)),
        (ack, Action::Ignored, (2, 0, 0, 0)),
        (SEvent::Pump, sent, (2, 0, 0, 1)),
        (later_ack, Action::Taken, (2, 1, 0, 1)),
        (SEvent::DataAck { number: 1 }, Action::Taken, (2, 1, 1, 1)),
        (SEvent::DataAck { number: 1 }, Action::Ignored, (2, 1, 1, 1)),
    ] {
        let action = step(&mut link, &event, &facts(1));
        assert!(rt; action == wanted);
        assert!(rt; numbers(&link) == after);
    }
}

// Eight numbers past the last acknowledged one are under way, and never one that is not durable. A tick sends them again.
#[test]
fn eight_are_under_way(rt: HostRuntime) {
    let mut link = link(Mode::Log);
    for (event, safe, wanted) in [
        (SEvent::Pump, 20, Action::Updates { from: 1, to: 8 }),
        (SEvent::Pump, 20, Action::Nothing),
        (
            SEvent::NetAck {
                session: 1,
                number: 3,
            },
            20,
            Action::Taken,
        ),
        (SEvent::Pump, 10, Action::Updates { from: 9, to: 10 }),
        (SEvent::Tick, 20, Action::Nothing),
        (SEvent::Pump, 20, Action::Updates { from: 4, to: 11 }),
        (SEvent::Pause, 20, Action::Nothing),
        (SEvent::Tick, 20, Action::Nothing),
        (SEvent::Pump, 20, Action::Nothing),
        (SEvent::Resume, 20, Action::Nothing),
        (SEvent::Cut, 20, Action::Nothing),
        (SEvent::Pump, 20, Action::Nothing),
        (SEvent::Connect, 20, Action::Nothing),
        (SEvent::Pump, 20, Action::Updates { from: 4, to: 11 }),
    ] {
        let action = step(&mut link, &event, &facts(safe));
        assert!(rt; action == wanted);
    }
}

// After a crash the site knows what its receiver has on disk, and a replay begins again from its map.
#[test]
fn a_restart_keeps_what_is_stored(rt: HostRuntime) {
    for (mode, wanted) in [
        (Mode::Log, Mode::Log),
        (Mode::Stale, Mode::Stale),
        (replay(Phase::Regions), Mode::Dcm),
        (Mode::Fork { maps: 2 }, Mode::Fork { maps: 0 }),
    ] {
        let mut link = link(mode);
        link.net = 5;
        link.stored = 3;
        link.sent = 7;
        let action = step(&mut link, &SEvent::Restart, &facts(9));
        assert!(rt; action == Action::Nothing);
        assert!(rt; numbers(&link) == (0, 3, 3, 3));
        assert!(rt; link.mode == wanted);
        assert!(rt; link.attached && !link.connected);
    }
}

// What a hello in this mode is answered by, and what the link then is.
fn greeted(mode: Mode, session: u64, number: u64) -> (Action, (u64, u64, u64, u64), Mode) {
    let mut link = link(mode);
    link.net = 5;
    link.stored = 3;
    link.sent = 7;
    let hello = SEvent::Hello {
        session,
        number,
        stored: 4,
    };
    let action = step(&mut link, &hello, &facts(9));
    (action, numbers(&link), link.mode)
}

// A hello where the writes go by the log, of this session, of a later one that has more or less, and of an earlier one.
#[test]
fn hellos_by_the_log(rt: HostRuntime) {
    for (session, number, wanted, after) in [
        (1, 9, Action::Taken, (1, 9, 4, 7)),
        (2, 9, Action::Taken, (2, 9, 4, 9)),
        (2, 1, Action::Taken, (2, 4, 4, 4)),
        (0, 9, Action::Ignored, (1, 5, 3, 7)),
    ] {
        assert!(rt; greeted(Mode::Log, session, number) == (wanted, after, Mode::Log));
    }
    let log = replay(Phase::Log);
    assert!(rt; greeted(log, 1, 8) == (Action::Taken, (1, 8, 4, 7), log));
}

// A hello where the writes go by the map: what is stored stays, and a replay that had not begun is given up where the number shows it.
#[test]
fn hellos_by_the_map(rt: HostRuntime) {
    let (start, regions) = (replay(Phase::Start), replay(Phase::Regions));
    for (mode, session, number, after, mode_after) in [
        (Mode::Dcm, 1, 9, (1, 5, 3, 7), Mode::Dcm),
        (Mode::Dcm, 2, 9, (2, 3, 3, 7), Mode::Dcm),
        (start, 1, 6, (1, 5, 3, 7), start),
        (start, 1, 7, (1, 5, 3, 7), Mode::Dcm),
        (regions, 2, 7, (2, 3, 3, 7), regions),
    ] {
        assert!(rt; greeted(mode, session, number) == (Action::Taken, after, mode_after));
    }
}

// A message of another line is ignored, and so is an acknowledgement where the writes do not go by the log.
#[test]
fn foreign_messages(rt: HostRuntime) {
    let ack = SEvent::DataAck { number: 4 };
    let elsewhere = SFacts {
        safe: 9,
        line_ok: false,
    };
    for (mode, facts, wanted) in [
        (Mode::Log, elsewhere, Action::Ignored),
        (Mode::Dcm, facts(9), Action::Ignored),
        (replay(Phase::Done), facts(9), Action::Ignored),
        (replay(Phase::Log), facts(9), Action::Taken),
    ] {
        let mut link = link(mode);
        let action = step(&mut link, &ack, &facts);
        assert!(rt; action == wanted);
    }
}
