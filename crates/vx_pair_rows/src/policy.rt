// The table of a full log row by row, and what comes first.
use vx_model::{Link, Mode, No, Phase, Prot, SiteName, SyncMode};
use vx_policy::{Facts, Verdict, decide, hold_of};

// Links that are not live: cut, paused or both.
#[derive(Clone, Copy)]
enum State {
    Live,
    Cut,
    Paused,
}

fn link(site: u32, prot: Prot, state: State) -> Link {
    Link {
        site,
        bunker: false,
        attached: true,
        connected: !matches!(state, State::Cut),
        paused: matches!(state, State::Paused),
        sync: SyncMode::Off,
        prot,
        session: 1,
        net: 0,
        stored: 3,
        sent: 0,
        trimmed: 0,
        mode: Mode::Log,
    }
}

// A write of one block on a ring of eight, of which the numbers above each link's hold take so many.
fn facts(used: [u64; 8]) -> Facts {
    Facts {
        need: 2,
        room: 8,
        head: 3,
        used,
    }
}

fn replay(phase: Phase) -> Mode {
    Mode::Replay {
        id: 1,
        phase,
        left: 0,
        start: 2,
        end: 5,
    }
}

const NONE: Verdict = Verdict::Go { stale: 0, dcm: 0 };

const STALE: Verdict = Verdict::Go { stale: 1, dcm: 0 };

const DCM: Verdict = Verdict::Go { stale: 0, dcm: 1 };

const STALLED: Verdict = Verdict::Refuse(No::Stalled {
    link: SiteName::Number(1),
});

const FULL: Verdict = Verdict::Refuse(No::LogFull {
    link: SiteName::Number(1),
});

const DOWN: Verdict = Verdict::Refuse(No::LinkDown {
    link: SiteName::Number(1),
});

// What the link says of a full log, whether it is live, what then becomes of a write, and what at a bunker's link.
#[test]
fn the_table(rt: HostRuntime) {
    for (prot, state, wanted, wanted_of_bunker) in [
        (Prot::Off, State::Live, STALE, STALE),
        (Prot::Off, State::Cut, STALE, STALE),
        (Prot::Override, State::Live, STALLED, STALLED),
        (Prot::Override, State::Cut, STALE, STALE),
        (Prot::Fail, State::Live, STALLED, STALLED),
        (Prot::Fail, State::Cut, FULL, FULL),
        (Prot::Fail, State::Paused, FULL, FULL),
        (Prot::Dcm, State::Live, STALLED, STALLED),
        (Prot::Dcm, State::Cut, DCM, STALE),
        (Prot::Dcm, State::Paused, DCM, STALE),
        (Prot::Autodcm, State::Live, DCM, STALE),
        (Prot::Autodcm, State::Cut, DCM, STALE),
    ] {
        let plain = link(1, prot, state);
        let full = decide(&[plain], &facts([7; 8]));
        assert!(rt; full == wanted);
        let fits = decide(&[plain], &facts([6; 8]));
        assert!(rt; fits == NONE);
        let mut bunker = plain;
        bunker.bunker = true;
        let full = decide(&[bunker], &facts([7; 8]));
        assert!(rt; full == wanted_of_bunker);
    }
}

#[test]
fn several_links(rt: HostRuntime) {
    let links = [
        link(1, Prot::Autodcm, State::Live),
        link(2, Prot::Override, State::Live),
        link(3, Prot::Off, State::Cut),
        link(4, Prot::Dcm, State::Paused),
    ];
    let used = [7, 6, 8, 7, 0, 0, 0, 0];
    let verdict = decide(&links, &facts(used));
    assert!(rt; verdict == Verdict::Go { stale: 4, dcm: 9 });
    let stalls = decide(&links, &facts([7, 7, 8, 7, 0, 0, 0, 0]));
    let wanted = Verdict::Refuse(No::Stalled {
        link: SiteName::Number(2),
    });
    assert!(rt; stalls == wanted);
    let fails = [
        link(5, Prot::Autodcm, State::Live),
        link(1, Prot::Fail, State::Cut),
        link(2, Prot::Override, State::Live),
    ];
    let verdict = decide(&fails, &facts([7; 8]));
    assert!(rt; verdict == FULL);
    let none = decide(&[], &facts([9; 8]));
    assert!(rt; none == NONE);
}

// A link with synchronous=fail that is attached, but not live or not in mode Log, comes before a full log of an earlier link.
#[test]
fn links_that_are_down(rt: HostRuntime) {
    let mut waits = link(1, Prot::Off, State::Live);
    waits.sync = SyncMode::Fail;
    let full = link(2, Prot::Fail, State::Cut);
    let verdict = decide(&[waits], &facts([0; 8]));
    assert!(rt; verdict == NONE);
    for mode in [Mode::Dcm, Mode::Stale, replay(Phase::Log)] {
        let mut other = waits;
        other.mode = mode;
        let verdict = decide(&[full, other], &facts([7; 8]));
        assert!(rt; verdict == DOWN);
        other.attached = false;
        let verdict = decide(&[other], &facts([7; 8]));
        assert!(rt; verdict == NONE);
    }
    waits.connected = false;
    let verdict = decide(&[full, waits], &facts([7; 8]));
    assert!(rt; verdict == DOWN);
    waits.sync = SyncMode::Override;
    let verdict = decide(&[waits], &facts([0; 8]));
    assert!(rt; verdict == NONE);
}

// In these modes a link needs the log, from its hold on.
#[test]
fn holds_by_mode(rt: HostRuntime) {
    for (mode, hold, wanted) in [
        (Mode::Log, 3, DCM),
        (replay(Phase::Start), 2, DCM),
        (replay(Phase::Regions), 2, DCM),
        (replay(Phase::Done), 2, DCM),
        (replay(Phase::Log), 3, DCM),
        (Mode::Dcm, 3, NONE),
        (Mode::Fork { maps: 1 }, 3, NONE),
        (Mode::Stale, 3, NONE),
    ] {
        let mut held = link(1, Prot::Autodcm, State::Live);
        held.mode = mode;
        let verdict = decide(&[held], &facts([8; 8]));
        assert!(rt; verdict == wanted);
        assert!(rt; hold_of(&held) == hold);
    }
}
