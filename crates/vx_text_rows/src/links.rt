// What the status of a link is printed as.
use std::test::Fail;
use vx_model::{Mode, Name, Phase, SiteName};
use vx_report::{LinkView, push_links};

const REPLAY: Mode = Mode::Replay {
    id: 1,
    phase: Phase::Regions,
    left: 6,
    start: 0,
    end: 0,
};

// Whether it leads to a bunker, whether it is attached, connected and paused, its mode, and its line.
const LINKS: &[(bool, bool, Mode, &str)] = &[
    (
        false,
        true,
        Mode::Log,
        "link b attached connected paused log net 3 stored 2\n",
    ),
    (
        true,
        false,
        Mode::Log,
        "bunker b detached cut running log net 3 stored 2\n",
    ),
    (
        false,
        false,
        Mode::Dcm,
        "link b detached cut running dcm 7 net 3 stored 2\n",
    ),
    (
        false,
        false,
        REPLAY,
        "link b detached cut running replay regions 6 net 3 stored 2\n",
    ),
    (
        false,
        false,
        Mode::Fork { maps: 1 },
        "link b detached cut running fork net 3 stored 2\n",
    ),
    (
        false,
        false,
        Mode::Stale,
        "link b detached cut running stale net 3 stored 2\n",
    ),
];

#[test]
fn prints_how_a_link_stands(rt: HostRuntime) -> Result<(), Fail> {
    for (bunker, ways, mode, wanted) in LINKS {
        let link = LinkView {
            name: SiteName::Known(Name::new(b"b")),
            bunker: *bunker,
            attached: *ways,
            connected: *ways,
            paused: *ways,
            mode: *mode,
            marked: 7,
            net: 3,
            stored: 2,
        };
        let mut out = Vec::new(rt.alloc());
        push_links(&mut out, &[link])?;
        assert!(rt; out.as_slice() == wanted.as_bytes(), "{wanted}");
    }
    Ok(())
}
