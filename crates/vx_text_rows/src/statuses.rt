// What the status of a site is printed as.
use std::alloc::Global;
use std::test::Fail;
use vx_model::{Mark, Name, OutOfMemory, PlexState, Role, SiteName, SiteState};
use vx_report::{
    DiskViews, LinkViews, PlexViews, RvgView, SiteView, VolumeView, VolumeViews, status,
};

const PRIMARY: Option<RvgView> = Some(RvgView {
    role: Role::Primary,
    generation: 2,
    origin: SiteName::Number(5),
    head: 3,
    mark: Mark::Consistent,
    session: 4,
    halted: None,
});

const SECONDARY: Option<RvgView> = Some(RvgView {
    role: Role::Secondary,
    generation: 2,
    origin: SiteName::Number(5),
    head: 3,
    mark: Mark::Inconsistent,
    session: 4,
    halted: None,
});

const HANDING: Option<RvgView> = Some(RvgView {
    role: Role::Handing { to: 1 },
    generation: 2,
    origin: SiteName::Number(5),
    head: 3,
    mark: Mark::Consistent,
    session: 4,
    halted: Some(0),
});

const BUNKER: Option<RvgView> = Some(RvgView {
    role: Role::Bunker,
    generation: 2,
    origin: SiteName::Number(5),
    head: 3,
    mark: Mark::Consistent,
    session: 4,
    halted: None,
});

// The state of a site, its disks, for each of its volumes whether it has a DRL and an FMR log, and its replicated volume group; and
// what is printed.
const STATUSES: [(SiteState, &[bool], &[bool], Option<RvgView>, &str); 9] = [
    // A site that is not up is printed alone.
    (SiteState::Bare, &[true], &[], PRIMARY, "site a bare\n"),
    (SiteState::Up, &[], &[], None, "site a up\n"),
    (
        SiteState::Deported,
        &[true],
        &[],
        PRIMARY,
        "site a deported\n",
    ),
    (SiteState::Down, &[true], &[], PRIMARY, "site a down\n"),
    (
        SiteState::Up,
        &[true, false],
        &[false, true],
        None,
        "site a up\ndisk 0 ok\ndisk 1 failed\nvol v 64 none off\nplex 0 ACTIVE\nplex 1 STALE\nvol v 64 drl on\nplex 0 ACTIVE\nplex 1 STALE\n",
    ),
    (
        SiteState::Up,
        &[],
        &[],
        PRIMARY,
        "site a up\nrvg primary 2 #5 head 3 mark consistent session 4\n",
    ),
    (
        SiteState::Up,
        &[],
        &[],
        SECONDARY,
        "site a up\nrvg secondary 2 #5 head 3 mark inconsistent session 4\n",
    ),
    (
        SiteState::Up,
        &[],
        &[],
        HANDING,
        "site a up\nrvg handing 2 #5 head 3 mark consistent session 4 halted 0\n",
    ),
    (
        SiteState::Up,
        &[],
        &[],
        BUNKER,
        "site a up\nrvg bunker 2 #5 head 3 mark consistent session 4\n",
    ),
];

fn volumes_of(alloc: Global, logs: &[bool]) -> Result<VolumeViews, OutOfMemory> {
    let mut volumes = VolumeViews::new(alloc);
    for flag in logs {
        let mut plexes = PlexViews::new(alloc);
        plexes.push(PlexState::Active)?;
        plexes.push(PlexState::Stale)?;
        volumes.push(VolumeView {
            name: Name::new(b"v"),
            blocks: 64,
            drl: *flag,
            fmr: *flag,
            plexes,
        })?;
    }
    Ok(volumes)
}

#[test]
fn prints_a_status(rt: HostRuntime) -> Result<(), Fail> {
    for (state, oks, logs, rvg, wanted) in STATUSES {
        let mut disks = DiskViews::new(rt.alloc());
        for ok in oks {
            disks.push(*ok)?;
        }
        let view = SiteView {
            name: Name::new(b"a"),
            state,
            disks,
            volumes: volumes_of(rt.alloc(), logs)?,
            rvg,
            links: LinkViews::new(rt.alloc()),
        };
        let text = status(rt.alloc(), &view)?;
        assert!(rt; text.as_slice() == wanted.as_bytes(), "{wanted}");
    }
    Ok(())
}
