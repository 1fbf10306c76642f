ghost use Rattle.std.specs.Prelude.{IfOk};
ghost use Rattle.vx_config.specs.Configs.{CanSpell};

use std::alloc::Global;
use std::test::Fail;
use vx_config::{
    Config, ConfigStop, DiskEntry, Disks, LogEntry, PlexEntry, PlexState, Plexes, Subdisk,
    Subdisks, VolumeEntry, VolumeLog, Volumes, check, decode, encode, encode_into, is_short,
};
use vx_model::limits::MOST_VOLUMES;
use vx_model::{Counted, Name, No, OutOfMemory, Stop};

// A group of two disks, of which the second is failed, and a mirror of 64 blocks over both, as the table spells it.
const MIRROR: [u8; 117] = [
    // version, serial, site
    0, 0, 0, 1, 0, 0, 0, 0, 0, 0, 0, 5, 0, 0, 0, 1, // 16: two disks
    2, 0, 0, 0, 0, 0, 0, 4, 0, 0, 0, 0, 0, 0, 0, 0, 4, 0, 1,
    // 35: one volume: name, blocks, ncol, width
    1, 1, b'v', 0, 0, 0, 0, 0, 0, 0, 64, 1, 0, 0, 0, 0,
    // 51: drl, fmr, policy, preferred, then the DRL log and no FMR log
    1, 0, 1, 1, 1, 0, 0, 0, 0, 0, 0, 0, 0, 2, 0x40, 0, 0, 0, 0, 0, 0, 0, 1, 0,
    // 75: two plexes
    2, 0, 0, 1, 0, 0, 0, 0, 0, 0, 0, 2, 0, 0, 0, 0, 0, 0, 0, 0, 64, 2, 1, 1, 1, 0, 0, 0, 0, 0, 0,
    2, 0, 0, 0, 0, 0, 0, 0, 0, 64, // 116: no replicated volume group
    0,
];

// A group of one disk without volumes, whose replicated volume group names three.
const GROUP: [u8; 32] = [
    0, 0, 0, 1, 0, 0, 0, 0, 0, 0, 0, 0, 0, 0, 0, 7, 1, 0, 0, 0, 0, 0, 0, 4, 0, 0, 0, 1, 0, 1, 1, 2,
];

const WHOLE: DiskEntry = DiskEntry {
    blocks: 1024,
    failed: false,
};

const FAILED: DiskEntry = DiskEntry {
    blocks: 1024,
    failed: true,
};

// A subdisk: its disk, start and blocks.
type Run = (u8, u64, u64);

fn plex(alloc: Global, state: PlexState, runs: &[Run]) -> Result<PlexEntry, OutOfMemory> {
    let mut subdisks = Subdisks::new(alloc);
    for (disk, start, blocks) in runs {
        if subdisks.as_slice().len() < 255 {
            subdisks.push(Subdisk {
                disk: *disk,
                start: *start,
                blocks: *blocks,
            })?;
        }
    }
    Ok(PlexEntry {
        state,
        whole: state == PlexState::Stale,
        subdisks,
    })
}

fn log(start: u64) -> Option<LogEntry> {
    Some(LogEntry {
        lost: false,
        disk: 0,
        start,
        blocks: 1,
    })
}

// The disks of the mirror, with one volume of two plexes and a DRL at this block.
fn group(
    alloc: Global,
    ncol: u8,
    width: u32,
    drl: u64,
    first: &[Run],
    second: &[Run],
) -> Result<Config, OutOfMemory>
    ensures { IfOk result CanSpell }
{
    let mut disks = Disks::new();
    disks.push(WHOLE);
    disks.push(FAILED);
    let mut plexes = Plexes::new(alloc);
    plexes.push(plex(alloc, PlexState::Active, first)?)?;
    plexes.push(plex(alloc, PlexState::Stale, second)?)?;
    let mut volumes = Volumes::new(alloc);
    volumes.push(VolumeEntry {
        name: Name::new(b"v"),
        blocks: 64,
        ncol,
        width,
        prefer: Some(1),
        drl: log(drl),
        fmr: None,
        plexes,
    })?;
    Ok(Config {
        serial: 5,
        site: 1,
        disks,
        volumes,
        rvg: None,
    })
}

fn mirror(alloc: Global) -> Result<Config, OutOfMemory>
    ensures { IfOk result CanSpell }
{
    group(alloc, 1, 0, 576, &[(0, 512, 64)], &[(1, 512, 64)])
}

#[test]
fn spells_a_mirror(rt: HostRuntime) -> Result<(), Fail> {
    let config = mirror(rt.alloc())?;
    let bytes = encode(rt.alloc(), &config)
        .ok()
        .ok_or("a mirror has a spelling")?;
    assert!(rt; bytes.as_slice() == MIRROR.as_slice());
    let mut into = [0xff; 65024];
    is_short(&config);
    assert!(rt; encode_into(&config, &mut into) == 117);
    assert!(rt; into.starts_with(&MIRROR));
    assert!(rt; into[117] == 0xff);
    Ok(())
}

// Whether a volume is that of the mirror, but for its plexes.
fn is_mirrored(volume: &VolumeEntry) -> bool {
    volume.name == Name::new(b"v")
        && volume.prefer == Some(1)
        && volume.drl == log(576)
        && volume.fmr.is_none()
}

// Whether a plex is whole where it is STALE, and lies on 64 blocks from block 512 on.
fn is_plex(plex: &PlexEntry) -> bool {
    plex.whole == (plex.state == PlexState::Stale)
        && plex
            .subdisks
            .as_slice()
            .iter()
            .all(|subdisk| subdisk.start == 512 && subdisk.blocks == 64)
}

#[test]
fn reads_a_mirror(rt: HostRuntime) -> Result<(), Fail> {
    let mut bytes = [9; 200];
    bytes[..117].copy_from_slice(&MIRROR);
    let (config, len) = decode(rt.alloc(), &bytes)?;
    assert!(rt; len == 117);
    assert!(rt; config.serial == 5);
    assert!(rt; config.site == 1);
    assert!(rt; config.disks.as_slice().len() == 2);
    assert!(rt; config.disks.as_slice()[1].failed);
    assert!(rt; config.rvg.is_none());
    for volume in config.volumes.as_slice() {
        assert!(rt; is_mirrored(volume));
        for plex in volume.plexes.as_slice() {
            assert!(rt; is_plex(plex));
        }
    }
    assert!(rt; check(&config));
    Ok(())
}

#[test]
fn reads_a_group(rt: HostRuntime) -> Result<(), Fail> {
    let (config, len) = decode(rt.alloc(), &GROUP)?;
    assert!(rt; len == 32);
    assert!(rt; !check(&config));
    match &config.rvg {
        Some(units) => {
            assert!(rt; units.srl == 0);
            assert!(rt; units.maps == 1);
            assert!(rt; units.vols.as_slice() == [2].as_slice());
        }
        None => assert!(rt; false),
    }
    Ok(())
}

#[test]
fn finds_the_first_wrong_field(rt: HostRuntime) {
    for (place, byte, wanted) in [
        (3, 2, 0),
        (4, 0x80, 4),
        (16, 0, 16),
        (16, 9, 16),
        (25, 2, 25),
        (35, 33, 35),
        (36, 0, 36),
        (36, 9, 36),
        (51, 2, 51),
        (51, 0, 55),
        (52, 1, 74),
        (53, 0, 54),
        (56, 2, 56),
        (76, 3, 76),
        (97, 2, 97),
        (116, 2, 116),
    ] {
        let mut bytes = MIRROR;
        if place < bytes.len() {
            bytes[place] = byte;
        }
        match decode(rt.alloc(), &bytes) {
            Err(ConfigStop::BadConfig { at }) => assert!(rt; at == wanted),
            _ => assert!(rt; false),
        }
    }
}

#[test]
fn finds_the_first_missing_field(rt: HostRuntime) {
    for (len, wanted) in [
        (0, 0),
        (3, 0),
        (16, 16),
        (37, 36),
        (69, 66),
        (115, 108),
        (116, 116),
    ] {
        match decode(rt.alloc(), &MIRROR[..len]) {
            Err(ConfigStop::BadConfig { at }) => assert!(rt; at == wanted),
            _ => assert!(rt; false),
        }
    }
}

// The columns and the width, the block of the DRL, the subdisks of both plexes, and whether the group is sound: where blocks lie, and
// columns of the plexes.
const LAYOUTS: &[(u8, u32, u64, &[Run], &[Run], bool)] = &[
    (1, 0, 576, &[(0, 512, 64)], &[(1, 512, 64)], true),
    (1, 0, 576, &[(0, 512, 64)], &[(0, 577, 64)], true),
    (1, 0, 576, &[(0, 512, 64)], &[(0, 576, 64)], false),
    (1, 0, 700, &[(0, 512, 64)], &[(0, 575, 64)], false),
    (1, 0, 576, &[(0, 511, 64)], &[(1, 512, 64)], false),
    (1, 0, 576, &[(0, 512, 64)], &[(1, 961, 64)], false),
    (1, 0, 576, &[(0, 512, 64)], &[(1, 960, 64)], true),
    (1, 0, 576, &[(0, 512, 64)], &[(2, 512, 64)], false),
    (1, 0, 576, &[(0, 512, 63)], &[(1, 512, 64)], false),
    (1, 0, 1024, &[(0, 512, 64)], &[(1, 512, 64)], false),
    (
        2,
        16,
        1000,
        &[(0, 512, 32), (1, 512, 32)],
        &[(0, 700, 32), (1, 700, 32)],
        true,
    ),
    (
        2,
        16,
        1000,
        &[(0, 512, 16), (1, 512, 48)],
        &[(0, 700, 16), (1, 700, 48)],
        false,
    ),
    (
        2,
        5,
        1000,
        &[(0, 512, 35), (1, 512, 35)],
        &[(0, 700, 35), (1, 700, 35)],
        true,
    ),
    (
        2,
        0,
        1000,
        &[(0, 512, 32), (1, 512, 32)],
        &[(0, 700, 32), (1, 700, 32)],
        false,
    ),
    (
        9,
        16,
        1000,
        &[(0, 512, 32), (1, 512, 32)],
        &[(0, 700, 32), (1, 700, 32)],
        false,
    ),
    (
        1,
        0,
        1000,
        &[(0, 512, 32), (1, 512, 32)],
        &[(0, 700, 32), (1, 700, 32)],
        true,
    ),
];

#[test]
fn tests_layouts(rt: HostRuntime) -> Result<(), Fail> {
    for (at, (ncol, width, drl, first, second, wanted)) in LAYOUTS.iter().enumerate() {
        let config = group(rt.alloc(), *ncol, *width, *drl, first, second)?;
        assert!(rt; check(&config) == *wanted, "layout {at}");
    }
    Ok(())
}

#[test]
fn refuses_too_many_subdisks(rt: HostRuntime) -> Result<(), Fail> {
    let runs = [(0, 512, 0); 255];
    let mut config = group(rt.alloc(), 1, 0, 576, &runs, &runs)?;
    let mut volumes = Volumes::new(rt.alloc());
    for _ in 0..3 {
        let mut plexes = Plexes::new(rt.alloc());
        plexes.push(plex(rt.alloc(), PlexState::Active, &runs)?)?;
        plexes.push(plex(rt.alloc(), PlexState::Active, &runs)?)?;
        if volumes.as_slice().len() < MOST_VOLUMES {
            volumes.push(VolumeEntry {
                name: Name::new(b"v"),
                blocks: 1,
                ncol: 1,
                width: 0,
                prefer: None,
                drl: None,
                fmr: None,
                plexes,
            })?;
        }
    }
    config.volumes = volumes;
    assert!(rt; !check(&config));
    match encode(rt.alloc(), &config) {
        Err(
            Stop::No(
                No::Limit {
                    what: Counted::Subdisks,
                    most: 1024,
                },
            ),
        ) => {}
        _ => assert!(rt; false),
    }
    Ok(())
}

// The state of the first plex, whether it is whole, and the same of the second; and whether the DRL is lost.
fn states(alloc: Global, config: &Config) -> Option<[u8; 5]>
    requires { CanSpell config.now }
{
    let bytes = encode(alloc, config).ok()?;
    let bytes = bytes.as_slice();
    if bytes.len() != 117 {
        return None;
    }
    Some([bytes[76], bytes[77], bytes[96], bytes[97], bytes[56]])
}

#[test]
fn changes_a_mirror_in_place(rt: HostRuntime) -> Result<(), Fail> {
    let alloc = rt.alloc();
    let mut config = mirror(alloc)?;
    assert!(rt; states(alloc, &config) == Some([0, 0, 2, 1, 0]));
    config.set_state(0, 0, PlexState::Stale, true);
    assert!(rt; states(alloc, &config) == Some([2, 1, 2, 1, 0]));
    assert!(rt; !check(&config));
    config.set_state(0, 1, PlexState::Clean, false);
    assert!(rt; states(alloc, &config) == Some([2, 1, 1, 0, 0]));
    assert!(rt; check(&config));
    config.set_lost(0, VolumeLog::Drl, true);
    assert!(rt; states(alloc, &config) == Some([2, 1, 1, 0, 1]));
    // There is no such log, plex or volume.
    config.set_lost(0, VolumeLog::Fmr, true);
    config.set_state(0, 2, PlexState::Stale, true);
    config.set_lost(1, VolumeLog::Drl, false);
    assert!(rt; states(alloc, &config) == Some([2, 1, 1, 0, 1]));
    assert!(rt; check(&config));
    assert!(rt; config.volumes.pop().is_some());
    assert!(rt; config.volumes.pop().is_none());
    Ok(())
}
