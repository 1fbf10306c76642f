// Worked examples of places and of space.
ghost use Rattle.std.specs.Prelude.{IsTrue};
ghost use Rattle.vx_layout.specs.Places.{HasBlock};
ghost use Rattle.vx_layout.specs.Space.{IsShape};

use crate::mirrors::{good, run};
use std::alloc::Global;
use std::test::Fail;
use vx_config::{Config, Disks, PlexEntry, Plexes, Subdisk, Subdisks, VolumeEntry, Volumes, check};
use vx_layout::{Shape, find_space, place};
use vx_model::limits::{DISK_PLACES, MOST_COLUMNS, MOST_PLEXES};
use vx_model::{Name, No, OutOfMemory, PlexState, Stop};

// Three disks of 1,024 blocks, and a volume of 100 blocks on two columns with units of 16 blocks.
fn striped(alloc: Global) -> Result<Config, OutOfMemory> {
    let mut disks = Disks::new();
    for _ in 0..3 {
        if disks.as_slice().len() < DISK_PLACES {
            disks.push(good(1024));
        }
    }
    let mut subdisks = Subdisks::new(alloc);
    subdisks.push(run(0, 768, 64))?;
    subdisks.push(run(1, 768, 64))?;
    let mut plexes = Plexes::new(alloc);
    plexes.push(PlexEntry {
        state: PlexState::Active,
        whole: false,
        subdisks,
    })?;
    let mut volumes = Volumes::new(alloc);
    volumes.push(VolumeEntry {
        name: Name::new(b"s"),
        blocks: 100,
        ncol: 2,
        width: 16,
        prefer: None,
        drl: None,
        fmr: None,
        plexes,
    })?;
    Ok(Config {
        serial: 1,
        site: 0,
        disks,
        volumes,
        rvg: None,
    })
}

fn has_block(config: &Config, vol: u32, plex: u32, block: u64) -> bool
    ensures { IsTrue result → HasBlock config.now vol plex block }
{
    match config.volumes.as_slice().get(vol as usize) {
        Some(volume) => (plex as usize) < volume.plexes.as_slice().len() && block < volume.blocks,
        None => false,
    }
}

#[test]
fn units_go_by_turns(rt: HostRuntime) -> Result<(), Fail> {
    let config = striped(rt.alloc())?;
    assert!(rt; check(&config));
    for (block, wanted) in [
        (0, (0, 768)),
        (15, (0, 783)),
        (16, (1, 768)),
        (31, (1, 783)),
        (32, (0, 784)),
        (40, (0, 792)),
        (99, (0, 819)),
    ] {
        let there = has_block(&config, 0, 0, block);
        assert!(rt; there);
        if there && check(&config) {
            assert!(rt; place(&config, 0, 0, block) == wanted);
        }
    }
    Ok(())
}

// Whether a shape is one that space can be looked for.
fn is_shape(want: &Shape) -> bool
    ensures { IsTrue result → IsShape want.now }
{
    0 < want.blocks
        && want.blocks <= 1 << 40
        && 0 < want.mirrors
        && want.mirrors <= MOST_PLEXES as u32
        && 0 < want.ncol
        && want.ncol <= MOST_COLUMNS
        && (want.width != 0 || want.ncol == 1)
}

// What is found: the runs of all plexes and then of the logs, or the two numbers of a refusal.
fn found(
    alloc: Global,
    config: &Config,
    want: &Shape,
) -> Result<(Vec<Subdisk>, Option<(u64, u64)>), OutOfMemory> {
    let mut runs = Vec::new(alloc);
    if !is_shape(want) {
        return Ok((runs, None));
    }
    match find_space(alloc, config, want) {
        Ok(found) => {
            for plex in &found.plexes {
                runs.extend_from_slice(plex.as_slice())?;
            }
            runs.extend_from_slice(found.logs.as_slice())?;
            Ok((runs, None))
        }
        Err(Stop::No(No::Space { need, have })) => Ok((runs, Some((need, have)))),
        Err(_) => Err(OutOfMemory),
    }
}

// Whether these are the runs: the disk, the first block, and how many there are.
fn are_runs(runs: &[Subdisk], wanted: &[(u8, u64, u64)]) -> bool {
    if runs.len() != wanted.len() {
        return false;
    }
    for at in 0..runs.len() {
        let (disk, start, blocks) = wanted[at];
        if at >= runs.len() || runs[at] != run(disk, start, blocks) {
            return false;
        }
    }
    true
}

// The blocks, plexes, columns, unit and logs of a volume, and the runs that it gets, or what is needed and what is there.
type Case = (
    (u64, u32, u32, u32, bool, bool),
    &'static [(u8, u64, u64)],
    Option<(u64, u64)>,
);

// The lowest blocks are taken, and a plex that no disk holds is spread.
const FOUND: &[Case] = &[
    ((192, 1, 1, 0, false, false), &[(0, 512, 192)], None),
    (
        (300, 1, 1, 0, false, false),
        &[(0, 512, 256), (0, 832, 44)],
        None,
    ),
    ((449, 1, 1, 0, false, false), &[(2, 512, 449)], None),
    (
        (256, 2, 1, 0, false, false),
        &[(0, 512, 256), (1, 512, 256)],
        None,
    ),
    (
        (40, 1, 2, 16, false, false),
        &[(0, 512, 32), (1, 512, 32)],
        None,
    ),
    (
        (256, 1, 1, 0, true, true),
        &[(0, 512, 256), (0, 832, 1), (0, 833, 1)],
        None,
    ),
    (
        (1000, 1, 1, 0, false, false),
        &[
            (0, 512, 256),
            (0, 832, 192),
            (1, 512, 256),
            (1, 832, 192),
            (2, 512, 104),
        ],
        None,
    ),
];

const REFUSED: &[Case] = &[
    ((2000, 1, 1, 0, false, false), &[], Some((2000, 1408))),
    ((513, 2, 1, 0, false, false), &[], Some((513, 512))),
    ((1000, 2, 1, 0, false, false), &[], Some((1000, 0))),
    ((900, 1, 2, 16, false, false), &[], Some((464, 448))),
    ((16, 4, 1, 0, false, false), &[], Some((16, 0))),
    ((1408, 1, 1, 0, true, false), &[], Some((1, 0))),
    ((1407, 1, 1, 0, true, true), &[], Some((1, 0))),
];

#[test]
fn says_what_is_found_or_needed(rt: HostRuntime) -> Result<(), Fail> {
    let config = striped(rt.alloc())?;
    for cases in [FOUND, REFUSED] {
        for (want, wanted, needed) in cases {
            let (blocks, mirrors, ncol, width, drl, fmr) = *want;
            let shape = Shape {
                blocks,
                mirrors,
                ncol,
                width,
                drl,
                fmr,
                prefer: None,
            };
            let (runs, refused) = found(rt.alloc(), &config, &shape)?;
            assert!(rt; refused == *needed, "{want:?}");
            assert!(rt; are_runs(runs.as_slice(), wanted), "{want:?}");
        }
    }
    Ok(())
}
