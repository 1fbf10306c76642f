// Worked reads and writes over a shelf in memory.
ghost use Rattle.std.specs.Prelude.{◌≡◌, ◌<◌, IsTrue, length};
ghost use Rattle.vx_config.specs.Checks.{blocks_of as blocks_of_is, is_sound};
ghost use Rattle.vx_volume.specs.Plexes.{DisksFit, SomeActive};

use crate::mirrors::{disks_fit, good, run};
use std::alloc::Global;
use std::test::Fail;
use vx_config::{
    Config, Disks, PlexEntry, Plexes, Subdisk, Subdisks, VolumeEntry, Volumes, blocks_of, check,
};
use vx_disk::{MemShelf, Rack, Shelf};
use vx_model::limits::DISK_PLACES;
use vx_model::{Name, No, OutOfMemory, PlexState};
use vx_volume::{Volume, flush, is_active, read, write};

fn plex(alloc: Global, state: PlexState, runs: [Subdisk; 2]) -> Result<PlexEntry, OutOfMemory> {
    let mut subdisks = Subdisks::new(alloc);
    subdisks.push(runs[0])?;
    subdisks.push(runs[1])?;
    Ok(PlexEntry {
        state,
        whole: false,
        subdisks,
    })
}

// A volume of 8 blocks on two plexes of two subdisks each, one on disk 0 and one on disk 1, in these states.
fn mirror(alloc: Global, first: PlexState, second: PlexState) -> Result<Config, OutOfMemory> {
    let mut disks = Disks::new();
    for _ in 0..2 {
        if disks.as_slice().len() < DISK_PLACES {
            disks.push(good(1024));
        }
    }
    let mut plexes = Plexes::new(alloc);
    plexes.push(plex(alloc, first, [run(0, 512, 4), run(0, 600, 4)])?)?;
    plexes.push(plex(alloc, second, [run(1, 700, 2), run(1, 512, 6)])?)?;
    let mut volumes = Volumes::new(alloc);
    volumes.push(VolumeEntry {
        name: Name::new(b"v"),
        blocks: 8,
        ncol: 1,
        width: 0,
        prefer: None,
        drl: None,
        fmr: None,
        plexes,
    })?;
    Ok(Config {
        serial: 1,
        site: 0,
        disks,
        volumes,
        rvg: None,
    })
}

// Whether the volume of 8 blocks can be read and written.
fn is_ready<S: Shelf>(config: &Config, shelf: &S) -> bool
    ensures sound { IsTrue result → IsTrue (is_sound config.now) }
    ensures volume { IsTrue result → 0 < length config.now.volumes }
    ensures blocks { IsTrue result → blocks_of_is config.now.volumes 0 ≡ 8 }
    ensures some { IsTrue result → SomeActive config.now 0 }
    ensures disks { IsTrue result → DisksFit config.now.disks (S.meaning shelf.now) }
    ensures up { IsTrue result → IsTrue (S.meaning shelf.now).down → ⊥ }
{
    if !check(config) || config.volumes.as_slice().is_empty() {
        return false;
    }
    if blocks_of(config, 0) != 8 {
        return false;
    }
    let plex = if is_active(config, 0, 0) { 0 } else { 1 };
    if !is_active(config, 0, plex) {
        return false;
    }
    disks_fit(config.disks.as_slice(), shelf) && !shelf.is_down()
}

#[derive(Clone, Copy, PartialEq, Eq)]
enum Told {
    Set(u8),
    Device(u32),
    Other,
}

// What a write of the whole volume, or a flush, answers.
fn said(res: Result<u8, No>) -> Told {
    match res {
        Ok(set) => Told::Set(set),
        Err(No::Device { disk }) => Told::Device(disk),
        Err(_) => Told::Other,
    }
}

fn written<S: Shelf>(config: &Config, shelf: &mut S, byte: u8) -> Told {
    let mut volume = Volume { number: 0, next: 0 };
    if is_ready(config, shelf) {
        said(write(&mut volume, config, shelf, 0, &[byte; 4096]))
    } else {
        Told::Other
    }
}

fn flushed<S: Shelf>(config: &Config, shelf: &mut S) -> Told {
    let mut volume = Volume { number: 0, next: 0 };
    if is_ready(config, shelf) {
        said(flush(&mut volume, config, shelf))
    } else {
        Told::Other
    }
}

// Whether each block of the volume reads as this byte, and which plex the next read asks first.
fn reads<S: Shelf>(config: &Config, shelf: &mut S, next: u32, byte: u8) -> (bool, u32) {
    let mut volume = Volume { number: 0, next };
    let mut into = [0; 4096];
    if is_ready(config, shelf) {
        match read(&mut volume, config, shelf, 0, &mut into) {
            Ok(()) => (into.iter().all(|b| *b == byte), volume.next),
            Err(_) => (false, 9),
        }
    } else {
        (false, 9)
    }
}

#[test]
fn a_plex_that_fails_is_in_the_set(rt: HostRuntime) -> Result<(), Fail> {
    let both = mirror(rt.alloc(), PlexState::Active, PlexState::Active)?;
    let first = mirror(rt.alloc(), PlexState::Active, PlexState::Stale)?;
    let second = mirror(rt.alloc(), PlexState::Stale, PlexState::Active)?;
    for (fails, wanted) in [
        ([0, 0], Told::Set(0)),
        ([1, 0], Told::Set(1)),
        ([2, 0], Told::Set(1)),
        ([3, 0], Told::Set(2)),
        ([4, 0], Told::Set(2)),
        ([1, 2], Told::Device(1)),
        ([2, 3], Told::Device(1)),
        ([3, 5], Told::Set(2)),
    ] {
        let mut shelf = MemShelf::new(rt.alloc(), &fails)?;
        assert!(rt; shelf.fit(rt.alloc(), None, 0, 2, 1024).is_ok());
        assert!(rt; written(&both, &mut shelf, 7) == wanted);
        match wanted {
            Told::Set(1) => assert!(rt; reads(&second, &mut shelf, 0, 7) == (true, 0)),
            Told::Set(2) => assert!(rt; reads(&first, &mut shelf, 1, 7).0 == (fails[1] == 0)),
            Told::Set(_) => {
                assert!(rt; reads(&both, &mut shelf, 0, 7) == (true, 1));
                assert!(rt; reads(&both, &mut shelf, 1, 7) == (true, 0));
                assert!(rt; flushed(&both, &mut shelf) == Told::Set(0));
            }
            _ => {}
        }
    }
    Ok(())
}

#[test]
fn a_read_asks_the_next_plex(rt: HostRuntime) -> Result<(), Fail> {
    let both = mirror(rt.alloc(), PlexState::Active, PlexState::Active)?;
    let mut shelf = MemShelf::new(rt.alloc(), &[6, 7])?;
    assert!(rt; shelf.fit(rt.alloc(), None, 0, 2, 1024).is_ok());
    assert!(rt; written(&both, &mut shelf, 3) == Told::Set(0));
    // The second run of plex 0 fails, and then the first of plex 1.
    assert!(rt; reads(&both, &mut shelf, 0, 3) == (false, 9));
    assert!(rt; reads(&both, &mut shelf, 0, 3) == (true, 1));
    Ok(())
}
