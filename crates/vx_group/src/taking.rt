// The group that an import finds on the disks, before its headers and volumes are settled.
ghost use Rattle.std.specs.Prelude.{◌≡◌, ◌<◌, ◌≤◌, ◌^◌, ℕ, length, IsTrue};
ghost use Rattle.vx_model.specs.declared.limits.TheConstants.{MOST_VOLUMES};
ghost use Rattle.vx_config.specs.Checks.{blocks_of as blocks_of_is, is_sound};
ghost use Rattle.vx_copyio.specs.Labelling.{AreLarge};
ghost use Rattle.vx_disk.specs.Shelf.{Goes, Nothing};
ghost use Rattle.vx_group.specs.Resumes.{CanImport, Planned, RefusesPlan, TakesPlan};

use crate::inner::Inner;
use crate::planning::{sources_of, stopped_of};
use std::alloc::Global;
use vx_config::{Config, blocks_of};
use vx_copies::{Room, has_good, import};
use vx_disk::Shelf;
use vx_kept::make_open;
use vx_model::limits::{COMMIT_MARGIN, MOST_NUMBER, MOST_VOLUMES};
use vx_model::{Counted, No, Stop};

/// A group that was found, with each plex that is CLEAN in the state ACTIVE.
#[derive(Drop)]
pub struct Plan {
    pub core: Inner,
    /// Of each volume whether it stopped uncleanly.
    pub stopped: [bool; MOST_VOLUMES],
    /// Of each volume the plex that the import goes by.
    pub sources: [u32; MOST_VOLUMES],
}

// Why a configuration is not taken up.
fn refuse(config: &Config, good: u8) -> Option<No>
    ensures { RefusesPlan config.now good result }
{
    if MOST_NUMBER - COMMIT_MARGIN < config.serial {
        return Some(No::Limit {
            what: Counted::Number,
            most: MOST_NUMBER,
        });
    }
    if !has_good(&config.disks, good) {
        return Some(No::NoConfig);
    }
    None
}

// The volumes are few, and their blocks numbers of the program.
fn sizes_fit(config: &Config)
    ensures few { length config.now.volumes ≤ MOST_VOLUMES }
    ensures small { (v : ℕ) → blocks_of_is config.now.volumes v < 2 ^ 64 }
{
    for vol in 0..config.volumes.as_slice().len() as u32 {
        // Read for its bound.
        let _blocks = blocks_of(config, vol);
    }
}

// The plan of a configuration that was found.
fn plan_of(alloc: Global, config: Config, good: u8) -> Result<Plan, Stop>
    requires sound { IsTrue (is_sound config) }
    ensures { Planned config good result }
{
    if let Some(no) = refuse(&config, good) {
        return Err(Stop::No(no));
    }
    let mut config = config;
    sizes_fit(&config);
    let stopped = stopped_of(&config);
    let sources = sources_of(&config, good);
    make_open(&mut config);
    let room = match Room::new(alloc, &config) {
        Ok(room) => room,
        Err(_) => return Err(Stop::OutOfMemory),
    };
    let core = Inner {
        config,
        good,
        room,
        unsettled: true,
        committed: true,
        agreed: true,
        next: [0; MOST_VOLUMES],
        faults: [0; MOST_VOLUMES],
        unsure: [false; MOST_VOLUMES],
    };
    Ok(Plan {
        core,
        stopped,
        sources,
    })
}

/// Reads the newest configuration of the disks that can be read. It writes nothing, and takes memory.
pub fn take_up<S: Shelf>(alloc: Global, shelf: &mut S) -> Result<Plan, Stop>
    requires up { IsTrue (S.meaning shelf.old).down → ⊥ }
    requires large { AreLarge (S.meaning shelf.old) }
    requires can { CanImport (S.meaning shelf.old) }
    ensures goes { Goes Nothing (S.meaning shelf.old) (S.meaning shelf.new) }
    ensures down { (S.meaning shelf.new).down ≡ (S.meaning shelf.old).down }
    ensures takes { TakesPlan (S.meaning shelf.old) (S.meaning shelf.new) result }
{
    match import(alloc, shelf) {
        Ok((config, good)) => plan_of(alloc, config, good),
        Err(stop) => Err(stop),
    }
}
