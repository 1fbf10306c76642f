// Where a new volume finds space.
ghost use Rattle.std.specs.Prelude.{◌≡◌};
ghost use Rattle.vx_layout.specs.Space.{FindsSpace, IsFound, IsShape, IsSpaceShort};
ghost use Rattle.vx_layout.specs.Steps.{StepEnds};

use crate::logs::find_logs;
use crate::plexes::place_plexes;
use crate::shape::{Found, Runs, Shape};
use crate::short::Short;
use crate::used::runs_of;
use std::alloc::Global;
use vx_config::Config;
use vx_model::{No, Stop};

fn search(alloc: Global, config: &Config, want: &Shape) -> Result<Found, Short>
    requires { IsShape want.now }
    ensures { StepEnds (IsFound config.now want.now) (IsSpaceShort config.now want.now) result }
{
    let mut used = runs_of(alloc, config)?;
    let disks = config.disks.as_slice();
    let mut found = Vec::new(alloc);
    let plexes = place_plexes(alloc, used.as_slice(), disks, want, &mut found)?;
    used.extend_from_slice(found.as_slice())?;
    let logs = find_logs(alloc, &mut used, disks, want)?;
    Ok(Found {
        plexes: plexes,
        logs: Runs::of(logs),
    })
}

/// Where a new volume of this shape finds space beside the volumes that there are.
///
/// A concatenated plex lies on the lowest disk whose free blocks suffice, or where there is none on all disks in order. A
/// striped one has each column on the lowest disk that suffices. No two plexes or columns of the volume share a disk, and
/// the lowest blocks of a disk are taken. Then each log takes the lowest run of free blocks that is long enough, on the
/// lowest disk that has one.
///
/// Answers 11 where a plex, a column or a log has no place, with the blocks that it needs and those that there are, and
/// want of memory.
pub fn find_space(alloc: Global, config: &Config, want: &Shape) -> Result<Found, Stop>
    requires { IsShape want.now }
    ensures { FindsSpace config.now want.now result }
{
    match search(alloc, config, want) {
        Ok(found) => Ok(found),
        Err(Short::Space { need, have }) => Err(Stop::No(No::Space { need, have })),
        Err(Short::OutOfMemory) => Err(Stop::OutOfMemory),
    }
}
