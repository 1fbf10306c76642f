// Where the plexes of a new volume find space.
ghost use Rattle.std.specs.Prelude.{◌≡◌, []};
ghost use Rattle.vx_layout.specs.Space.{IsShape};
ghost use Rattle.vx_layout.specs.Steps.{StepEnds, Placed, PlexesShort};

use crate::columns::place_plex;
use crate::shape::{Runs, Shape};
use crate::short::Short;
use std::alloc::Global;
use vx_config::{DiskEntry, Subdisk};

/// Where the plexes of a shape lie. Their runs are put into one list too.
pub fn place_plexes(
    alloc: Global,
    used: &[Subdisk],
    disks: &[DiskEntry],
    want: &Shape,
    found: &mut Vec<Subdisk>,
) -> Result<Vec<Runs>, Short>
    requires shape { IsShape want.now }
    requires empty { found.old.items ≡ [] }
    ensures { StepEnds (λ plexes. Placed want.now used.now disks.now found.new.items plexes.items) (PlexesShort want.now used.now disks.now) result }
{
    let mut plexes = Vec::new(alloc);
    for _plex in 0..want.mirrors {
        let start = found.len();
        place_plex(used, disks, want, found)?;
        let runs = Vec::from_slice(alloc, &found[start..])?;
        plexes.push(Runs::of(runs))?;
    }
    Ok(plexes)
}
