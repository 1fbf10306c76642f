// The logs of a volume that begin in its first write, or before a plex of it is first detached.
ghost use Rattle.std.specs.Prelude.{◌≡◌, ◌*◌, ◌+◌, ◌<◌, ◌≤◌, false, true, IfErr, OnOk};
ghost use Rattle.vx_disk.specs.Causes.{Cause};
ghost use Rattle.vx_group.specs.Attaches.{region_count};
ghost use Rattle.vx_group.specs.Blames.{MarksOn};
ghost use Rattle.vx_group.specs.GivesUp.{FaultMisses};
ghost use Rattle.vx_group.specs.Holding.{wide};
ghost use Rattle.vx_group.specs.Stands.{inner_meaning};
ghost use Rattle.vx_grouplogs.specs.Covering.{AllAlike};
ghost use Rattle.vx_loggroup.specs.Fresh.{ListMaps, LogsStart, LogsFirst};
ghost use Rattle.vx_loggroup.specs.LoggedVolumes.{LoggedStands};
ghost use Rattle.vx_loggroup.specs.Keeping.{TrustsNew, logs_at};

use crate::beginning::begin_both;
use vx_config::blocks_of;
use vx_disk::{Shelf, ShelfError};
use vx_group::GroupCore;
use vx_logged::ready_group;
use vx_logs::Logs;
use vx_model::limits::{COMMIT_SERIALS, MOST_VOLUMES};

/// Begins the logs of a volume that are held as lost, where of each block of it a crash leaves one value. No plex is called, and none changes its
/// state. Where a log cannot begin it stays lost; a commit that is refused is the answer. It takes the memory of the logs, where there is some.
pub fn begin_first<S: Shelf>(
    shelf: &mut S,
    core: &mut GroupCore,
    logs: &mut Vec<Logs>,
    alike: &[bool; MOST_VOLUMES],
    vol: u32,
) -> Result<(), ShelfError>
    requires stands { LoggedStands core.old logs.old.items alike.now false (S.meaning shelf.old) }
    requires there { vol < (inner_meaning (wide core.old) (S.meaning shelf.old)).units }
    requires same { AllAlike (wide core.old).config vol (S.meaning shelf.old) }
    ensures stands { LoggedStands core.new logs.new.items alike.now false (S.meaning shelf.new) }
    ensures begins { LogsStart vol core.old core.new (S.meaning shelf.old) (S.meaning shelf.new) }
    ensures first { LogsFirst vol (region_count (wide core.old).config vol) logs.old.items logs.new.items }
    ensures news { ListMaps core.old.inner.config vol logs.old.items logs.new.items }
    ensures since { TrustsNew vol (logs_at logs.new.items vol) core.old core.new }
    ensures few { OnOk result (core.new.inner.config.serial ≤ core.old.inner.config.serial + 3 * COMMIT_SERIALS) }
    ensures trust { OnOk result (core.old.inner.committed ≡ true → core.new.inner.committed ≡ true) }
    ensures agreed { IfErr result (λ e. core.old.inner.committed ≡ true → core.new.inner.agreed ≡ true) }
    ensures unsure { MarksOn vol core.old.inner.unsure core.new.inner.unsure result }
    ensures misses { FaultMisses core.new.inner result }
    ensures cause { Cause (inner_meaning (wide core.old) (S.meaning shelf.old)) (inner_meaning (wide core.new) (S.meaning shelf.new)) vol result }
{
    let ready = match ready_group(shelf, core, vol) {
        Ok(ready) => ready,
        Err(error) => return Err(error),
    };
    if !ready {
        return Ok(());
    }
    if blocks_of(&core.inner.config, vol) == 0 {
        return Ok(());
    }
    let alloc = *logs.allocator();
    begin_both(alloc, shelf, core, &mut logs[vol as usize], vol)
}
