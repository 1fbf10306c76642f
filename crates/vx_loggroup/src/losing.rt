// Logs that are in memory no more, and are committed as lost.
ghost use Rattle.std.specs.Prelude.{◌≡◌, true, IfErr, OnOk};
ghost use Rattle.vx_group.specs.Blames.{StopsByDevice};
ghost use Rattle.vx_loggroup.specs.LoggedVolumes.{LoggedStands};
ghost use Rattle.vx_loggroup.specs.Taking.{LogsSettle};

use vx_disk::{Shelf, ShelfError};
use vx_group::GroupCore;
use vx_logged::keep_logs;
use vx_logs::Logs;
use vx_model::limits::MOST_VOLUMES;

/// Commits of each volume that its logs are lost, where they are in memory no more and not held as lost, while serials are left. All volumes read
/// as before.
pub fn lose_all<S: Shelf>(
    shelf: &mut S,
    core: &mut GroupCore,
    logs: &Vec<Logs>,
    alike: &[bool; MOST_VOLUMES],
    stopped: bool,
) -> Result<(), ShelfError>
    requires stands { LoggedStands core.old logs.now.items alike.now stopped (S.meaning shelf.old) }
    ensures stands { LoggedStands core.new logs.now.items alike.now stopped (S.meaning shelf.new) }
    ensures settles { LogsSettle core.old core.new (S.meaning shelf.old) (S.meaning shelf.new) }
    ensures trust { OnOk result (core.old.inner.committed ≡ true → core.new.inner.committed ≡ true) }
    ensures agreed { IfErr result (λ e. core.old.inner.committed ≡ true → core.new.inner.agreed ≡ true) }
    ensures cause { StopsByDevice (S.meaning shelf.old) (S.meaning shelf.new) result }
{
    for vol in 0..logs.len() {
        match keep_logs(shelf, core, &logs[vol], vol as u32) {
            Ok(_) => {}
            Err(error) => return Err(error),
        }
    }
    Ok(())
}
