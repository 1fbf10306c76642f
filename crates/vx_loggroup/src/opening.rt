// A group with logs as an import gives it.
ghost use Rattle.std.specs.Prelude.{◌≡◌, ◌<◌, ℕ, None, Some, length, slice_get, true, false};
ghost use Rattle.vx_group.specs.Creates.{SameUnits};
ghost use Rattle.vx_group.specs.Holding.{wide};
ghost use Rattle.vx_group.specs.Resumes.{CanImport};
ghost use Rattle.vx_grouplogs.specs.Covering.{AllAlike};
ghost use Rattle.vx_grouplogs.specs.Marking.{HoldsMany};
ghost use Rattle.vx_loggroup.specs.LoggedVolumes.{LoggedStands, is_alike as is_alike_is};
ghost use Rattle.vx_loggroup.specs.Opens.{OpensLogged, SettlesLogs};
ghost use Rattle.vx_logimport.specs.Rests.{LogsTell};
ghost use Rattle.vx_logs.specs.declared.logs.Logs.{Logs as LogsValue};

use crate::clearing::clear_all;
use crate::doubting::doubt_all;
use crate::losing::lose_all;
use crate::taking::{alike_of, take_all};
use std::alloc::Global;
use vx_disk::{Shelf, refusal};
use vx_group::GroupCore;
use vx_logimport::{Marked, Rested, import_marked};
use vx_logs::Logs;
use vx_model::limits::MOST_VOLUMES;
use vx_model::{No, Stop};

/// What is kept of a group with logs but for the shelf.
#[derive(Drop)]
pub struct Opened {
    pub core: GroupCore,
    /// Of each volume its logs.
    pub logs: Vec<Logs>,
    /// Of each volume whether its plexes are alike.
    pub alike: [bool; MOST_VOLUMES],
    /// Of each volume whether its logs may begin yet: of each block of it a crash leaves one value.
    pub fresh: [bool; MOST_VOLUMES],
    /// Logs are stopped, as no serial is left to commit that one is lost.
    pub stopped: bool,
}

// Takes the marks off the logs of the volumes whose plexes are alike, and commits as lost what is in memory no more. Each other volume is unsure then.
fn settle_logs<S: Shelf>(
    shelf: &mut S,
    core: GroupCore,
    logs: Vec<Logs>,
    alike: [bool; MOST_VOLUMES],
) -> Result<Opened, Stop>
    requires stands { LoggedStands core logs.items alike false (S.meaning shelf.old) }
    requires same { (v : ℕ) → v < length logs.items → is_alike_is alike v ≡ true → AllAlike (wide core).config v (S.meaning shelf.old) }
    requires full { (v : ℕ) (l : LogsValue) → slice_get logs.items v ≡ Some l → HoldsMany l.drl }
    ensures { SettlesLogs core logs.items alike (S.meaning shelf.old) (S.meaning shelf.new) result }
{
    let mut core = core;
    let mut logs = logs;
    let done = match clear_all(shelf, &mut core, &mut logs, &alike) {
        Ok(done) => done,
        Err(error) => return Err(Stop::No(refusal(error))),
    };
    match lose_all(shelf, &mut core, &logs, &alike, !done) {
        Ok(()) => {}
        Err(error) => return Err(Stop::No(refusal(error))),
    }
    if shelf.is_down() {
        return Err(Stop::No(No::Down));
    }
    doubt_all(&mut core.inner.unsure, &alike);
    Ok(Opened {
        core,
        logs,
        alike,
        fresh: alike,
        stopped: !done,
    })
}

/// Imports a group by the logs of its volumes. The plexes of a volume that stopped uncleanly are alike then, as are those of one of which the disks
/// tell that a clean stop left them so; all marks are taken off the logs of these. The log of missed regions of one that stopped cleanly is taken up,
/// where the disks tell that it knows what plexes miss, and what was found holds its disk as good. A dirty region log that may not be read is not. A log that is in use, and is not in memory then, is
/// lost, by a commit: so is one of missed regions of a volume that stopped uncleanly. Each refusal is one of the import of a group.
pub fn open_logged<S: Shelf>(alloc: Global, shelf: &mut S, rested: &Rested) -> Result<Opened, Stop>
    requires can { CanImport (S.meaning shelf.old) }
    requires tells { LogsTell rested.now (S.meaning shelf.old) }
    ensures ends { OpensLogged (λ s. S.meaning s) rested.now (S.meaning shelf.old) (S.meaning shelf.new) result }
    ensures same { SameUnits (S.meaning shelf.old) (S.meaning shelf.new) }
{
    match import_marked(alloc, shelf, &rested.drls) {
        Ok(marked) => {
            let Marked {
                core: inner,
                logs,
                stopped,
                good,
            } = marked;
            let core = GroupCore { inner, held: None };
            let mut logs = logs;
            let alike = alike_of(&stopped, rested);
            take_all(
                alloc, shelf, &core, &mut logs, &alike, good, &stopped, rested,
            );
            settle_logs(shelf, core, logs, alike)
        }
        Err(stop) => Err(stop),
    }
}
