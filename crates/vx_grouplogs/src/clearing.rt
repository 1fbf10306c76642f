// Marks that are taken off behind a flush of the plexes.
ghost use Rattle.std.specs.Prelude.{◌≡◌, ◌<◌, IsTrue, OnOk};
ghost use Rattle.vx_config.specs.Checks.{blocks_of as blocks_of_is, is_sound};
ghost use Rattle.vx_disk.specs.Shelf.{Goes};
ghost use Rattle.vx_grouplogs.specs.Clearing.{ClearedAt, Clears, DrlClears, DrlFew, DrlLies};
ghost use Rattle.vx_grouplogs.specs.Covering.{AllAlike, DiskCovers, KeepsOthers, MemoryCovers, OnLogs};
ghost use Rattle.vx_grouplogs.specs.Keeps.{KeepsGroup};
ghost use Rattle.vx_logs.specs.Dirtying.{DrlKeeps};
ghost use Rattle.vx_logs.specs.Held.{LogsFit, LogsStand};
ghost use Rattle.vx_volume.specs.Plexes.{DisksFit};

use vx_config::Config;
use vx_disk::Shelf;
use vx_drl::Drl;
use vx_logs::{Logs, Lost};
use vx_model::No;

// Takes the marks off a log, where there is one and it holds more than 64. Answers whether it was lost.
fn clear_drl<S: Shelf>(drl: &mut Option<Drl>, shelf: &mut S) -> Result<bool, No>
    requires lies { DrlLies drl.old (S.meaning shelf.old) }
    ensures writes { Goes (ClearedAt drl.old (S.meaning shelf.old)) (S.meaning shelf.old) (S.meaning shelf.new) }
    ensures clears { DrlClears drl.old drl.new (S.meaning shelf.old) (S.meaning shelf.new) result }
    ensures keeps { DrlKeeps drl.old drl.new }
    ensures nothing { DrlFew drl.old → shelf.new ≡ shelf.old }
{
    match drl {
        Some(log) => match log.flushed(shelf) {
            Ok(()) => Ok(false),
            Err(No::Device { .. }) => {
                *drl = None;
                Ok(true)
            }
            Err(no) => Err(no),
        },
        None => Ok(false),
    }
}

/// Takes all marks off the dirty region log of a volume where more than 64 regions were marked since; else it does nothing. Answers which
/// logs were lost. The caller says that no region has writes that were not flushed: of each block a crash leaves one value on all plexes that
/// are ACTIVE.
///
/// It writes blocks of the logs alone. Whatever it answers, a crash then leaves a log that has each region in which plexes differ. Refusal 6,
/// where the shelf is down.
pub fn clear_marks<S: Shelf>(
    logs: &mut Logs,
    config: &Config,
    vol: u32,
    shelf: &mut S,
) -> Result<Lost, No>
    requires checked { IsTrue (is_sound config.now) }
    requires fits { LogsFit config.now vol logs.old }
    requires some { 0 < blocks_of_is config.now.volumes vol }
    requires disks { DisksFit config.now.disks (S.meaning shelf.old) }
    ensures goes { Goes (OnLogs config.now vol) (S.meaning shelf.old) (S.meaning shelf.new) }
    ensures group { KeepsGroup config.now (S.meaning shelf.old) (S.meaning shelf.new) }
    ensures others { KeepsOthers config.now vol (S.meaning shelf.old) (S.meaning shelf.new) }
    ensures clears { Clears logs.old logs.new (S.meaning shelf.old) (S.meaning shelf.new) result }
    ensures fits { LogsFit config.now vol logs.new }
    ensures stands { OnOk result (LogsStand logs.old (S.meaning shelf.old) → LogsStand logs.new (S.meaning shelf.new)) }
    ensures memory { AllAlike config.now vol (S.meaning shelf.old) → MemoryCovers config.now vol logs.new (S.meaning shelf.new) }
    ensures covers { AllAlike config.now vol (S.meaning shelf.old) → DiskCovers config.now vol (S.meaning shelf.new) }
    ensures nothing { DrlFew logs.old.drl → shelf.new ≡ shelf.old }
{
    match clear_drl(&mut logs.drl, shelf) {
        Ok(drl) => Ok(Lost { drl, fmr: false }),
        Err(no) => Err(no),
    }
}
