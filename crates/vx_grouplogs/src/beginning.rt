// A dirty region log that begins without marks.
ghost use Rattle.std.specs.Prelude.{◌≡◌, ◌<◌, ℕ, IsTrue, None};
ghost use Rattle.vx_config.specs.Checks.{blocks_of as blocks_of_is, is_sound};
ghost use Rattle.vx_disk.specs.Shelf.{Goes};
ghost use Rattle.vx_grouplogs.specs.Covering.{AllAlike, OnLogs};
ghost use Rattle.vx_grouplogs.specs.Keeps.{KeepsGroup};
ghost use Rattle.vx_grouplogs.specs.Marking.{NoMarks};
ghost use Rattle.vx_grouplogs.specs.On.{VolumeOn};
ghost use Rattle.vx_logs.specs.declared.logs.Logs.{Logs as LogsValue};
ghost use Rattle.vx_model.specs.Sizes.{regions_of as regions_in};
ghost use Rattle.vx_volume.specs.Plexes.{DisksFit};

use crate::guarding::clear_run;
use crate::zeroing::zero_run;
use std::alloc::Global;
use vx_config::{Config, VolumeLog};
use vx_disk::Shelf;
use vx_drl::Drl;
use vx_logs::Logs;
use vx_maplog::log_of;

/// Makes the dirty region log of a volume one without marks, durably, and takes it into memory. The caller says that of each block of the volume a
/// crash leaves one value on all plexes that are ACTIVE. Where the volume has no such log, a device call fails, or memory is wanting, none is in
/// memory; whatever is on its disk covers the plexes all the same.
///
/// It writes blocks of the logs alone, also where the configuration holds the log as lost. It takes the memory of the map's blocks.
pub fn begin_run<S: Shelf>(alloc: Global, logs: &mut Logs, config: &Config, vol: u32, shelf: &mut S)
    requires checked { IsTrue (is_sound config.now) }
    requires some { 0 < blocks_of_is config.now.volumes vol }
    requires disks { DisksFit config.now.disks (S.meaning shelf.old) }
    requires alike { AllAlike config.now vol (S.meaning shelf.old) }
    ensures goes { Goes (OnLogs config.now vol) (S.meaning shelf.old) (S.meaning shelf.new) }
    ensures group { KeepsGroup config.now (S.meaning shelf.old) (S.meaning shelf.new) }
    ensures on { VolumeOn config.now vol logs.new (S.meaning shelf.new) }
    ensures alike { AllAlike config.now vol (S.meaning shelf.new) }
    ensures others { (w : ℕ) (l : LogsValue) → (w ≡ vol → ⊥) → VolumeOn config.now w l (S.meaning shelf.old) → VolumeOn config.now w l (S.meaning shelf.new) }
    ensures plain { logs.new.fmr ≡ None }
    ensures off { NoMarks (regions_in (blocks_of_is config.now.volumes vol)) logs.new }
{
    logs.drl = None;
    logs.fmr = None;
    let entry = match log_of(config, vol, VolumeLog::Drl) {
        Some(entry) => entry,
        None => return,
    };
    match zero_run(shelf, u32::from(entry.disk), entry.start, entry.blocks) {
        Ok(()) => {}
        Err(_) => return,
    }
    if shelf.is_down() {
        return;
    }
    match Drl::load(alloc, shelf, config, vol) {
        Ok(drl) => logs.drl = Some(drl),
        Err(_) => return,
    }
    match clear_run(logs, config, vol, shelf) {
        Ok(()) => {}
        Err(_) => {
            logs.drl = None;
            logs.fmr = None;
        }
    }
}
