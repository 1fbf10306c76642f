// What a group does with the log of a volume before a write and behind a flush.
ghost use Rattle.std.specs.Prelude.{◌≡◌, ◌+◌, ◌<◌, ◌≤◌, ℕ, Bool, IfErr, IsTrue, None, OnOk};
ghost use Rattle.vx_config.specs.Checks.{blocks_of as blocks_of_is, is_sound};
ghost use Rattle.vx_disk.specs.Shelf.{Goes};
ghost use Rattle.vx_grouplogs.specs.Clearing.{DrlFew};
ghost use Rattle.vx_grouplogs.specs.Covering.{AllAlike, OnLogs};
ghost use Rattle.vx_grouplogs.specs.Gone.{LogsDrop};
ghost use Rattle.vx_grouplogs.specs.Keeps.{KeepsGroup};
ghost use Rattle.vx_grouplogs.specs.Marking.{HoldRegions, HoldsMany, MarksFewer, MarksOnly, NoMarks};
ghost use Rattle.vx_grouplogs.specs.On.{VolumeOn};
ghost use Rattle.vx_groupmaps.specs.Knowing.{MapsKnowBy, MapsNote, or_stale};
ghost use Rattle.vx_groupmaps.specs.Missing.{HoldMissed};
ghost use Rattle.vx_logs.specs.Dirtying.{DrlHolds};
ghost use Rattle.vx_logs.specs.Held.{stale};
ghost use Rattle.vx_logs.specs.Writes.{StaleStill, first_region, last_region};
ghost use Rattle.vx_logs.specs.declared.logs.Logs.{Logs as LogsValue};
ghost use Rattle.vx_model.specs.Sizes.{regions_of as regions_in};
ghost use Rattle.vx_volume.specs.Plexes.{DisksFit};

use crate::clearing::clear_marks;
use crate::running::mark_run;
use vx_config::Config;
use vx_disk::Shelf;
use vx_logs::Logs;
use vx_model::No;

/// Marks the regions of a run of blocks durably before a write: as dirty, and as missed by each plex that is STALE. A log of which the disk fails
/// is in memory no more: the caller commits it as lost before a plex is written. It makes no device call where all are marked.
///
/// It writes blocks of the logs alone. Whatever it answers, a crash leaves a log that has each region in which plexes differ. Refusal 6
/// alone, where the shelf is down.
pub fn guard_run<S: Shelf>(
    logs: &mut Logs,
    config: &Config,
    vol: u32,
    shelf: &mut S,
    block: u64,
    count: u64,
) -> Result<(), No>
    requires checked { IsTrue (is_sound config.now) }
    requires some { 0 < count }
    requires within { block + count ≤ blocks_of_is config.now.volumes vol }
    requires disks { DisksFit config.now.disks (S.meaning shelf.old) }
    requires on { VolumeOn config.now vol logs.old (S.meaning shelf.old) }
    ensures goes { Goes (OnLogs config.now vol) (S.meaning shelf.old) (S.meaning shelf.new) }
    ensures group { KeepsGroup config.now (S.meaning shelf.old) (S.meaning shelf.new) }
    ensures on { VolumeOn config.now vol logs.new (S.meaning shelf.new) }
    ensures others { (w : ℕ) (l : LogsValue) → (w ≡ vol → ⊥) → VolumeOn config.now w l (S.meaning shelf.old) → VolumeOn config.now w l (S.meaning shelf.new) }
    ensures held { OnOk result (HoldRegions (first_region block) (last_region block count) logs.new) }
    ensures missed { OnOk result (HoldMissed config.now vol (first_region block) (last_region block count) logs.new) }
    ensures up { OnOk result (IsTrue (S.meaning shelf.new).down → IsTrue (S.meaning shelf.old).down) }
    ensures down { IfErr result (λ no. IsTrue (S.meaning shelf.new).down) }
    ensures drops { LogsDrop config.now vol logs.old logs.new (S.meaning shelf.old) (S.meaning shelf.new) }
    ensures adds { MarksOnly (regions_in (blocks_of_is config.now.volumes vol)) (first_region block) (last_region block count) logs.old logs.new }
    ensures knows { (spare : ℕ → ℕ → Bool) → MapsKnowBy config.now vol (or_stale config.now vol (first_region block) (last_region block count) spare) logs.old (S.meaning shelf.old) → MapsKnowBy config.now vol spare logs.new (S.meaning shelf.new) }
    ensures notes { MapsNote (stale config.now vol) (first_region block) (last_region block count) logs.old logs.new }
    ensures nothing { DrlHolds (first_region block) (last_region block count) logs.old.drl → StaleStill config.now vol (first_region block) (last_region block count) logs.old.fmr → shelf.new ≡ shelf.old }
{
    match mark_run(logs, config, vol, shelf, block, count) {
        Ok(_) => Ok(()),
        Err(no) => {
            logs.drl = None;
            logs.fmr = None;
            Err(no)
        }
    }
}

/// Takes all marks off the log of a volume where more than 64 regions were marked since; else it does nothing. The caller says that of each
/// block of the volume a crash leaves one value on all plexes that are ACTIVE. A log of which the disk fails is in memory no more.
///
/// It writes blocks of the log alone. Refusal 6 alone, where the shelf is down.
pub fn clear_run<S: Shelf>(
    logs: &mut Logs,
    config: &Config,
    vol: u32,
    shelf: &mut S,
) -> Result<(), No>
    requires checked { IsTrue (is_sound config.now) }
    requires some { 0 < blocks_of_is config.now.volumes vol }
    requires disks { DisksFit config.now.disks (S.meaning shelf.old) }
    requires on { VolumeOn config.now vol logs.old (S.meaning shelf.old) }
    requires alike { AllAlike config.now vol (S.meaning shelf.old) }
    ensures goes { Goes (OnLogs config.now vol) (S.meaning shelf.old) (S.meaning shelf.new) }
    ensures group { KeepsGroup config.now (S.meaning shelf.old) (S.meaning shelf.new) }
    ensures on { VolumeOn config.now vol logs.new (S.meaning shelf.new) }
    ensures others { (w : ℕ) (l : LogsValue) → (w ≡ vol → ⊥) → VolumeOn config.now w l (S.meaning shelf.old) → VolumeOn config.now w l (S.meaning shelf.new) }
    ensures up { OnOk result (IsTrue (S.meaning shelf.new).down → IsTrue (S.meaning shelf.old).down) }
    ensures down { IfErr result (λ no. IsTrue (S.meaning shelf.new).down) }
    ensures drops { LogsDrop config.now vol logs.old logs.new (S.meaning shelf.old) (S.meaning shelf.new) }
    ensures fewer { MarksFewer (regions_in (blocks_of_is config.now.volumes vol)) logs.old logs.new }
    ensures maps { (spare : ℕ → ℕ → Bool) → MapsKnowBy config.now vol spare logs.old (S.meaning shelf.old) → MapsKnowBy config.now vol spare logs.new (S.meaning shelf.new) }
    ensures same { OnOk result (logs.new.fmr ≡ logs.old.fmr) }
    ensures gone { IfErr result (λ no. logs.new.fmr ≡ None) }
    ensures off { OnOk result (HoldsMany logs.old.drl → NoMarks (regions_in (blocks_of_is config.now.volumes vol)) logs.new) }
    ensures nothing { DrlFew logs.old.drl → shelf.new ≡ shelf.old }
{
    match clear_marks(logs, config, vol, shelf) {
        Ok(_) => Ok(()),
        Err(no) => {
            logs.drl = None;
            logs.fmr = None;
            Err(no)
        }
    }
}
