// The logs of a volume that begin.
ghost use Rattle.std.specs.Prelude.{◌≡◌, ◌*◌, ◌+◌, ◌<◌, ◌≤◌, true, IfErr, IsTrue, None, OnOk};
ghost use Rattle.vx_config.specs.Checks.{blocks_of as blocks_of_is};
ghost use Rattle.vx_disk.specs.Causes.{Cause};
ghost use Rattle.vx_group.specs.Attaches.{region_count};
ghost use Rattle.vx_group.specs.Blames.{MarksOn};
ghost use Rattle.vx_group.specs.GivesUp.{FaultMisses};
ghost use Rattle.vx_group.specs.Holding.{GroupStands, wide};
ghost use Rattle.vx_group.specs.Stands.{inner_meaning};
ghost use Rattle.vx_grouplogs.specs.Covering.{AllAlike};
ghost use Rattle.vx_group.specs.Settles.{ReadsOne};
ghost use Rattle.vx_logged.specs.Logged.{Known, LogOn};
ghost use Rattle.vx_loggroup.specs.Fresh.{LogsStart, FirstLogs, NewMaps};
ghost use Rattle.vx_loggroup.specs.Keeping.{TrustsNew};

use crate::trusting::trust_first;
use std::alloc::Global;
use vx_config::{Config, VolumeLog};
use vx_disk::{Shelf, ShelfError};
use vx_group::GroupCore;
use vx_grouplogs::{begin_maps, begin_run};
use vx_logs::Logs;
use vx_maplog::log_of;
use vx_model::limits::COMMIT_SERIALS;

// Whether a volume has a log that is held as lost.
fn is_waiting(config: &Config, vol: u32, log: VolumeLog) -> bool {
    match log_of(config, vol, log) {
        Some(entry) => entry.lost,
        None => false,
    }
}

// Makes the dirty region log of a volume one without marks, durably, takes it into memory, and commits then that it is trusted. The caller says
// that of each block of the volume a crash leaves one value on all plexes that are ACTIVE. Where a device call on it fails, memory is wanting or
// no serial is left, the log stays lost; a refused commit is the answer: then the log is in memory, and a disk may trust it.
//
// All volumes read as before, and each log stands. It takes the memory of the log.
fn begin_log<S: Shelf>(
    alloc: Global,
    shelf: &mut S,
    core: &mut GroupCore,
    one: &mut Logs,
    vol: u32,
) -> Result<(), ShelfError>
    requires stands { GroupStands core.old (S.meaning shelf.old) }
    requires none { core.old.held ≡ None }
    requires up { IsTrue (S.meaning shelf.old).down → ⊥ }
    requires there { vol < (inner_meaning (wide core.old) (S.meaning shelf.old)).units }
    requires some { 0 < blocks_of_is core.old.inner.config.volumes vol }
    requires waits { (one.old.drl ≡ None) × (one.old.fmr ≡ None) }
    requires alike { AllAlike (wide core.old).config vol (S.meaning shelf.old) }
    ensures stands { GroupStands core.new (S.meaning shelf.new) }
    ensures none { core.new.held ≡ None }
    ensures begins { LogsStart vol core.old core.new (S.meaning shelf.old) (S.meaning shelf.new) }
    ensures first { FirstLogs (region_count (wide core.old).config vol) one.old one.new }
    ensures news { NewMaps core.old.inner.config vol one.old one.new }
    ensures since { TrustsNew vol one.new core.old core.new }
    ensures log { LogOn core.new vol one.new (S.meaning shelf.new) }
    ensures maps { Known core.new vol one.new (S.meaning shelf.new) }
    ensures few { OnOk result (core.new.inner.config.serial ≤ core.old.inner.config.serial + COMMIT_SERIALS) }
    ensures trust { OnOk result (core.old.inner.committed ≡ true → core.new.inner.committed ≡ true) }
    ensures agreed { IfErr result (λ e. core.old.inner.committed ≡ true → core.new.inner.agreed ≡ true) }
    ensures unsure { MarksOn vol core.old.inner.unsure core.new.inner.unsure result }
    ensures misses { FaultMisses core.new.inner result }
    ensures cause { Cause (inner_meaning (wide core.old) (S.meaning shelf.old)) (inner_meaning (wide core.new) (S.meaning shelf.new)) vol result }
    ensures alike { AllAlike (wide core.new).config vol (S.meaning shelf.new) }
{
    begin_run(alloc, one, &core.inner.config, vol, shelf);
    if shelf.is_down() {
        return Err(ShelfError::Down);
    }
    if one.drl.is_none() {
        return Ok(());
    }
    trust_first(shelf, core, vol, VolumeLog::Drl)
}

// Makes the log of missed regions of a volume one by which no plex that is ACTIVE has missed a region, and each other one all, durably, takes it
// into memory, and commits then that it is trusted. The caller says that each block of the volume reads as one value on all plexes that are ACTIVE.
// Where a device call on it fails, memory is wanting or no serial is left, the log stays lost; a refused commit is the answer.
//
// All volumes read as before, and each log stands. It takes the memory of the log.
fn begin_map<S: Shelf>(
    alloc: Global,
    shelf: &mut S,
    core: &mut GroupCore,
    one: &mut Logs,
    vol: u32,
) -> Result<(), ShelfError>
    requires stands { GroupStands core.old (S.meaning shelf.old) }
    requires none { core.old.held ≡ None }
    requires up { IsTrue (S.meaning shelf.old).down → ⊥ }
    requires there { vol < (inner_meaning (wide core.old) (S.meaning shelf.old)).units }
    requires some { 0 < blocks_of_is core.old.inner.config.volumes vol }
    requires log { LogOn core.old vol one.old (S.meaning shelf.old) }
    requires waits { one.old.fmr ≡ None }
    requires one { ReadsOne (wide core.old).config vol (S.meaning shelf.old) }
    ensures stands { GroupStands core.new (S.meaning shelf.new) }
    ensures none { core.new.held ≡ None }
    ensures begins { LogsStart vol core.old core.new (S.meaning shelf.old) (S.meaning shelf.new) }
    ensures first { FirstLogs (region_count (wide core.old).config vol) one.old one.new }
    ensures news { NewMaps core.old.inner.config vol one.old one.new }
    ensures since { TrustsNew vol one.new core.old core.new }
    ensures log { LogOn core.new vol one.new (S.meaning shelf.new) }
    ensures maps { Known core.new vol one.new (S.meaning shelf.new) }
    ensures few { OnOk result (core.new.inner.config.serial ≤ core.old.inner.config.serial + COMMIT_SERIALS) }
    ensures trust { OnOk result (core.old.inner.committed ≡ true → core.new.inner.committed ≡ true) }
    ensures agreed { IfErr result (λ e. core.old.inner.committed ≡ true → core.new.inner.agreed ≡ true) }
    ensures unsure { MarksOn vol core.old.inner.unsure core.new.inner.unsure result }
    ensures misses { FaultMisses core.new.inner result }
    ensures cause { Cause (inner_meaning (wide core.old) (S.meaning shelf.old)) (inner_meaning (wide core.new) (S.meaning shelf.new)) vol result }
{
    begin_maps(alloc, one, &core.inner.config, vol, shelf);
    if shelf.is_down() {
        return Err(ShelfError::Down);
    }
    if one.fmr.is_none() {
        return Ok(());
    }
    trust_first(shelf, core, vol, VolumeLog::Fmr)
}

// Begins the dirty region log of a volume, where it is held as lost and no log of the volume is in memory.
fn begin_drl<S: Shelf>(
    alloc: Global,
    shelf: &mut S,
    core: &mut GroupCore,
    one: &mut Logs,
    vol: u32,
) -> Result<(), ShelfError>
    requires stands { GroupStands core.old (S.meaning shelf.old) }
    requires none { core.old.held ≡ None }
    requires up { IsTrue (S.meaning shelf.old).down → ⊥ }
    requires there { vol < (inner_meaning (wide core.old) (S.meaning shelf.old)).units }
    requires some { 0 < blocks_of_is core.old.inner.config.volumes vol }
    requires log { LogOn core.old vol one.old (S.meaning shelf.old) }
    requires maps { Known core.old vol one.old (S.meaning shelf.old) }
    requires alike { AllAlike (wide core.old).config vol (S.meaning shelf.old) }
    ensures stands { GroupStands core.new (S.meaning shelf.new) }
    ensures none { core.new.held ≡ None }
    ensures begins { LogsStart vol core.old core.new (S.meaning shelf.old) (S.meaning shelf.new) }
    ensures first { FirstLogs (region_count (wide core.old).config vol) one.old one.new }
    ensures news { NewMaps core.old.inner.config vol one.old one.new }
    ensures since { TrustsNew vol one.new core.old core.new }
    ensures log { LogOn core.new vol one.new (S.meaning shelf.new) }
    ensures maps { Known core.new vol one.new (S.meaning shelf.new) }
    ensures few { OnOk result (core.new.inner.config.serial ≤ core.old.inner.config.serial + COMMIT_SERIALS) }
    ensures trust { OnOk result (core.old.inner.committed ≡ true → core.new.inner.committed ≡ true) }
    ensures agreed { IfErr result (λ e. core.old.inner.committed ≡ true → core.new.inner.agreed ≡ true) }
    ensures unsure { MarksOn vol core.old.inner.unsure core.new.inner.unsure result }
    ensures misses { FaultMisses core.new.inner result }
    ensures cause { Cause (inner_meaning (wide core.old) (S.meaning shelf.old)) (inner_meaning (wide core.new) (S.meaning shelf.new)) vol result }
    ensures alike { AllAlike (wide core.new).config vol (S.meaning shelf.new) }
{
    if one.drl.is_some() {
        return Ok(());
    }
    if one.fmr.is_some() {
        return Ok(());
    }
    if !is_waiting(&core.inner.config, vol, VolumeLog::Drl) {
        return Ok(());
    }
    begin_log(alloc, shelf, core, one, vol)
}

// Begins the log of missed regions of a volume, where it is held as lost and not in memory.
fn begin_fmr<S: Shelf>(
    alloc: Global,
    shelf: &mut S,
    core: &mut GroupCore,
    one: &mut Logs,
    vol: u32,
) -> Result<(), ShelfError>
    requires stands { GroupStands core.old (S.meaning shelf.old) }
    requires none { core.old.held ≡ None }
    requires up { IsTrue (S.meaning shelf.old).down → ⊥ }
    requires there { vol < (inner_meaning (wide core.old) (S.meaning shelf.old)).units }
    requires some { 0 < blocks_of_is core.old.inner.config.volumes vol }
    requires log { LogOn core.old vol one.old (S.meaning shelf.old) }
    requires maps { Known core.old vol one.old (S.meaning shelf.old) }
    requires one { ReadsOne (wide core.old).config vol (S.meaning shelf.old) }
    ensures stands { GroupStands core.new (S.meaning shelf.new) }
    ensures none { core.new.held ≡ None }
    ensures begins { LogsStart vol core.old core.new (S.meaning shelf.old) (S.meaning shelf.new) }
    ensures first { FirstLogs (region_count (wide core.old).config vol) one.old one.new }
    ensures news { NewMaps core.old.inner.config vol one.old one.new }
    ensures since { TrustsNew vol one.new core.old core.new }
    ensures log { LogOn core.new vol one.new (S.meaning shelf.new) }
    ensures maps { Known core.new vol one.new (S.meaning shelf.new) }
    ensures few { OnOk result (core.new.inner.config.serial ≤ core.old.inner.config.serial + COMMIT_SERIALS) }
    ensures trust { OnOk result (core.old.inner.committed ≡ true → core.new.inner.committed ≡ true) }
    ensures agreed { IfErr result (λ e. core.old.inner.committed ≡ true → core.new.inner.agreed ≡ true) }
    ensures unsure { MarksOn vol core.old.inner.unsure core.new.inner.unsure result }
    ensures misses { FaultMisses core.new.inner result }
    ensures cause { Cause (inner_meaning (wide core.old) (S.meaning shelf.old)) (inner_meaning (wide core.new) (S.meaning shelf.new)) vol result }
{
    if one.fmr.is_some() {
        return Ok(());
    }
    if !is_waiting(&core.inner.config, vol, VolumeLog::Fmr) {
        return Ok(());
    }
    begin_map(alloc, shelf, core, one, vol)
}

/// Begins both logs of a volume, each where it is held as lost and not in memory, over plexes of which a crash leaves one value of each block. It
/// makes no call on a plex.
///
/// A fault comes only where a commit was refused.
pub fn begin_both<S: Shelf>(
    alloc: Global,
    shelf: &mut S,
    core: &mut GroupCore,
    one: &mut Logs,
    vol: u32,
) -> Result<(), ShelfError>
    requires stands { GroupStands core.old (S.meaning shelf.old) }
    requires none { core.old.held ≡ None }
    requires up { IsTrue (S.meaning shelf.old).down → ⊥ }
    requires there { vol < (inner_meaning (wide core.old) (S.meaning shelf.old)).units }
    requires some { 0 < blocks_of_is core.old.inner.config.volumes vol }
    requires log { LogOn core.old vol one.old (S.meaning shelf.old) }
    requires maps { Known core.old vol one.old (S.meaning shelf.old) }
    requires alike { AllAlike (wide core.old).config vol (S.meaning shelf.old) }
    ensures stands { GroupStands core.new (S.meaning shelf.new) }
    ensures none { core.new.held ≡ None }
    ensures begins { LogsStart vol core.old core.new (S.meaning shelf.old) (S.meaning shelf.new) }
    ensures first { FirstLogs (region_count (wide core.old).config vol) one.old one.new }
    ensures news { NewMaps core.old.inner.config vol one.old one.new }
    ensures since { TrustsNew vol one.new core.old core.new }
    ensures log { LogOn core.new vol one.new (S.meaning shelf.new) }
    ensures maps { Known core.new vol one.new (S.meaning shelf.new) }
    ensures few { OnOk result (core.new.inner.config.serial ≤ core.old.inner.config.serial + 2 * COMMIT_SERIALS) }
    ensures trust { OnOk result (core.old.inner.committed ≡ true → core.new.inner.committed ≡ true) }
    ensures agreed { IfErr result (λ e. core.old.inner.committed ≡ true → core.new.inner.agreed ≡ true) }
    ensures unsure { MarksOn vol core.old.inner.unsure core.new.inner.unsure result }
    ensures misses { FaultMisses core.new.inner result }
    ensures cause { Cause (inner_meaning (wide core.old) (S.meaning shelf.old)) (inner_meaning (wide core.new) (S.meaning shelf.new)) vol result }
{
    match begin_drl(alloc, shelf, core, one, vol) {
        Ok(()) => {}
        Err(error) => return Err(error),
    }
    begin_fmr(alloc, shelf, core, one, vol)
}
