// The dirty region logs of a group as an import reads them.
ghost use Rattle.std.specs.Prelude.{◌≡◌, ◌<◌, ◌≤◌, IfErr, IfOk, IsTrue, OnOk, length};
ghost use Rattle.vx_config.specs.Checks.{is_sound};
ghost use Rattle.vx_disk.specs.Shelf.{Goes, Nothing};
ghost use Rattle.vx_groupmaps.specs.Loading.{LoadIsRefused};
ghost use Rattle.vx_logimport.specs.Marked.{AreDirtyLogs, LogRead, LogsRead, log_within};
ghost use Rattle.vx_model.specs.declared.limits.TheConstants.{MOST_VOLUMES};
ghost use Rattle.vx_volume.specs.Plexes.{DisksFit};

use std::alloc::Global;
use vx_config::{Config, VolumeLog, blocks_of};
use vx_copyio::is_member;
use vx_disk::Shelf;
use vx_drl::Drl;
use vx_grouplogs::load_marks;
use vx_logs::Logs;
use vx_maplog::log_of;
use vx_model::limits::MOST_VOLUMES;
use vx_model::{No, Stop};

/// Whether a log of a volume, where it has one, lies on a disk of a set.
pub fn lies_within(config: &Config, good: u8, vol: u32, log: VolumeLog) -> bool
    ensures { result ≡ log_within good config.now vol log }
{
    match log_of(config, vol, log) {
        Some(entry) => is_member(good, u32::from(entry.disk)),
        None => true,
    }
}

// Reads the log of a volume; none where it has none in use, where it may not be read, or where its disk was not held as good or fails.
fn read_log<S: Shelf>(
    alloc: Global,
    shelf: &mut S,
    config: &Config,
    good: u8,
    told: &[bool; MOST_VOLUMES],
    vol: u32,
) -> Result<Option<Drl>, Stop>
    requires inside { vol < MOST_VOLUMES }
    requires checked { IsTrue (is_sound config.now) }
    requires disks { DisksFit config.now.disks (S.meaning shelf.old) }
    ensures read { IfOk result (λ drl. LogRead good told.now config.now vol drl (S.meaning shelf.old) (S.meaning shelf.new)) }
    ensures up { OnOk result (IsTrue (S.meaning shelf.old).down → ⊥) }
    ensures goes { Goes Nothing (S.meaning shelf.old) (S.meaning shelf.new) }
    ensures cause { IfErr result (LoadIsRefused (S.meaning shelf.new)) }
{
    if shelf.is_down() {
        return Err(Stop::No(No::Down));
    }
    if blocks_of(config, vol) == 0 {
        return Ok(None);
    }
    if !lies_within(config, good, vol, VolumeLog::Drl) {
        return Ok(None);
    }
    if !told[vol as usize] {
        return Ok(None);
    }
    match load_marks(alloc, shelf, config, vol) {
        Ok(loaded) => Ok(loaded.drl),
        Err(stop) => Err(stop),
    }
}

/// Reads the logs of all volumes of which they may be read, and that lie on disks of a set, those that were held as good. It changes nothing, and takes the
/// memory of the logs.
pub fn read_logs<S: Shelf>(
    alloc: Global,
    shelf: &mut S,
    config: &Config,
    good: u8,
    told: &[bool; MOST_VOLUMES],
) -> Result<Vec<Logs>, Stop>
    requires few { length config.now.volumes ≤ MOST_VOLUMES }
    requires checked { IsTrue (is_sound config.now) }
    requires disks { DisksFit config.now.disks (S.meaning shelf.old) }
    ensures read { IfOk result (λ logs. LogsRead good told.now config.now logs.items (S.meaning shelf.old) (S.meaning shelf.new)) }
    ensures logs { IfOk result (λ logs. AreDirtyLogs (length config.now.volumes) logs.items) }
    ensures up { OnOk result (IsTrue (S.meaning shelf.new).down → ⊥) }
    ensures goes { Goes Nothing (S.meaning shelf.old) (S.meaning shelf.new) }
    ensures cause { IfErr result (LoadIsRefused (S.meaning shelf.new)) }
{
    let mut logs = Vec::new(alloc);
    for vol in 0..config.volumes.as_slice().len() as u32 {
        match read_log(alloc, shelf, config, good, told, vol) {
            Ok(drl) => match logs.push(Logs { drl, fmr: None }) {
                Ok(()) => {}
                Err(_) => return Err(Stop::OutOfMemory),
            },
            Err(stop) => return Err(stop),
        }
    }
    if shelf.is_down() {
        return Err(Stop::No(No::Down));
    }
    Ok(logs)
}
