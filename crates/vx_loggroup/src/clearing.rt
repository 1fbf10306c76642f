// The marks of the volumes of which an import made the plexes alike.
ghost use Rattle.std.specs.Prelude.{◌≡◌, ◌<◌, ◌≤◌, ℕ, false, length, true, IfErr, IfOk, OnOk, Some, slice_get};
ghost use Rattle.vx_disk.specs.Causes.{Cause};
ghost use Rattle.vx_group.specs.Attaches.{region_count};
ghost use Rattle.vx_group.specs.Blames.{StopsByDevice};
ghost use Rattle.vx_group.specs.Holding.{wide};
ghost use Rattle.vx_group.specs.Stands.{inner_meaning};
ghost use Rattle.vx_grouplogs.specs.Covering.{AllAlike};
ghost use Rattle.vx_grouplogs.specs.Marking.{HoldsMany, NoMarks};
ghost use Rattle.vx_loggroup.specs.LoggedVolumes.{LoggedStands, is_alike as is_alike_is};
ghost use Rattle.vx_loggroup.specs.Marks.{ClearsVolume, MarksAreOff};
ghost use Rattle.vx_loggroup.specs.Taking.{LogsSettle, MapsShrink};
ghost use Rattle.vx_logs.specs.declared.logs.Logs.{Logs as LogsValue};
ghost use Rattle.vx_model.specs.declared.limits.TheConstants.{MOST_VOLUMES};

use crate::alike::is_alike;
use vx_disk::{Shelf, ShelfError};
use vx_group::GroupCore;
use vx_logged::clear_group;
use vx_logs::Logs;
use vx_model::limits::MOST_VOLUMES;

// Takes the marks off the log of a volume, of which a crash leaves one value of each block, and answers whether logs may be gone by further.
fn clear_one<S: Shelf>(
    shelf: &mut S,
    core: &mut GroupCore,
    logs: &mut Vec<Logs>,
    alike: &[bool; MOST_VOLUMES],
    vol: u32,
) -> Result<bool, ShelfError>
    requires stands { LoggedStands core.old logs.old.items alike.now false (S.meaning shelf.old) }
    requires there { vol < (inner_meaning (wide core.old) (S.meaning shelf.old)).units }
    requires same { is_alike_is alike.now vol ≡ true → AllAlike (wide core.old).config vol (S.meaning shelf.old) }
    ensures stands { LoggedStands core.new logs.new.items alike.now false (S.meaning shelf.new) }
    ensures settles { LogsSettle core.old core.new (S.meaning shelf.old) (S.meaning shelf.new) }
    ensures marks { ClearsVolume (wide core.old).config vol logs.old.items logs.new.items }
    ensures shrink { MapsShrink logs.old.items logs.new.items }
    ensures off { IfOk result (λ done. done ≡ true → is_alike_is alike.now vol ≡ true → (l k : LogsValue) → slice_get logs.old.items vol ≡ Some l → HoldsMany l.drl → slice_get logs.new.items vol ≡ Some k → NoMarks (region_count (wide core.old).config vol) k) }
    ensures trust { OnOk result (core.old.inner.committed ≡ true → core.new.inner.committed ≡ true) }
    ensures agreed { IfErr result (λ e. core.old.inner.committed ≡ true → core.new.inner.agreed ≡ true) }
    ensures cause { Cause (inner_meaning (wide core.old) (S.meaning shelf.old)) (inner_meaning (wide core.new) (S.meaning shelf.new)) vol result }
{
    if shelf.is_down() {
        return Err(ShelfError::Down);
    }
    if !is_alike(alike, vol) {
        return Ok(true);
    }
    clear_group(shelf, core, &mut logs[vol as usize], vol)
}

/// Takes the marks off the log of each volume of which a crash leaves one value of each block, and answers whether logs may be gone by further.
/// A log of which the disk fails is committed as lost. All volumes read as before.
pub fn clear_all<S: Shelf>(
    shelf: &mut S,
    core: &mut GroupCore,
    logs: &mut Vec<Logs>,
    alike: &[bool; MOST_VOLUMES],
) -> Result<bool, ShelfError>
    requires stands { LoggedStands core.old logs.old.items alike.now false (S.meaning shelf.old) }
    requires same { (v : ℕ) → v < length logs.old.items → is_alike_is alike.now v ≡ true → AllAlike (wide core.old).config v (S.meaning shelf.old) }
    requires full { (v : ℕ) (l : LogsValue) → slice_get logs.old.items v ≡ Some l → HoldsMany l.drl }
    ensures stands { LoggedStands core.new logs.new.items alike.now false (S.meaning shelf.new) }
    ensures settles { LogsSettle core.old core.new (S.meaning shelf.old) (S.meaning shelf.new) }
    ensures shrink { MapsShrink logs.old.items logs.new.items }
    ensures off { IfOk result (λ done. done ≡ true → MarksAreOff (wide core.old).config alike.now (length logs.new.items) logs.new.items) }
    ensures trust { OnOk result (core.old.inner.committed ≡ true → core.new.inner.committed ≡ true) }
    ensures agreed { IfErr result (λ e. core.old.inner.committed ≡ true → core.new.inner.agreed ≡ true) }
    ensures cause { StopsByDevice (S.meaning shelf.old) (S.meaning shelf.new) result }
{
    for vol in 0..logs.len() {
        let done = match clear_one(shelf, core, logs, alike, vol as u32) {
            Ok(done) => done,
            Err(error) => return Err(error),
        };
        if !done {
            return Ok(false);
        }
    }
    Ok(true)
}
