// The bringing of logged writes into their volumes.
ghost use Rattle.std.specs.Prelude.{◌≡◌, ◌+◌, ◌<◌, ◌≤◌, ℕ, length, Some, None, IsTrue, IsFalse, IfErr, IfOk, OnOk, IsSome};
ghost use Rattle.vx_model.specs.Refusals.{IsNoDevice};
ghost use Rattle.vx_disk.specs.Causes.{Works, refusal_of};
ghost use Rattle.vx_disk.specs.Moves.{Moves, Anything, Nowhere};
ghost use Rattle.vx_disk.specs.Spends.{Spends};
ghost use Rattle.vx_rvg.specs.Brings.{Brings, BringsOne, VolumesFlushed};
ghost use Rattle.vx_rvg.specs.Groups.{halted_or, applied_through, ApplyIs, BlamesVolumes};
ghost use Rattle.vx_rvg.specs.Stands.{Resting, Rests};
ghost use Rattle.vx_srl.specs.Causes.{CallsStopped};
ghost use Rattle.vx_rvg.specs.Views.{IsSound, UnitsPlaced, Waits, last_of, unit_of};

use crate::patch::patch;
use crate::{Rvg, RvgCore};
use vx_disk::{Shelf, ShelfError, refusal};
use vx_model::No;
use vx_model::limits::{BLOCK, MOST_CALL_BYTES};

// Writes the newest blocks of the places of one record, and answers how many; none where it does not end within its volume.
fn bring_one<S: Shelf>(shelf: &mut S, core: &RvgCore, n: u64) -> Result<u64, ShelfError>
    requires placed { UnitsPlaced core.now.units (S.meaning shelf.old) }
    requires low { core.now.log.header.low ≤ core.now.applied + 1 }
    requires waits { core.now.applied < n }
    requires held { n ≤ last_of core.now }
    ensures brings { IfOk result (BringsOne core.now n (S.meaning shelf.old) (S.meaning shelf.new)) }
    ensures moves { Moves (Waits core.now (S.meaning shelf.old)) Anything (S.meaning shelf.old) (S.meaning shelf.new) }
    ensures stopped { CallsStopped (S.meaning shelf.old) (S.meaning shelf.new) result }
    ensures blames { IfErr result (λ error. BlamesVolumes (S.meaning shelf.old).disks core.now.units.vols (refusal_of error)) }
    ensures spends { Spends (S.meaning shelf.old) (S.meaning shelf.new) }
{
    // A log bounds the blocks of its records by its ring.
    let _ring = core.srl.ring();
    let head = *core.srl.front(n);
    if head.vol >= core.volumes() {
        return Ok(0);
    }
    let unit = core.unit(head.vol);
    let size = shelf.size(unit);
    let count = head.count as u64;
    if size < count || size - count < head.block {
        return Ok(0);
    }
    let mut room = [0; MOST_CALL_BYTES];
    let bytes = &mut room[..BLOCK * head.count as usize];
    patch(&core.pending, head.vol, head.block, bytes);
    shelf.write(unit, head.block, bytes)?;
    Ok(count)
}

// Makes each data volume durable.
fn flush_volumes<S: Shelf>(shelf: &mut S, core: &RvgCore) -> Result<(), ShelfError>
    requires placed { UnitsPlaced core.now.units (S.meaning shelf.old) }
    ensures flushed { OnOk result (VolumesFlushed core.now.units.vols (S.meaning shelf.old) (S.meaning shelf.new)) }
    ensures moves { Moves Nowhere Anything (S.meaning shelf.old) (S.meaning shelf.new) }
    ensures stopped { CallsStopped (S.meaning shelf.old) (S.meaning shelf.new) result }
    ensures blames { IfErr result (λ error. BlamesVolumes (S.meaning shelf.old).disks core.now.units.vols (refusal_of error)) }
    ensures spends { Spends (S.meaning shelf.old) (S.meaning shelf.new) }
    ensures works { OnOk result ((v : ℕ) → v < length core.now.units.vols → Works (S.meaning shelf.old).disks (unit_of core.now.units.vols v)) }
{
    for vol in 0..core.volumes() {
        shelf.flush(core.unit(vol))?;
    }
    Ok(())
}

// Brings the records up to a number into their volumes, durably, and answers how many blocks they are.
fn bring<S: Shelf>(shelf: &mut S, core: &RvgCore, to: u64) -> Result<u64, ShelfError>
    requires placed { UnitsPlaced core.now.units (S.meaning shelf.old) }
    requires low { core.now.log.header.low ≤ core.now.applied + 1 }
    requires applied { core.now.applied ≤ to }
    requires held { to ≤ last_of core.now }
    ensures brings { IfOk result (Brings core.now to (S.meaning shelf.old) (S.meaning shelf.new)) }
    ensures moves { Moves (Waits core.now (S.meaning shelf.old)) Anything (S.meaning shelf.old) (S.meaning shelf.new) }
    ensures stopped { CallsStopped (S.meaning shelf.old) (S.meaning shelf.new) result }
    ensures blames { IfErr result (λ error. BlamesVolumes (S.meaning shelf.old).disks core.now.units.vols (refusal_of error)) }
    ensures spends { Spends (S.meaning shelf.old) (S.meaning shelf.new) }
    ensures works { OnOk result ((v : ℕ) → v < length core.now.units.vols → Works (S.meaning shelf.old).disks (unit_of core.now.units.vols v)) }
{
    // A log bounds the blocks of its records by its ring.
    let _ring = core.srl.ring();
    let mut count = 0;
    for n in core.applied..to {
        count += bring_one(shelf, core, n + 1)?;
    }
    flush_volumes(shelf, core)?;
    Ok(count)
}

/// Brings the records up to a number into their volumes, and they wait no longer. A device call that fails halts the group.
pub(crate) fn apply_to<S: Shelf>(shelf: &mut S, core: &mut RvgCore, count: u64) -> Result<u64, No>
    requires sound { IsSound core.old (S.meaning shelf.old) }
    ensures answers { ApplyIs (halted_or core.old.halted None) core.old count (S.meaning shelf.old) (S.meaning shelf.new) core.new result }
    ensures unchanged { IsSome (halted_or core.old.halted None) → shelf.new ≡ shelf.old }
    ensures nothing { count ≤ core.old.applied → shelf.new ≡ shelf.old }
    ensures idle { count ≤ core.old.applied → IfErr result IsNoDevice }
    ensures blames { IfErr result (BlamesVolumes (S.meaning shelf.old).disks core.old.units.vols) }
    ensures sound { IsSound core.new (S.meaning shelf.new) }
    ensures stands { OnOk result (Rests core.old core.new (S.meaning shelf.old) (S.meaning shelf.new)) }
    ensures moves { Moves (Waits core.old (S.meaning shelf.old)) (Resting core.old (S.meaning shelf.old)) (S.meaning shelf.old) (S.meaning shelf.new) }
    ensures spends { Spends (S.meaning shelf.old) (S.meaning shelf.new) }
    ensures works { OnOk result (core.old.applied < applied_through core.old count → (v : ℕ) → v < length core.old.units.vols → Works (S.meaning shelf.old).disks (unit_of core.old.units.vols v)) }
{
    if let Some(disk) = core.halted {
        return Err(No::Halted { disk });
    }
    let to = core.applied_to(count);
    if to == core.applied {
        return Ok(to);
    }
    if shelf.is_down() {
        return Err(No::Down);
    }
    match bring(shelf, core, to) {
        Ok(blocks) => {
            core.pending.drop_oldest(blocks);
            core.applied = to;
            Ok(to)
        }
        Err(error) => {
            let no = refusal(error);
            core.halt(&no);
            Err(no)
        }
    }
}

impl<S: Shelf> Rvg<S> {
    /// Brings the logged writes up to a number into their volumes, durably. Answers the number up to which all are there now.
    ///
    /// It changes neither the content nor the log. Refusals: 20 where a call answered 7 before, which changes nothing; 7 where a device
    /// call failed, with the disk of a volume: then the group is halted. 6 where the shelf is down.
    pub fn apply(&mut self, count: u64) -> Result<u64, No>
        ensures answers { ApplyIs (halted_or self.old.core.halted None) self.old.core count (S.meaning self.old.shelf) (S.meaning self.new.shelf) self.new.core result }
        ensures unchanged { IsSome (halted_or self.old.core.halted None) → self.new.shelf ≡ self.old.shelf }
        ensures nothing { count ≤ self.old.core.applied → self.new.shelf ≡ self.old.shelf }
        ensures blames { IfErr result (BlamesVolumes (S.meaning self.old.shelf).disks self.old.core.units.vols) }
        ensures stands { OnOk result (Rests self.old.core self.new.core (S.meaning self.old.shelf) (S.meaning self.new.shelf)) }
        ensures moves { Moves (Waits self.old.core (S.meaning self.old.shelf)) (Resting self.old.core (S.meaning self.old.shelf)) (S.meaning self.old.shelf) (S.meaning self.new.shelf) }
        ensures spends { Spends (S.meaning self.old.shelf) (S.meaning self.new.shelf) }
        ensures works { OnOk result (self.old.core.applied < applied_through self.old.core count → (v : ℕ) → v < length self.old.core.units.vols → Works (S.meaning self.old.shelf).disks (unit_of self.old.core.units.vols v)) }
    {
        apply_to(&mut self.shelf, &mut self.core, count)
    }
}
