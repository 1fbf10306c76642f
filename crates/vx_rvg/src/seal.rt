// The sealing of what is staged: it becomes part of the log, durably.
ghost use Rattle.std.specs.Prelude.{◌≡◌, ◌+◌, ◌<◌, ℕ, List, [], length, IsSome, IsTrue, IfErr, OnOk};
ghost use Rattle.vx_dcm.specs.Places.{IsPlaceOfSlots, SlotsMarked};
ghost use Rattle.vx_disk.specs.Burns.{FallsShort, MakesCalls};
ghost use Rattle.vx_disk.specs.Moves.{Moves, Run};
ghost use Rattle.vx_model.specs.Content.{Write};
ghost use Rattle.vx_disk.specs.Spends.{Spends};
ghost use Rattle.vx_rvg.specs.Commits.{Committing, HasStaged, SealIs, Seals, seal_refusal, with_sealed};
ghost use Rattle.vx_rvg.specs.Holdings.{Holding, with_writes};
ghost use Rattle.vx_rvg.specs.StagedMarks.{MarkedCommitting};
ghost use Rattle.vx_rvg.specs.Stands.{Stands};
ghost use Rattle.vx_rvg.specs.Views.{IsSoundWith};
ghost use Rattle.vx_disk.specs.Causes.{BlamesUnit};

use crate::write::refused;
use crate::{RvgCore, Staging};
use vx_disk::Shelf;
use vx_model::No;

/// Makes what is staged part of the log. A device call that fails halts the group.
pub(crate) fn seal_records<S: Shelf>(shelf: &mut S, core: &mut RvgCore) -> Result<u64, No>
    requires sound { IsSoundWith core.old.log.staged core.old (S.meaning shelf.old) }
    requires some { 0 < core.old.log.header.low }
    requires up { IsTrue (S.meaning shelf.old).down → ⊥ }
    ensures answers { Seals core.old (S.meaning shelf.old) (S.meaning shelf.new) core.new result }
    ensures nothing { core.old.log.staged ≡ [] → (core.new ≡ core.old) × (shelf.new ≡ shelf.old) }
    ensures sound { IsSoundWith core.new.log.staged core.new (S.meaning shelf.new) }
    ensures stands { OnOk result ((xs : List Write) (h : Holding) → HasStaged xs core.old h (S.meaning shelf.old)
        → Stands core.new (with_writes xs h) (S.meaning shelf.new)) }
    ensures moves { Moves (Run core.old.units.srl 0 (core.old.log.ring + 2)) (Committing core.old (S.meaning shelf.old)) (S.meaning shelf.old) (S.meaning shelf.new) }
    ensures calls { OnOk result (0 < length core.old.log.staged → MakesCalls (length core.old.log.staged + 2) (S.meaning shelf.old) (S.meaning shelf.new)) }
    ensures short { FallsShort (length core.old.log.staged + 2) (S.meaning shelf.old) (S.meaning shelf.new) }
    ensures blames { IfErr result (BlamesUnit (S.meaning shelf.old).disks core.old.log.unit) }
    ensures spends { Spends (S.meaning shelf.old) (S.meaning shelf.new) }
{
    match core.srl.seal(shelf) {
        Ok(number) => Ok(number),
        Err(why) => {
            let no = refused(why);
            core.halt(&no);
            Err(no)
        }
    }
}

/// The same, where no call answered 7 before and the shelf is up.
fn seal_up<S: Shelf>(shelf: &mut S, core: &mut RvgCore) -> Result<u64, No>
    requires sound { IsSoundWith core.old.log.staged core.old (S.meaning shelf.old) }
    ensures answers { SealIs (seal_refusal core.old (S.meaning shelf.old)) core.old (S.meaning shelf.old) (S.meaning shelf.new) core.new result }
    ensures unchanged { IsSome (seal_refusal core.old (S.meaning shelf.old)) → shelf.new ≡ shelf.old }
    ensures nothing { core.old.log.staged ≡ [] → (core.new ≡ core.old) × (shelf.new ≡ shelf.old) }
    ensures sound { IsSoundWith core.new.log.staged core.new (S.meaning shelf.new) }
    ensures idle { OnOk result (core.new ≡ with_sealed core.old) }
    ensures stands { OnOk result ((xs : List Write) (h : Holding) → HasStaged xs core.old h (S.meaning shelf.old)
        → Stands core.new (with_writes xs h) (S.meaning shelf.new)) }
    ensures moves { Moves (Run core.old.units.srl 0 (core.old.log.ring + 2)) (Committing core.old (S.meaning shelf.old)) (S.meaning shelf.old) (S.meaning shelf.new) }
    ensures calls { OnOk result (0 < length core.old.log.staged → MakesCalls (length core.old.log.staged + 2) (S.meaning shelf.old) (S.meaning shelf.new)) }
    ensures short { FallsShort (length core.old.log.staged + 2) (S.meaning shelf.old) (S.meaning shelf.new) }
    ensures blames { IfErr result (BlamesUnit (S.meaning shelf.old).disks core.old.log.unit) }
    ensures spends { Spends (S.meaning shelf.old) (S.meaning shelf.new) }
{
    if let Some(disk) = core.halted {
        return Err(No::Halted { disk });
    }
    if shelf.is_down() {
        return Err(No::Down);
    }
    // Numbers begin at 1.
    let _low = core.srl.low();
    seal_records(shelf, core)
}

impl<S: Shelf> Staging<S> {
    /// Makes what is staged part of the log, durably, in the order in which it was staged. Answers the number of the last write of the
    /// log. It is a flush, a write for each header, and a flush; where nothing is staged it makes no call on the shelf. Whatever first part
    /// of it a crash leaves in the log, the regions that were marked before are marked.
    ///
    /// Refusals, in this order: 20 where a call answered 7 before, 6 where the shelf is down; these change nothing. 7 where a device
    /// call failed, and 6 where the shelf fell: then a start finds the log with a first part of what was staged, and behind a 7 the
    /// group is halted.
    pub fn seal(&mut self) -> Result<u64, No>
        ensures answers { SealIs (seal_refusal self.old.core (S.meaning self.old.shelf)) self.old.core (S.meaning self.old.shelf) (S.meaning self.new.shelf) self.new.core result }
        ensures unchanged { IsSome (seal_refusal self.old.core (S.meaning self.old.shelf)) → self.new.shelf ≡ self.old.shelf }
        ensures nothing { self.old.core.log.staged ≡ [] → (self.new.core ≡ self.old.core) × (self.new.shelf ≡ self.old.shelf) }
        ensures idle { OnOk result (self.new.core.log.staged ≡ []) }
        ensures stands { OnOk result ((xs : List Write) (h : Holding) → HasStaged xs self.old.core h (S.meaning self.old.shelf)
            → Stands self.new.core (with_writes xs h) (S.meaning self.new.shelf)) }
        ensures moves { Moves (Run self.old.core.units.srl 0 (self.old.core.log.ring + 2)) (Committing self.old.core (S.meaning self.old.shelf)) (S.meaning self.old.shelf) (S.meaning self.new.shelf) }
        ensures marked { (marks vol first last : ℕ) → SlotsMarked marks vol first last self.old.core.maps
            → Moves (Run self.old.core.units.srl 0 (self.old.core.log.ring + 2))
            (MarkedCommitting self.old.core (IsPlaceOfSlots self.old.core.maps marks vol first last) (S.meaning self.old.shelf)) (S.meaning self.old.shelf) (S.meaning self.new.shelf) }
        ensures calls { OnOk result (0 < length self.old.core.log.staged → MakesCalls (length self.old.core.log.staged + 2) (S.meaning self.old.shelf) (S.meaning self.new.shelf)) }
        ensures short { FallsShort (length self.old.core.log.staged + 2) (S.meaning self.old.shelf) (S.meaning self.new.shelf) }
        ensures blames { IfErr result (BlamesUnit (S.meaning self.old.shelf).disks self.old.core.log.unit) }
        ensures spends { Spends (S.meaning self.old.shelf) (S.meaning self.new.shelf) }
    {
        match seal_up(&mut self.shelf, &mut self.core) {
            Ok(number) => {
                self.waiting = self.core.waiting();
                Ok(number)
            }
            Err(no) => Err(no),
        }
    }
}
