// The calls that write a header of the log, and the reading of a logged write.
ghost use Rattle.std.specs.Prelude.{◌≡◌, ◌+◌, ◌<◌, ◌≤◌, ℕ, Some, None, Ok, Err, OnOk, OnErr, IfErr, IsSome, IsTrue, IsFalse};
ghost use Rattle.vx_disk.specs.Burns.{FallsShort, MakesCalls};
ghost use Rattle.vx_disk.specs.Causes.{BlamesUnit, OnDisks, Works};
ghost use Rattle.vx_disk.specs.Disks.{Untouched};
ghost use Rattle.vx_disk.specs.Moves.{Moves, Run};
ghost use Rattle.vx_disk.specs.Shelf.{Goes, Nothing};
ghost use Rattle.vx_model.specs.declared.no.No.TheVariants.{Halted};
ghost use Rattle.vx_disk.specs.Spends.{Spends};
ghost use Rattle.vx_rvg.specs.Saves.{reclaim_refusal, reclaimed, change_refusal, with_new_state, SaveIs};
ghost use Rattle.vx_rvg.specs.Holdings.{Holding};
ghost use Rattle.vx_rvg.specs.Stands.{GivesWrite, Stands, Saving, Retains};
ghost use Rattle.vx_rvg.specs.Views.{IsSound, last_of};
ghost use Rattle.vx_srl.specs.Calls.{AgreesWithFront, FetchCause, NamesBody};
ghost use Rattle.vx_srl.specs.Causes.{BlamesLog};
ghost use Rattle.vx_srlfmt.specs.Headers.{CanSpellState};

use crate::write::refused;
use crate::{Rvg, RvgCore};
use vx_disk::Shelf;
use vx_model::{No, State, Update};
use vx_srl::SrlNo;

// Gives up the records up to a number that is applied, durably. A device call that fails halts the group.
pub(crate) fn give_up<S: Shelf>(shelf: &mut S, core: &mut RvgCore, to: u64) -> Result<(), No>
    requires sound { IsSound core.old (S.meaning shelf.old) }
    requires applied { to ≤ core.old.applied }
    ensures answers { SaveIs (reclaim_refusal core.old to) core.old (reclaimed core.old to) (S.meaning shelf.old) (S.meaning shelf.new) core.new result }
    ensures unchanged { IsSome (reclaim_refusal core.old to) → shelf.new ≡ shelf.old }
    ensures nothing { to < core.old.log.header.low → shelf.new ≡ shelf.old }
    ensures sound { IsSound core.new (S.meaning shelf.new) }
    ensures stands { OnOk result (Retains core.old core.new (S.meaning shelf.old) (S.meaning shelf.new)) }
    ensures moves { Moves (Run core.old.units.srl 0 (core.old.log.ring + 2))
        (Saving core.old (reclaimed core.old to) (S.meaning shelf.old)) (S.meaning shelf.old) (S.meaning shelf.new) }
    ensures calls { OnOk result (core.old.log.header.low ≤ to → MakesCalls 2 (S.meaning shelf.old) (S.meaning shelf.new)) }
    ensures short { FallsShort 2 (S.meaning shelf.old) (S.meaning shelf.new) }
    ensures blames { IfErr result (BlamesUnit (S.meaning shelf.old).disks core.old.log.unit) }
    ensures spends { Spends (S.meaning shelf.old) (S.meaning shelf.new) }
{
    if let Some(disk) = core.halted {
        return Err(No::Halted { disk });
    }
    if to < core.srl.low() {
        return Ok(());
    }
    if let Err(why) = core.srl.reclaim(shelf, to) {
        let no = refused(why);
        core.halt(&no);
        return Err(no);
    }
    Ok(())
}

impl<S: Shelf> Rvg<S> {
    /// Gives up the records up to a number that is applied, durably, and their blocks are free from then on.
    ///
    /// Refusals: 20 where a call answered 7 before, 19 exactly where no stamp or number is left; these change nothing. 7 where a device
    /// call failed: then the group is halted. 6 where the shelf is down.
    pub fn reclaim(&mut self, to: u64) -> Result<(), No>
        requires applied { to ≤ self.old.core.applied }
        ensures answers { SaveIs (reclaim_refusal self.old.core to) self.old.core (reclaimed self.old.core to) (S.meaning self.old.shelf) (S.meaning self.new.shelf) self.new.core result }
        ensures unchanged { IsSome (reclaim_refusal self.old.core to) → self.new.shelf ≡ self.old.shelf }
        ensures nothing { to < self.old.core.log.header.low → self.new.shelf ≡ self.old.shelf }
        ensures stands { OnOk result (Retains self.old.core self.new.core (S.meaning self.old.shelf) (S.meaning self.new.shelf)) }
        ensures moves { Moves (Run self.old.core.units.srl 0 (self.old.core.log.ring + 2))
            (Saving self.old.core (reclaimed self.old.core to) (S.meaning self.old.shelf)) (S.meaning self.old.shelf) (S.meaning self.new.shelf) }
        ensures calls { OnOk result (self.old.core.log.header.low ≤ to → MakesCalls 2 (S.meaning self.old.shelf) (S.meaning self.new.shelf)) }
        ensures short { FallsShort 2 (S.meaning self.old.shelf) (S.meaning self.new.shelf) }
        ensures blames { IfErr result (BlamesUnit (S.meaning self.old.shelf).disks self.old.core.log.unit) }
        ensures spends { Spends (S.meaning self.old.shelf) (S.meaning self.new.shelf) }
    {
        give_up(&mut self.shelf, &mut self.core, to)
    }

    /// Makes a state durable that stands on the log's line.
    ///
    /// Refusals: 20 where a call answered 7 before, 19 exactly where no stamp is left; these change nothing. 7 where a device call
    /// failed: then the group is halted. 6 where the shelf is down.
    pub fn set_state(&mut self, state: &State) -> Result<(), No>
        requires state { CanSpellState state.now }
        requires line { state.now.line ≡ self.old.core.log.header.state.line }
        ensures answers { SaveIs (change_refusal self.old.core) self.old.core (with_new_state self.old.core state.now) (S.meaning self.old.shelf) (S.meaning self.new.shelf) self.new.core result }
        ensures unchanged { IsSome (change_refusal self.old.core) → self.new.shelf ≡ self.old.shelf }
        ensures stands { OnOk result (Retains self.old.core self.new.core (S.meaning self.old.shelf) (S.meaning self.new.shelf)) }
        ensures moves { Moves (Run self.old.core.units.srl 0 (self.old.core.log.ring + 2))
            (Saving self.old.core (with_new_state self.old.core state.now) (S.meaning self.old.shelf)) (S.meaning self.old.shelf) (S.meaning self.new.shelf) }
        ensures calls { OnOk result (MakesCalls 2 (S.meaning self.old.shelf) (S.meaning self.new.shelf)) }
        ensures short { FallsShort 2 (S.meaning self.old.shelf) (S.meaning self.new.shelf) }
        ensures blames { IfErr result (BlamesUnit (S.meaning self.old.shelf).disks self.old.core.log.unit) }
        ensures spends { Spends (S.meaning self.old.shelf) (S.meaning self.new.shelf) }
        ensures works { OnOk result (Works (S.meaning self.old.shelf).disks self.old.core.log.unit) }
    {
        if let Some(disk) = self.core.halted {
            return Err(No::Halted { disk });
        }
        // Numbers begin at 1.
        let _low = self.core.srl.low();
        if let Err(why) = self.core.srl.set_state(&mut self.shelf, state) {
            let no = refused(why);
            self.core.halt(&no);
            return Err(no);
        }
        Ok(())
    }

    /// The write under a number up to the head. It changes nothing.
    ///
    /// Refusals: 20 where a call answered 7 before; `Overrun` exactly where the log no longer holds the number; 7, 6, and 22 only where
    /// the digest of the record and the one computed of its blocks differ.
    pub fn fetch(&mut self, n: u64, into: &mut Update) -> Result<(), SrlNo>
        requires held { n ≤ last_of self.old.core }
        ensures halted { (disk : ℕ) → self.old.core.halted ≡ Some disk → (result ≡ Err (SrlNo.Other (Halted disk))) × (self.new.shelf ≡ self.old.shelf) }
        ensures overrun { self.old.core.halted ≡ None → n < self.old.core.log.header.low → (result ≡ Err (SrlNo.Overrun self.old.core.log.header.low)) × (self.new.shelf ≡ self.old.shelf) }
        ensures gives { OnOk result (GivesWrite self.old.core n (S.meaning self.old.shelf) into.new) }
        ensures agrees { OnOk result (AgreesWithFront self.old.core.log n into.new) }
        ensures up { OnOk result (IsTrue (S.meaning self.new.shelf).down → ⊥) }
        ensures cause { self.old.core.halted ≡ None → self.old.core.log.header.low ≤ n → IfErr result (λ why. FetchCause self.old.core.log (S.meaning self.old.shelf) (S.meaning self.new.shelf) why) }
        ensures names { self.old.core.halted ≡ None → self.old.core.log.header.low ≤ n → IfErr result (NamesBody self.old.core.log n (S.meaning self.old.shelf)) }
        ensures blames { IfErr result (BlamesLog (S.meaning self.old.shelf).disks self.old.core.log.unit) }
        ensures unchanged { OnErr result (into.new ≡ into.old) }
        ensures stands { (h : Holding) → Stands self.old.core h (S.meaning self.old.shelf) → IsFalse (S.meaning self.new.shelf).down → Stands self.new.core h (S.meaning self.new.shelf) }
        ensures core { self.new.core ≡ self.old.core }
        ensures goes { Goes Nothing (S.meaning self.old.shelf) (S.meaning self.new.shelf) }
        ensures down { (S.meaning self.new.shelf).down ≡ (S.meaning self.old.shelf).down }
        ensures disks { OnDisks (S.meaning self.old.shelf).disks (S.meaning self.new.shelf).disks Untouched }
        ensures spends { Spends (S.meaning self.old.shelf) (S.meaning self.new.shelf) }
        ensures works { OnOk result (Works (S.meaning self.old.shelf).disks self.old.core.log.unit) }
    {
        if let Some(disk) = self.core.halted {
            return Err(SrlNo::Other(No::Halted { disk }));
        }
        self.core.srl.fetch(&mut self.shelf, n, into)
    }
}
