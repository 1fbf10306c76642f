// The change of the state, and the emptying of the log.
ghost use Rattle.std.specs.Prelude.{◌≡◌, ◌+◌, ◌<◌, ◌≤◌, ℕ, Some, None, Ok, Err, IfErr, OnOk, IsSome, true};
ghost use Rattle.vx_disk.specs.Burns.{FallsShort, MakesCalls};
ghost use Rattle.vx_disk.specs.Causes.{BlamesUnit, Works};
ghost use Rattle.vx_disk.specs.Moves.{Moves, Run, Union};
ghost use Rattle.vx_disk.specs.Spends.{Spends};
ghost use Rattle.vx_rvg.specs.Groups.{GroupFails};
ghost use Rattle.vx_rvg.specs.Saves.{restart_refusal, with_restart, Empties, RestartIs, refusal_of_change, core_changed, AppliesNone, ChangeIs, change_blocks};
ghost use Rattle.vx_rvg.specs.Stands.{Saving, Retains};
ghost use Rattle.vx_rvg.specs.Views.{IsSound, Waits, last_of};
ghost use Rattle.vx_srl.specs.Calls.{can_restart};
ghost use Rattle.vx_srl.specs.Views.{most_number};
ghost use Rattle.vx_srlfmt.specs.Headers.{CanSpellState};

use crate::apply::apply_to;
use crate::write::refused;
use crate::{Rvg, RvgCore};
use vx_disk::Shelf;
use vx_model::limits::MOST_NUMBER;
use vx_model::{Counted, No, State};

// Empties the log, all of whose writes are in the volumes.
fn empty<S: Shelf>(shelf: &mut S, core: &mut RvgCore, state: &State, head: u64) -> Result<(), No>
    requires sound { IsSound core.old (S.meaning shelf.old) }
    requires state { CanSpellState state.now }
    requires number { head ≤ most_number }
    requires all { last_of core.old ≤ core.old.applied }
    requires can { can_restart core.old.log head ≡ true }
    ensures answers { Empties core.old (with_restart core.old state.now head) (S.meaning shelf.old) (S.meaning shelf.new) core.new result }
    ensures sound { IsSound core.new (S.meaning shelf.new) }
    ensures stands { OnOk result (Retains core.old core.new (S.meaning shelf.old) (S.meaning shelf.new)) }
    ensures moves { Moves (Run core.old.units.srl 0 (core.old.log.ring + 2)) (Saving core.old (with_restart core.old state.now head) (S.meaning shelf.old)) (S.meaning shelf.old) (S.meaning shelf.new) }
    ensures calls { OnOk result (MakesCalls 2 (S.meaning shelf.old) (S.meaning shelf.new)) }
    ensures short { FallsShort 2 (S.meaning shelf.old) (S.meaning shelf.new) }
    ensures blames { IfErr result (BlamesUnit (S.meaning shelf.old).disks core.old.log.unit) }
    ensures spends { Spends (S.meaning shelf.old) (S.meaning shelf.new) }
    ensures works { OnOk result (Works (S.meaning shelf.old).disks core.old.log.unit) }
{
    // Numbers begin at 1.
    let _low = core.srl.low();
    match core.srl.restart(shelf, state, head) {
        Ok(()) => {
            core.applied = head;
            Ok(())
        }
        Err(why) => {
            let no = refused(why);
            core.halt(&no);
            Err(no)
        }
    }
}

// Brings all writes into their volumes, and empties the log behind a record of this number.
fn restart<S: Shelf>(shelf: &mut S, core: &mut RvgCore, state: &State, head: u64) -> Result<(), No>
    requires sound { IsSound core.old (S.meaning shelf.old) }
    requires state { CanSpellState state.now }
    requires number { head ≤ most_number }
    ensures answers { RestartIs (restart_refusal core.old head) core.old (with_restart core.old state.now head) (S.meaning shelf.old) (S.meaning shelf.new) core.new result }
    ensures unchanged { IsSome (restart_refusal core.old head) → shelf.new ≡ shelf.old }
    ensures sound { IsSound core.new (S.meaning shelf.new) }
    ensures stands { OnOk result (Retains core.old core.new (S.meaning shelf.old) (S.meaning shelf.new)) }
    ensures moves { Moves (Union (Waits core.old (S.meaning shelf.old)) (Run core.old.units.srl 0 (core.old.log.ring + 2)))
        (Saving core.old (with_restart core.old state.now head) (S.meaning shelf.old)) (S.meaning shelf.old) (S.meaning shelf.new) }
    ensures calls { OnOk result (last_of core.old ≤ core.old.applied → MakesCalls 2 (S.meaning shelf.old) (S.meaning shelf.new)) }
    ensures short { last_of core.old ≤ core.old.applied → FallsShort 2 (S.meaning shelf.old) (S.meaning shelf.new) }
    ensures blames { last_of core.old ≤ core.old.applied → IfErr result (BlamesUnit (S.meaning shelf.old).disks core.old.log.unit) }
    ensures spends { Spends (S.meaning shelf.old) (S.meaning shelf.new) }
    ensures works { OnOk result (Works (S.meaning shelf.old).disks core.old.log.unit) }
{
    if let Some(disk) = core.halted {
        return Err(No::Halted { disk });
    }
    if !core.srl.can_restart(head) {
        return Err(No::Limit {
            what: Counted::Number,
            most: MOST_NUMBER,
        });
    }
    let last = core.srl.head();
    match apply_to(shelf, core, last) {
        Ok(_) => empty(shelf, core, state, head),
        Err(no) => Err(no),
    }
}

impl<S: Shelf> Rvg<S> {
    /// Makes a state durable. Without a number it stands on the log's line. With one the logged writes are brought into their volumes
    /// first, and the same header empties the log behind a record of this number: a log whose line changes is emptied.
    ///
    /// It keeps the content. Refusals: 20 where a call answered 7 before, 19 exactly where no stamp, run or number is left; these change
    /// nothing. 7 where a device call failed: then a start finds the state and the log from before the call or those behind it, and the
    /// group is halted. 6 where the shelf is down.
    pub fn change(&mut self, state: &State, restart: Option<u64>) -> Result<(), No>
        requires state { CanSpellState state.now }
        requires line { restart ≡ None → state.now.line ≡ self.old.core.log.header.state.line }
        requires number { (head : ℕ) → restart ≡ Some head → head ≤ most_number }
        ensures answers { ChangeIs restart self.old.core state.now (S.meaning self.old.shelf) (S.meaning self.new.shelf) self.new.core result }
        ensures unchanged { IsSome (refusal_of_change self.old.core restart) → self.new.shelf ≡ self.old.shelf }
        ensures stands { OnOk result (Retains self.old.core self.new.core (S.meaning self.old.shelf) (S.meaning self.new.shelf)) }
        ensures moves { Moves (change_blocks restart self.old.core (S.meaning self.old.shelf))
            (Saving self.old.core (core_changed self.old.core state.now restart) (S.meaning self.old.shelf)) (S.meaning self.old.shelf) (S.meaning self.new.shelf) }
        ensures calls { OnOk result (AppliesNone restart self.old.core → MakesCalls 2 (S.meaning self.old.shelf) (S.meaning self.new.shelf)) }
        ensures short { AppliesNone restart self.old.core → FallsShort 2 (S.meaning self.old.shelf) (S.meaning self.new.shelf) }
        ensures blames { AppliesNone restart self.old.core → IfErr result (BlamesUnit (S.meaning self.old.shelf).disks self.old.core.log.unit) }
        ensures spends { Spends (S.meaning self.old.shelf) (S.meaning self.new.shelf) }
        ensures works { OnOk result (Works (S.meaning self.old.shelf).disks self.old.core.log.unit) }
    {
        match restart {
            None => self.set_state(state),
            Some(head) => crate::change::restart(&mut self.shelf, &mut self.core, state, head),
        }
    }
}
