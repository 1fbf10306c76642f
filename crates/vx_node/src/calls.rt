// The call that answers a line.
ghost use Rattle.std.specs.Prelude.{◌≡◌, ◌≤◌, ℕ, List, IsSome, false, true};
ghost use Rattle.vx_stream.specs.Causes.{StreamRose};
ghost use Rattle.vx_history.specs.Doubts.{Doubted};
ghost use Rattle.vx_events.specs.RvgLinks.{links_rvg};
ghost use Rattle.vx_events.specs.RvgSteps.{is_for_rvg};
ghost use Rattle.vx_yard.specs.OfSites.{AsAsked, AsSettled};
ghost use Rattle.vx_yard.specs.Lines.{is_built};
ghost use Rattle.vx_yard.specs.Standing.{LineFor, Serves, StepsFor};
ghost use Rattle.vx_yard.specs.Working.{IsFree, TakesNoMemory, refused_in};
ghost use Rattle.vx_yard.specs.Yards.{IsYardKept, IsTold, in_files};

use crate::answering::answer;
use crate::closing::ends_run;
use crate::sent::{replied, sent_since};
use std::alloc::Global;
use vx_disk::Rack;
use vx_net::Net;
use vx_script::ScriptLine;
use vx_stream::{Sink, send};
use vx_yard::{LineStop, Yard};

/// Answers a line of a kind that is built, and writes its reply. The run ends at one that is open, and that no test refuses.
pub fn answer_line<O: Sink, R: Rack>(
    yard: &mut Yard<R>,
    alloc: Global,
    words: &ScriptLine,
    out: &mut O,
) -> Result<(), LineStop>
    requires built { is_built words.now ≡ true }
    requires kept { IsYardKept yard.old }
    ensures line { (d : Doubted) → Serves d yard.old → LineFor d words.now yard.old yard.new (O.written out.old) (O.written out.new) result }
    // One that takes no memory, or is refused, is done whatever is answered, but where the run ends at it: memory may be short for its text alone.
    ensures done { (d : Doubted) → Serves d yard.old → TakesNoMemory yard.old words.now → (result ≡ Err LineStop.Open → ⊥) → (text : List ℕ) × StepsFor d words.now yard.old yard.new text }
    // What the line asks of the rack of its site, where no replicated volume group is over a group of it: a disk, a number of calls or a pick.
    ensures asked { (d : Doubted) → Serves d yard.old → IsFree yard.old words.now → is_for_rvg d.world words.now ≡ false → links_rvg d.world words.now ≡ false → AsAsked d.world words.now yard.old yard.new }
    // One that settles a link asks no disk of any site to fail or to work.
    ensures settled { (d : Doubted) → Serves d yard.old → IsFree yard.old words.now → AsSettled words.now yard.old yard.new }
    // A line that is refused leaves all disks as they are.
    ensures still { IsSome (refused_in yard.old words.now) → yard.new.disk_sets ≡ yard.old.disk_sets }
    ensures told { IsTold yard.new → IsTold yard.old }
    ensures files { in_files yard.new ≡ in_files yard.old }
    ensures later { O.faults out.old ≤ O.faults out.new }
    ensures cause { result ≡ Err LineStop.WriteFault → StreamRose (O.faults out.old) (O.faults out.new) }
{
    if ends_run(yard, words) {
        return Err(LineStop::Open);
    }
    let before = yard.flight.count();
    let Ok(said) = answer(yard, alloc, words) else {
        return Err(LineStop::OutOfMemory);
    };
    let Ok(text) = replied(alloc, &said, sent_since(before, yard.flight.count())) else {
        return Err(LineStop::OutOfMemory);
    };
    match send(out, &text) {
        Ok(()) => Ok(()),
        Err(_) => Err(LineStop::WriteFault),
    }
}
