// The line that settles a link.
ghost use Rattle.std.specs.Prelude.{◌≡◌, ◌≤◌, ℕ, IfOk, IfSome, List, Some, length, true};
ghost use Rattle.vx_history.specs.Doubts.{Doubted};
ghost use Rattle.vx_script.specs.declared.line.ScriptLine.TheVariants.{Settle};
ghost use Rattle.vx_events.specs.Facts.{seat_of};
ghost use Rattle.vx_yard.specs.Carries.{Carries};
ghost use Rattle.vx_yard.specs.BothSites.{BothSites, SettleBurns};
ghost use Rattle.vx_yard.specs.OfSites.{AllSameFailing, HasCalled};
ghost use Rattle.vx_node.specs.Settling.{SettlesFor, WentFor, end_by, ended_as, settled_on};
ghost use Rattle.vx_yard.specs.Standing.{GoodFor, LeadsOrStops, StandsFor};
ghost use Rattle.vx_yard.specs.Working.{IsFree};
ghost use Rattle.vx_yard.specs.Yards.{IsYardKept, IsTold, in_files};

use crate::going::Went;
use crate::settle::may;
use crate::settle_packets::deliver_sent;
use crate::settle_turns::{shown_of, turns};
use std::alloc::Global;
use vx_disk::Rack;
use vx_events::Said;
use vx_link_lines::connect_line;
use vx_linked::find_seat;
use vx_model::limits::MOST_SITES;
use vx_model::{Name, OutOfMemory};
use vx_net::Net;
use vx_script::ScriptLine;
use vx_yard::Yard;

// What the line is answered, by how its parts went, and by whether all is stored up to the last number there was.
fn end_of(went: Went, settled: bool, head: u64) -> Result<Said, OutOfMemory>
    ensures { ended_as result ≡ end_by went settled head }
{
    match went {
        Went::Ended(no) => Ok(Said::Refused(no)),
        Went::Short => Err(OutOfMemory),
        Went::On => {
            if settled {
                Ok(Said::Settled(head))
            } else {
                Err(OutOfMemory)
            }
        }
    }
}

// The number of the site of a name. None where there is none.
fn number_of<R: Rack>(yard: &Yard<R>, name: &Name) -> Option<u32>
    ensures { IfSome result (λ site. seat_of yard.now.facts.items name.now ≡ Some site) }
{
    let Some(site) = find_seat(&yard.facts, name) else {
        return None;
    };
    if site >= MOST_SITES {
        return None;
    }
    Some(site as u32)
}

// Whether a link counts as stored all up to a number.
fn is_settled<R: Rack>(yard: &Yard<R>, here: u32, there: u32, head: u64) -> bool
    ensures { result ≡ true → (d : Doubted) (first second : List ℕ) → SettlesFor first second here there d yard.now → head ≤ (d.world.links here there).stored }
{
    let Some(shown) = shown_of(yard, here, there) else {
        return false;
    };
    head <= shown.stored
}

// What follows on the greeting of the receiver: it is delivered, and turns follow.
fn settle_on<R: Rack>(
    yard: &mut Yard<R>,
    alloc: Global,
    first: &Name,
    second: &Name,
    here: u32,
    there: u32,
    before: u64,
    head: u64,
) -> Went
    ensures went { (d : Doubted) → SettlesFor first.now second.now here there d yard.old → before ≤ length d.world.packets
        → WentFor first.now second.now here there d (settled_on here there before head d.world) yard.old yard.new result }
    ensures told { IsTold yard.new → IsTold yard.old }
    ensures files { in_files yard.new ≡ in_files yard.old }
{
    match deliver_sent(yard, alloc, first, second, here, there, before) {
        Went::On => turns(yard, alloc, first, second, here, there, head),
        other => other,
    }
}

// The link is connected, and what follows on that is done.
fn settle_begun<R: Rack>(
    yard: &mut Yard<R>,
    alloc: Global,
    first: &Name,
    second: &Name,
    here: u32,
    there: u32,
) -> Result<Said, OutOfMemory>
    ensures leads { (d : Doubted) → StandsFor d yard.old → Carries d yard.old → SettlesFor first.now second.now here there d yard.old
        → LeadsOrStops d (Settle first.now second.now) yard.old yard.new result }
    ensures asked { (d : Doubted) → SettlesFor first.now second.now here there d yard.old → AllSameFailing yard.old yard.new }
    ensures called { (d : Doubted) → StandsFor d yard.old → Carries d yard.old → SettlesFor first.now second.now here there d yard.old → IfOk result (λ said. BothSites (SettleBurns said) here there yard.old yard.new) }
    ensures told { IsTold yard.new → IsTold yard.old }
    ensures files { in_files yard.new ≡ in_files yard.old }
{
    let words = ScriptLine::Connect {
        primary: *first,
        secondary: *second,
    };
    if !may(yard, &words) {
        return Err(OutOfMemory);
    }
    let Some(shown) = shown_of(yard, here, there) else {
        return Err(OutOfMemory);
    };
    let before = yard.flight.count();
    match connect_line(yard, first, second) {
        Err(why) => Err(why),
        Ok(_said) => {
            let head = shown.head;
            let went = settle_on(yard, alloc, first, second, here, there, before, head);
            let settled = is_settled(yard, here, there, head);
            end_of(went, settled, head)
        }
    }
}

/// Brings the second site up to the last number of the first one: the link is connected, so that the receiver greets, and turns follow until all
/// that is durable is stored.
pub(crate) fn settle_line<R: Rack>(
    yard: &mut Yard<R>,
    alloc: Global,
    first: &Name,
    second: &Name,
) -> Result<Said, OutOfMemory>
    requires kept { IsYardKept yard.old }
    requires free { IsFree yard.old (Settle first.now second.now) }
    ensures leads { (d : Doubted) → StandsFor d yard.old → Carries d yard.old → GoodFor d yard.old → LeadsOrStops d (Settle first.now second.now) yard.old yard.new result }
    ensures asked { (d : Doubted) → StandsFor d yard.old → Carries d yard.old → GoodFor d yard.old → AllSameFailing yard.old yard.new }
    ensures called { (d : Doubted) → StandsFor d yard.old → Carries d yard.old → GoodFor d yard.old → IfOk result (λ said. HasCalled d.world (Settle first.now second.now) said yard.old yard.new) }
    ensures told { IsTold yard.new → IsTold yard.old }
    ensures files { in_files yard.new ≡ in_files yard.old }
{
    let Some(here) = number_of(yard, first) else {
        return Err(OutOfMemory);
    };
    let Some(there) = number_of(yard, second) else {
        return Err(OutOfMemory);
    };
    settle_begun(yard, alloc, first, second, here, there)
}
