// The turns in which a link is settled.
ghost use Rattle.std.specs.Prelude.{◌≡◌, ℕ, ◌∷◌, [], IfSome, List};
ghost use Rattle.vx_history.specs.Doubts.{Doubted};
ghost use Rattle.vx_history.specs.Settling.{greeting_events, is_stuck as is_stuck_at, turn as turn_events, turns as turns_events};
ghost use Rattle.vx_history.specs.declared.event.Event.TheVariants.{Pump as PumpAt, Tick as TickAt};
ghost use Rattle.vx_settling.specs.Turning.{applying_all, greeting_if, sending_again};
ghost use Rattle.vx_node.specs.Settling.{SettlesFor, WentFor};
ghost use Rattle.vx_yard.specs.Yards.{IsTold, in_files};

use crate::going::Went;
use crate::settle::{apply_step, connect_step, pump_step, tick_step};
use crate::settle_packets::{deliver_all, deliver_sent};
use std::alloc::Global;
use vx_disk::Rack;
use vx_linked::link_between;
use vx_model::Name;
use vx_net::Net;
use vx_yard::Yard;

/// What a link counts as stored at its receiver, and the last write that is durable at its site.
#[derive(Clone, Copy)]
pub(crate) struct Shown {
    pub stored: u64,
    pub head: u64,
}

// Whether a turn has brought nothing, and not all that is durable is stored.
fn is_stuck(before: u64, stored: u64, head: u64) -> bool
    ensures { result ≡ is_stuck_at before stored head }
{
    stored < head && stored <= before
}

/// How far a link has come. None where the site shows no link.
pub(crate) fn shown_of<R: Rack>(yard: &Yard<R>, here: u32, there: u32) -> Option<Shown>
    ensures { (d : Doubted) (first second : List ℕ) → SettlesFor first second here there d yard.now → IfSome result (λ s. (s.stored ≡ (d.world.links here there).stored) × (s.head ≡ (d.world.nodes here).safe)) }
{
    let site = here as usize;
    let Some(facts) = link_between(&yard.facts, site, there) else {
        return None;
    };
    if site >= yard.disk_sets.len() {
        return None;
    }
    Some(Shown {
        stored: facts.link.stored,
        head: yard.disk_sets[site].last(),
    })
}

// The receiver greets, which is delivered.
fn greet_anew<R: Rack>(
    yard: &mut Yard<R>,
    alloc: Global,
    first: &Name,
    second: &Name,
    here: u32,
    there: u32,
) -> Went
    ensures went { (d : Doubted) → SettlesFor first.now second.now here there d yard.old → WentFor first.now second.now here there d (greeting_events d.world here there) yard.old yard.new result }
    ensures told { IsTold yard.new → IsTold yard.old }
    ensures files { in_files yard.new ≡ in_files yard.old }
{
    let before = yard.flight.count();
    match connect_step(yard, first, second) {
        Went::On => deliver_sent(yard, alloc, first, second, here, there, before),
        other => other,
    }
}

// What was sent counts as lost, and what the receiver may lack is sent.
fn send_lost<R: Rack>(
    yard: &mut Yard<R>,
    alloc: Global,
    first: &Name,
    second: &Name,
    here: u32,
    there: u32,
) -> Went
    ensures went { (d : Doubted) → SettlesFor first.now second.now here there d yard.old → WentFor first.now second.now here there d (TickAt here there ∷ PumpAt here there ∷ []) yard.old yard.new result }
    ensures told { IsTold yard.new → IsTold yard.old }
    ensures files { in_files yard.new ≡ in_files yard.old }
{
    match tick_step(yard, first, second) {
        Went::On => pump_step(yard, alloc, first, second),
        other => other,
    }
}

// That is delivered.
fn send_again<R: Rack>(
    yard: &mut Yard<R>,
    alloc: Global,
    first: &Name,
    second: &Name,
    here: u32,
    there: u32,
) -> Went
    ensures went { (d : Doubted) → SettlesFor first.now second.now here there d yard.old → WentFor first.now second.now here there d (sending_again d.world here there) yard.old yard.new result }
    ensures told { IsTold yard.new → IsTold yard.old }
    ensures files { in_files yard.new ≡ in_files yard.old }
{
    let before = yard.flight.count();
    match send_lost(yard, alloc, first, second, here, there) {
        Went::On => deliver_all(yard, alloc, first, second, here, there, before),
        other => other,
    }
}

// What waits at the receiver is applied, which is acknowledged.
fn apply_all<R: Rack>(
    yard: &mut Yard<R>,
    alloc: Global,
    first: &Name,
    second: &Name,
    here: u32,
    there: u32,
) -> Went
    ensures went { (d : Doubted) → SettlesFor first.now second.now here there d yard.old → WentFor first.now second.now here there d (applying_all d.world here there) yard.old yard.new result }
    ensures told { IsTold yard.new → IsTold yard.old }
    ensures files { in_files yard.new ≡ in_files yard.old }
{
    let before = yard.flight.count();
    match apply_step(yard, alloc, first, second) {
        Went::On => deliver_all(yard, alloc, first, second, here, there, before),
        other => other,
    }
}

// The receiver greets where a turn has brought nothing, before which so much was stored.
fn greet_if<R: Rack>(
    yard: &mut Yard<R>,
    alloc: Global,
    first: &Name,
    second: &Name,
    here: u32,
    there: u32,
    before: u64,
) -> Went
    ensures went { (d : Doubted) → SettlesFor first.now second.now here there d yard.old → WentFor first.now second.now here there d (greeting_if before d.world here there) yard.old yard.new result }
    ensures told { IsTold yard.new → IsTold yard.old }
    ensures files { in_files yard.new ≡ in_files yard.old }
{
    let Some(shown) = shown_of(yard, here, there) else {
        return Went::Short;
    };
    if is_stuck(before, shown.stored, shown.head) {
        return greet_anew(yard, alloc, first, second, here, there);
    }
    Went::On
}

// What is sent again is delivered, and what waits applied, before which so much was stored.
fn turn_from<R: Rack>(
    yard: &mut Yard<R>,
    alloc: Global,
    first: &Name,
    second: &Name,
    here: u32,
    there: u32,
    before: u64,
) -> Went
    ensures went { (d : Doubted) → SettlesFor first.now second.now here there d yard.old → before ≡ (d.world.links here there).stored
        → WentFor first.now second.now here there d (turn_events d.world here there) yard.old yard.new result }
    ensures told { IsTold yard.new → IsTold yard.old }
    ensures files { in_files yard.new ≡ in_files yard.old }
{
    match send_again(yard, alloc, first, second, here, there) {
        Went::On => match apply_all(yard, alloc, first, second, here, there) {
            Went::On => greet_if(yard, alloc, first, second, here, there, before),
            other => other,
        },
        other => other,
    }
}

/// Turns until what is durable is stored, at most so many.
pub(crate) fn turns<R: Rack>(
    yard: &mut Yard<R>,
    alloc: Global,
    first: &Name,
    second: &Name,
    here: u32,
    there: u32,
    most: u64,
) -> Went
    ensures went { (d : Doubted) → SettlesFor first.now second.now here there d yard.old → WentFor first.now second.now here there d (turns_events most d.world here there) yard.old yard.new result }
    ensures told { IsTold yard.new → IsTold yard.old }
    ensures files { in_files yard.new ≡ in_files yard.old }
{
    for past in 0..most {
        let Some(shown) = shown_of(yard, here, there) else {
            return Went::Short;
        };
        if shown.head <= shown.stored {
            return Went::On;
        }
        match turn_from(yard, alloc, first, second, here, there, shown.stored) {
            Went::On => {}
            other => return other,
        }
    }
    Went::On
}
