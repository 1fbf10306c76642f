// The events of a line that settles a link, each as a line within it.
ghost use Rattle.std.specs.Prelude.{◌≡◌, ◌-◌, ℕ, length, IfSome, Some, None, true, [], ◌∷◌};
ghost use Rattle.vx_model.specs.declared.site.SiteState.TheVariants.{Up as UpState};
ghost use Rattle.vx_history.specs.Doubts.{Doubted};
ghost use Rattle.vx_history.specs.Events.{packet_at};
ghost use Rattle.vx_history.specs.Settling.{is_between};
ghost use Rattle.vx_history.specs.World.{Packet};
ghost use Rattle.vx_history.specs.declared.event.Event.TheVariants.{Apply as ApplyAt, Connect as ConnectAt, Deliver as DeliverAt, Pump as PumpAt, Tick as TickAt};
ghost use Rattle.vx_events.specs.Facts.{site_number};
ghost use Rattle.vx_settling.specs.Between.{IsSent};
ghost use Rattle.vx_node.specs.Settling.{SettlesFor, WentFor};
ghost use Rattle.vx_yard.specs.Standing.{StandsFor};
ghost use Rattle.vx_yard.specs.Working.{IsFree};
ghost use Rattle.vx_yard.specs.Yards.{IsYardKept, IsTold, in_files};

use crate::answering::refusal;
use crate::going::{Went, answered};
use std::alloc::Global;
use vx_disk::Rack;
use vx_link_lines::{apply_line, connect_line, deliver_line, pump_line, tick_line};
use vx_linked::find_seat;
use vx_model::Name;
use vx_script::ScriptLine;
use vx_yard::Yard;

// Whether the yard is whole, and no test refuses a line.
pub(crate) fn may<R: Rack>(yard: &Yard<R>, words: &ScriptLine) -> bool
    ensures kept { result ≡ true → IsYardKept yard.now }
    ensures free { result ≡ true → IsFree yard.now words.now }
{
    match refusal(yard, words) {
        Some(_) => false,
        None => yard.is_whole(),
    }
}

/// The link is connected.
pub(crate) fn connect_step<R: Rack>(yard: &mut Yard<R>, first: &Name, second: &Name) -> Went
    ensures went { (d : Doubted) (a b : ℕ) → SettlesFor first.now second.now a b d yard.old → WentFor first.now second.now a b d (ConnectAt a b ∷ []) yard.old yard.new result }
    ensures told { IsTold yard.new → IsTold yard.old }
    ensures files { in_files yard.new ≡ in_files yard.old }
{
    let words = ScriptLine::Connect {
        primary: *first,
        secondary: *second,
    };
    if !may(yard, &words) {
        return Went::Short;
    }
    answered(connect_line(yard, first, second))
}

/// What was sent on it counts as lost.
pub(crate) fn tick_step<R: Rack>(yard: &mut Yard<R>, first: &Name, second: &Name) -> Went
    ensures went { (d : Doubted) (a b : ℕ) → SettlesFor first.now second.now a b d yard.old → WentFor first.now second.now a b d (TickAt a b ∷ []) yard.old yard.new result }
    ensures told { IsTold yard.new → IsTold yard.old }
    ensures files { in_files yard.new ≡ in_files yard.old }
{
    let words = ScriptLine::Tick {
        primary: *first,
        secondary: *second,
    };
    if !may(yard, &words) {
        return Went::Short;
    }
    answered(Ok(tick_line(yard, first, second)))
}

/// What its receiver may lack is sent.
pub(crate) fn pump_step<R: Rack>(
    yard: &mut Yard<R>,
    alloc: Global,
    first: &Name,
    second: &Name,
) -> Went
    ensures went { (d : Doubted) (a b : ℕ) → SettlesFor first.now second.now a b d yard.old → WentFor first.now second.now a b d (PumpAt a b ∷ []) yard.old yard.new result }
    ensures told { IsTold yard.new → IsTold yard.old }
    ensures files { in_files yard.new ≡ in_files yard.old }
{
    let words = ScriptLine::Pump {
        primary: *first,
        secondary: *second,
    };
    if !may(yard, &words) {
        return Went::Short;
    }
    answered(pump_line(yard, alloc, first, second))
}

/// The packet of a number, which goes between the two sites as settling has it, is handed to its target.
pub(crate) fn deliver_step<R: Rack>(
    yard: &mut Yard<R>,
    alloc: Global,
    first: &Name,
    second: &Name,
    number: u64,
) -> Went
    ensures went { (d : Doubted) (a b : ℕ) (q : Packet) → SettlesFor first.now second.now a b d yard.old → packet_at d.world.packets number ≡ Some q → IsSent a b q → is_between a b q ≡ true
        → WentFor first.now second.now a b d (DeliverAt number ∷ []) yard.old yard.new result }
    ensures told { IsTold yard.new → IsTold yard.old }
    ensures files { in_files yard.new ≡ in_files yard.old }
{
    let words = ScriptLine::Deliver { packet: number };
    if !may(yard, &words) {
        return Went::Short;
    }
    answered(deliver_line(yard, alloc, number))
}

/// All that waits at the receiver is applied, which is acknowledged.
pub(crate) fn apply_step<R: Rack>(
    yard: &mut Yard<R>,
    alloc: Global,
    first: &Name,
    second: &Name,
) -> Went
    ensures went { (d : Doubted) (a b : ℕ) → SettlesFor first.now second.now a b d yard.old
        → WentFor first.now second.now a b d (ApplyAt b (length (d.world.nodes b).log - (d.world.nodes b).safe) 0 ∷ []) yard.old yard.new result }
    ensures told { IsTold yard.new → IsTold yard.old }
    ensures files { in_files yard.new ≡ in_files yard.old }
{
    let Some(count) = waits_at(yard, second) else {
        return Went::Short;
    };
    let words = ScriptLine::Apply {
        site: *second,
        count,
    };
    if !may(yard, &words) {
        return Went::Short;
    }
    answered(apply_line(yard, alloc, second, count))
}

// How many updates wait at a site. None where there is no such site.
fn waits_at<R: Rack>(yard: &Yard<R>, name: &Name) -> Option<u64>
    ensures { (d : Doubted) → StandsFor d yard.now → IfSome result (λ count. (s : ℕ) → site_number d.world name.now ≡ s → (d.world.nodes s).state ≡ UpState → (d.world.nodes s).halted ≡ None
        → count ≡ length (d.world.nodes s).log - (d.world.nodes s).safe) }
{
    let Some(site) = find_seat(&yard.facts, name) else {
        return None;
    };
    if site >= yard.disk_sets.len() {
        return None;
    }
    Some(u64::from(yard.disk_sets[site].waiting()))
}
