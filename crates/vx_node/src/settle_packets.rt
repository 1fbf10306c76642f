// The packets of a link that is settled, delivered in their order.
ghost use Rattle.std.specs.Prelude.{◌≡◌, ◌==◌, ◌&&◌, ◌<◌, ◌≤◌, ℕ, IfSome, Some, drop, length};
ghost use Rattle.vx_courier.specs.UnderWay.{part_carried};
ghost use Rattle.vx_history.specs.Doubts.{Doubted};
ghost use Rattle.vx_history.specs.Settling.{deliver_between, delivery};
ghost use Rattle.vx_history.specs.World.{World};
ghost use Rattle.vx_node.specs.Handing.{handing_over, way_by};
ghost use Rattle.vx_node.specs.Settling.{SettlesFor, WentFor};
ghost use Rattle.vx_yard.specs.Yards.{IsTold, in_files};

use crate::going::Went;
use crate::settle::deliver_step;
use std::alloc::Global;
use vx_courier::part_at;
use vx_disk::Rack;
use vx_model::Name;
use vx_net::Net;
use vx_packet::Part;
use vx_yard::Yard;

// The kind of the packets that carry an update.
const UPDATE: u8 = 2;

// Whether a packet goes between two sites as settling has it: from the first an update, from the second what is none. None where it goes otherwise.
fn way(forth: bool, back: bool, update: bool) -> Option<bool>
    ensures { result ≡ way_by forth back update }
{
    if forth {
        return if update { Some(true) } else { None };
    }
    if back {
        return if update { None } else { Some(true) };
    }
    Some(false)
}

fn way_of(part: &Part, here: u32, there: u32) -> Option<bool>
    ensures { result ≡ way_by ((part.now.source == here) && (part.now.target == there)) ((part.now.source == there) && (part.now.target == here)) (part.now.kind == 2) }
{
    let forth = part.source == here && part.target == there;
    let back = part.source == there && part.target == here;
    way(forth, back, part.kind == UPDATE)
}

// The packet behind so many, delivered where it goes between the two sites. One that the network has let go, or that settling does not send, ends it as
// want of memory does.
fn hand_next<R: Rack>(
    yard: &mut Yard<R>,
    alloc: Global,
    first: &Name,
    second: &Name,
    here: u32,
    there: u32,
    past: u64,
) -> Went
    requires small { past < 0xffff_ffff_ffff_ffff }
    ensures went { (d : Doubted) → SettlesFor first.now second.now here there d yard.old → past < length d.world.packets → WentFor first.now second.now here there d (handing_over here there past d.world.packets) yard.old yard.new result }
    ensures told { IsTold yard.new → IsTold yard.old }
    ensures files { in_files yard.new ≡ in_files yard.old }
{
    let Some(part) = part_at(&yard.flight, past + 1) else {
        return Went::Short;
    };
    let Some(goes) = way_of(&part, here, there) else {
        return Went::Short;
    };
    if !goes {
        return Went::On;
    }
    deliver_step(yard, alloc, first, second, past + 1)
}

/// The packets behind so many that go between the two sites.
pub(crate) fn deliver_sent<R: Rack>(
    yard: &mut Yard<R>,
    alloc: Global,
    first: &Name,
    second: &Name,
    here: u32,
    there: u32,
    before: u64,
) -> Went
    ensures went { (d : Doubted) → SettlesFor first.now second.now here there d yard.old → before ≤ length d.world.packets
        → WentFor first.now second.now here there d (deliver_between here there before (drop before d.world.packets)) yard.old yard.new result }
    ensures told { IsTold yard.new → IsTold yard.old }
    ensures files { in_files yard.new ≡ in_files yard.old }
{
    let end = yard.flight.count();
    if end < before {
        return Went::Short;
    }
    for done in 0..end - before {
        match hand_next(yard, alloc, first, second, here, there, before + done) {
            Went::On => {}
            other => return other,
        }
    }
    Went::On
}

/// Those behind so many, and then what was sent in answer to them.
pub(crate) fn deliver_all<R: Rack>(
    yard: &mut Yard<R>,
    alloc: Global,
    first: &Name,
    second: &Name,
    here: u32,
    there: u32,
    before: u64,
) -> Went
    ensures went { (d : Doubted) (w : World) → SettlesFor first.now second.now here there d yard.old → length w.packets ≡ before → before ≤ length d.world.packets
        → WentFor first.now second.now here there d (delivery here there w d.world) yard.old yard.new result }
    ensures told { IsTold yard.new → IsTold yard.old }
    ensures files { in_files yard.new ≡ in_files yard.old }
{
    let sent = yard.flight.count();
    match deliver_sent(yard, alloc, first, second, here, there, before) {
        Went::On => deliver_sent(yard, alloc, first, second, here, there, sent),
        other => other,
    }
}
