// What waits at a site that receives is applied, and acknowledged to the site that feeds it.
ghost use Rattle.std.specs.Prelude.{◌≡◌, ◌++◌, ◌<◌, ◌≤◌, ℕ, List, IfOk, IfSome, Some, false, true};
ghost use Rattle.vx_courier.specs.UnderWay.{FlightStands};
ghost use Rattle.vx_diskset.specs.Holds.{KeptBeside};
ghost use Rattle.vx_diskset.specs.Stands.{SiteStands};
ghost use Rattle.vx_events.specs.Facts.{seat_of};
ghost use Rattle.vx_events.specs.GroupLines.{is_over_group};
ghost use Rattle.vx_events.specs.RvgSteps.{is_for_rvg};
ghost use Rattle.vx_history.specs.Doubts.{Doubted};
ghost use Rattle.vx_history.specs.Sends.{packets_of};
ghost use Rattle.vx_history.specs.World.{DataAck as AcksFromDisk, Node, Packet};
ghost use Rattle.vx_model.specs.Sites.{is_origin};
ghost use Rattle.vx_model.specs.declared.limits.TheConstants.{MOST_NUMBER as MOST};
ghost use Rattle.vx_model.specs.declared.site.SiteState.TheVariants.{Up};
ghost use Rattle.vx_net.specs.Flights.{greatest_packet};
ghost use Rattle.vx_packet.specs.Messages.{IsCounted};
ghost use Rattle.vx_script.specs.declared.line.ScriptLine.TheVariants.{Apply};
ghost use Rattle.vx_yard.specs.Carries.{Carries};
ghost use Rattle.vx_yard.specs.OfSites.{AsAsked, HasCalled};
ghost use Rattle.vx_yard.specs.Standing.{LeadsIs, StandsFor};
ghost use Rattle.vx_yard.specs.Working.{IsFree};
ghost use Rattle.vx_yard.specs.Yards.{IsYardKept, IsTold, in_files};

use std::alloc::Global;
use vx_courier::send_message;
use vx_disk::Rack;
use vx_diskset::DiskSet;
use vx_events::Said;
use vx_model::limits::MOST_NUMBER;
use vx_model::{Line, Name, OutOfMemory};
use vx_net::Net;
use vx_packet::{Envelope, Message};
use vx_yard::Yard;
use vx_yard::load::let_go_if_down;
use vx_yard::refusing::refused;

// The line of a site that is up.
fn line_of<R: Rack>(disk_set: &DiskSet<R>) -> Option<Line>
    ensures counted { IfSome result (λ line. IsCounted line.generation) }
    ensures is { (beside : KeptBeside) (n : Node) → SiteStands beside n disk_set.now → n.state ≡ Up → is_over_group n ≡ false → IfSome result (λ line. line ≡ n.line) }
{
    match disk_set.state() {
        Some(state) => Some(state.line),
        None => None,
    }
}

// Acknowledges from disk, where there is something to acknowledge.
fn acknowledge<N: Net>(flight: &mut N, acks: bool, from: u32, to: u32, line: &Line, number: u64)
    requires generation { IsCounted line.now.generation }
    requires number { number ≤ MOST }
    requires room { (N.flying flight.old).count < greatest_packet }
    ensures sends { acks ≡ true → (ps : List Packet) → FlightStands ps (N.flying flight.old) → FlightStands (ps ++ packets_of from to line.now (AcksFromDisk number)) (N.flying flight.new) }
    ensures unsent { acks ≡ false → N.flying flight.new ≡ N.flying flight.old }
{
    if acks {
        let envelope = Envelope {
            source: from,
            target: to,
            line: *line,
        };
        send_message(flight, &envelope, &Message::DataAck { number });
    }
}

/// Logs the oldest of the updates that wait at a site that receives, so many or all, and brings them into its volumes. Where there are some it
/// acknowledges that from disk to the site that feeds it. So many packets that no more may be sent are answered as want of memory.
pub(crate) fn apply_received<R: Rack>(
    yard: &mut Yard<R>,
    alloc: Global,
    name: &Name,
    count: u64,
) -> Result<Said, OutOfMemory>
    requires kept { IsYardKept yard.old }
    requires free { IsFree yard.old (Apply name.now count) }
    ensures leads { (d : Doubted) (s : ℕ) → StandsFor d yard.old → is_for_rvg d.world (Apply name.now count) ≡ false → Carries d yard.old → seat_of yard.old.facts.items name.now ≡ Some s → is_origin (d.world.nodes s).role ≡ false
        → LeadsIs d (Apply name.now count) yard.old yard.new result }
    ensures asked { (d : Doubted) → StandsFor d yard.old → is_for_rvg d.world (Apply name.now count) ≡ false → AsAsked d.world (Apply name.now count) yard.old yard.new }
    ensures called { (d : Doubted) → StandsFor d yard.old → is_for_rvg d.world (Apply name.now count) ≡ false → IfOk result (λ said. HasCalled d.world (Apply name.now count) said yard.old yard.new) }
    ensures told { IsTold yard.new → IsTold yard.old }
    ensures files { in_files yard.new ≡ in_files yard.old }
{
    let site = yard.site_of(name);
    let Some(line) = line_of(&yard.disk_sets[site]) else {
        return Err(OutOfMemory);
    };
    if yard.flight.count() >= MOST_NUMBER {
        return Err(OutOfMemory);
    }
    match yard.disk_sets[site].apply_waiting(count) {
        Ok(reached) => {
            let number = yard.disk_sets[site].last();
            let to = yard.feeders[site];
            acknowledge(
                &mut yard.flight,
                reached.acks,
                site as u32,
                to,
                &line,
                number,
            );
            Ok(Said::DoneAt(reached.number))
        }
        Err(no) => {
            let_go_if_down(&mut yard.assemblies, site, &no);
            Ok(refused(alloc, &mut yard.facts[site], no))
        }
    }
}
