// A greeting or an acknowledgement, handed to the site whose link goes to its sender.
ghost use Rattle.std.specs.Prelude.{◌≡◌, ◌&&◌, ◌<◌, ℕ, IfOk, IfSome, None, Some, length, true, false};
ghost use Rattle.vx_model.specs.declared.limits.TheConstants.{MOST_SITES};
ghost use Rattle.vx_model.specs.declared.site.SiteState.TheVariants.{Up as UpState};
ghost use Rattle.vx_courier.specs.UnderWay.{FlightStands};
ghost use Rattle.vx_history.specs.Admission.{is_log};
ghost use Rattle.vx_history.specs.Doubts.{Doubted};
ghost use Rattle.vx_history.specs.Events.{packet_at};
ghost use Rattle.vx_history.specs.LinkForms.{plain_link};
ghost use Rattle.vx_history.specs.World.{Link as LinkOf, Node, Packet, World};
ghost use Rattle.vx_script.specs.declared.line.ScriptLine.TheVariants.{Deliver};
ghost use Rattle.vx_events.specs.LinkedFacts.{needed_by};
ghost use Rattle.vx_events.specs.GroupLines.{is_over_group};
ghost use Rattle.vx_events.specs.StepsOver.{facts_over};
ghost use Rattle.vx_events.specs.LinksFit.{LinksFit, is_plain_mode};
ghost use Rattle.vx_srlfmt.specs.Headers.{CanSpellState};
ghost use Rattle.vx_peers.specs.Answers.{is_answer};
ghost use Rattle.vx_diskset.specs.Asked.{HeadUnder};
ghost use Rattle.vx_diskset.specs.Holds.{KeptBeside, beside_of, header_links, state_with};
ghost use Rattle.vx_diskset.specs.Stands.{SiteStands};
ghost use Rattle.vx_joins.specs.Hearings.{IsListening, world_behind};
ghost use Rattle.vx_yard.specs.Carries.{Carries};
ghost use Rattle.vx_yard.specs.OfSites.{AllSameFailing, OfSite, heard_calls};
ghost use Rattle.vx_yard.specs.Replies.{refusal_in};
ghost use Rattle.vx_yard.specs.Standing.{GoodFor, LeadsIs, StandsFor};
ghost use Rattle.vx_yard.specs.Yards.{IsTold, in_files};

use crate::wait::reply;
use std::alloc::Global;
use vx_disk::Rack;
use vx_diskset::DiskSet;
use vx_events::Said;
use vx_joins::hear;
use vx_linked::{hearing_link, keep_heard, kept_facts, with_links};
use vx_model::{Link, Mode, No, OutOfMemory, State, Stop};
use vx_net::Flight;
use vx_order::{LinkFacts, SiteFacts};
use vx_peers::heard_link;
use vx_yard::Yard;
use vx_yard::load::let_go_if_down;
use vx_yard::refusing::refused;

// Whether a link goes by the log, and needs its numbers.
fn needs_log(link: &Link) -> bool
    ensures { result ≡ (link.now.attached && is_log link.now.mode) }
{
    match link.mode {
        Mode::Log => link.attached,
        Mode::Dcm | Mode::Replay { .. } | Mode::Fork { .. } | Mode::Stale => false,
    }
}

// The blocks of the log of a site that its link needs. None where the log does not hold them any more.
fn needed<R: Rack>(disk_set: &DiskSet<R>, link: &Link) -> Option<u64>
    ensures is { (beside : KeptBeside) (n : Node) (s : ℕ) (l : LinkOf) → SiteStands beside n disk_set.now → n.state ≡ UpState → n.halted ≡ None → is_plain_mode l.mode ≡ true
        → link.now ≡ plain_link s l → IfSome result (λ blocks. blocks ≡ needed_by n s l) }
{
    if needs_log(link) {
        disk_set.used(link.stored)
    } else {
        Some(0)
    }
}

// What the header of the log of a site keeps of it, with its links as memory has them. None where it has no spelling.
fn state_here<R: Rack>(disks: &DiskSet<R>, sites: &[SiteFacts], here: usize) -> Option<State>
    requires within { here < length sites.now }
    ensures spell { IfSome result (λ state. CanSpellState state) }
    ensures is { (beside : KeptBeside) (n : Node) (w : World) → SiteStands beside n disks.now → n.state ≡ UpState → is_over_group n ≡ false → sites.now ≡ facts_over w → here < w.sites
        → (w.nodes here).state ≡ UpState → is_over_group (w.nodes here) ≡ false
        → IfSome result (λ state. state ≡ state_with n (header_links w here)) }
{
    let Some(kept) = kept_facts(sites[here].links.as_slice()) else {
        return None;
    };
    let Some(state) = disks.state() else {
        return None;
    };
    with_links(state, kept)
}

// The blocks of the log that its link needs behind the packet of a number. None where the log does not hold them any more.
fn heard_needs<R: Rack>(
    disk_set: &DiskSet<R>,
    state: &State,
    link: &Link,
    flight: &Flight,
    number: u64,
) -> Option<u64>
    ensures is { (d : Doubted) (p : Packet) → LinksFit d → packet_at d.world.packets number ≡ Some p → is_answer p.message ≡ true → FlightStands d.world.packets flight.now
        → IsListening (d.world.nodes p.target) (d.world.links p.target p.source) → link.now ≡ plain_link p.source (d.world.links p.target p.source)
        → SiteStands (beside_of d p.target) (d.world.nodes p.target) disk_set.now → state.now.line ≡ (d.world.nodes p.target).line
        → IfSome result (λ blocks. blocks ≡ needed_by (d.world.nodes p.target) p.source ((world_behind d.world number).links p.target p.source)) }
{
    let safe = disk_set.last();
    let heard = heard_link(link, safe, &state.line, flight, number);
    needed(disk_set, &heard)
}

// The refusal of a call that did not end for want of memory.
fn refusal(stop: Stop) -> Option<No>
    ensures { result ≡ refusal_in stop }
{
    match stop {
        Stop::No(no) => Some(no),
        Stop::OutOfMemory => None,
    }
}

/// A greeting or an acknowledgement, heard by the link of its target to its source. Where that comes to count more as stored, a header says so
/// first. Where no link hears it nothing comes of it.
///
/// A header is refused by 7, 6 or 19, and the link stays as it was. Want of memory is answered too where the log no longer holds what the link
/// needs, or where a header has no spelling for the links: nothing is done then.
pub(crate) fn hear_answer<R: Rack>(
    yard: &mut Yard<R>,
    alloc: Global,
    target: usize,
    source: u32,
    number: u64,
) -> Result<Said, OutOfMemory>
    requires disk_set { target < length yard.old.disk_sets.items }
    requires site { target < length yard.old.facts.items }
    requires place { target < length yard.old.assemblies.items }
    requires few { target < MOST_SITES }
    ensures leads { (d : Doubted) (p : Packet) → StandsFor d yard.old → Carries d yard.old → GoodFor d yard.old → packet_at d.world.packets number ≡ Some p → p.target ≡ target
        → p.source ≡ source → target < d.world.sites → is_answer p.message ≡ true → LeadsIs d (Deliver number) yard.old yard.new result }
    ensures asked { (d : Doubted) → StandsFor d yard.old → target < d.world.sites → AllSameFailing yard.old yard.new }
    // One header where the link comes to count more as stored, and else no call.
    ensures called { (d : Doubted) (p : Packet) → StandsFor d yard.old → Carries d yard.old → packet_at d.world.packets number ≡ Some p → p.target ≡ target → p.source ≡ source → target < d.world.sites
        → is_answer p.message ≡ true → IfOk result (λ said. OfSite (HeadUnder (heard_calls d.world number target source) said) target yard.old yard.new) }
    ensures told { IsTold yard.new → IsTold yard.old }
    ensures files { in_files yard.new ≡ in_files yard.old }
{
    let Some(l) = hearing_link(&yard.facts, target, source) else {
        return Ok(Said::Ignored);
    };
    let Some(state) = state_here(&yard.disk_sets[target], &yard.facts, target) else {
        return Err(OutOfMemory);
    };
    let mut link = l.link;
    let Some(used) = heard_needs(&yard.disk_sets[target], &state, &link, &yard.flight, number)
    else {
        return Err(OutOfMemory);
    };
    let said = hear(
        &mut yard.disk_sets[target],
        &state,
        &mut link,
        &mut yard.assemblies[target],
        &yard.flight,
        number,
    );
    match said {
        Ok(said) => {
            keep_heard(&mut yard.facts, target, source, &LinkFacts { link, used });
            Ok(reply(said))
        }
        Err(stop) => match refusal(stop) {
            Some(no) => {
                let_go_if_down(&mut yard.assemblies, target, &no);
                Ok(refused(alloc, &mut yard.facts[target], no))
            }
            None => Err(OutOfMemory),
        },
    }
}
