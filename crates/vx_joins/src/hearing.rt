// A greeting or an acknowledgement that a link of a site hears, and the header that it may write.
ghost use Rattle.std.specs.Prelude.{◌≡◌, ◌<◌, ◌≤◌, ℕ, Err, Some, None, OnErr, length, slice_get, true, false};
ghost use Rattle.vx_events.specs.GroupLines.{is_over_group};
ghost use Rattle.vx_model.specs.declared.limits.TheConstants.{LINK_PLACES};
ghost use Rattle.vx_courier.specs.Together.{AreOne, AssemblyStands};
ghost use Rattle.vx_courier.specs.UnderWay.{FlightStands};
ghost use Rattle.vx_history.specs.Doubts.{Doubted};
ghost use Rattle.vx_history.specs.Events.{packet_at};
ghost use Rattle.vx_history.specs.LinkForms.{plain_link};
ghost use Rattle.vx_history.specs.World.{Node, Packet};
ghost use Rattle.vx_model.specs.declared.no.No.{No as NoValue};
ghost use Rattle.vx_model.specs.declared.site.SiteState.TheVariants.{Up as UpState};
ghost use Rattle.vx_model.specs.declared.state.KeptLink.{KeptLink as KeptValue};
ghost use Rattle.vx_peers.specs.Answers.{is_answer};
ghost use Rattle.vx_srlfmt.specs.Headers.{CanSpellState};
ghost use Rattle.vx_diskset.specs.Asked.{HeadUnder, IsRawSet, LeavesFuse, stored_calls};
ghost use Rattle.vx_diskset.specs.Burning.{NoMore};
ghost use Rattle.vx_diskset.specs.DiskSets.{Later};
ghost use Rattle.vx_diskset.specs.Holds.{KeptBeside, beside_of, header_links, state_with};
ghost use Rattle.vx_diskset.specs.Stands.{KeepsRole, SiteStands};
ghost use Rattle.vx_joins.specs.Hearings.{HeardAt, IsListening, PartHeardAt, StoredIs, world_behind, links_stored, reply_by};

use vx_disk::Rack;
use vx_diskset::DiskSet;
use vx_history::Said;
use vx_model::limits::MOST_NUMBER;
use vx_model::{KeptLink, KeptLinks, Link, State, Stop};
use vx_net::Net;
use vx_packet::Assembly;
use vx_peers::{deliver_answer, heard_link};

// The links with this number stored of the one that leads to a site.
fn with_stored(links: &[KeptLink], to: u32, stored: u64) -> KeptLinks
    requires few { length links.now ≤ LINK_PLACES }
    ensures { result ≡ links_stored to stored links.now }
{
    let mut kept = KeptLinks::new();
    for link in links {
        let number = if link.site == to { stored } else { link.stored };
        kept.push(KeptLink {
            site: link.site,
            attached: link.attached,
            bunker: link.bunker,
            mode: link.mode,
            sync: link.sync,
            prot: link.prot,
            stored: number,
            start: link.start,
        });
    }
    kept
}

// The state with that link changed so.
fn state_stored(state: &State, to: u32, stored: u64) -> State
    requires state { CanSpellState state.now }
    requires number { stored ≤ MOST_NUMBER }
    ensures is { result ≡ record state.now { links = links_stored to stored state.now.links } }
    ensures spell { CanSpellState result }
{
    let mut after = state.copy();
    after.links = with_stored(state.links.as_slice(), to, stored);
    after
}

// Where a link comes to count more as stored, the header with that is written.
fn keep_stored<R: Rack>(
    disks: &mut DiskSet<R>,
    state: &State,
    to: u32,
    old: u64,
    stored: u64,
) -> Result<(), Stop>
    requires state { CanSpellState state.now }
    ensures kept { (beside : KeptBeside) (n : Node) → SiteStands beside n disks.old → IsRawSet disks.old → n.state ≡ UpState → n.halted ≡ None → is_over_group n ≡ false → state.now ≡ state_with n beside.links
        → ((k : ℕ) (x : KeptValue) → slice_get beside.links k ≡ Some x → x.site ≡ to → x.stored ≤ stored) → StoredIs beside n to old stored disks.old disks.new result }
    ensures called { (beside : KeptBeside) (n : Node) → SiteStands beside n disks.old → LeavesFuse NoMore (reply_by result) disks.old disks.new }
    ensures headed { (beside : KeptBeside) (n : Node) → SiteStands beside n disks.old → (result ≡ Err Stop.OutOfMemory → ⊥) → HeadUnder (stored_calls old stored) (reply_by result) disks.old disks.new }
    ensures short { result ≡ Err Stop.OutOfMemory → disks.new ≡ disks.old }
    ensures rises { (why : NoValue) → result ≡ Err (Stop.No why) → old < stored }
    ensures role { KeepsRole disks.old disks.new }
    ensures later { Later disks.old disks.new }
{
    if stored <= old {
        return Ok(());
    }
    if stored > MOST_NUMBER {
        return Err(Stop::OutOfMemory);
    }
    let kept = state_stored(state, to, stored);
    match disks.keep(&kept) {
        Ok(()) => Ok(()),
        Err(no) => Err(Stop::No(no)),
    }
}

/// Hands the packet of a number, which is of a greeting or an acknowledgement, to the site with these disks, whose link goes to its sender.
/// `state` is what the site's log keeps of it. Where the link comes to count more as stored the header of that log is written first, with
/// the links as they then are.
///
/// Refusals leave the link and what is in assembly as they were: 19 where no number is left for the header; 7 where a disk failed in it:
/// then the site is halted, and may have it on its disks or not; 6 where the fuse ran out in it: then the site crashed. Numbers past those
/// that a header may have are answered as want of memory, which changes nothing.
pub fn hear<R: Rack, N: Net>(
    disks: &mut DiskSet<R>,
    state: &State,
    link: &mut Link,
    assembly: &mut Assembly,
    flight: &N,
    number: u64,
) -> Result<Said, Stop>
    requires state { CanSpellState state.now }
    ensures heard { (d : Doubted) (p : Packet) (site : ℕ) → packet_at d.world.packets number ≡ Some p → p.target ≡ site → is_answer p.message ≡ true → AreOne d.world.packets
        → FlightStands d.world.packets (N.flying flight.now) → IsListening (d.world.nodes site) (d.world.links site p.source) → link.old ≡ plain_link p.source (d.world.links site p.source)
        → AssemblyStands d.world.packets site (d.world.gathering site) assembly.old → SiteStands (beside_of d site) (d.world.nodes site) disks.old
        → state.now ≡ state_with (d.world.nodes site) (header_links d.world site) → IsRawSet disks.old
        → HeardAt d site p.source number disks.old disks.new link.new assembly.new (N.flying flight.now) result }
    // Whatever is in assembly, as where contents are not told.
    ensures part { (d : Doubted) (p : Packet) (site : ℕ) → packet_at d.world.packets number ≡ Some p → p.target ≡ site → is_answer p.message ≡ true
        → FlightStands d.world.packets (N.flying flight.now) → IsListening (d.world.nodes site) (d.world.links site p.source) → link.old ≡ plain_link p.source (d.world.links site p.source)
        → SiteStands (beside_of d site) (d.world.nodes site) disks.old → state.now ≡ state_with (d.world.nodes site) (header_links d.world site) → IsRawSet disks.old
        → PartHeardAt d site p.source number disks.old disks.new link.new (N.flying flight.now) result }
    ensures called { (beside : KeptBeside) (n : Node) → SiteStands beside n disks.old → LeavesFuse NoMore (reply_by result) disks.old disks.new }
    // It is one header where the link comes to count more as stored, and else no call.
    ensures headed { (d : Doubted) (p : Packet) (site : ℕ) → packet_at d.world.packets number ≡ Some p → p.target ≡ site → is_answer p.message ≡ true
        → FlightStands d.world.packets (N.flying flight.now) → IsListening (d.world.nodes site) (d.world.links site p.source) → link.old ≡ plain_link p.source (d.world.links site p.source)
        → SiteStands (beside_of d site) (d.world.nodes site) disks.old → state.now ≡ state_with (d.world.nodes site) (header_links d.world site) → (result ≡ Err Stop.OutOfMemory → ⊥)
        → HeadUnder (stored_calls (d.world.links site p.source).stored ((world_behind d.world number).links site p.source).stored) (reply_by result) disks.old disks.new }
    ensures short { result ≡ Err Stop.OutOfMemory → disks.new ≡ disks.old }
    // A header is refused where the link comes to count more as stored.
    ensures rises { (d : Doubted) (p : Packet) (site : ℕ) (why : NoValue) → packet_at d.world.packets number ≡ Some p → p.target ≡ site → is_answer p.message ≡ true
        → FlightStands d.world.packets (N.flying flight.now) → IsListening (d.world.nodes site) (d.world.links site p.source) → link.old ≡ plain_link p.source (d.world.links site p.source)
        → SiteStands (beside_of d site) (d.world.nodes site) disks.old → state.now ≡ state_with (d.world.nodes site) (header_links d.world site) → result ≡ Err (Stop.No why)
        → (d.world.links site p.source).stored < ((world_behind d.world number).links site p.source).stored }
    ensures link { OnErr result (link.new ≡ link.old) }
    ensures assembly { OnErr result (assembly.new ≡ assembly.old) }
    ensures role { KeepsRole disks.old disks.new }
    ensures later { Later disks.old disks.new }
{
    let safe = disks.last();
    let heard = heard_link(link, safe, &state.line, flight, number);
    match keep_stored(disks, state, link.site, link.stored, heard.stored) {
        Ok(()) => Ok(deliver_answer(link, safe, &state.line, assembly, flight, number)),
        Err(stop) => Err(stop),
    }
}
