// What a site comes up with, and what it then sends and shows.
ghost use Rattle.std.specs.Prelude.{◌≡◌, ◌&&◌, ◌++◌, ◌<◌, ◌≤◌, ℕ, IfOk, IfSome, IsSome, List, Some, [], false, length, slice_get, true};
ghost use Rattle.vx_courier.specs.UnderWay.{FlightStands};
ghost use Rattle.vx_history.specs.World.{Node, Packet};
ghost use Rattle.vx_model.specs.Sites.{is_origin as is_origin_is};
ghost use Rattle.vx_model.specs.declared.limits.TheConstants.{LEAST_BLOCKS, LINK_PLACES, MOST_NUMBER};
ghost use Rattle.vx_model.specs.declared.site.SiteState.TheVariants.{Up as UpState};
ghost use Rattle.vx_model.specs.declared.state.KeptLink.{KeptLink as KeptValue};
ghost use Rattle.vx_srlfmt.specs.Headers.{CanSpellState};
ghost use Rattle.vx_diskset.specs.Holds.{KeptBeside, state_with};
ghost use Rattle.vx_diskset.specs.Stands.{IsToldAt, SiteStands};
ghost use Rattle.vx_events.specs.GroupLines.{is_over_group};
ghost use Rattle.vx_site_lines.specs.Rises.{AreNeeds, IsEmptyRiseRoom, IsEmptyShowRoom, IsNeed, IsRisen, can_rise, hello_by, is_by_log, is_none as is_none_is, is_quiet as is_quiet_is};
ghost use Rattle.vx_above.specs.Seen.{links_seen};

use crate::status::link_view;
use std::alloc::Global;
use vx_courier::send_message;
use vx_disk::Rack;
use vx_diskset::DiskSet;
use vx_linked::are_fine;
use vx_model::limits::{LEAST_BLOCKS, LINK_PLACES, MOST_DISKS};
use vx_model::{KeptLink, KeptMode, OutOfMemory, SPhase, State, is_origin, map_blocks};
use vx_net::Flight;
use vx_order::{LinkFacts, LinkRoom, SiteFacts};
use vx_packet::{Envelope, Message};
use vx_report::{LinkViewRoom, LinkViews};
use vx_rvg::StartRoom;
use vx_secondary::Waiting;

fn is_quiet(phase: SPhase) -> bool
    ensures { result ≡ is_quiet_is phase }
{
    match phase {
        SPhase::Quiet => true,
        SPhase::Regions | SPhase::Log | SPhase::ForkKept => false,
    }
}

fn is_none(links: &[KeptLink]) -> bool
    ensures { result ≡ is_none_is links.now }
{
    match links {
        [] => true,
        [_, ..] => false,
    }
}

// Whether site `site` may come up among so many with a log of this state.
fn may_rise(state: &State, site: u32, sites: u32) -> bool
    ensures { result ≡ can_rise site sites state.now }
{
    let links = state.links.as_slice();
    is_quiet(state.phase)
        && are_fine(links, site, sites)
        && (is_origin(&state.role) || is_none(links))
}

// Whether a link needs numbers of its site's log.
fn needs_log(link: &KeptLink) -> bool
    ensures { result ≡ (link.now.attached && is_by_log link.now.mode) }
{
    match link.mode {
        KeptMode::Log => link.attached,
        KeptMode::Dcm | KeptMode::Replay | KeptMode::Fork | KeptMode::Stale => false,
    }
}

// The blocks of the log that a link needs. None where the log does not hold them any more.
fn used_by<R: Rack>(disk_set: &DiskSet<R>, link: &KeptLink) -> Option<u64>
    ensures is { (beside : KeptBeside) (n : Node) → SiteStands beside n disk_set.now → n.state ≡ UpState → n.halted ≡ None → IfSome result (λ blocks. IsNeed n link.now blocks) }
    ensures some { (beside : KeptBeside) (n : Node) (k : ℕ) → SiteStands beside n disk_set.now → is_origin_is n.role ≡ true → n.state ≡ UpState → is_over_group n ≡ false → n.halted ≡ None → IsToldAt disk_set.now
        → slice_get beside.links k ≡ Some link.now → IsSome result }
{
    if needs_log(link) {
        disk_set.used(link.stored)
    } else {
        Some(0)
    }
}

// The same of each of these links. None where the log does not hold what one of them needs.
fn used_links<R: Rack>(disk_set: &DiskSet<R>, links: &[KeptLink]) -> Option<[u64; LINK_PLACES]>
    requires few { length links.now ≤ LINK_PLACES }
    ensures is { (beside : KeptBeside) (n : Node) → SiteStands beside n disk_set.now → n.state ≡ UpState → n.halted ≡ None → IfSome result (λ used. AreNeeds n links.now used) }
    ensures some { (beside : KeptBeside) (n : Node) → SiteStands beside n disk_set.now → n.state ≡ UpState → is_over_group n ≡ false → n.halted ≡ None → IsToldAt disk_set.now
        → ((k : ℕ) (l : KeptValue) → slice_get links.now k ≡ Some l → is_origin_is n.role ≡ true) → links.now ≡ beside.links → IsSome result }
    ensures long { IfSome result (λ used. length used ≡ LINK_PLACES) }
{
    let mut used = [0; LINK_PLACES];
    for k in 0..links.len() {
        let Some(blocks) = used_by(disk_set, &links[k]) else {
            return None;
        };
        used[k] = blocks;
    }
    Some(used)
}

/// What a site comes up with: what its log keeps of it, and the blocks of that log which each of its links needs.
#[derive(Drop)]
pub struct Risen {
    pub state: State,
    pub used: [u64; LINK_PLACES],
}

/// What the disks of a site that came up have of it. None where it may not come up with that among so many sites.
pub fn what_rose<R: Rack>(disk_set: &DiskSet<R>, site: u32, sites: u32) -> Option<Risen>
    ensures is { (beside : KeptBeside) (n : Node) → SiteStands beside n disk_set.now → n.state ≡ UpState → is_over_group n ≡ false → n.halted ≡ None → IfSome result (λ r. IsRisen site sites n r.state r.used) }
    ensures told { (beside : KeptBeside) (n : Node) → SiteStands beside n disk_set.now → n.state ≡ UpState → n.halted ≡ None → IsToldAt disk_set.now → IfSome result (λ r. r.state.links ≡ beside.links) }
    ensures some { (beside : KeptBeside) (n : Node) → SiteStands beside n disk_set.now → n.state ≡ UpState → is_over_group n ≡ false → n.halted ≡ None → IsToldAt disk_set.now
        → ((k : ℕ) (l : KeptValue) → slice_get beside.links k ≡ Some l → is_origin_is n.role ≡ true) → can_rise site sites (state_with n beside.links) ≡ true → IsSome result }
    ensures spelled { IfSome result (λ r. CanSpellState r.state) }
{
    let Some(state) = disk_set.state() else {
        return None;
    };
    if !may_rise(state, site, sites) {
        return None;
    }
    let Some(used) = used_links(disk_set, state.links.as_slice()) else {
        return None;
    };
    Some(Risen {
        state: state.copy(),
        used,
    })
}

/// A site that receives greets the one that it followed.
pub fn greet(flight: &mut Flight, site: u32, state: &State, session: u64, last: u64)
    requires room { flight.old.count < MOST_NUMBER }
    requires state { CanSpellState state.now }
    requires session { session ≤ MOST_NUMBER }
    requires last { last ≤ MOST_NUMBER }
    ensures sends { (ps : List Packet) → FlightStands ps flight.old → FlightStands (ps ++ hello_by site state.now session last) flight.new }
{
    if !is_origin(&state.role) {
        let envelope = Envelope {
            source: site,
            target: state.other,
            line: state.line,
        };
        let hello = Message::Hello {
            session,
            number: last,
            stored: last,
        };
        send_message(flight, &envelope, &hello);
    }
}

/// What a site that comes up needs of memory for its links.
#[derive(Drop)]
pub struct ShowRoom {
    pub links: LinkRoom,
    pub views: LinkViewRoom,
}

impl ShowRoom {
    pub fn new(alloc: Global) -> Result<ShowRoom, OutOfMemory>
        ensures { IfOk result (λ room. IsEmptyShowRoom room) }
    {
        let links = LinkRoom::new(alloc)?;
        let views = LinkViewRoom::new(alloc)?;
        Ok(ShowRoom { links, views })
    }
}

/// What a recovery needs of memory, taken before the site crashes.
#[derive(Drop)]
pub struct RiseRoom {
    pub start: StartRoom,
    pub waiting: Waiting,
    pub shows: ShowRoom,
}

impl RiseRoom {
    /// Room for a log on a disk of so many blocks, and for the change maps of volumes on such disks.
    pub fn new(alloc: Global, blocks: u64) -> Result<RiseRoom, OutOfMemory>
        requires { LEAST_BLOCKS ≤ blocks }
        ensures { IfOk result (λ room. IsEmptyRiseRoom blocks room) }
    {
        let maps = LINK_PLACES as u64 * u64::from(MOST_DISKS - 2) * map_blocks(blocks);
        let start = StartRoom::new(alloc, blocks, maps)?;
        let waiting = Waiting::new(alloc)?;
        let shows = ShowRoom::new(alloc)?;
        Ok(RiseRoom {
            start,
            waiting,
            shows,
        })
    }
}

/// Links of a site as a status shows them.
pub fn link_views(room: LinkViewRoom, sites: &[SiteFacts], links: &[LinkFacts]) -> LinkViews
    requires empty { room ≡ [] }
    requires few { length links.now ≤ LINK_PLACES }
    ensures { result ≡ links_seen sites.now links.now }
{
    let mut room = room;
    for link in links {
        room.push(link_view(sites, link));
    }
    room.into_views()
}
