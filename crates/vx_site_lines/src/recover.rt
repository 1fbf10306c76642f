// The line that recovers a site, with the links that the header of its log keeps, and the greeting of one that receives.
ghost use Rattle.std.specs.Prelude.{◌≡◌, ◌++◌, ◌<◌, ◌≤◌, ℕ, Bool, IfErr, List, None, Some, [], false, length, slice_get, slice_set};
ghost use Rattle.vx_courier.specs.UnderWay.{FlightStands};
ghost use Rattle.vx_history.specs.Doubts.{Doubted};
ghost use Rattle.vx_history.specs.World.{Packet};
ghost use Rattle.vx_model.specs.Sizes.{ring_of};
ghost use Rattle.vx_model.specs.declared.limits.TheConstants.{LEAST_BLOCKS, LINK_PLACES, MOST_NUMBER, MOST_SITES};
ghost use Rattle.vx_model.specs.declared.site.SiteState.TheVariants.{Bare as BareState, Down as DownState};
ghost use Rattle.vx_order.specs.declared.facts.SiteFacts.{SiteFacts as Facts};
ghost use Rattle.vx_script.specs.declared.line.ScriptLine.TheVariants.{Recover};
ghost use Rattle.vx_srlfmt.specs.Headers.{CanSpellState};
ghost use Rattle.vx_diskset.specs.Asked.{SameFailing};
ghost use Rattle.vx_diskset.specs.Layouts.{IsRoomOf};
ghost use Rattle.vx_events.specs.Facts.{site_number};
ghost use Rattle.vx_events.specs.GroupLines.{is_over_group};
ghost use Rattle.vx_events.specs.LinkViews.{linked_view};
ghost use Rattle.vx_events.specs.StepsOver.{is_for_group};
ghost use Rattle.vx_events.specs.LinksFit.{LinksFit};
ghost use Rattle.vx_events.specs.Lists.{Choice};
ghost use Rattle.vx_yard.specs.OfSites.{AsAsked, OfSite};
ghost use Rattle.vx_site_lines.specs.Raised.{MayBeRaw};
ghost use Rattle.vx_above.specs.OwnDisks.{own_disks};
ghost use Rattle.vx_site_lines.specs.Rises.{IsEmptyRiseRoom, IsEmptyShowRoom, LastAt, LeadsFrom, RisesFrom, RisesTo, SessionAt, hello_by, risen_facts};
ghost use Rattle.vx_yard.specs.Standing.{Leads, LeadsIs, StandsFor};
ghost use Rattle.vx_yard.specs.Working.{IsFree};
ghost use Rattle.vx_yard.specs.Yards.{IsYardKept, IsTold, in_files};

use crate::raised::{SetRose, find_disks, raise_disks};
use crate::rooms::{RiseRoom, Risen, ShowRoom, greet, link_views};
use std::alloc::Global;
use vx_above::view_at;
use vx_disk::Rack;
use vx_diskset::can_be_raw;
use vx_events::Said;
use vx_linked::restart_links;
use vx_model::limits::{LEAST_BLOCKS, MOST_NUMBER};
use vx_model::{Name, No, OutOfMemory, SiteState, State, ring_blocks};
use vx_net::Net;
use vx_order::{LinkRoom, VolumeTable};
use vx_report::{LinkViewRoom, SiteView};
use vx_script::ScriptLine;
use vx_yard::falling::go_down;
use vx_yard::load::set_feeder;
use vx_yard::{Yard, facts};

// Takes what came up into what the tests look at. Answers the last number of its log.
fn note_risen<R: Rack>(
    yard: &mut Yard<R>,
    site: usize,
    ring: u64,
    risen: &Risen,
    room: LinkRoom,
) -> u64
    requires facts { site < length yard.old.facts.items }
    requires disk_set { site < length yard.old.disk_sets.items }
    requires few { length risen.now.state.links ≤ LINK_PLACES }
    requires room { room ≡ [] }
    ensures facts { (f : Facts) → slice_get yard.old.facts.items site ≡ Some f → yard.new.facts.items ≡ slice_set yard.old.facts.items site (risen_facts risen.now.state result ring risen.now.used f) }
    ensures last { LastAt site result yard.old }
    ensures most { result ≤ MOST_NUMBER }
    ensures disk_sets { yard.new.disk_sets ≡ yard.old.disk_sets }
    ensures racks { yard.new.racks ≡ yard.old.racks }
    ensures flight { yard.new.flight ≡ yard.old.flight }
    ensures assemblies { yard.new.assemblies ≡ yard.old.assemblies }
    ensures feeders { yard.new.feeders ≡ yard.old.feeders }
    ensures dir { yard.new.dir ≡ yard.old.dir }
{
    let last = yard.disk_sets[site].last();
    facts::come_up(&mut yard.facts[site], &risen.state, last, ring);
    yard.facts[site].links = restart_links(room, risen.state.links.as_slice(), &risen.used);
    last
}

// A site that came up is fed by the one that it followed, and greets it where it receives. Answers its session.
fn follow<R: Rack>(yard: &mut Yard<R>, site: usize, state: &State, last: u64) -> u64
    requires disk_set { site < length yard.old.disk_sets.items }
    requires few { site < MOST_SITES }
    requires room { yard.old.flight.count < MOST_NUMBER }
    requires state { CanSpellState state.now }
    requires last { last ≤ MOST_NUMBER }
    ensures session { SessionAt site result yard.old }
    ensures flight { (ps : List Packet) → FlightStands ps yard.old.flight → FlightStands (ps ++ hello_by site state.now result last) yard.new.flight }
    ensures feeders { yard.new.feeders.items ≡ slice_set yard.old.feeders.items site state.now.other }
    ensures facts { yard.new.facts ≡ yard.old.facts }
    ensures disk_sets { yard.new.disk_sets ≡ yard.old.disk_sets }
    ensures racks { yard.new.racks ≡ yard.old.racks }
    ensures assemblies { yard.new.assemblies ≡ yard.old.assemblies }
    ensures dir { yard.new.dir ≡ yard.old.dir }
{
    let session = yard.disk_sets[site].session();
    set_feeder(&mut yard.feeders, site, state.other);
    greet(&mut yard.flight, site as u32, state, session, last);
    session
}

// How a site that came up stands.
fn show_risen<R: Rack>(yard: &Yard<R>, alloc: Global, site: usize, room: LinkViewRoom) -> SiteView
    requires facts { site < length yard.now.facts.items }
    requires disk_set { site < length yard.now.disk_sets.items }
    requires few { (f : Facts) → slice_get yard.now.facts.items site ≡ Some f → length f.links ≤ LINK_PLACES }
    requires room { room ≡ [] }
    ensures { (d : Doubted) → StandsFor d yard.now → site < d.world.sites → is_over_group (d.world.nodes site) ≡ false → result ≡ linked_view d.world site }
{
    let links = link_views(room, &yard.facts, yard.facts[site].links.as_slice());
    view_at(yard, alloc, site, links)
}

// A site that came up stands up with what its log keeps of it, and says so.
fn stand_up<R: Rack>(
    yard: &mut Yard<R>,
    alloc: Global,
    site: usize,
    ring: u64,
    risen: Risen,
    shows: ShowRoom,
) -> Said
    requires facts { site < length yard.old.facts.items }
    requires disk_set { site < length yard.old.disk_sets.items }
    requires few { site < MOST_SITES }
    requires flight { yard.old.flight.count < MOST_NUMBER }
    requires state { CanSpellState risen.state }
    requires empty { IsEmptyShowRoom shows }
    ensures rises { RisesTo site ring risen.state risen.used result yard.old yard.new }
    ensures dir { yard.new.dir ≡ yard.old.dir }
{
    let last = note_risen(yard, site, ring, &risen, shows.links);
    let _session = follow(yard, site, &risen.state, last);
    Said::Recovered(last, show_risen(yard, alloc, site, shows.views))
}

// Starts the group of a site that is down, on disks of so many blocks, and says how it stands. Disks that tell nothing go down again where
// their log keeps what no site of these can have.
fn rise<R: Rack>(
    yard: &mut Yard<R>,
    alloc: Global,
    site: usize,
    blocks: u64,
    room: RiseRoom,
) -> Said
    requires least { LEAST_BLOCKS ≤ blocks }
    requires facts { site < length yard.old.facts.items }
    requires many { length yard.old.facts.items ≤ MOST_SITES }
    requires disk_set { site < length yard.old.disk_sets.items }
    requires flight { yard.old.flight.count < MOST_NUMBER }
    requires room { room.waiting ≡ [] }
    requires empty { IsEmptyShowRoom room.shows }
    ensures rises { (d h : Doubted) (c : Choice) (taken : Bool) (name : List ℕ) → site_number d.world name ≡ site → RisesFrom d site c taken h → LinksFit d
        → StandsFor (own_disks taken site d.world h) yard.old → site < h.world.sites → ((own_disks taken site d.world h).world.nodes site).state ≡ DownState → ((own_disks taken site d.world h).world.nodes site).group ≡ None
        → blocks ≡ ((own_disks taken site d.world h).world.nodes site).blocks → IsRoomOf blocks (ring_of blocks) room.start
        → LeadsFrom (own_disks taken site d.world h) d (Recover name) result yard.old yard.new }
    ensures failing { OfSite SameFailing site yard.old yard.new }
    ensures told { IsTold yard.new → IsTold yard.old }
    ensures files { in_files yard.new ≡ in_files yard.old }
{
    let sites = yard.facts.len() as u32;
    let ring = ring_blocks(blocks);
    match raise_disks(
        &mut yard.disk_sets[site],
        room.start,
        room.waiting,
        site as u32,
        sites,
    ) {
        SetRose::Up(risen) => stand_up(yard, alloc, site, ring, risen, room.shows),
        SetRose::Unfit => Said::Refused(No::NoConfig),
        SetRose::Refused(no) => Said::Refused(no),
    }
}

// Starts what an earlier run left on the disks of a bare site, whose volumes as a raw set are these, and says how it stands.
fn rise_found<R: Rack>(
    yard: &mut Yard<R>,
    alloc: Global,
    site: usize,
    blocks: u64,
    volumes: VolumeTable,
    room: RiseRoom,
) -> Said
    requires least { LEAST_BLOCKS ≤ blocks }
    requires facts { site < length yard.old.facts.items }
    requires many { length yard.old.facts.items ≤ MOST_SITES }
    requires disk_set { site < length yard.old.disk_sets.items }
    requires flight { yard.old.flight.count < MOST_NUMBER }
    requires raw { (f : Facts) → slice_get yard.old.facts.items site ≡ Some f → MayBeRaw blocks volumes room.start f }
    requires room { room.waiting ≡ [] }
    requires empty { IsEmptyShowRoom room.shows }
    ensures rises { (d : Doubted) (name : List ℕ) → site_number d.world name ≡ site → StandsFor d yard.old → site < d.world.sites → (d.world.nodes site).state ≡ BareState → Leads d (Recover name) result yard.old yard.new }
    ensures failing { OfSite SameFailing site yard.old yard.new }
    ensures told { IsTold yard.new → IsTold yard.old }
    ensures files { in_files yard.new ≡ in_files yard.old }
{
    let sites = yard.facts.len() as u32;
    let ring = ring_blocks(blocks);
    match find_disks(
        &mut yard.disk_sets[site],
        room.start,
        room.waiting,
        site as u32,
        sites,
    ) {
        SetRose::Up(risen) => {
            facts::make_raw(&mut yard.facts[site], site as u32, volumes);
            stand_up(yard, alloc, site, ring, risen, room.shows)
        }
        SetRose::Unfit => Said::Refused(No::NoConfig),
        SetRose::Refused(no) => Said::Refused(no),
    }
}

// Starts what an earlier run left on the disks of a bare site, and says how it stands.
fn rise_bare<R: Rack>(
    yard: &mut Yard<R>,
    alloc: Global,
    name: &Name,
    site: usize,
    room: RiseRoom,
) -> Result<Said, OutOfMemory>
    requires facts { site < length yard.old.facts.items }
    requires many { length yard.old.facts.items ≤ MOST_SITES }
    requires disk_set { site < length yard.old.disk_sets.items }
    requires flight { yard.old.flight.count < MOST_NUMBER }
    requires room { (f : Facts) → slice_get yard.old.facts.items site ≡ Some f → IsEmptyRiseRoom f.blocks room }
    // For want of memory nothing is done.
    ensures short { IfErr result (λ e. yard.new.disk_sets ≡ yard.old.disk_sets) }
    ensures rises { (d : Doubted) → site_number d.world name.now ≡ site → StandsFor d yard.old → site < d.world.sites → (d.world.nodes site).state ≡ BareState → LeadsIs d (Recover name.now) yard.old yard.new result }
    ensures failing { OfSite SameFailing site yard.old yard.new }
    ensures told { IsTold yard.new → IsTold yard.old }
    ensures files { in_files yard.new ≡ in_files yard.old }
{
    let disks = yard.facts[site].disks;
    let blocks = yard.facts[site].blocks;
    if !can_be_raw(disks, blocks) || is_refused(yard, name) {
        return Ok(Said::Refused(No::NoConfig));
    }
    let volumes = facts::raw_table(alloc, disks - 2, blocks)?;
    Ok(rise_found(yard, alloc, site, blocks, volumes, room))
}

// Whether the disks of a site are refused as a raw set.
fn is_refused<R: Rack>(yard: &Yard<R>, name: &Name) -> bool {
    let files = yard.dir.is_some();
    match vx_order::refuse(&yard.facts, files, &ScriptLine::Raw { site: *name }) {
        Some(_) => true,
        None => false,
    }
}

/// Recovers a site: one that is up crashes first, and one that is bare starts what an earlier run left on its disks. It comes up with the links
/// that the header of its log keeps, and greets the site that it followed where it receives.
///
/// Memory is taken before the site crashes. Numbers of packets past those that there may be are answered as want of memory, which changes
/// nothing.
pub fn recover_line<R: Rack>(
    yard: &mut Yard<R>,
    alloc: Global,
    name: &Name,
) -> Result<Said, OutOfMemory>
    requires kept { IsYardKept yard.old }
    requires free { IsFree yard.old (Recover name.now) }
    ensures leads { (d : Doubted) → StandsFor d yard.old → (d.world.nodes (site_number d.world name.now)).group ≡ None → LeadsIs d (Recover name.now) yard.old yard.new result }
    ensures asked { (d : Doubted) → StandsFor d yard.old → is_for_group d.world (Recover name.now) ≡ false → AsAsked d.world (Recover name.now) yard.old yard.new }
    // For want of memory nothing is done.
    ensures short { IfErr result (λ e. yard.new.disk_sets ≡ yard.old.disk_sets) }
    ensures told { IsTold yard.new → IsTold yard.old }
    ensures files { in_files yard.new ≡ in_files yard.old }
{
    let site = yard.site_of(name);
    if yard.facts[site].blocks < LEAST_BLOCKS {
        unreachable!();
    }
    if yard.flight.count() >= MOST_NUMBER {
        return Err(OutOfMemory);
    }
    let blocks = yard.facts[site].blocks;
    let room = RiseRoom::new(alloc, blocks)?;
    match yard.facts[site].state {
        SiteState::Bare => rise_bare(yard, alloc, name, site, room),
        SiteState::Deported => unreachable!(),
        SiteState::Up => {
            go_down(yard, alloc, site, u64::MAX);
            Ok(rise(yard, alloc, site, blocks, room))
        }
        SiteState::Down => Ok(rise(yard, alloc, site, blocks, room)),
    }
}
