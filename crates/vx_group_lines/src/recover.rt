// The line that recovers a site whose disks are a group.
ghost use Rattle.std.specs.Prelude.{◌≡◌, ◌<◌, ℕ, Bool, List, [], IfOk, Some, length, option_copied, slice_get, slice_set, true};
ghost use Rattle.vx_diskset.specs.Asked.{SameFailing};
ghost use Rattle.vx_events.specs.GroupLines.{is_over_group};
ghost use Rattle.vx_events.specs.GroupViews.{volumes_of};
ghost use Rattle.vx_group_lines.specs.Noting.{KeepsRest};
ghost use Rattle.vx_group_lines.specs.RvgRises.{RaisesIs, RestsSo, rests_as};
ghost use Rattle.vx_group_lines.specs.Rises.{RisesBeside, StoodUp, kept_shown};
ghost use Rattle.vx_model.specs.declared.site.SiteState.TheVariants.{Down as DownState};
ghost use Rattle.vx_order.specs.declared.facts.SiteFacts.{SiteFacts as Facts};
ghost use Rattle.vx_effects.specs.Facts.{down_fact};
ghost use Rattle.vx_yard.specs.AboveLines.{LeadsAboveIs, LeadsBesideIs};
ghost use Rattle.vx_yard.specs.Loads.{LetGo};
ghost use Rattle.vx_yard.specs.Replies.{reply_to};
ghost use Rattle.vx_history.specs.Doubts.{Doubted};
ghost use Rattle.vx_script.specs.declared.line.ScriptLine.TheVariants.{Recover};
ghost use Rattle.vx_events.specs.RvgSteps.{is_for_rvg};
ghost use Rattle.vx_events.specs.RvgViews.{is_over_rvg};
ghost use Rattle.vx_events.specs.StepsOver.{is_for_group};
ghost use Rattle.vx_yard.specs.OfSites.{AsAsked, OfSite};
ghost use Rattle.vx_yard.specs.Standing.{StandsFor};
ghost use Rattle.vx_yard.specs.Working.{IsFree};
ghost use Rattle.vx_yard.specs.Yards.{IsYardKept, IsTold, in_files};

use crate::noting::{group_stopped, note_up};
use crate::views::view_at;
use std::alloc::Global;
use std::mem;
use vx_above::ViewRoom;
use vx_config::{Config, VolumeEntry};
use vx_disk::Rack;
use vx_diskset::{CutWrite, DiskSet, KeptWrite};
use vx_events::Said;
use vx_model::limits::BLOCK;
use vx_model::{Name, OutOfMemory, SiteState, Stop};
use vx_order::VolumeRoom;
use vx_report::Kept;
use vx_yard::falling::go_down;
use vx_yard::load::let_go;
use vx_yard::refusing::stopped;
use vx_yard::{Yard, facts};

// What a recovery needs of memory beside its import.
#[derive(Drop)]
pub(crate) struct RiseRoom {
    pub(crate) volumes: VolumeRoom,
    pub(crate) views: ViewRoom,
}

impl RiseRoom {
    pub(crate) fn new(alloc: Global) -> Result<RiseRoom, OutOfMemory>
        ensures { IfOk result (λ room. (room.volumes ≡ []) × (room.views.disks ≡ []) × (room.views.volumes ≡ [])) }
    {
        Ok(RiseRoom {
            volumes: VolumeRoom::new(alloc)?,
            views: ViewRoom::new(alloc)?,
        })
    }
}

// What is kept of a write, with the name of its volume. Nothing is said of a volume that the group has not.
fn shown(volumes: &[VolumeEntry], kept: &KeptWrite) -> Option<Kept>
    ensures { result ≡ kept_shown volumes.now (Some kept.now) }
{
    match volumes.get(kept.write.volume as usize) {
        Some(volume) => Some(Kept {
            volume: volume.name,
            block: kept.write.block,
            count: (kept.write.bytes.as_bytes().len() / BLOCK) as u32,
            bits: kept.bits,
        }),
        None => None,
    }
}

fn shown_if(config: Option<&Config>, kept: Option<KeptWrite>) -> Option<Kept>
    ensures { result ≡ kept_shown (volumes_of (option_copied config.entry)) kept }
{
    match kept {
        Some(kept) => match config {
            Some(config) => shown(config.volumes.as_slice(), &kept),
            None => None,
        },
        None => None,
    }
}

// A group that came up goes down again, as what is kept of its write cannot be read.
fn fall_again<R: Rack>(
    yard: &mut Yard<R>,
    alloc: Global,
    site: usize,
    stop: Stop,
) -> Result<Said, OutOfMemory>
    requires facts { site < length yard.old.facts.items }
    ensures facts { (f : Facts) → slice_get yard.old.facts.items site ≡ Some f → yard.new.facts.items ≡ slice_set yard.old.facts.items site (down_fact f) }
    ensures assemblies { LetGo site yard.old.assemblies.items yard.new.assemblies.items }
    ensures same { KeepsRest yard.old yard.new }
    ensures said { result ≡ reply_to stop }
{
    let_go(&mut yard.assemblies, site);
    facts::go_down(alloc, &mut yard.facts[site]);
    stopped(stop)
}

// A group that came up says how it stands, and what is kept of the write that was cut. Where a disk fails in that, the site is down again.
fn stand_up<R: Rack>(
    yard: &mut Yard<R>,
    alloc: Global,
    site: usize,
    room: RiseRoom,
    cut: Option<CutWrite>,
) -> Result<Said, OutOfMemory>
    requires facts { site < length yard.old.facts.items }
    requires disk_set { site < length yard.old.disk_sets.items }
    requires volumes { room.volumes ≡ [] }
    requires disks { room.views.disks ≡ [] }
    requires views { room.views.volumes ≡ [] }
    ensures stood { StoodUp site cut yard.old yard.new result }
{
    note_up(yard, site, room.volumes);
    let disk_set = mem::replace(&mut yard.disk_sets[site], DiskSet::Gone);
    let (disk_set, looked) = disk_set.look_at_cut(cut);
    yard.disk_sets[site] = disk_set;
    match looked {
        Ok(kept) => {
            let kept = shown_if(yard.disk_sets[site].config(), kept);
            Ok(Said::Resumed(view_at(yard, alloc, site, room.views), kept))
        }
        Err(stop) => fall_again(yard, alloc, site, stop),
    }
}

// Imports the group of a site that is down, and says how it stands.
fn rise<R: Rack>(
    yard: &mut Yard<R>,
    alloc: Global,
    site: usize,
    room: RiseRoom,
) -> Result<Said, OutOfMemory>
    requires facts { site < length yard.old.facts.items }
    requires disk_set { site < length yard.old.disk_sets.items }
    requires volumes { room.volumes ≡ [] }
    requires disks { room.views.disks ≡ [] }
    requires views { room.views.volumes ≡ [] }
    ensures rises { (e : Doubted) → StandsFor e yard.old → site < e.world.sites → is_over_group (e.world.nodes site) ≡ true → (e.world.nodes site).state ≡ DownState → RisesBeside e site yard.old yard.new result }
    ensures rests { (d : Doubted) (kept : ℕ) (taken : Bool) (name : List ℕ) → RestsSo d site kept taken → StandsFor (rests_as d site kept taken) yard.old → site < (rests_as d site kept taken).world.sites → is_over_rvg ((rests_as d site kept taken).world.nodes site) ≡ true → ((rests_as d site kept taken).world.nodes site).state ≡ DownState → RaisesIs d (Recover name) site kept taken yard.old yard.new result }
    ensures failing { OfSite SameFailing site yard.old yard.new }
    ensures told { IsTold yard.new → IsTold yard.old }
    ensures files { in_files yard.new ≡ in_files yard.old }
{
    let disk_set = mem::replace(&mut yard.disk_sets[site], DiskSet::Gone);
    let (disk_set, came) = disk_set.raise_group(alloc);
    yard.disk_sets[site] = disk_set;
    match came {
        Ok(cut) => stand_up(yard, alloc, site, room, cut),
        Err(stop) => group_stopped(yard, alloc, site, stop),
    }
}

/// Recovers a site whose disks are a group: one that is up crashes first. Where memory runs out in its import, the site is down, and nothing else is
/// done.
pub fn recover_line<R: Rack>(
    yard: &mut Yard<R>,
    alloc: Global,
    name: &Name,
) -> Result<Said, OutOfMemory>
    requires kept { IsYardKept yard.old }
    requires free { IsFree yard.old (Recover name.now) }
    ensures beside { (d : Doubted) → StandsFor d yard.old → is_for_group d.world (Recover name.now) ≡ true → LeadsBesideIs d (Recover name.now) yard.old yard.new result }
    ensures above { (d : Doubted) → StandsFor d yard.old → is_for_rvg d.world (Recover name.now) ≡ true → LeadsAboveIs d (Recover name.now) yard.old yard.new result }
    ensures asked { (d : Doubted) → StandsFor d yard.old → is_for_group d.world (Recover name.now) ≡ true → AsAsked d.world (Recover name.now) yard.old yard.new }
    ensures told { IsTold yard.new → IsTold yard.old }
    ensures files { in_files yard.new ≡ in_files yard.old }
{
    let room = RiseRoom::new(alloc)?;
    let site = yard.site_of(name);
    match yard.facts[site].state {
        SiteState::Up => {
            go_down(yard, alloc, site, u64::MAX);
            rise(yard, alloc, site, room)
        }
        _ => rise(yard, alloc, site, room),
    }
}
