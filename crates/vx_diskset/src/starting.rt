// How a group is made on the disks of a site, and how it is started again.
ghost use Rattle.std.specs.Prelude.{◌≡◌, ◌≤◌, ◌<◌, ◌*◌, ℕ, [], length, None, IfOk, IfErr, IsTrue, IsFalse, List};
ghost use Rattle.vx_disk.specs.Maps.{maps_of};
ghost use Rattle.vx_model.specs.Content.{zero_block};
ghost use Rattle.vx_model.specs.Sizes.{ring_of};
ghost use Rattle.vx_disk.specs.Causes.{DeviceCause};
ghost use Rattle.vx_disk.specs.Shelf.{Goes, Keeps, Nothing};
ghost use Rattle.vx_disk.specs.Spends.{Spends};
ghost use Rattle.vx_ringio.specs.Tracks.{RingLies};
ghost use Rattle.vx_diskset.specs.Holds.{KeptBeside};
ghost use Rattle.vx_history.specs.World.{Node};
ghost use Rattle.vx_diskset.specs.Asked.{SameFailing};
ghost use Rattle.vx_diskset.specs.DiskSets.{Later, CanHold, CanStart, MadeIs, BareUpIs};
ghost use Rattle.vx_diskset.specs.Layouts.{CanBeRaw, IsRoomOf, raw_units as units_of};
ghost use Rattle.vx_diskset.specs.Stands.{IsBareAt, IsCleanAt, IsMarkedAt};

use crate::labels::unlabel_all;
use crate::units::raw_units;
use crate::zeroing::zero_disks;
use crate::{DiskSet, GroupSet};
use std::alloc::Global;
use vx_dcm::room_blocks;
use vx_disk::{Rack, refusal};
use vx_grouped::GroupSite;
use vx_model::limits::{LEAST_BLOCKS, LEAST_RAW_DISKS, LINK_PLACES, MOST_DISKS};
use vx_model::{No, Role, State, Stop, is_origin, map_blocks, ring_blocks};
use vx_ringio::{TopSeen, read_top};
use vx_rvg::{Rvg, StartRoom};
use vx_secondary::{Secondary, Waiting};

// Whether the last of so many disks has room for the maps of the volumes between.
fn has_maps<R: Rack>(rack: &R) -> bool
    requires some { LEAST_RAW_DISKS ≤ (R.meaning rack.now).units }
    requires few { (R.meaning rack.now).units ≤ MOST_DISKS }
    ensures is { IsTrue result → LINK_PLACES * maps_of (units_of (R.meaning rack.now).units).vols (R.meaning rack.now) ≤ (R.meaning rack.now).size (units_of (R.meaning rack.now).units).maps }
    ensures all { LINK_PLACES * maps_of (units_of (R.meaning rack.now).units).vols (R.meaning rack.now) ≤ (R.meaning rack.now).size (units_of (R.meaning rack.now).units).maps → IsTrue result }
{
    let disks = rack.units();
    let mut maps = 0;
    for disk in 1..disks - 1 {
        maps += map_blocks(rack.size(disk));
    }
    LINK_PLACES as u64 * maps <= rack.size(disks - 1)
}

// A raw set on the disks of a bare site. Where it is not made, something of it may stand on them.
fn make_group<R: Rack>(alloc: Global, rack: R, site: u32) -> (DiskSet<R>, Result<(), Stop>)
    ensures made { (n : Node) → IsBareAt n (R.meaning rack) → CanBeRaw n.disks n.blocks → MadeIs site n (DiskSet.Spoiled rack) result.0 result.1 }
    ensures failing { SameFailing (DiskSet.Spoiled rack) result.0 }
    ensures later { Later (DiskSet.Spoiled rack) result.0 }
{
    let disks = rack.units();
    if disks < LEAST_RAW_DISKS || disks > MOST_DISKS || !has_maps(&rack) {
        return (DiskSet::Spoiled(rack), Err(Stop::No(No::Role)));
    }
    match Rvg::create(alloc, rack, &raw_units(disks), &State::first(site)) {
        Ok(rvg) => (DiskSet::Up(rvg), Ok(())),
        Err((rack, stop)) => (DiskSet::Spoiled(rack), Err(stop)),
    }
}

// The same of clean disks, on which a group of an earlier run may stand: its labels are taken off first.
fn make_unlabelled<R: Rack>(alloc: Global, rack: R, site: u32) -> (DiskSet<R>, Result<(), Stop>)
    ensures made { (n : Node) → IsCleanAt n (R.meaning rack) → CanBeRaw n.disks n.blocks → MadeIs site n (DiskSet.Bare rack) result.0 result.1 }
    ensures failing { SameFailing (DiskSet.Bare rack) result.0 }
    ensures later { Later (DiskSet.Bare rack) result.0 }
{
    let mut rack = rack;
    match unlabel_all(&mut rack) {
        Ok(()) => make_group(alloc, rack, site),
        Err(no) => (DiskSet::Bare(rack), Err(Stop::No(no))),
    }
}

// The same of disks on which a group was begun: they are written over first.
fn make_zeroed<R: Rack>(alloc: Global, rack: R, site: u32) -> (DiskSet<R>, Result<(), Stop>)
    ensures made { (n : Node) → IsMarkedAt n (R.meaning rack) → CanBeRaw n.disks n.blocks → MadeIs site n (DiskSet.Spoiled rack) result.0 result.1 }
    ensures failing { SameFailing (DiskSet.Spoiled rack) result.0 }
    ensures later { Later (DiskSet.Spoiled rack) result.0 }
{
    let mut rack = rack;
    match zero_disks(&mut rack) {
        Ok(()) => make_group(alloc, rack, site),
        Err(error) => (
            DiskSet::OfGroup(GroupSet {
                site: GroupSite::Marked(rack),
                cut: None,
            }),
            Err(Stop::No(refusal(error))),
        ),
    }
}

// Whether a header of a log stands in this block of disk 0. The log of a bunker is none of a raw set.
fn is_log<R: Rack>(rack: &mut R, ring: u64, block: u64) -> Result<bool, No>
    requires lies { RingLies 0 ring (R.meaning rack.old) }
    requires header { block < 2 }
    ensures none { IfOk result (λ found. IsTrue (R.meaning rack.old).tells → Keeps (R.meaning rack.old) 0 block zero_block → IsFalse found) }
    ensures goes { Goes Nothing (R.meaning rack.old) (R.meaning rack.new) }
    ensures spends { Spends (R.meaning rack.old) (R.meaning rack.new) }
    ensures cause { IfErr result (DeviceCause (R.meaning rack.old) (R.meaning rack.new)) }
{
    match read_top(rack, 0, ring, block) {
        Ok(TopSeen::Valid(header)) => Ok(!matches!(header.state.role, Role::Bunker)),
        Ok(
            TopSeen::Broken {
                stored: _,
                computed: _,
            },
        ) => Ok(true),
        Ok(TopSeen::Other) => Ok(false),
        Err(error) => Err(refusal(error)),
    }
}

// The same of either of its header blocks.
fn has_log<R: Rack>(rack: &mut R, ring: u64) -> Result<bool, No>
    requires lies { RingLies 0 ring (R.meaning rack.old) }
    ensures none { IfOk result (λ found. IsTrue (R.meaning rack.old).tells → ((b : ℕ) → b < 2 → Keeps (R.meaning rack.old) 0 b zero_block) → IsFalse found) }
    ensures goes { Goes Nothing (R.meaning rack.old) (R.meaning rack.new) }
    ensures spends { Spends (R.meaning rack.old) (R.meaning rack.new) }
    ensures cause { IfErr result (DeviceCause (R.meaning rack.old) (R.meaning rack.new)) }
{
    if is_log(rack, ring, 0)? {
        return Ok(true);
    }
    is_log(rack, ring, 1)
}

// Whether so many blocks are room for the change maps of a raw set on these disks.
fn has_room<R: Rack>(rack: &R, blocks: u64) -> bool
    requires some { LEAST_RAW_DISKS ≤ (R.meaning rack.now).units }
    requires few { (R.meaning rack.now).units ≤ MOST_DISKS }
    requires maps { LINK_PLACES * maps_of (units_of (R.meaning rack.now).units).vols (R.meaning rack.now) ≤ (R.meaning rack.now).size (units_of (R.meaning rack.now).units).maps }
    ensures is { IsTrue result → LINK_PLACES * maps_of (units_of (R.meaning rack.now).units).vols (R.meaning rack.now) ≤ blocks }
    ensures all { LINK_PLACES * maps_of (units_of (R.meaning rack.now).units).vols (R.meaning rack.now) ≤ blocks → IsTrue result }
{
    room_blocks(&raw_units(rack.units()), rack) <= blocks
}

// Whether these are disks on which a raw set can be, for whose log and change maps there is this room.
fn can_hold<R: Rack>(rack: &R, room: &StartRoom) -> bool
    ensures is { IsTrue result → CanHold room.now (R.meaning rack.now) }
    ensures all { CanHold room.now (R.meaning rack.now) → IsTrue result }
{
    let disks = rack.units();
    if disks < LEAST_RAW_DISKS || disks > MOST_DISKS {
        return false;
    }
    let blocks = rack.size(0);
    blocks >= LEAST_BLOCKS
        && room.ring() == ring_blocks(blocks)
        && has_maps(rack)
        && has_room(rack, room.maps())
}

// The same of disks that are down.
fn can_start<R: Rack>(rack: &R, room: &StartRoom) -> bool
    ensures is { IsTrue result → CanStart room.now (R.meaning rack.now) }
    ensures all { CanStart room.now (R.meaning rack.now) → IsTrue result }
{
    rack.is_down() && can_hold(rack, room)
}

// Starts what stands on the disks of a bare site. Where it is refused, the site stays bare.
fn start_bare<R: Rack>(rack: R, room: StartRoom) -> (DiskSet<R>, Result<(), No>)
    ensures found { (n : Node) → IsCleanAt n (R.meaning rack) → CanBeRaw n.disks n.blocks → IsRoomOf n.blocks (ring_of n.blocks) room → BareUpIs n (DiskSet.Bare rack) result.0 result.1 }
    ensures failing { SameFailing (DiskSet.Bare rack) result.0 }
    ensures later { Later (DiskSet.Bare rack) result.0 }
{
    let mut rack = rack;
    if !can_hold(&rack, &room) {
        return (DiskSet::Bare(rack), Err(No::NoConfig));
    }
    let units = raw_units(rack.units());
    match has_log(&mut rack, room.ring()) {
        Ok(true) => {}
        Ok(false) => return (DiskSet::Bare(rack), Err(No::NoConfig)),
        Err(no) => return (DiskSet::Bare(rack), Err(no)),
    }
    match Rvg::start_in(room, rack, &units) {
        Ok(rvg) => (DiskSet::Up(rvg), Ok(())),
        Err((rack, no)) => {
            let mut rack = rack;
            rack.crash(u64::MAX);
            rack.revive();
            (DiskSet::Bare(rack), Err(no))
        }
    }
}

impl<R: Rack> DiskSet<R> {
    ghost use Rattle.vx_model.specs.declared.site.SiteState.TheVariants.{Bare as BareState, Down as DownState};
    ghost use Rattle.vx_diskset.specs.DiskSets.{BareUpByIs, CameUpByIs, CameUpIs};
    ghost use Rattle.vx_diskset.specs.Stands.{IsToldAt, RoleIs, SiteStands};

    /// Makes a bare site's disks a raw set: disk 0 the log, the last disk the maps, and each disk between a volume.
    pub fn make_raw(self, alloc: Global, site: u32) -> (DiskSet<R>, Result<(), Stop>)
        ensures made { (beside : KeptBeside) (n : Node) → SiteStands beside n self → n.state ≡ BareState → CanBeRaw n.disks n.blocks → MadeIs site n self result.0 result.1 }
        ensures failing { SameFailing self result.0 }
        ensures later { Later self result.0 }
    {
        match self {
            DiskSet::Bare(rack) => make_unlabelled(alloc, rack, site),
            DiskSet::Spoiled(rack) => make_group(alloc, rack, site),
            DiskSet::OfGroup(group) => match group.site {
                GroupSite::Marked(rack) => make_zeroed(alloc, rack, site),
                other => (
                    DiskSet::OfGroup(GroupSet {
                        site: other,
                        cut: group.cut,
                    }),
                    Err(Stop::No(No::Role)),
                ),
            },
            other => (other, Err(Stop::No(No::Role))),
        }
    }

    /// Starts what stands on the disks of a site that crashed, with room taken before. Where it is refused, the disks crash again.
    pub fn recover(self, room: StartRoom) -> (DiskSet<R>, Result<(), No>)
        ensures recovered { (beside : KeptBeside) (n : Node) → SiteStands beside n self → n.state ≡ DownState → n.group ≡ None → IsRoomOf n.blocks n.ring room → CameUpIs beside n self result.0 result.1 }
        ensures failing { SameFailing self result.0 }
        ensures later { Later self result.0 }
    {
        match self {
            DiskSet::Down(rack) => {
                let mut rack = rack;
                if !can_start(&rack, &room) {
                    return (DiskSet::Down(rack), Err(No::Role));
                }
                rack.revive();
                let units = raw_units(rack.units());
                match Rvg::start_in(room, rack, &units) {
                    Ok(rvg) => (DiskSet::Up(rvg), Ok(())),
                    Err((rack, no)) => {
                        let mut rack = rack;
                        rack.crash(u64::MAX);
                        (DiskSet::Down(rack), Err(no))
                    }
                }
            }
            other => (other, Err(No::Role)),
        }
    }

    // A site whose group runs and has all its writes: by its role it receives, with this room for what waits, or not.
    fn by_role(self, waiting: Waiting) -> DiskSet<R>
        requires none { waiting ≡ [] }
        ensures rises { (beside : KeptBeside) (n : Node) → SiteStands beside n self → n.halted ≡ None → length n.log ≡ n.safe → SiteStands beside n result }
        ensures role { (beside : KeptBeside) (n : Node) → SiteStands beside n self → RoleIs n result }
        ensures told { IsToldAt result → IsToldAt self }
        ensures failing { SameFailing self result }
        ensures later { Later self result }
    {
        match self {
            DiskSet::Up(rvg) => {
                if is_origin(&rvg.state().role) {
                    DiskSet::Up(rvg)
                } else {
                    DiskSet::Receives(Secondary::together(rvg, waiting))
                }
            }
            other => other,
        }
    }

    /// Starts what stands on the disks of a site that crashed, with room taken before, also for what waits where the site receives. Where
    /// it is refused, the disks crash again.
    pub fn recover_any(self, room: StartRoom, waiting: Waiting) -> (DiskSet<R>, Result<(), No>)
        requires none { waiting ≡ [] }
        ensures recovered { (beside : KeptBeside) (n : Node) → SiteStands beside n self → n.state ≡ DownState → n.group ≡ None → IsRoomOf n.blocks n.ring room → CameUpByIs beside n self result.0 result.1 }
        ensures failing { SameFailing self result.0 }
        ensures later { Later self result.0 }
    {
        let (disk_set, came) = self.recover(room);
        match came {
            Ok(()) => (disk_set.by_role(waiting), Ok(())),
            Err(no) => (disk_set, Err(no)),
        }
    }

    /// Starts what an earlier run left on the disks of a bare site, with room taken before, also for what waits where the site receives.
    /// Where it is refused, the site stays bare.
    pub fn recover_bare_any(self, room: StartRoom, waiting: Waiting) -> (DiskSet<R>, Result<(), No>)
        requires none { waiting ≡ [] }
        ensures found { (beside : KeptBeside) (n : Node) → SiteStands beside n self → n.state ≡ BareState → CanBeRaw n.disks n.blocks → IsRoomOf n.blocks (ring_of n.blocks) room → BareUpByIs n self result.0 result.1 }
        ensures failing { SameFailing self result.0 }
        ensures later { Later self result.0 }
    {
        let (disk_set, came) = self.recover_bare(room);
        match came {
            Ok(()) => (disk_set.by_role(waiting), Ok(())),
            Err(no) => (disk_set, Err(no)),
        }
    }

    /// Starts what an earlier run left on the disks of a bare site, with room taken before. Where it is refused, the site stays bare.
    pub fn recover_bare(self, room: StartRoom) -> (DiskSet<R>, Result<(), No>)
        ensures found { (beside : KeptBeside) (n : Node) → SiteStands beside n self → n.state ≡ BareState → CanBeRaw n.disks n.blocks → IsRoomOf n.blocks (ring_of n.blocks) room → BareUpIs n self result.0 result.1 }
        ensures failing { SameFailing self result.0 }
        ensures later { Later self result.0 }
    {
        match self {
            DiskSet::Bare(rack) => start_bare(rack, room),
            other => (other, Err(No::NoConfig)),
        }
    }
}
