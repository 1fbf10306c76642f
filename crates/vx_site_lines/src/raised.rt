// The disks of a site as the line starts them that recovers it, in their place.
ghost use Rattle.std.specs.Prelude.{◌≡◌, []};
ghost use Rattle.vx_diskset.specs.Asked.{SameFailing};
ghost use Rattle.vx_diskset.specs.DiskSets.{Later};
ghost use Rattle.vx_site_lines.specs.Raised.{BareAs, GoesBack, GoesBare, RaisedAs, RoseAs};

use crate::rooms::{Risen, what_rose};
use std::mem;
use vx_disk::Rack;
use vx_diskset::{DiskSet, put_back};
use vx_model::No;
use vx_rvg::StartRoom;
use vx_secondary::Waiting;
use vx_yard::falling::crash_in;

/// What the disks of a site came to that were started.
#[derive(Drop)]
pub enum SetRose {
    Up(Risen),
    /// Their log keeps what the site may not come up with, so they went back.
    Unfit,
    Refused(No),
}

fn raise<R: Rack>(place: &mut DiskSet<R>, room: StartRoom, waiting: Waiting) -> Result<(), No>
    requires none { waiting ≡ [] }
    ensures raised { RaisedAs room place.old place.new result }
    ensures failing { SameFailing place.old place.new }
    ensures later { Later place.old place.new }
{
    let disk_set = mem::replace(place, DiskSet::Gone);
    let (disk_set, came) = disk_set.recover_any(room, waiting);
    put_back(place, disk_set);
    came
}

fn find<R: Rack>(place: &mut DiskSet<R>, room: StartRoom, waiting: Waiting) -> Result<(), No>
    requires none { waiting ≡ [] }
    ensures found { BareAs room place.old place.new result }
    ensures failing { SameFailing place.old place.new }
    ensures later { Later place.old place.new }
{
    let disk_set = mem::replace(place, DiskSet::Gone);
    let (disk_set, came) = disk_set.recover_bare_any(room, waiting);
    put_back(place, disk_set);
    came
}

fn take_back<R: Rack>(place: &mut DiskSet<R>)
    ensures back { GoesBare place.old place.new }
    ensures failing { SameFailing place.old place.new }
    ensures later { Later place.old place.new }
{
    let disk_set = mem::replace(place, DiskSet::Gone);
    put_back(place, disk_set.withdraw());
}

/// Starts the disks of a site that crashed. Where their log keeps what that site may not come up with among so many, they crash again.
pub fn raise_disks<R: Rack>(
    place: &mut DiskSet<R>,
    room: StartRoom,
    waiting: Waiting,
    site: u32,
    sites: u32,
) -> SetRose
    requires none { waiting ≡ [] }
    ensures rose { RoseAs (RaisedAs room) GoesBack site sites place.old place.new result }
    ensures failing { SameFailing place.old place.new }
    ensures later { Later place.old place.new }
{
    match raise(place, room, waiting) {
        Ok(()) => match what_rose(place, site, sites) {
            Some(risen) => SetRose::Up(risen),
            None => {
                crash_in(place, u64::MAX);
                SetRose::Unfit
            }
        },
        Err(no) => SetRose::Refused(no),
    }
}

/// Starts what an earlier run left on the disks of a bare site. Where its log keeps what that site may not come up with among so many, the site is
/// bare again.
pub fn find_disks<R: Rack>(
    place: &mut DiskSet<R>,
    room: StartRoom,
    waiting: Waiting,
    site: u32,
    sites: u32,
) -> SetRose
    requires none { waiting ≡ [] }
    ensures rose { RoseAs (BareAs room) GoesBare site sites place.old place.new result }
    ensures failing { SameFailing place.old place.new }
    ensures later { Later place.old place.new }
{
    match find(place, room, waiting) {
        Ok(()) => match what_rose(place, site, sites) {
            Some(risen) => SetRose::Up(risen),
            None => {
                take_back(place);
                SetRose::Unfit
            }
        },
        Err(no) => SetRose::Refused(no),
    }
}
