// A group that crashes and is imported again, over disks that tell their contents: what an import asks is met.
ghost use Rattle.vx_group.specs.Resumes.{CanImport};

use std::alloc::Global;
use vx_disk::Rack;
use vx_group::{Group, fall, revive};

/// Crashes the disks of a group, and imports it again; nothing where imports may not agree, or where it is refused.
pub fn crash_and_import<R: Rack>(alloc: Global, group: Group<R>, pick: u64) -> Option<Group<R>> {
    if !group.is_agreed() {
        return None;
    }
    let mut rack = group.crash(pick);
    revive(&mut rack);
    match Group::import(alloc, rack) {
        Ok(group) => Some(group),
        Err(_) => None,
    }
}

/// Imports a group, and where that is refused once more, behind a crash of the disks that it hands back; nothing where that is refused too.
pub fn import_again<R: Rack>(alloc: Global, rack: R, pick: u64) -> Option<Group<R>>
    requires can { CanImport (R.meaning rack) }
{
    let mut rack = match Group::import(alloc, rack) {
        Ok(group) => return Some(group),
        Err(back) => back.0,
    };
    fall(&mut rack, pick);
    revive(&mut rack);
    match Group::import(alloc, rack) {
        Ok(group) => Some(group),
        Err(_) => None,
    }
}

/// Crashes the disks of a group, and imports it again, in two tries; nothing where imports may not agree, or where both are refused.
pub fn crash_and_import_again<R: Rack>(
    alloc: Global,
    group: Group<R>,
    pick: u64,
) -> Option<Group<R>> {
    if !group.is_agreed() {
        return None;
    }
    let mut rack = group.crash(pick);
    revive(&mut rack);
    import_again(alloc, rack, pick)
}

/// The same over disks that fall in the first try, behind so many of its writes and flushes.
pub fn cut_and_import<R: Rack>(
    alloc: Global,
    group: Group<R>,
    calls: u64,
    pick: u64,
) -> Option<Group<R>> {
    if !group.is_agreed() {
        return None;
    }
    let mut rack = group.crash(pick);
    revive(&mut rack);
    rack.fuse(calls, pick);
    import_again(alloc, rack, pick)
}
