// Writes and reads of the volumes of a site's group.
ghost use Rattle.std.specs.Prelude.{◌≡◌, IsTrue, length};
ghost use Rattle.vx_history.specs.Groups.{GroupNode};
ghost use Rattle.vx_history.specs.World.{Node};
ghost use Rattle.vx_grouped.specs.Ends.{plain_write};
ghost use Rattle.vx_grouped.specs.GroupSites.{FitsPlain, GroupUp, UpNoted, site_below, site_disks};
ghost use Rattle.vx_disk.specs.Moves.{Nowhere};
ghost use Rattle.vx_disk.specs.Shelf.{Covers};
ghost use Rattle.vx_grouped.specs.Volumes.{SiteGoes};
ghost use Rattle.vx_grouped.specs.SiteEnds.{PlainRead, PlainWrote, is_off};
ghost use Rattle.vx_grouped.specs.SiteMaps.{StaysMapped, WroteMapped};
ghost use Rattle.vx_untold.specs.Shades.{rack_of, shade_meaning};
ghost use Rattle.vx_watched.specs.Since.{CalledSince};
ghost use Rattle.vx_watched.specs.Traces.{TellsLess};

use crate::watching::{read_watched, write_watched};
use crate::{GroupSite, Laid};
use std::mem;
use vx_disk::Rack;
use vx_model::No;

/// Whether the disks were found down.
pub fn is_off(no: &No) -> bool
    ensures { result ≡ is_off no.now }
{
    matches!(no, No::Down)
}

// Writes whole blocks to a volume, and makes them durable. A site whose fuse runs out crashes.
fn write_site<R: Rack>(
    laid: Laid<R>,
    vol: u32,
    block: u64,
    bytes: &[u8],
) -> (GroupSite<R>, Result<(), No>)
    ensures wrote { (n : Node) (note : GroupNode) → GroupUp n note (R.meaning (rack_of laid.shelf)).tells laid.core (shade_meaning (λ s. R.meaning s) laid.shelf) → FitsPlain note vol block (length bytes.now) → PlainWrote n note (plain_write vol block bytes.now) (GroupSite.Up laid) result.0 result.1 }
    ensures maps { (n : Node) (note : GroupNode) → GroupUp n note (R.meaning (rack_of laid.shelf)).tells laid.core (shade_meaning (λ s. R.meaning s) laid.shelf) → FitsPlain note vol block (length bytes.now) → WroteMapped (plain_write vol block bytes.now) (GroupSite.Up laid) result.0 result.1 }
    ensures volumes { SiteGoes (Covers vol block bytes.now) (GroupSite.Up laid) result.0 }
    ensures since { CalledSince (shade_meaning (λ s. R.meaning s) laid.shelf) (site_disks result.0) }
    ensures told { TellsLess (R.meaning (rack_of laid.shelf)) (site_below result.0) }
{
    if !laid.fits(vol, block, bytes.len()) {
        return (GroupSite::Up(laid), Err(No::Role));
    }
    let (laid, answer) = write_watched(laid, vol, block, bytes);
    match answer {
        Ok(()) => (GroupSite::Up(laid), Ok(())),
        Err(no) => {
            if is_off(&no) {
                return (GroupSite::Down(laid.crash(u64::MAX)), Err(no));
            }
            (GroupSite::Up(laid), Err(no))
        }
    }
}

// Reads whole blocks of a volume.
fn read_site<R: Rack>(
    laid: Laid<R>,
    vol: u32,
    block: u64,
    into: &mut [u8],
) -> (GroupSite<R>, Result<(), No>)
    ensures read { (n : Node) (note : GroupNode) → GroupUp n note (R.meaning (rack_of laid.shelf)).tells laid.core (shade_meaning (λ s. R.meaning s) laid.shelf) → FitsPlain note vol block (length into.old) → PlainRead n note vol block into.new (GroupSite.Up laid) result.0 result.1 }
    ensures maps { (n : Node) (note : GroupNode) → GroupUp n note (R.meaning (rack_of laid.shelf)).tells laid.core (shade_meaning (λ s. R.meaning s) laid.shelf) → FitsPlain note vol block (length into.old) → StaysMapped (GroupSite.Up laid) result.0 }
    ensures volumes { SiteGoes Nowhere (GroupSite.Up laid) result.0 }
    ensures since { CalledSince (shade_meaning (λ s. R.meaning s) laid.shelf) (site_disks result.0) }
    ensures told { TellsLess (R.meaning (rack_of laid.shelf)) (site_below result.0) }
{
    if !laid.fits(vol, block, into.len()) {
        return (GroupSite::Up(laid), Err(No::Role));
    }
    let (laid, answer) = read_watched(laid, vol, block, into);
    match answer {
        Ok(()) => (GroupSite::Up(laid), Ok(())),
        Err(no) => (GroupSite::Up(laid), Err(no)),
    }
}

impl<R: Rack> GroupSite<R> {
    /// Whether so many bytes from a block of a volume on are whole blocks of it.
    pub fn fits(&self, vol: u32, block: u64, count: usize) -> bool
        ensures is { (n : Node) (note : GroupNode) → UpNoted n note self.now → IsTrue result → FitsPlain note vol block count }
        ensures all { (n : Node) (note : GroupNode) → UpNoted n note self.now → FitsPlain note vol block count → IsTrue result }
    {
        match self {
            GroupSite::Up(group) => group.fits(vol, block, count),
            GroupSite::Deported(_) | GroupSite::Down(_) | GroupSite::Marked(_) | GroupSite::Gone =>
                false,
        }
    }

    /// Writes whole blocks to a volume of the group, by its place in the configuration, and makes them durable. Plexes may be detached, of which
    /// a disk failed. A site whose fuse runs out crashes.
    ///
    /// Answers 7 only where the count of the disk that it names rose, and 6 only where the fuse ran out: each block of the write is then as it
    /// was or as it was to be. Nothing else is answered.
    pub fn write(&mut self, vol: u32, block: u64, bytes: &[u8]) -> Result<(), No>
        ensures wrote { (n : Node) (note : GroupNode) → UpNoted n note self.old → FitsPlain note vol block (length bytes.now) → PlainWrote n note (plain_write vol block bytes.now) self.old self.new result }
        ensures maps { (n : Node) (note : GroupNode) → UpNoted n note self.old → FitsPlain note vol block (length bytes.now) → WroteMapped (plain_write vol block bytes.now) self.old self.new result }
        ensures volumes { SiteGoes (Covers vol block bytes.now) self.old self.new }
        ensures since { CalledSince (site_disks self.old) (site_disks self.new) }
        ensures told { TellsLess (site_below self.old) (site_below self.new) }
    {
        match mem::replace(self, GroupSite::Gone) {
            GroupSite::Up(group) => {
                let (site, answer) = write_site(group, vol, block, bytes);
                *self = site;
                answer
            }
            other => {
                *self = other;
                Err(No::Role)
            }
        }
    }

    /// Reads whole blocks of a volume of the group, by its place in the configuration: of each a value that it may have.
    ///
    /// Answers 7 only where the count of the disk that it names rose. Nothing else is answered.
    pub fn read(&mut self, vol: u32, block: u64, into: &mut [u8]) -> Result<(), No>
        ensures read { (n : Node) (note : GroupNode) → UpNoted n note self.old → FitsPlain note vol block (length into.old) → PlainRead n note vol block into.new self.old self.new result }
        ensures maps { (n : Node) (note : GroupNode) → UpNoted n note self.old → FitsPlain note vol block (length into.old) → StaysMapped self.old self.new }
        ensures volumes { SiteGoes Nowhere self.old self.new }
        ensures since { CalledSince (site_disks self.old) (site_disks self.new) }
        ensures told { TellsLess (site_below self.old) (site_below self.new) }
    {
        match mem::replace(self, GroupSite::Gone) {
            GroupSite::Up(group) => {
                let (site, answer) = read_site(group, vol, block, into);
                *self = site;
                answer
            }
            other => {
                *self = other;
                Err(No::Role)
            }
        }
    }
}
