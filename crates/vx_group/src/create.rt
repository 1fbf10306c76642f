// A new group.
ghost use Rattle.std.specs.Prelude.{◌≡◌, ◌<◌, ◌≤◌, ℕ, true, false, length, Err};
ghost use Rattle.vx_copies.specs.Bodies.{have_blocks};
ghost use Rattle.vx_copies.specs.Marks.{failed_at};
ghost use Rattle.vx_copyio.specs.Labelling.{AreLarge, HasSmall};
ghost use Rattle.vx_group.specs.Creates.{Created, IsReady, SameUnits};
ghost use Rattle.vx_model.specs.declared.errors.Stop.TheVariants.{No as Refused};
ghost use Rattle.vx_model.specs.declared.limits.TheConstants.{MOST_DISKS};
ghost use Rattle.vx_model.specs.declared.no.No.TheVariants.{Size};

use crate::inner::Inner;
use crate::marking::is_committed;
use std::alloc::Global;
use vx_config::{Config, DiskEntry, Disks, Volumes};
use vx_copies::{Room, good_of};
use vx_copyio::{are_large, clear, label};
use vx_disk::{Shelf, refusal};
use vx_kept::commit_first;
use vx_model::limits::MOST_VOLUMES;
use vx_model::{No, Stop};

// The disks of a shelf, held as good.
fn disks_of<S: Shelf>(shelf: &S) -> Disks
    requires few { (S.meaning shelf.now).units ≤ MOST_DISKS }
    ensures count { length result ≡ (S.meaning shelf.now).units }
    ensures sized { have_blocks (S.meaning shelf.now).size 0 result ≡ true }
    ensures good { (u : ℕ) → failed_at result u ≡ false }
{
    let mut disks = Disks::new();
    for unit in 0..shelf.units() {
        disks.push(DiskEntry {
            blocks: shelf.size(unit),
            failed: false,
        });
    }
    disks
}

// Writes labels, and zeros over the headers that an earlier group left.
fn prepare<S: Shelf>(shelf: &mut S, site: u32) -> Result<(), Stop>
    requires large { AreLarge (S.meaning shelf.old) }
    ensures counts { (d : ℕ) → (S.meaning shelf.old).disk_faults d ≤ (S.meaning shelf.new).disk_faults d }
    ensures faults { (u : ℕ) → (S.meaning shelf.old).faults u ≤ (S.meaning shelf.new).faults u }
    ensures same { SameUnits (S.meaning shelf.old) (S.meaning shelf.new) }
    ensures ready { IsReady (S.meaning shelf.old) (S.meaning shelf.new) result }
{
    match clear(shelf) {
        Ok(()) => {}
        Err(error) => return Err(Stop::No(refusal(error))),
    }
    label(shelf, site)
}

/// Makes a group without volumes of the disks of a shelf.
///
/// Answers 4 exactly where a disk has fewer than 1,024 blocks, and then nothing has changed; else 7 only where the count of the disk that
/// it names rose, and 6 only where the shelf is then down. It takes memory.
pub fn start<S: Shelf>(alloc: Global, shelf: &mut S, site: u32) -> Result<Inner, Stop>
    requires some { 0 < (S.meaning shelf.old).units }
    requires few { (S.meaning shelf.old).units ≤ MOST_DISKS }
    ensures small { HasSmall (S.meaning shelf.old) → result ≡ Err (Refused Size) }
    ensures unchanged { HasSmall (S.meaning shelf.old) → shelf.new ≡ shelf.old }
    ensures same { SameUnits (S.meaning shelf.old) (S.meaning shelf.new) }
    ensures created { Created site (S.meaning shelf.old) (S.meaning shelf.new) result }
{
    if !are_large(shelf) {
        return Err(Stop::No(No::Size));
    }
    let mut config = Config {
        serial: 0,
        site,
        disks: disks_of(shelf),
        volumes: Volumes::new(alloc),
        rvg: None,
    };
    let mut room = match Room::new(alloc, &config) {
        Ok(room) => room,
        Err(_) => return Err(Stop::OutOfMemory),
    };
    match prepare(shelf, site) {
        Ok(()) => {}
        Err(stop) => return Err(stop),
    }
    let good = good_of(&config.disks);
    match commit_first(shelf, &mut config, good, &mut room) {
        Ok(()) => {}
        Err(no) => return Err(Stop::No(no)),
    }
    let good = good_of(&config.disks);
    let committed = is_committed(false, &config.disks);
    Ok(Inner {
        config,
        good,
        room,
        unsettled: false,
        committed,
        agreed: committed,
        next: [0; MOST_VOLUMES],
        faults: [0; MOST_VOLUMES],
        unsure: [false; MOST_VOLUMES],
    })
}
