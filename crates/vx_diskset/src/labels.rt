// The labels of a group on the disks of a bare site: whether there are some, and how they are taken off.
ghost use Rattle.std.specs.Prelude.{◌≡◌, ◌<◌, ◌≤◌, ℕ, false, IfErr, IsTrue};
ghost use Rattle.vx_copyio.specs.Labelling.{AreLarge};
ghost use Rattle.vx_disk.specs.Causes.{DeviceCause, refusal_of};
ghost use Rattle.vx_disk.specs.Shelf.{Goes, Keeps, Nothing};
ghost use Rattle.vx_history.specs.World.{Node};
ghost use Rattle.vx_model.specs.Content.{zero_block};
ghost use Rattle.vx_disk.specs.Spends.{Spends};
ghost use Rattle.vx_diskset.specs.Stands.{IsCleanAt};
ghost use Rattle.vx_diskset.specs.Unlabels.{HasNoFront, Unlabels};
ghost use Rattle.vx_diskset.specs.Zeros.{OnlyZeros};

use vx_copyfmt::{LabelSeen, get_label};
use vx_copyio::are_large;
use vx_disk::{Rack, ShelfError, refusal};
use vx_model::No;
use vx_model::limits::BLOCK;

// Whether a disk that can be read has a label. Of zeros it is known that they are none.
fn has_label_at<R: Rack>(rack: &mut R, disk: u32) -> bool
    requires there { disk < (R.meaning rack.old).units }
    requires some { 0 < (R.meaning rack.old).size disk }
    ensures none { IsTrue (R.meaning rack.old).tells → Keeps (R.meaning rack.old) disk 0 zero_block → result ≡ false }
    ensures goes { Goes Nothing (R.meaning rack.old) (R.meaning rack.new) }
    ensures spends { Spends (R.meaning rack.old) (R.meaning rack.new) }
{
    let mut block = [0; BLOCK];
    match rack.read(disk, 0, &mut block) {
        Ok(()) => !matches!(get_label(&block), LabelSeen::Other),
        Err(_) => false,
    }
}

// The same of any of the disks.
fn any_label<R: Rack>(rack: &mut R) -> bool
    requires large { AreLarge (R.meaning rack.old) }
    ensures none { IsTrue (R.meaning rack.old).tells → HasNoFront (R.meaning rack.old) → result ≡ false }
    ensures goes { Goes Nothing (R.meaning rack.old) (R.meaning rack.new) }
    ensures spends { Spends (R.meaning rack.old) (R.meaning rack.new) }
{
    for disk in 0..rack.units() {
        if has_label_at(rack, disk) {
            return true;
        }
    }
    false
}

/// Whether one of the disks that can be read has a label of a group.
pub(crate) fn has_label<R: Rack>(rack: &mut R) -> bool
    ensures none { IsTrue (R.meaning rack.old).tells → HasNoFront (R.meaning rack.old) → result ≡ false }
    ensures goes { Goes Nothing (R.meaning rack.old) (R.meaning rack.new) }
    ensures spends { Spends (R.meaning rack.old) (R.meaning rack.new) }
{
    if are_large(rack) {
        any_label(rack)
    } else {
        false
    }
}

// Writes zeros over the first block of a disk, and flushes them.
fn zero_front<R: Rack>(rack: &mut R, disk: u32) -> Result<(), ShelfError>
    requires there { disk < (R.meaning rack.old).units }
    requires some { 0 < (R.meaning rack.old).size disk }
    ensures goes { Goes OnlyZeros (R.meaning rack.old) (R.meaning rack.new) }
    ensures spends { Spends (R.meaning rack.old) (R.meaning rack.new) }
    ensures cause { IfErr result (λ e. DeviceCause (R.meaning rack.old) (R.meaning rack.new) (refusal_of e)) }
{
    match rack.write(disk, 0, &[0; BLOCK]) {
        Ok(()) => rack.flush(disk),
        Err(error) => Err(error),
    }
}

// Writes zeros over the label of a disk, and flushes them. A disk without one is not written.
fn unlabel<R: Rack>(rack: &mut R, disk: u32) -> Result<(), No>
    requires there { disk < (R.meaning rack.old).units }
    requires some { 0 < (R.meaning rack.old).size disk }
    ensures zeroes { Unlabels (R.meaning rack.old) (R.meaning rack.new) }
    ensures cause { IfErr result (DeviceCause (R.meaning rack.old) (R.meaning rack.new)) }
{
    if has_label_at(rack, disk) {
        match zero_front(rack, disk) {
            Ok(()) => Ok(()),
            Err(error) => Err(refusal(error)),
        }
    } else {
        Ok(())
    }
}

// The same of each disk.
fn unlabel_disks<R: Rack>(rack: &mut R) -> Result<(), No>
    requires large { AreLarge (R.meaning rack.old) }
    ensures zeroes { Unlabels (R.meaning rack.old) (R.meaning rack.new) }
    ensures cause { IfErr result (DeviceCause (R.meaning rack.old) (R.meaning rack.new)) }
{
    for disk in 0..rack.units() {
        match unlabel(rack, disk) {
            Ok(()) => {}
            Err(no) => return Err(no),
        }
    }
    Ok(())
}

/// Takes the labels off the disks that can be read, so that no group is found on them. Disks without labels are not written.
pub(crate) fn unlabel_all<R: Rack>(rack: &mut R) -> Result<(), No>
    ensures clean { (n : Node) → IsCleanAt n (R.meaning rack.old) → IsCleanAt n (R.meaning rack.new) }
    ensures cause { IfErr result (DeviceCause (R.meaning rack.old) (R.meaning rack.new)) }
    ensures spends { Spends (R.meaning rack.old) (R.meaning rack.new) }
    ensures counts { (d : ℕ) → (R.meaning rack.old).disk_faults d ≤ (R.meaning rack.new).disk_faults d }
    ensures tells { (R.meaning rack.new).tells ≡ (R.meaning rack.old).tells }
{
    if are_large(rack) {
        unlabel_disks(rack)
    } else {
        Ok(())
    }
}
