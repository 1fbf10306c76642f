// The labels of the disks of a group.
ghost use Rattle.std.specs.Prelude.{◌≡◌, ◌<◌, ℕ, List, Err, OnOk, IsTrue, IsFalse};
ghost use Rattle.vx_model.specs.declared.errors.Stop.TheVariants.{No as Refused};
ghost use Rattle.vx_model.specs.declared.no.No.TheVariants.{Size};
ghost use Rattle.vx_copyio.specs.Causes.{Failed};
ghost use Rattle.vx_copyio.specs.Labelling.{AreLarge, HasSmall, LabelWritten, Labelled, Labels};
ghost use Rattle.vx_disk.specs.Causes.{Cause};
ghost use Rattle.vx_disk.specs.Shelf.{Goes, Keeps};
ghost use Rattle.vx_copyfmt.specs.Labels.{label_block};
ghost use Rattle.vx_copyio.specs.Labelling.{label_of};

use vx_copyfmt::{Label, put_label};
use vx_disk::{Shelf, ShelfError, put, refusal};
use vx_model::limits::{BLOCK, LEAST_GROUP_BLOCKS};
use vx_model::{No, Stop};

/// Whether each disk is large enough for a group: 1,024 blocks.
pub fn are_large<S: Shelf>(shelf: &S) -> bool
    ensures large { IsTrue result → AreLarge (S.meaning shelf.now) }
    ensures small { IsFalse result → HasSmall (S.meaning shelf.now) }
{
    for unit in 0..shelf.units() {
        if shelf.size(unit) < LEAST_GROUP_BLOCKS {
            return false;
        }
    }
    true
}

// Writes the label of one disk, and makes it durable.
fn write_label<S: Shelf>(shelf: &mut S, site: u32, unit: u32) -> Result<(), ShelfError>
    requires there { unit < (S.meaning shelf.old).units }
    requires some { 0 < (S.meaning shelf.old).size unit }
    ensures goes { Goes (LabelWritten site (S.meaning shelf.old)) (S.meaning shelf.old) (S.meaning shelf.new) }
    ensures only { (u b : ℕ) (v : List ℕ) → (u ≡ unit → ⊥) → (S.meaning shelf.new).leaves u b v → (S.meaning shelf.old).leaves u b v }
    ensures kept { OnOk result (Keeps (S.meaning shelf.new) unit 0 (label_block (label_of site unit ((S.meaning shelf.old).size unit)))) }
    ensures cause { Cause (S.meaning shelf.old) (S.meaning shelf.new) unit result }
{
    let label = Label {
        site,
        disk: unit,
        blocks: shelf.size(unit),
    };
    let mut block = [0; BLOCK];
    put_label(&label, &mut block);
    put(shelf, unit, 0, &block)
}

// Writes all of them, one after the other.
fn write_labels<S: Shelf>(shelf: &mut S, site: u32) -> Result<(), ShelfError>
    requires large { AreLarge (S.meaning shelf.old) }
    ensures goes { Goes (LabelWritten site (S.meaning shelf.old)) (S.meaning shelf.old) (S.meaning shelf.new) }
    ensures labelled { OnOk result (Labelled site (S.meaning shelf.old).units (S.meaning shelf.old) (S.meaning shelf.new)) }
    ensures failed { Failed (S.meaning shelf.old) (S.meaning shelf.new) result }
{
    for unit in 0..shelf.units() {
        write_label(shelf, site, unit)?;
    }
    Ok(())
}

/// Writes a label on each disk, and makes it durable.
///
/// Answers 4 exactly where a disk has fewer than 1,024 blocks, and then nothing has changed; else 7 only where the count of
/// the disk that it names rose, and 6 only where the shelf is then down. After these each label may be old or new.
pub fn label<S: Shelf>(shelf: &mut S, site: u32) -> Result<(), Stop>
    ensures small { HasSmall (S.meaning shelf.old) → result ≡ Err (Refused Size) }
    ensures unchanged { HasSmall (S.meaning shelf.old) → shelf.new ≡ shelf.old }
    ensures goes { Goes (LabelWritten site (S.meaning shelf.old)) (S.meaning shelf.old) (S.meaning shelf.new) }
    ensures labels { AreLarge (S.meaning shelf.old) → Labels site (S.meaning shelf.old) (S.meaning shelf.new) result }
{
    if !are_large(shelf) {
        return Err(Stop::No(No::Size));
    }
    match write_labels(shelf, site) {
        Ok(()) => Ok(()),
        Err(error) => Err(Stop::No(refusal(error))),
    }
}
