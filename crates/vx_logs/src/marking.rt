// Marks in the dirty region log of a volume.
ghost use Rattle.std.specs.Prelude.{◌≡◌, ◌≤◌, true};
ghost use Rattle.vx_disk.specs.Shelf.{Goes};
ghost use Rattle.vx_logs.specs.Dirtying.{DrlAnswers, DrlAt, DrlHas, DrlHolds, DrlKeeps, DrlWithin};

use vx_disk::Shelf;
use vx_drl::Drl;
use vx_model::No;

/// Marks the regions from `first` to `last`, both included, durably, where there is a log. Answers whether it was lost. It makes no device
/// call where all are marked.
///
/// Refusal 6, where the shelf is down.
pub(crate) fn mark_dirty<S: Shelf>(
    drl: &mut Option<Drl>,
    shelf: &mut S,
    first: u64,
    last: u64,
) -> Result<bool, No>
    requires has { DrlHas last drl.old (S.meaning shelf.old) }
    requires some { first ≤ last }
    ensures writes { Goes (DrlAt first last true drl.old (S.meaning shelf.old)) (S.meaning shelf.old) (S.meaning shelf.new) }
    ensures answers { DrlAnswers first last drl.old drl.new (S.meaning shelf.old) (S.meaning shelf.new) result }
    ensures keeps { DrlKeeps drl.old drl.new }
    ensures within { DrlWithin first last drl.old drl.new }
    ensures nothing { DrlHolds first last drl.old → shelf.new ≡ shelf.old }
{
    match drl {
        Some(log) => match log.mark(shelf, first, last) {
            Ok(()) => Ok(false),
            Err(No::Device { .. }) => {
                *drl = None;
                Ok(true)
            }
            Err(no) => Err(no),
        },
        None => Ok(false),
    }
}
