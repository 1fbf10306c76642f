// A group that is deported.
ghost use Rattle.std.specs.Prelude.{◌-◌, ◌<◌, ◌≤◌, IfOk, IsTrue, None};
ghost use Rattle.vx_config.specs.Table.{greatest};
ghost use Rattle.vx_group.specs.Calls.{GroupDeported, IsFull};
ghost use Rattle.vx_group.specs.Deports.{DeportStops};
ghost use Rattle.vx_group.specs.Dets.{margin};
ghost use Rattle.vx_grouped.specs.CoreMoves.{DeportCan, DeportMoves};
ghost use Rattle.vx_grouped.specs.Ends.{DeportLeaves};
ghost use Rattle.vx_grouped.specs.GroupNotes.{IsGroupAt};
ghost use Rattle.vx_grouped.specs.PlainMaps.{LeavesMaps, map_parts};
ghost use Rattle.vx_history.specs.Groups.{GroupNode};
ghost use Rattle.vx_history.specs.World.{Node};
ghost use Rattle.vx_loggroup.specs.Opens.{DeportTells};

use vx_disk::Shelf;
use vx_loggroup::LoggedGroup;
use vx_logimport::Rested;
use vx_model::{No, Stop};

/// Deports a group that is up, and hands its disks out, with which volumes are as this left them; that is none where logs were stopped. A refusal gives
/// the group back; disks that are down behind it answer so.
///
/// Answers 19 as the group does, and then nothing has changed; else 7 only where the count of the disk that it names rose, and 6 only where the
/// shelf is then down.
pub fn deport_group<S: Shelf>(
    group: LoggedGroup<S>,
) -> Result<(S, Option<Rested>), (LoggedGroup<S>, Stop)>
    requires up { IsTrue (S.meaning group.shelf).down → ⊥ }
    ensures limit { greatest - margin < group.core.inner.config.serial → IsFull group.core (group.shelf, None) (λ g. g.core) (λ g. (g.shelf, None)) result }
    ensures ends { GroupDeported group.core (S.meaning group.shelf) (λ s. S.meaning s.0) (λ g. g.core) (λ g. (g.shelf, None)) result }
    ensures up { IfOk result (λ s. IsTrue (S.meaning s.0).down → ⊥) }
    ensures leaves { (n : Node) (note : GroupNode) → IsGroupAt n note group.core (S.meaning group.shelf) → DeportLeaves n note group.core (λ s. S.meaning s.0) (λ g. g.core) (λ g. S.meaning g.shelf) result }
    ensures can { DeportCan group.core (λ s. S.meaning s.0) result }
    ensures tells { DeportTells (λ s. S.meaning s) result }
    ensures maps { LeavesMaps (map_parts group.core.inner.config group.logs.items group.alike group.stopped) (S.meaning group.shelf) (λ s. S.meaning s) (λ g. map_parts g.core.inner.config g.logs.items g.alike g.stopped) (λ g. S.meaning g.shelf) result }
    ensures moves { DeportMoves group.core (S.meaning group.shelf) (λ s. S.meaning s.0) (λ g. g.core) (λ g. S.meaning g.shelf) result }
    ensures cause { group.core.inner.config.serial ≤ greatest - margin → DeportStops (S.meaning group.shelf) (λ s. S.meaning s.0) (λ g. (g.shelf, None)) result }
{
    match group.deport() {
        Ok((rack, rested)) => Ok((rack, rested)),
        Err((group, stop)) => {
            if group.is_down() {
                return Err((group, Stop::No(No::Down)));
            }
            Err((group, stop))
        }
    }
}
