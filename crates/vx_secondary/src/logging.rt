// The logging of updates that wait.
ghost use Rattle.std.specs.Prelude.{◌≡◌, ◌+◌, ◌<◌, ◌≤◌, ℕ, [], ◌∷◌, None, OnOk, IfErr, drop, length, take, true};
ghost use Rattle.vx_rvg.specs.Contents.{write_of_update};
ghost use Rattle.vx_secondary.specs.Logging.{EndsLogging, EndsAfter, LogsAll, Step};
ghost use Rattle.vx_secondary.specs.Receivers.{Wait, can_log, writes_of_updates};

use crate::Waiting;
use crate::room::make_room;
use vx_disk::Shelf;
use vx_model::limits::BLOCK;
use vx_model::{No, Update};
use vx_rvg::Rvg;

// Logs the write of an update. It makes room for it where there is none.
fn log_one<S: Shelf>(rvg: &mut Rvg<S>, update: &Update) -> Result<(), No>
    requires running { rvg.old.core.halted ≡ None }
    requires fits { can_log rvg.old.core (S.meaning rvg.old.shelf).size update.now ≡ true }
    ensures step { Step (write_of_update update.now ∷ []) rvg.old.core rvg.new.core (S.meaning rvg.old.shelf) (S.meaning rvg.new.shelf) }
    ensures logs { OnOk result (LogsAll (write_of_update update.now ∷ []) rvg.old.core rvg.new.core (S.meaning rvg.old.shelf) (S.meaning rvg.new.shelf)) }
    ensures ends { IfErr result (EndsLogging 0 rvg.old.core rvg.new.core (S.meaning rvg.old.shelf) (S.meaning rvg.new.shelf)) }
{
    let bytes = update.bytes.as_bytes();
    make_room(rvg, (bytes.len() / BLOCK) as u64)?;
    // For its bound.
    let _ring = rvg.ring();
    rvg.write(update.vol, update.block, bytes, 0)?;
    Ok(())
}

/// Logs the oldest of the updates that wait, so many of them, in their order. They wait no longer.
pub(crate) fn log_oldest<S: Shelf>(
    rvg: &mut Rvg<S>,
    waiting: &mut Waiting,
    count: u32,
) -> Result<(), No>
    requires running { rvg.old.core.halted ≡ None }
    requires waits { Wait rvg.old.core (S.meaning rvg.old.shelf).size waiting.old }
    requires some { count ≤ length waiting.old }
    ensures step { Step (writes_of_updates (take count waiting.old)) rvg.old.core rvg.new.core (S.meaning rvg.old.shelf) (S.meaning rvg.new.shelf) }
    ensures logs { OnOk result (LogsAll (writes_of_updates (take count waiting.old)) rvg.old.core rvg.new.core (S.meaning rvg.old.shelf) (S.meaning rvg.new.shelf)) }
    ensures left { OnOk result (waiting.new ≡ drop count waiting.old) }
    ensures ends { IfErr result (EndsAfter count waiting.old waiting.new rvg.old.core rvg.new.core (S.meaning rvg.old.shelf) (S.meaning rvg.new.shelf)) }
    ensures waits { Wait rvg.new.core (S.meaning rvg.new.shelf).size waiting.new }
{
    for _ in 0..count {
        let Some(update) = waiting.get(0) else {
            unreachable!()
        };
        log_one(rvg, update)?;
        waiting.pop();
    }
    Ok(())
}
