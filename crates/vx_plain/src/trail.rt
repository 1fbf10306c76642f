// All that an engine was asked and said, without bytes.
ghost use Rattle.std.specs.Prelude.{◌≡◌, [], ◌∷◌, ◌++◌};
ghost use Rattle.vx_plain.specs.Trails.{event, trail_of};

use std::snapshot::Snapshot;
use vx_turn::Last;

/// What was asked and said last, and what came before it.
#[derive(Drop)]
pub struct Note {
    pub last: Last,
    pub before: Snapshot<Option<Note>>,
}

/// No event.
pub(crate) fn unused() -> Snapshot<Option<Note>>
    ensures { trail_of result.value ≡ [] }
{
    let none: Option<Note> = None;
    let noted = Snapshot::of(&none);
    noted
}

/// One event more.
pub fn noted(before: Snapshot<Option<Note>>, last: Last) -> Snapshot<Option<Note>>
    ensures { trail_of result.value ≡ trail_of before.value ++ event last ∷ [] }
{
    let note = Some(Note { last, before });
    let after = Snapshot::of(&note);
    after
}
