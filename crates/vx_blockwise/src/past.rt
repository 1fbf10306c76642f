// What a shelf was at earlier moments, for contracts alone. It has no bytes.
ghost use Rattle.std.specs.Prelude.{◌≡◌, [], ◌∷◌, ◌++◌};
ghost use Rattle.vx_blockwise.specs.Pasts.{shelves_of};

use std::mem::replace;
use std::snapshot::Snapshot;

/// What the shelf was at one moment, and at those before it.
#[derive(Drop)]
pub struct Past<S> {
    pub shelf: Snapshot<S>,
    pub before: Snapshot<Option<Past<S>>>,
}

/// No moment.
pub(crate) fn none<S>() -> Snapshot<Option<Past<S>>>
    ensures { shelves_of result.value ≡ [] }
{
    let past: Option<Past<S>> = None;
    Snapshot::of(&past)
}

/// Puts this moment after those.
pub(crate) fn note<S>(past: &mut Snapshot<Option<Past<S>>>, shelf: &S)
    ensures { shelves_of past.new.value ≡ shelves_of past.old.value ++ shelf.now ∷ [] }
{
    let before = replace(past, none());
    let moment = Some(Past {
        shelf: Snapshot::of(shelf),
        before,
    });
    *past = Snapshot::of(&moment);
}
