// A turn that threads may share.
ghost use Rattle.std.specs.Prelude.{◌≡◌};
ghost use Rattle.vx_turn.specs.declared.turn.Turn.{Turn};

use vx_turn::{Engine, Turn};

/// It is a turn, and threads may share it. A bound at a type parameter is known to be so without a search.
pub(crate) trait Shares<E: Engine>: Sync {
    ghost is: { Self → Turn E };

    fn turn(&self) -> &Turn<E>
        ensures { result.now ≡ is self.now };
}

impl<E: Engine> Shares<E> for Turn<E> {
    ghost is = { λ t. t };

    fn turn(&self) -> &Turn<E> {
        self
    }
}
