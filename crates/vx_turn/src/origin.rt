// The engine with which a turn began, for proofs alone.
ghost use Rattle.std.specs.Prelude.{Option};

use std::marker::Brand;

/// A call at `Brand` picks it.
pub trait Origin<E> {
    ghost first: { Option E };
}

impl<E> Origin<E> for Brand {
    ghost use Rattle.std.specs.Prelude.{None};

    ghost first = { None };
}
