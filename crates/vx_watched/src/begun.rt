// The shelf with which an account begins, for proofs alone.
ghost use Rattle.vx_disk.specs.Shelf.{Meaning};

use std::marker::Brand;

/// A call at `Brand` picks it.
pub trait Begun: Send {
    ghost first: { Meaning };
}

impl Begun for Brand {
    ghost use Rattle.vx_watched.specs.Empty.{no_shelf};

    ghost first = { no_shelf };
}
