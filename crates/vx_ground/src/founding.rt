// The group with which an account begins, for proofs alone.
ghost use Rattle.vx_ground.specs.Accounts.{GroundState};
ghost use Rattle.vx_disk.specs.Shelf.{Meaning};

use std::marker::Brand;

/// A call at `Brand` picks it.
pub trait Founding: Send {
    ghost state: { GroundState };

    ghost disks: { Meaning };
}

impl Founding for Brand {
    ghost use Rattle.vx_ground.specs.Accounts.{no_state};
    ghost use Rattle.vx_watched.specs.Empty.{no_shelf};

    ghost state = { no_state };

    ghost disks = { no_shelf };
}
