// The rule of the table, and what each step tells. Word 0 is the hold, 1 while a seat has the engine. Word 1 is the count of the history.
ghost use Rattle.vx_turn.specs.Turning.{KeptTable, first_view, taken_turn, count_seen, added, handed_back, looked, lower, upper, joined_views, blank_view};

use crate::engine::Engine;
use crate::origin::Origin;
use crate::slot::{Opening, Slot};
use crate::view::View;
use atomic_table::{Join, Play, Split, TableRule};
use std::marker::PhantomData;

pub struct InTurn;

impl<E: Engine> TableRule<Option<Slot<E>>, View, Opening<E>> for InTurn {
    ghost holds = { λ key. KeptTable E.state E.root key.engine.value };

    ghost first = { λ key. first_view key.callers (E.state key.engine.value) };
}

/// Takes the engine, which has the root of the turn's first engine.
pub(crate) struct Take<B> {
    of: PhantomData<B>,
}

impl<E: Engine, B: Origin<E>> Play<Option<Slot<E>>, View> for Take<B> {
    ghost then = { taken_turn E.state E.root B.first };
}

pub(crate) struct Count;

impl<E: Engine> Play<Option<Slot<E>>, View> for Count {
    ghost then = { count_seen };
}

pub(crate) struct Add;

impl<E: Engine> Play<Option<Slot<E>>, View> for Add {
    ghost then = { added E.state };
}

pub(crate) struct Give;

impl<E: Engine> Play<Option<Slot<E>>, View> for Give {
    ghost then = { handed_back };
}

pub(crate) struct Look;

impl<E: Engine> Play<Option<Slot<E>>, View> for Look {
    ghost then = { looked };
}

/// Deals the greatest number of a view that stands for several.
pub(crate) struct Deal;

impl Split<View> for Deal {
    ghost left = { lower };

    ghost right = { upper };
}

pub(crate) struct Meet;

impl Join<View> for Meet {
    ghost both = { joined_views };

    ghost spent = { blank_view };
}
