// The engine that is shared.
ghost use Rattle.std.specs.Prelude.{◌≡◌};

use crate::engine::Engine;
use crate::rule::InTurn;
use crate::slot::{Opening, Slot};
use crate::view::View;
use atomic_table::Table;
use std::alloc::Global;

/// One engine, for several callers.
#[derive(Drop)]
pub struct Turn<E: Engine> {
    pub table: Table<Option<Slot<E>>, View, Opening<E>, InTurn, Global>,
    ghost sized: { (table.shared.table_id.words ≡ 2) × (table.shared.table_id.slots ≡ 1) },
}
