// Why a search for space gave up.
ghost use Rattle.vx_layout.specs.declared.short.Short.TheVariants.{OutOfMemory as MemoryShort};
ghost use Rattle.std.specs.Prelude.{◌≡◌};

use std::alloc::{AllocError, AllocFailed};
use vx_model::OutOfMemory;

/// Why a search for space gave up.
#[derive(Clone, Copy)]
pub enum Short {
    /// So many blocks are needed, and so many are there.
    Space { need: u64, have: u64 },
    /// Memory ran out.
    OutOfMemory,
}

impl From<AllocError> for Short {
    ghost from_gives = { λ _ e. e ≡ MemoryShort };

    fn from(_e: AllocError) -> Short {
        Short::OutOfMemory
    }
}

impl<T: Drop> From<AllocFailed<T>> for Short {
    ghost from_gives = { λ _ e. e ≡ MemoryShort };

    fn from(_e: AllocFailed<T>) -> Short {
        Short::OutOfMemory
    }
}

impl From<OutOfMemory> for Short {
    ghost from_gives = { λ _ e. e ≡ MemoryShort };

    fn from(_e: OutOfMemory) -> Short {
        Short::OutOfMemory
    }
}
