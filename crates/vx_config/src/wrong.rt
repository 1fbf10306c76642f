// What stops the reading of a configuration.
ghost use Rattle.std.specs.Prelude.{◌≡◌};
ghost use Rattle.vx_config.specs.declared.wrong.Wrong.TheVariants.{Memory};

use vx_model::OutOfMemory;

/// Why a field was not read.
#[derive(Clone, Copy)]
pub enum Wrong {
    /// So many bytes are left from the first wrong field on.
    Left(usize),
    Memory,
}

impl From<OutOfMemory> for Wrong {
    ghost from_gives = { λ _ e. e ≡ Memory };

    fn from(_e: OutOfMemory) -> Wrong {
        Wrong::Memory
    }
}
