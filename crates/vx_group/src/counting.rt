// The counts of faults of the volumes.
ghost use Rattle.std.specs.Prelude.{◌≡◌, ◌≢◌, ◌<◌, ◌≤◌, ℕ};
ghost use Rattle.vx_disk.specs.Counts.{Rose};
ghost use Rattle.vx_group.specs.Blames.{CountsRise, MarkedUnsure, MarksUnsure};
ghost use Rattle.vx_group.specs.Stands.{volume_faults};
ghost use Rattle.vx_group.specs.Turns.{NextAsked};

use vx_disk::ShelfError;
use vx_model::limits::MOST_VOLUMES;

/// Counts a fault of a volume. The count stays at its greatest value.
pub fn count_fault(faults: &mut [u64; MOST_VOLUMES], vol: u32)
    requires inside { vol < MOST_VOLUMES }
    ensures rose { Rose (volume_faults faults.old vol) (volume_faults faults.new vol) }
    ensures no_less { (u : ℕ) → volume_faults faults.old u ≤ volume_faults faults.new u }
    ensures others { (u : ℕ) → u ≢ vol → volume_faults faults.new u ≡ volume_faults faults.old u }
{
    faults[vol as usize] = faults[vol as usize].saturating_add(1);
}

/// Marks a volume as unsure.
pub fn mark_unsure(unsure: &mut [bool; MOST_VOLUMES], vol: u32)
    requires inside { vol < MOST_VOLUMES }
    ensures { MarkedUnsure vol unsure.old unsure.new }
{
    unsure[vol as usize] = true;
}

/// Sets the plex that the next read of a volume asks first.
pub fn set_next(next: &mut [u32; MOST_VOLUMES], vol: u32, plex: u32)
    requires inside { vol < MOST_VOLUMES }
    ensures { NextAsked vol plex next.old next.new }
{
    next[vol as usize] = plex;
}

/// Counts a write or a flush of a volume that failed with a fault, and marks the volume as unsure.
pub fn give_up(
    faults: &mut [u64; MOST_VOLUMES],
    unsure: &mut [bool; MOST_VOLUMES],
    vol: u32,
    error: ShelfError,
)
    requires inside { vol < MOST_VOLUMES }
    ensures counts { CountsRise error vol (volume_faults faults.old) (volume_faults faults.new) }
    ensures marks { MarksUnsure error vol unsure.old unsure.new }
{
    match error {
        ShelfError::Fault { .. } => {
            count_fault(faults, vol);
            mark_unsure(unsure, vol);
        }
        ShelfError::Down => {}
    }
}
