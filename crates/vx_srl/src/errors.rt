// Why calls on a log are refused.
use vx_model::No;

/// Why a call on a log is refused.
#[derive(Clone, Copy, Debug, PartialEq, Eq)]
pub enum SrlNo {
    /// The record needs more blocks than are free.
    NoRoom { need: u64, free: u64 },
    /// The number is below the lowest that is held.
    Overrun { low: u64 },
    /// 6 or 7 of a device call, or 19 for the record's number.
    Other(No),
}
