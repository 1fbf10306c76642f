// Why a line gives nothing.
use thiserror::Error;

/// Why a line was not read.
#[derive(Clone, Copy, Debug, PartialEq, Eq, Error)]
pub enum LineErr {
    /// Line `line` is wrong at the byte of this place, counted from 1.
    #[error("bad {line} {column}")]
    Bad { line: u64, column: u64 },
    /// Memory ran out.
    #[error("out of memory")]
    OutOfMemory,
}
