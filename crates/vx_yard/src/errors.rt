// Why a line ends the run.
use thiserror::Error;

/// Why a line has no whole reply.
#[derive(Clone, Copy, Debug, PartialEq, Eq, Error)]
pub enum LineStop {
    /// The sink failed, and the reply did not go out whole.
    #[error("the reply could not be written")]
    WriteFault,
    /// Memory ran out, and there is no reply.
    #[error("out of memory")]
    OutOfMemory,
    /// The line is open: the run ends there, as at one whose kind is not built.
    #[error("the line is not built here")]
    Open,
}
