// Why bytes give no configuration.
use thiserror::Error;

/// Why bytes give no configuration.
#[derive(Clone, Copy, Debug, PartialEq, Eq, Error)]
pub enum ConfigStop {
    /// No front of the bytes is a configuration; the first field that is wrong or missing begins at this byte.
    #[error("bad configuration at byte {at}")]
    BadConfig { at: usize },
    /// Memory ran out.
    #[error("out of memory")]
    OutOfMemory,
}
