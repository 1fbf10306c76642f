// From bytes to configurations.
ghost use Rattle.std.specs.Prelude.{ℕ, List, ◌≡◌, ◌≤◌, ◌++◌, length, take, IfOk, IfErr};
ghost use Rattle.vx_config.specs.Configs.{stop_of as stop_of_is, HasSpelling, IsSpelling, Stops, Reads, spelled_config};
ghost use Rattle.vx_config.specs.declared.config.Config.{Config as ConfigValue};

use crate::cursor::Cursor;
use crate::reading::read_config;
use crate::{Config, ConfigStop, Wrong};
use std::alloc::Global;

// What is answered where a field of so many bytes was not read.
fn stop_of(wrong: Wrong, len: usize) -> ConfigStop
    ensures { result ≡ stop_of_is wrong len }
{
    match wrong {
        Wrong::Left(left) => ConfigStop::BadConfig {
            at: len.saturating_sub(left),
        },
        Wrong::Memory => ConfigStop::OutOfMemory,
    }
}

/// The configuration at the front of bytes, and how many bytes it has. What follows them is not looked at.
pub fn decode(alloc: Global, bytes: &[u8]) -> Result<(Config, usize), ConfigStop>
    // What is read is spelled so.
    ensures found { IfOk result (λ found. IsSpelling (take found.1 bytes.now) found.0) }
    ensures len { IfOk result (λ found. found.1 ≤ length bytes.now) }
    // What is spelled so is read, whatever follows it.
    ensures only { (c : ConfigValue) (rest : List ℕ) → HasSpelling c → bytes.now ≡ spelled_config c ++ rest → Reads result c (length (spelled_config c)) }
    // Bytes are refused exactly where no front of them is a configuration, at the first field that is wrong or missing.
    ensures stop { IfErr result (λ stop. Stops bytes.now stop) }
{
    let mut cursor = Cursor { left: bytes };
    match read_config(alloc, &mut cursor) {
        Ok(config) => Ok((config, bytes.len() - cursor.left.len())),
        Err(wrong) => Err(stop_of(wrong, bytes.len())),
    }
}
