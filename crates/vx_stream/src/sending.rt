// A run of bytes, put whole.
ghost use Rattle.std.specs.Prelude.{◌≡◌, ◌≤◌, ◌++◌, ℕ, List, OnOk, OnErr, length};
ghost use Rattle.std.specs.Io.KnownBytes.{Appends};
ghost use Rattle.vx_stream.specs.Causes.{HasCause};
ghost use Rattle.vx_stream.specs.Sending.{SendsBytes};

use crate::{Failed, Sink};

/// Puts all of the bytes, or a part from the front where the sink fails.
pub fn send<O: Sink>(sink: &mut O, bytes: &[u8]) -> Result<(), Failed>
    ensures bytes { SendsBytes (O.written sink.old) (O.written sink.new) result bytes.now }
    ensures cause { HasCause (O.faults sink.old) (O.faults sink.new) result }
{
    let mut sent = 0;
    while sent < bytes.len() {
        sent += sink.put(&bytes[sent..])?;
    }
    Ok(())
}
