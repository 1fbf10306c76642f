// The two ends of a stream.
ghost use Rattle.std.specs.Prelude.{◌≡◌, ℕ, ◌≤◌, ◌<◌, List, Option, length, IfOk};
ghost use Rattle.std.specs.Io.{ReadsAtMost};
ghost use Rattle.std.specs.Io.KnownBytes.{ReadConsumes, WriteAppends};
ghost use Rattle.vx_stream.specs.Causes.{HasCause};

use thiserror::Error;

/// A call failed, and the count of faults rose.
#[derive(Clone, Copy, Debug, PartialEq, Eq, Error)]
#[error("a stream failed")]
pub struct Failed;

/// Where bytes come from. One that knows its bytes tells contracts those that are left.
pub trait Source {
    ghost left: { Self → Option (List ℕ) };

    ghost faults: { Self → ℕ };

    /// Takes the next bytes, into a slice that is not empty. `Ok(0)` is the end of input. `Err` takes none.
    fn take(&mut self, into: &mut [u8]) -> Result<usize, Failed>
        requires { 0 < length into.old }
        ensures bound { ReadsAtMost result into.new }
        ensures bytes { ReadConsumes (left self.old) (left self.new) result into.new }
        ensures cause { HasCause (faults self.old) (faults self.new) result };

    /// How many calls failed. The count stays at its greatest value.
    fn faults(&self) -> u64
        ensures { result ≡ faults self.now };
}

/// Where bytes go. One that knows its bytes tells contracts those that were put.
pub trait Sink {
    ghost written: { Self → Option (List ℕ) };

    ghost faults: { Self → ℕ };

    /// Puts the first of these bytes, at least one, and answers how many. `Err` puts none.
    fn put(&mut self, bytes: &[u8]) -> Result<usize, Failed>
        requires { 0 < length bytes.now }
        ensures bound { IfOk result (λ n. (0 < n) × (n ≤ length bytes.now)) }
        ensures bytes { WriteAppends (written self.old) (written self.new) result bytes.now }
        ensures cause { HasCause (faults self.old) (faults self.new) result };

    /// How many calls failed. The count stays at its greatest value.
    fn faults(&self) -> u64
        ensures { result ≡ faults self.now };
}
