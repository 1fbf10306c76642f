// A shelf is some units of blocks. Its meaning says what reads give and what crashes may leave.
ghost use Rattle.std.specs.Prelude.{◌≡◌, ◌<◌, length, OnOk};
ghost use Rattle.vx_disk.specs.Causes.{Calls, Cause, CountsOnly, Names, OnDisks, Works};
ghost use Rattle.vx_disk.specs.Disks.{Untouched};
ghost use Rattle.vx_disk.specs.Shelf.{Meaning, Lawful, Fits, Goes, Nothing, Written, Read, Wrote, Flushed, DisksWrote, DisksFlushed};

use thiserror::Error;

/// Why a call on a shelf failed.
#[derive(Clone, Copy, Debug, PartialEq, Eq, Drop, Error)]
pub enum ShelfError {
    /// A call on this disk failed. Its count of faults rose, and the unit's too.
    #[error("a call on disk {disk} failed")]
    Fault { disk: u32 },
    /// The shelf is down.
    #[error("the shelf is down")]
    Down,
}

/// Some units of blocks of 512 bytes.
///
/// A block is written whole or not at all. Between two flushes a crash leaves, for each block by itself, the value of
/// the last flush or one that was written since. A shelf need not tell its contents: then nothing is said of them.
pub trait Shelf: Drop {
    /// What reads give, and what crashes may leave.
    ghost meaning: { Self → Meaning };

    /// How many units it has.
    fn units(&self) -> u32
        ensures { result ≡ (meaning self.now).units };

    /// The size of a unit, in blocks.
    fn size(&self, unit: u32) -> u64
        requires { unit < (meaning self.now).units }
        ensures { result ≡ (meaning self.now).size unit };

    /// Reads whole blocks, as many as the slice holds. No content changes, whatever it answers.
    fn read(&mut self, unit: u32, block: u64, into: &mut [u8]) -> Result<(), ShelfError>
        requires { Fits (meaning self.old) unit block (length into.old) }
        ensures goes { Goes Nothing (meaning self.old) (meaning self.new) }
        ensures ok { OnOk result (Read (meaning self.old) unit block into.new) }
        ensures down { (meaning self.new).down ≡ (meaning self.old).down }
        ensures cause { Cause (meaning self.old) (meaning self.new) unit result }
        ensures counts { CountsOnly unit result (meaning self.old).faults (meaning self.new).faults }
        ensures names { Names (meaning self.old).disks unit result }
        ensures works { OnOk result (Works (meaning self.old).disks unit) }
        ensures disks { OnDisks (meaning self.old).disks (meaning self.new).disks Untouched };

    /// Writes whole blocks. After an error each of them may hold its old or its new value.
    fn write(&mut self, unit: u32, block: u64, bytes: &[u8]) -> Result<(), ShelfError>
        requires { Fits (meaning self.old) unit block (length bytes.now) }
        ensures goes { Goes (Written unit block bytes.now) (meaning self.old) (meaning self.new) }
        ensures ok { OnOk result (Wrote unit block bytes.now (meaning self.old) (meaning self.new)) }
        ensures cause { Cause (meaning self.old) (meaning self.new) unit result }
        ensures names { Names (meaning self.old).disks unit result }
        ensures works { OnOk result (Works (meaning self.old).disks unit) }
        ensures disks { OnDisks (meaning self.old).disks (meaning self.new).disks (λ o n. Calls (meaning self.old) (DisksWrote unit block bytes.now) o n result) };

    /// Makes a unit durable: after it a crash leaves what a read gives.
    fn flush(&mut self, unit: u32) -> Result<(), ShelfError>
        requires { unit < (meaning self.old).units }
        ensures goes { Goes Nothing (meaning self.old) (meaning self.new) }
        ensures ok { OnOk result (Flushed unit (meaning self.old) (meaning self.new)) }
        ensures cause { Cause (meaning self.old) (meaning self.new) unit result }
        ensures names { Names (meaning self.old).disks unit result }
        ensures works { OnOk result (Works (meaning self.old).disks unit) }
        ensures disks { OnDisks (meaning self.old).disks (meaning self.new).disks (λ o n. Calls (meaning self.old) (DisksFlushed unit) o n result) };

    /// How many calls on a unit failed. The count stays at its greatest value.
    fn faults(&self, unit: u32) -> u64
        requires { unit < (meaning self.now).units }
        ensures { result ≡ (meaning self.now).faults unit };

    /// Whether it is down. Then each call answers so.
    fn is_down(&self) -> bool
        ensures { result ≡ (meaning self.now).down };

    ghost lawful: { (s : Self) → Lawful (meaning s) };
}
