// The sealing of what is staged: it becomes part of the log.
ghost use Rattle.std.specs.Prelude.{◌≡◌, ◌+◌, ◌-◌, ◌≤◌, ◌<◌, [], length, drop, All, Ok, IfErr, OnOk};
ghost use Rattle.vx_disk.specs.Burns.{FallsShort, MakesCalls};
ghost use Rattle.vx_disk.specs.Causes.{Names};
ghost use Rattle.vx_disk.specs.Spends.{Spends};
ghost use Rattle.vx_ringio.specs.Tracks.{RingLies, Follows, Arrives};
ghost use Rattle.vx_srl.specs.Calls.{SealsStaged, sealing};
ghost use Rattle.vx_srl.specs.Causes.{BlamesLog, CallsEnded, CallsStopped};
ghost use Rattle.vx_srl.specs.Fronts.{fronts_written, seal_written};
ghost use Rattle.vx_srl.specs.Rings.{RingGoes, LeadsTo};
ghost use Rattle.vx_srl.specs.Views.{head_number};
ghost use Rattle.vx_srlfmt.specs.Records.{CanSpellHead};

use crate::{Kept, Srl, SrlNo};
use std::collections::VecDeque;
use vx_disk::{Shelf, ShelfError, refusal};
use vx_model::limits::{LOG_HEADERS, MOST_LOG_BLOCKS};
use vx_ringio::{flush_ring, write_front};

// Writes the headers of the records from one on.
fn write_fronts<S: Shelf>(
    shelf: &mut S,
    unit: u32,
    ring: u64,
    records: &VecDeque<Kept>,
    from: usize,
) -> Result<(), ShelfError>
    requires lies { RingLies unit ring (S.meaning shelf.old) }
    requires some { 0 < ring }
    requires few { ring ≤ MOST_LOG_BLOCKS - LOG_HEADERS }
    requires spell { All (λ k. CanSpellHead k.head) records.now.items }
    requires places { All (λ k. k.place < ring) records.now.items }
    requires from { from ≤ length records.now.items }
    ensures follows { Follows unit ring (fronts_written ring (drop from records.now.items)) (S.meaning shelf.old) (S.meaning shelf.new) }
    ensures arrives { OnOk result (Arrives unit ring (fronts_written ring (drop from records.now.items)) (S.meaning shelf.old) (S.meaning shelf.new)) }
    ensures cause { CallsStopped (S.meaning shelf.old) (S.meaning shelf.new) result }
    ensures calls { OnOk result (MakesCalls (length records.now.items - from) (S.meaning shelf.old) (S.meaning shelf.new)) }
    ensures short { FallsShort (length records.now.items - from) (S.meaning shelf.old) (S.meaning shelf.new) }
    ensures names { Names (S.meaning shelf.old).disks unit result }
    ensures spends { Spends (S.meaning shelf.old) (S.meaning shelf.new) }
{
    for k in from..records.len() {
        let kept = records[k];
        write_front(shelf, unit, ring, kept.place as u64, &kept.head)?;
    }
    Ok(())
}

impl Srl {
    // Makes the blocks of what is staged durable, and then its headers.
    fn write_staged<S: Shelf>(&self, shelf: &mut S) -> Result<(), ShelfError>
        requires lies { RingLies self.now.unit self.now.ring (S.meaning shelf.old) }
        ensures follows { Follows self.now.unit self.now.ring (seal_written self.now.ring self.now.staged) (S.meaning shelf.old) (S.meaning shelf.new) }
        ensures arrives { OnOk result (Arrives self.now.unit self.now.ring (seal_written self.now.ring self.now.staged) (S.meaning shelf.old) (S.meaning shelf.new)) }
        ensures cause { CallsEnded (S.meaning shelf.old) (S.meaning shelf.new) result }
        ensures calls { OnOk result (MakesCalls (length self.now.staged + 2) (S.meaning shelf.old) (S.meaning shelf.new)) }
        ensures short { FallsShort (length self.now.staged + 2) (S.meaning shelf.old) (S.meaning shelf.new) }
        ensures names { Names (S.meaning shelf.old).disks self.now.unit result }
        ensures spends { Spends (S.meaning shelf.old) (S.meaning shelf.new) }
    {
        flush_ring(shelf, self.unit)?;
        write_fronts(shelf, self.unit, self.ring, &self.records, self.sealed)?;
        flush_ring(shelf, self.unit)
    }

    /// Makes what is staged part of the log, and durable. Answers the number of the last record of the log.
    ///
    /// It is a flush, a write for each header, and a flush. Where nothing is staged it makes no call on the shelf. Refusals: 7 and 6;
    /// then the log has to be started again.
    pub fn seal<S: Shelf>(&mut self, shelf: &mut S) -> Result<u64, SrlNo>
        requires lies { RingLies self.old.unit self.old.ring (S.meaning shelf.old) }
        ensures nothing { self.old.staged ≡ [] → (result ≡ Ok (head_number self.old)) × (self.new ≡ self.old) × (shelf.new ≡ shelf.old) }
        ensures seals { 0 < length self.old.staged → SealsStaged self.old (S.meaning shelf.old) (S.meaning shelf.new) self.new result }
        ensures goes { RingGoes self.old sealing (S.meaning shelf.old) (S.meaning shelf.new) }
        ensures leads { OnOk result (0 < length self.old.staged → LeadsTo self.old sealing self.new (S.meaning shelf.old) (S.meaning shelf.new)) }
        ensures calls { OnOk result (0 < length self.old.staged → MakesCalls (length self.old.staged + 2) (S.meaning shelf.old) (S.meaning shelf.new)) }
        ensures short { FallsShort (length self.old.staged + 2) (S.meaning shelf.old) (S.meaning shelf.new) }
        ensures blames { IfErr result (BlamesLog (S.meaning shelf.old).disks self.old.unit) }
        ensures spends { Spends (S.meaning shelf.old) (S.meaning shelf.new) }
    {
        if self.sealed == self.records.len() {
            return Ok(self.head());
        }
        if let Err(error) = self.write_staged(shelf) {
            return Err(SrlNo::Other(refusal(error)));
        }
        self.sealed = self.records.len();
        Ok(self.head())
    }
}
