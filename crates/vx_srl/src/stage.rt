// The staging of a record: its blocks are written, and its header is not.
ghost use Rattle.std.specs.Prelude.{◌≡◌, ◌⊎◌, ◌+◌, ◌<◌, ◌≤◌, ◌/◌, length, Err, IfErr, OnOk, All};
ghost use Rattle.vx_ringio.specs.Bodies.{IsBlocks, all_blocks};
ghost use Rattle.vx_disk.specs.Burns.{FallsShort, MakesCalls};
ghost use Rattle.vx_disk.specs.Causes.{Works};
ghost use Rattle.vx_disk.specs.Spends.{MakesAtLeast, Spends};
ghost use Rattle.vx_ringio.specs.Tracks.{RingLies};
ghost use Rattle.vx_ringlog.specs.Records.{as_on_disk};
ghost use Rattle.vx_srl.specs.Causes.{BlamesLog};
ghost use Rattle.vx_srl.specs.Calls.{StagesRecord, staging, staged_with, log_no_number};
ghost use Rattle.vx_srl.specs.Rings.{RingGoes, LeadsTo};
ghost use Rattle.vx_srl.specs.Views.{BodyFits, free_of, blocks_needed, next_of, most_number, record_next, kept_record};

use crate::{Kept, Srl, SrlNo};
use vx_disk::{Shelf, refusal};
use vx_model::limits::{BLOCK, MOST_CALL_BYTES, MOST_NUMBER};
use vx_model::{Counted, No};
use vx_ringio::{mask_body, write_body};
use vx_srlfmt::RecordHead;
use vx_wire::digest;

/// Refusal 19 for a number that would go past its limit.
pub(crate) fn no_number_left() -> SrlNo
    ensures { result ≡ log_no_number }
{
    SrlNo::Other(No::Limit {
        what: Counted::Number,
        most: MOST_NUMBER,
    })
}

impl Srl {
    // The header of the next record, and its blocks as they stand on disk.
    fn next_front(&self, vol: u32, block: u64, bytes: &[u8], disk: &mut [u8]) -> RecordHead
        requires blocks { IsBlocks bytes.now }
        requires size { length disk.old ≡ length bytes.now }
        ensures front { result ≡ (record_next self.now vol block bytes.now).head }
        ensures body { all_blocks disk.new ≡ as_on_disk (all_blocks bytes.now) }
        ensures size { length disk.new ≡ length bytes.now }
    {
        disk.copy_from_slice(bytes);
        let firsts = mask_body(disk);
        RecordHead {
            incarnation: self.header.incarnation,
            run: self.header.run,
            line: self.header.state.line,
            number: self.header.low + self.records.len() as u64,
            vol,
            block,
            count: (bytes.len() / BLOCK) as u32,
            digest: digest(bytes),
            firsts,
        }
    }

    // Keeps a record that was staged.
    fn keep(&mut self, vol: u32, block: u64, bytes: &[u8], head: RecordHead)
        requires blocks { IsBlocks bytes.now }
        requires front { head ≡ (record_next self.old vol block bytes.now).head }
        requires room { blocks_needed bytes.now ≤ free_of self.old }
        requires number { next_of self.old ≤ most_number }
        ensures { self.new ≡ staged_with self.old (kept_record self.old vol block bytes.now) }
    {
        let need = head.count as u64 + 1;
        let place = self.end;
        self.records.push_back_reserved(Kept { place, head });
        self.end = ((place as u64 + need) % self.ring) as u32;
        self.used += need;
    }

    // Writes the blocks of a record that has room and a number. `disk` is room for them as they stand on disk.
    fn stage_in<S: Shelf>(
        &mut self,
        shelf: &mut S,
        vol: u32,
        block: u64,
        bytes: &[u8],
        disk: &mut [u8],
    ) -> Result<u64, SrlNo>
        requires lies { RingLies self.old.unit self.old.ring (S.meaning shelf.old) }
        requires blocks { IsBlocks bytes.now }
        requires size { length disk.old ≡ length bytes.now }
        requires room { blocks_needed bytes.now ≤ free_of self.old }
        requires number { next_of self.old ≤ most_number }
        ensures stages { StagesRecord self.old (kept_record self.old vol block bytes.now) (S.meaning shelf.old) (S.meaning shelf.new) self.new result }
        ensures goes { RingGoes self.old (staging (record_next self.old vol block bytes.now)) (S.meaning shelf.old) (S.meaning shelf.new) }
        ensures leads { OnOk result (LeadsTo self.old (staging (record_next self.old vol block bytes.now)) self.new (S.meaning shelf.old) (S.meaning shelf.new)) }
        ensures calls { OnOk result (BodyFits self.old bytes.now → MakesCalls 1 (S.meaning shelf.old) (S.meaning shelf.new)) }
        ensures short { BodyFits self.old bytes.now → FallsShort 1 (S.meaning shelf.old) (S.meaning shelf.new) }
        ensures blames { IfErr result (BlamesLog (S.meaning shelf.old).disks self.old.unit) }
        ensures least { OnOk result (MakesAtLeast 1 (S.meaning shelf.old) (S.meaning shelf.new)) }
        ensures spends { Spends (S.meaning shelf.old) (S.meaning shelf.new) }
        ensures works { OnOk result (Works (S.meaning shelf.old).disks self.old.unit) }
    {
        let number = self.header.low + self.records.len() as u64;
        let head = self.next_front(vol, block, bytes, disk);
        if let Err(error) = write_body(shelf, self.unit, self.ring, self.end as u64 + 1, disk) {
            return Err(SrlNo::Other(refusal(error)));
        }
        self.keep(vol, block, bytes, head);
        Ok(number)
    }

    /// Writes the 1 to 16 blocks of a record, which becomes part of the log by the next `seal`. Answers its number. It is one call on
    /// the shelf, or two where the blocks pass the ring's end.
    ///
    /// Refusals: `NoRoom` exactly where the record takes more blocks than are free, then 19 exactly where no number is left; both
    /// change nothing. After 6 or 7 nothing is staged, and the log has to be started again.
    pub fn stage<S: Shelf>(
        &mut self,
        shelf: &mut S,
        vol: u32,
        block: u64,
        bytes: &[u8],
    ) -> Result<u64, SrlNo>
        requires lies { RingLies self.old.unit self.old.ring (S.meaning shelf.old) }
        requires blocks { IsBlocks bytes.now }
        ensures no_room { free_of self.old < blocks_needed bytes.now → result ≡ Err (SrlNo.NoRoom (blocks_needed bytes.now) (free_of self.old)) }
        ensures no_number { blocks_needed bytes.now ≤ free_of self.old → most_number < next_of self.old → result ≡ Err log_no_number }
        ensures unchanged { (free_of self.old < blocks_needed bytes.now) ⊎ (most_number < next_of self.old) → (self.new ≡ self.old) × (shelf.new ≡ shelf.old) }
        ensures stages { blocks_needed bytes.now ≤ free_of self.old → next_of self.old ≤ most_number
            → StagesRecord self.old (kept_record self.old vol block bytes.now) (S.meaning shelf.old) (S.meaning shelf.new) self.new result }
        ensures goes { RingGoes self.old (staging (record_next self.old vol block bytes.now)) (S.meaning shelf.old) (S.meaning shelf.new) }
        ensures leads { OnOk result (LeadsTo self.old (staging (record_next self.old vol block bytes.now)) self.new (S.meaning shelf.old) (S.meaning shelf.new)) }
        ensures calls { OnOk result (BodyFits self.old bytes.now → MakesCalls 1 (S.meaning shelf.old) (S.meaning shelf.new)) }
        ensures short { BodyFits self.old bytes.now → FallsShort 1 (S.meaning shelf.old) (S.meaning shelf.new) }
        ensures blames { IfErr result (BlamesLog (S.meaning shelf.old).disks self.old.unit) }
        ensures least { OnOk result (MakesAtLeast 1 (S.meaning shelf.old) (S.meaning shelf.new)) }
        ensures spends { Spends (S.meaning shelf.old) (S.meaning shelf.new) }
        ensures works { OnOk result (Works (S.meaning shelf.old).disks self.old.unit) }
    {
        let need = (bytes.len() / BLOCK) as u64 + 1;
        let free = self.free();
        if free < need {
            return Err(SrlNo::NoRoom { need, free });
        }
        if self.header.low + self.records.len() as u64 > MOST_NUMBER {
            return Err(no_number_left());
        }
        if bytes.len() == BLOCK {
            let mut room = [0; BLOCK];
            return self.stage_in(shelf, vol, block, bytes, &mut room[..]);
        }
        let mut room = [0; MOST_CALL_BYTES];
        self.stage_in(shelf, vol, block, bytes, &mut room[..bytes.len()])
    }
}
