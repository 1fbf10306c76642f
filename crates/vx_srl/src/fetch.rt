// The reading of a record that is held.
ghost use Rattle.std.specs.Prelude.{◌≡◌, ◌+◌, ◌<◌, ◌≤◌, Err, IsTrue, OnOk, OnErr, IfErr};
ghost use Rattle.vx_disk.specs.Causes.{OnDisks, Works};
ghost use Rattle.vx_disk.specs.Disks.{Untouched};
ghost use Rattle.vx_disk.specs.Shelf.{Goes, Nothing};
ghost use Rattle.vx_disk.specs.Spends.{Spends};
ghost use Rattle.vx_ringio.specs.Tracks.{RingLies};
ghost use Rattle.vx_srl.specs.Calls.{Fetches, FetchCause, AgreesWithFront, NamesBody};
ghost use Rattle.vx_srl.specs.Causes.{BlamesLog};
ghost use Rattle.vx_srl.specs.Views.{head_number};

use crate::{Srl, SrlNo};
use vx_disk::{Shelf, refusal};
use vx_model::limits::{BLOCK, MOST_CALL_BYTES};
use vx_model::{Blocks, No, Update};
use vx_ringio::{Body, read_body, unmask_body};

impl Srl {
    /// The write under a number up to the head.
    ///
    /// Refusals: `Overrun` exactly where the number is below the lowest that is held, which changes nothing; 7 and 6; 22 only where
    /// the digest of the record and the one computed of its blocks differ. After a refusal `into` is as it was.
    pub fn fetch<S: Shelf>(&self, shelf: &mut S, n: u64, into: &mut Update) -> Result<(), SrlNo>
        requires lies { RingLies self.now.unit self.now.ring (S.meaning shelf.old) }
        requires held { n ≤ head_number self.now }
        ensures overrun { n < self.now.header.low → (result ≡ Err (SrlNo.Overrun self.now.header.low)) × (shelf.new ≡ shelf.old) }
        ensures gives { OnOk result (Fetches self.now n (S.meaning shelf.old) into.new) }
        ensures agrees { OnOk result (AgreesWithFront self.now n into.new) }
        ensures up { OnOk result (IsTrue (S.meaning shelf.new).down → ⊥) }
        ensures cause { self.now.header.low ≤ n → IfErr result (λ why. FetchCause self.now (S.meaning shelf.old) (S.meaning shelf.new) why) }
        ensures names { self.now.header.low ≤ n → IfErr result (NamesBody self.now n (S.meaning shelf.old)) }
        ensures blames { IfErr result (BlamesLog (S.meaning shelf.old).disks self.now.unit) }
        ensures unchanged { OnErr result (into.new ≡ into.old) }
        ensures goes { Goes Nothing (S.meaning shelf.old) (S.meaning shelf.new) }
        ensures down { (S.meaning shelf.new).down ≡ (S.meaning shelf.old).down }
        ensures disks { OnDisks (S.meaning shelf.old).disks (S.meaning shelf.new).disks Untouched }
        ensures spends { Spends (S.meaning shelf.old) (S.meaning shelf.new) }
        ensures works { OnOk result (Works (S.meaning shelf.old).disks self.now.unit) }
    {
        if n < self.header.low {
            let low = self.header.low;
            return Err(SrlNo::Overrun { low });
        }
        let kept = self.records[(n - self.header.low) as usize];
        let head = kept.head;
        let mut room = [0; MOST_CALL_BYTES];
        let bytes = &mut room[..BLOCK * head.count as usize];
        if let Err(error) = read_body(shelf, self.unit, self.ring, kept.place as u64 + 1, bytes) {
            return Err(SrlNo::Other(refusal(error)));
        }
        if let Body::Differs { stored, computed } = unmask_body(bytes, &head) {
            return Err(SrlNo::Other(No::Damaged {
                unit: self.unit,
                block: 2 + (kept.place as u64 + 1) % self.ring,
                stored,
                computed,
            }));
        }
        *into = Update {
            line: head.line,
            number: n,
            vol: head.vol,
            block: head.block,
            bytes: Blocks::new(bytes),
        };
        Ok(())
    }
}
