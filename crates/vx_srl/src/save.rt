// The calls that write a header: a new state, a raised low number, an emptied log.
ghost use Rattle.std.specs.Prelude.{◌≡◌, ◌⊎◌, ◌+◌, ◌-◌, ◌<◌, ◌≤◌, ◌%◌, [], length, take, drop, leb, true, Ok, Err, IfErr, OnOk};
ghost use Rattle.vx_disk.specs.Burns.{FallsShort, MakesCalls};
ghost use Rattle.vx_disk.specs.Causes.{Works};
ghost use Rattle.vx_ringio.specs.Classes.{is_of_ring};
ghost use Rattle.vx_disk.specs.Spends.{Spends};
ghost use Rattle.vx_ringio.specs.Tracks.{RingLies, Follows, Arrives};
ghost use Rattle.vx_ringlog.specs.Acts.{head_acts};
ghost use Rattle.vx_srl.specs.Calls.{SavesHeader, can_restart, saving, restarting, saved, restarted_log, log_no_number};
ghost use Rattle.vx_srl.specs.Causes.{BlamesLog};
ghost use Rattle.vx_srl.specs.Headers.{with_header_state, without, emptied_header};
ghost use Rattle.vx_srl.specs.Rings.{RingGoes, LeadsTo};
ghost use Rattle.vx_srl.specs.Views.{head_number, count_to, most_number};
ghost use Rattle.vx_srlfmt.specs.Headers.{CanSpellHeader, CanSpellState};

use crate::stage::no_number_left;
use crate::{Srl, SrlNo};
use vx_disk::{Shelf, refusal};
use vx_model::State;
use vx_model::limits::MOST_NUMBER;
use vx_ringio::write_header;
use vx_srlfmt::Header;

impl Srl {
    // The header with this state, the next stamp, and all else as it is.
    fn header_with(&self, state: &State) -> Header
        requires stamp { self.now.header.stamp < most_number }
        requires state { CanSpellState state.now }
        ensures is { result ≡ with_header_state self.now state.now }
        ensures spell { CanSpellHeader result }
        ensures of_ring { is_of_ring self.now.ring result ≡ true }
    {
        Header {
            stamp: self.header.stamp + 1,
            state: state.copy(),
            incarnation: self.header.incarnation,
            floor: self.header.floor,
            run: self.header.run,
            low: self.header.low,
            place: self.header.place,
            applied: self.header.applied,
        }
    }

    // The header without the records up to a number.
    fn header_without(&self, to: u64) -> Header
        requires stamp { self.now.header.stamp < most_number }
        requires number { to < most_number }
        requires low { self.now.header.low ≤ to }
        requires held { to ≤ head_number self.now }
        ensures is { result ≡ without self.now to }
        ensures spell { CanSpellHeader result }
        ensures of_ring { is_of_ring self.now.ring result ≡ true }
    {
        let gone = (to + 1 - self.header.low) as usize;
        let place = if gone == self.records.len() {
            self.end
        } else {
            self.records[gone].place
        };
        Header {
            stamp: self.header.stamp + 1,
            state: self.header.state.copy(),
            incarnation: self.header.incarnation,
            floor: self.records[gone - 1].head.incarnation,
            run: self.header.run,
            low: to + 1,
            place,
            applied: to,
        }
    }

    // The header of the log when it is emptied.
    fn header_emptied(&self, state: &State, head: u64) -> Header
        requires stamp { self.now.header.stamp < most_number }
        requires run { self.now.header.run < most_number }
        requires number { head < most_number }
        requires state { CanSpellState state.now }
        ensures is { result ≡ emptied_header self.now state.now head }
        ensures spell { CanSpellHeader result }
        ensures of_ring { is_of_ring self.now.ring result ≡ true }
    {
        Header {
            stamp: self.header.stamp + 1,
            state: state.copy(),
            incarnation: self.header.incarnation,
            floor: self.header.incarnation,
            run: self.header.run + 1,
            low: head + 1,
            place: 0,
            applied: head,
        }
    }

    // Gives up the first records, which the header no longer counts.
    fn give_up(&mut self, gone: usize, header: Header)
        requires held { gone ≤ length self.old.held }
        requires gone_is { gone ≡ count_to self.old (header.low - 1) }
        requires header { header ≡ without self.old (header.low - 1) }
        requires spell { CanSpellHeader header }
        requires of_ring { is_of_ring self.old.ring header ≡ true }
        ensures { self.new ≡ saved self.old header gone }
    {
        for _ in 0..gone {
            if let Some(kept) = self.records.pop_front() {
                self.used -= kept.head.count as u64 + 1;
            }
        }
        self.sealed -= gone;
        self.header = header;
    }

    /// Makes a state durable in the header. It stands on the line of the log: a log is emptied where its line changes.
    ///
    /// Refusals: 19 exactly where no stamp is left, which changes nothing; then 7 and 6, after which the log has to be started again.
    pub fn set_state<S: Shelf>(&mut self, shelf: &mut S, state: &State) -> Result<(), SrlNo>
        requires lies { RingLies self.old.unit self.old.ring (S.meaning shelf.old) }
        requires state { CanSpellState state.now }
        requires line { state.now.line ≡ self.old.header.state.line }
        ensures limit { most_number ≤ self.old.header.stamp → (result ≡ Err log_no_number) × (self.new ≡ self.old) × (shelf.new ≡ shelf.old) }
        ensures saves { self.old.header.stamp < most_number
            → SavesHeader self.old (saved self.old (with_header_state self.old state.now) 0) (S.meaning shelf.old) (S.meaning shelf.new) self.new result }
        ensures goes { RingGoes self.old (saving (with_header_state self.old state.now) 0) (S.meaning shelf.old) (S.meaning shelf.new) }
        ensures leads { OnOk result (LeadsTo self.old (saving (with_header_state self.old state.now) 0) self.new (S.meaning shelf.old) (S.meaning shelf.new)) }
        ensures calls { OnOk result (MakesCalls 2 (S.meaning shelf.old) (S.meaning shelf.new)) }
        ensures short { FallsShort 2 (S.meaning shelf.old) (S.meaning shelf.new) }
        ensures blames { IfErr result (BlamesLog (S.meaning shelf.old).disks self.old.unit) }
        ensures spends { Spends (S.meaning shelf.old) (S.meaning shelf.new) }
        ensures works { OnOk result (Works (S.meaning shelf.old).disks self.old.unit) }
    {
        if self.header.stamp >= MOST_NUMBER {
            return Err(no_number_left());
        }
        let header = self.header_with(state);
        if let Err(error) = write_header(shelf, self.unit, self.ring, &header) {
            return Err(SrlNo::Other(refusal(error)));
        }
        self.header = header;
        Ok(())
    }

    /// Gives up the records up to a number, durably, and their blocks are free from then on.
    ///
    /// Where none of them is held it makes no call on the shelf. Refusals: 19 exactly where no stamp or number is left, which changes
    /// nothing; then 7 and 6, after which the log has to be started again.
    pub fn reclaim<S: Shelf>(&mut self, shelf: &mut S, to: u64) -> Result<(), SrlNo>
        requires lies { RingLies self.old.unit self.old.ring (S.meaning shelf.old) }
        requires held { to ≤ head_number self.old }
        ensures nothing { to < self.old.header.low → (result ≡ Ok tt) × (self.new ≡ self.old) × (shelf.new ≡ shelf.old) }
        ensures limit { self.old.header.low ≤ to → (most_number ≤ self.old.header.stamp) ⊎ (most_number ≤ to)
            → (result ≡ Err log_no_number) × (self.new ≡ self.old) × (shelf.new ≡ shelf.old) }
        ensures saves { self.old.header.low ≤ to → self.old.header.stamp < most_number → to < most_number
            → SavesHeader self.old (saved self.old (without self.old to) (count_to self.old to)) (S.meaning shelf.old) (S.meaning shelf.new) self.new result }
        ensures goes { RingGoes self.old (saving (without self.old to) (count_to self.old to)) (S.meaning shelf.old) (S.meaning shelf.new) }
        ensures leads { OnOk result (self.old.header.low ≤ to
            → LeadsTo self.old (saving (without self.old to) (count_to self.old to)) self.new (S.meaning shelf.old) (S.meaning shelf.new)) }
        ensures calls { OnOk result (self.old.header.low ≤ to → MakesCalls 2 (S.meaning shelf.old) (S.meaning shelf.new)) }
        ensures short { FallsShort 2 (S.meaning shelf.old) (S.meaning shelf.new) }
        ensures blames { IfErr result (BlamesLog (S.meaning shelf.old).disks self.old.unit) }
        ensures spends { Spends (S.meaning shelf.old) (S.meaning shelf.new) }
    {
        if to < self.header.low {
            return Ok(());
        }
        if self.header.stamp >= MOST_NUMBER || to >= MOST_NUMBER {
            return Err(no_number_left());
        }
        let header = self.header_without(to);
        if let Err(error) = write_header(shelf, self.unit, self.ring, &header) {
            return Err(SrlNo::Other(refusal(error)));
        }
        let gone = (to + 1 - self.header.low) as usize;
        self.give_up(gone, header);
        Ok(())
    }

    /// Whether a stamp, a run and a number are left, so that the log can be emptied behind a record of this number.
    pub fn can_restart(&self, head: u64) -> bool
        ensures { result ≡ can_restart self.now head }
    {
        self.header.stamp < MOST_NUMBER && self.header.run < MOST_NUMBER && head < MOST_NUMBER
    }

    /// Whether so many more headers can be written: a stamp is left for each.
    pub fn has_stamps(&self, count: u64) -> bool
        ensures { result ≡ leb (self.now.header.stamp + count) most_number }
    {
        count <= MOST_NUMBER && self.header.stamp <= MOST_NUMBER - count
    }

    /// Empties the log, and sets its state and the number of its last record, in one write of the header.
    ///
    /// Refusals: 19 exactly where no stamp, run or number is left, which changes nothing; then 7 and 6, after which the log has to be
    /// started again.
    pub fn restart<S: Shelf>(
        &mut self,
        shelf: &mut S,
        state: &State,
        head: u64,
    ) -> Result<(), SrlNo>
        requires lies { RingLies self.old.unit self.old.ring (S.meaning shelf.old) }
        requires state { CanSpellState state.now }
        requires number { head ≤ most_number }
        ensures limit { (most_number ≤ self.old.header.stamp) ⊎ (most_number ≤ self.old.header.run) ⊎ (most_number ≤ head)
            → (result ≡ Err log_no_number) × (self.new ≡ self.old) × (shelf.new ≡ shelf.old) }
        ensures saves { self.old.header.stamp < most_number → self.old.header.run < most_number → head < most_number
            → SavesHeader self.old (restarted_log self.old (emptied_header self.old state.now head)) (S.meaning shelf.old) (S.meaning shelf.new) self.new result }
        ensures goes { RingGoes self.old (restarting (emptied_header self.old state.now head)) (S.meaning shelf.old) (S.meaning shelf.new) }
        ensures leads { OnOk result (LeadsTo self.old (restarting (emptied_header self.old state.now head)) self.new (S.meaning shelf.old) (S.meaning shelf.new)) }
        ensures calls { OnOk result (MakesCalls 2 (S.meaning shelf.old) (S.meaning shelf.new)) }
        ensures short { FallsShort 2 (S.meaning shelf.old) (S.meaning shelf.new) }
        ensures blames { IfErr result (BlamesLog (S.meaning shelf.old).disks self.old.unit) }
        ensures spends { Spends (S.meaning shelf.old) (S.meaning shelf.new) }
        ensures works { OnOk result (Works (S.meaning shelf.old).disks self.old.unit) }
    {
        if self.header.stamp >= MOST_NUMBER
            || self.header.run >= MOST_NUMBER
            || head >= MOST_NUMBER
        {
            return Err(no_number_left());
        }
        let header = self.header_emptied(state, head);
        if let Err(error) = write_header(shelf, self.unit, self.ring, &header) {
            return Err(SrlNo::Other(refusal(error)));
        }
        self.records.clear();
        self.sealed = 0;
        self.end = 0;
        self.used = 0;
        self.header = header;
        Ok(())
    }
}
