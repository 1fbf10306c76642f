// What a group is asked beside its shelf.
ghost use Rattle.std.specs.Prelude.{◌≡◌, ◌+◌, ◌<◌, ◌≤◌};
ghost use Rattle.vx_rvg.specs.Groups.{has_numbers};
ghost use Rattle.vx_rvg.specs.Views.{last_of};
ghost use Rattle.vx_srl.specs.Views.{free_of, next_of, blocks_above};
ghost use Rattle.vx_srlfmt.specs.Headers.{CanSpellState};

use crate::RvgCore;
use vx_model::State;
use vx_model::limits::MOST_NUMBER;

impl RvgCore {
    /// The blocks of its log that hold records. Numbers are above 0, and none is greater than `MOST_NUMBER`.
    pub fn ring(&self) -> u64
        ensures is { result ≡ self.now.log.ring }
        ensures low { 0 < self.now.log.header.low }
        ensures run { self.now.log.header.run ≤ self.now.log.header.stamp }
        ensures head { last_of self.now ≤ MOST_NUMBER }
    {
        // For its bound.
        let _low = self.srl.low();
        self.srl.ring()
    }

    /// The disk that halted it: a call on it failed.
    pub fn halted(&self) -> Option<u32>
        ensures { result ≡ self.now.halted }
    {
        self.halted
    }

    /// The number of the last write that was answered.
    pub fn head(&self) -> u64
        ensures { result ≡ last_of self.now }
    {
        self.srl.head()
    }

    /// The lowest number that its log holds, or would hold.
    pub fn low(&self) -> u64
        ensures { result ≡ self.now.log.header.low }
    {
        self.srl.low()
    }

    /// The number up to which the writes are in the volumes.
    pub fn applied(&self) -> u64
        ensures { result ≡ self.now.applied }
    {
        self.applied
    }

    /// The blocks of the log that no record takes.
    pub fn free(&self) -> u64
        ensures { result ≡ free_of self.now.log }
    {
        self.srl.free()
    }

    /// The blocks that the numbers above one take in the log.
    pub fn used(&self, above: u64) -> u64
        requires low { self.now.log.header.low ≤ above + 1 }
        requires known { above < next_of self.now.log }
        ensures { result ≡ blocks_above self.now.log above }
    {
        self.srl.used(above)
    }

    /// How often its log was started, its making counted.
    pub fn session(&self) -> u64
        ensures is { result ≡ self.now.log.header.incarnation }
        ensures few { result ≤ MOST_NUMBER }
    {
        self.srl.session()
    }

    /// Whether its log can take so many more headers and writes: a stamp and a number are left for each.
    pub fn has_numbers(&self, count: u64) -> bool
        ensures { result ≡ has_numbers self.now count }
    {
        // For its bound.
        let _low = self.srl.low();
        let head = self.srl.head();
        self.srl.has_stamps(count) && head <= MOST_NUMBER - count
    }

    /// What its log keeps of the site.
    pub fn state(&self) -> &State
        ensures is { result.now ≡ self.now.log.header.state }
        ensures spelled { CanSpellState result.now }
    {
        self.srl.state()
    }
}
