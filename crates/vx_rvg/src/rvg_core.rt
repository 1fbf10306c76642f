// What a group is beside its shelf.
ghost use Rattle.std.specs.Prelude.{◌≡◌, ◌+◌, ◌<◌, ◌≤◌, length, None, IfSome};
ghost use Rattle.vx_model.specs.declared.limits.TheConstants.{REGION};
ghost use Rattle.vx_model.specs.Refusals.{IsNoDevice};
ghost use Rattle.vx_rvg.specs.Commits.{number_refusal};
ghost use Rattle.vx_rvg.specs.Groups.{write_refusal, read_refusal, applied_through, core_halted};
ghost use Rattle.vx_rvg.specs.Views.{unit_of};

use std::marker::Model;
use vx_dcm::Dcm;
use vx_model::limits::{MOST_CALL_BLOCKS, MOST_NUMBER};
use vx_model::{Counted, No, Units};
use vx_overlay::Overlay;
use vx_srl::Srl;

/// What a group is beside its shelf.
#[derive(Drop)]
pub struct RvgCore {
    pub(crate) units: Units,
    pub(crate) srl: Srl,
    pub(crate) maps: Dcm,
    pub(crate) pending: Overlay,
    pub(crate) applied: u64,
    pub(crate) halted: Option<u32>,
}

impl Model for RvgCore {
    ghost use Rattle.vx_rvg.specs.Views.{Core};

    ghost Value = { Core };

    ghost view = { λ c. record { units = c.units; log = c.srl; maps = c.maps; pending = c.pending; applied = c.applied; halted = c.halted } };
}

impl RvgCore {
    /// The unit of a data volume.
    pub(crate) fn unit(&self, vol: u32) -> u32
        requires { vol < length self.now.units.vols }
        ensures { result ≡ unit_of self.now.units.vols vol }
    {
        self.units.vols.as_slice()[vol as usize]
    }

    /// How many data volumes there are.
    pub fn volumes(&self) -> u32
        ensures { result ≡ length self.now.units.vols }
    {
        self.units.vols.as_slice().len() as u32
    }

    /// How many blocks wait.
    pub(crate) fn waiting(&self) -> usize
        ensures { result ≡ length self.now.pending.entries }
    {
        self.pending.len()
    }

    /// Why a write of so many blocks to a volume of `size` blocks is refused before it begins.
    pub(crate) fn write_refusal(&self, size: u64, start: u64, count: u64) -> Option<No>
        requires { count ≤ MOST_CALL_BLOCKS }
        ensures is { result ≡ write_refusal self.now size start count }
        ensures some { result ≡ None → 0 < self.now.log.header.low }
        ensures idle { IfSome result IsNoDevice }
    {
        if let Some(disk) = self.halted {
            return Some(No::Halted { disk });
        }
        if self.srl.ring() < count + 1 {
            return Some(No::Size);
        }
        if size < count || size - count < start {
            return Some(No::Range);
        }
        if self.srl.head() >= MOST_NUMBER {
            return Some(No::Limit {
                what: Counted::Number,
                most: MOST_NUMBER,
            });
        }
        None
    }

    /// Why a write is not staged: no number is left behind what is staged.
    pub(crate) fn number_refusal(&self) -> Option<No>
        ensures is { result ≡ number_refusal self.now }
        ensures idle { IfSome result IsNoDevice }
    {
        if self.srl.next() > MOST_NUMBER {
            return Some(No::Limit {
                what: Counted::Number,
                most: MOST_NUMBER,
            });
        }
        None
    }

    /// Why a read of so many blocks is refused.
    pub(crate) fn read_refusal(&self, size: u64, start: u64, count: u64) -> Option<No>
        requires { count ≤ REGION }
        ensures { result ≡ read_refusal self.now size start count }
    {
        if let Some(disk) = self.halted {
            return Some(No::Halted { disk });
        }
        if size < count || size - count < start {
            return Some(No::Range);
        }
        None
    }

    /// The number up to which an apply brings the writes into the volumes.
    pub(crate) fn applied_to(&self, count: u64) -> u64
        ensures { result ≡ applied_through self.now count }
    {
        self.applied.max(count.min(self.srl.head()))
    }

    /// After a refusal of a device call: the disk of a 7 halts the group.
    pub(crate) fn halt(&mut self, no: &No)
        ensures { self.new ≡ core_halted no.now self.old }
    {
        if let No::Device { disk } = no {
            self.halted = Some(*disk);
        }
    }
}
