// What is asked of the replicated volume group of a site over a disk group.
ghost use Rattle.std.specs.Prelude.{◌≡◌, ◌≤◌, IfSome, IsSome, Some, option_copied, true};
ghost use Rattle.vx_config.specs.Checks.{is_sound};
ghost use Rattle.vx_config.specs.declared.config.Config.{Config as ConfigValue};
ghost use Rattle.vx_diskset.specs.Aboves.{above_in, core_of, is_receiver, site_in};
ghost use Rattle.vx_diskset.specs.OverAsks.{UsesOver, core_last, core_session, core_state, many_received, many_waiting};
ghost use Rattle.vx_grouped.specs.GroupSites.{site_config};
ghost use Rattle.vx_model.specs.declared.limits.TheConstants.{MOST_NUMBER};
ghost use Rattle.vx_srlfmt.specs.Headers.{CanSpellState};

use crate::disk_set::last_in;
use crate::room::used_in;
use crate::{OverSet, OverSite};
use vx_config::Config;
use vx_disk::Rack;
use vx_model::State;
use vx_rvg::RvgCore;

impl<R: Rack> OverSet<R> {
    /// The replicated volume group but for its shelf, where it is up.
    pub fn core(&self) -> Option<&RvgCore>
        ensures { option_copied result ≡ core_of (above_in self.now) }
    {
        match &self.site {
            OverSite::Origin(founded) => Some(&founded.core),
            OverSite::Receiver(founded) => Some(&founded.core),
            OverSite::Deported(_) | OverSite::Down(_) | OverSite::Gone => None,
        }
    }

    /// The configuration of the group below, where it is up.
    pub fn config(&self) -> Option<&Config>
        ensures { option_copied result ≡ site_config (site_in self.now) }
    {
        match &self.site {
            OverSite::Origin(founded) => Some(founded.laid.config()),
            OverSite::Receiver(founded) => Some(founded.laid.config()),
            OverSite::Deported(_) | OverSite::Down(_) | OverSite::Gone => None,
        }
    }

    /// It is sound.
    pub fn sound(&self)
        ensures { (c : ConfigValue) → site_config (site_in self.now) ≡ Some c → is_sound c ≡ true }
    {
        match &self.site {
            OverSite::Origin(founded) => founded.laid.sound(),
            OverSite::Receiver(founded) => founded.laid.sound(),
            OverSite::Deported(_) | OverSite::Down(_) | OverSite::Gone => {}
        }
    }

    /// Whether it receives the writes of another, with room for the updates that wait.
    pub fn receives(&self) -> bool
        ensures { result ≡ is_receiver (above_in self.now) }
    {
        match &self.site {
            OverSite::Receiver(_) => true,
            OverSite::Origin(_) | OverSite::Deported(_) | OverSite::Down(_) | OverSite::Gone =>
                false,
        }
    }

    pub(crate) fn last(&self) -> u64
        ensures is { result ≡ core_last (core_of (above_in self.now)) }
        ensures few { result ≤ MOST_NUMBER }
    {
        match self.core() {
            Some(core) => last_in(core),
            None => 0,
        }
    }

    pub(crate) fn state(&self) -> Option<&State>
        ensures is { IfSome result (λ state. Some state.now ≡ core_state (core_of (above_in self.now))) }
        ensures some { IsSome (core_of (above_in self.now)) → IsSome result }
        ensures spelled { IfSome result (λ state. CanSpellState state.now) }
    {
        match self.core() {
            Some(core) => Some(core.state()),
            None => None,
        }
    }

    pub(crate) fn session(&self) -> u64
        ensures is { result ≡ core_session (core_of (above_in self.now)) }
        ensures few { result ≤ MOST_NUMBER }
    {
        match self.core() {
            Some(core) => core.session(),
            None => 0,
        }
    }

    pub(crate) fn used(&self, above: u64) -> Option<u64>
        ensures { UsesOver (above_in self.now) above result }
    {
        match &self.site {
            OverSite::Origin(founded) => used_in(&founded.core, above),
            OverSite::Receiver(_) | OverSite::Deported(_) | OverSite::Down(_) | OverSite::Gone =>
                None,
        }
    }

    pub(crate) fn waiting(&self) -> u32
        ensures { result ≡ many_waiting (above_in self.now) }
    {
        match &self.site {
            OverSite::Receiver(founded) => founded.waiting.len(),
            OverSite::Origin(_) | OverSite::Deported(_) | OverSite::Down(_) | OverSite::Gone => 0,
        }
    }

    pub(crate) fn received(&self) -> u64
        ensures { result ≡ many_received (above_in self.now) }
    {
        match &self.site {
            OverSite::Origin(founded) => founded.core.head(),
            OverSite::Receiver(founded) => {
                // For its bound.
                let _ring = founded.core.ring();
                founded.core.head() + u64::from(founded.waiting.len())
            }
            OverSite::Deported(_) | OverSite::Down(_) | OverSite::Gone => 0,
        }
    }
}
