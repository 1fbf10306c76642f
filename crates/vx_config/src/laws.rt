//! What is promised of the spelling of configurations, and of those that are changed in place.
ghost use Rattle.std.specs.Prelude.{List, ℕ, ◌≡◌, ◌∷◌, ◌++◌, [], Bool, Some, length, slice_get, true};
ghost use Rattle.vx_config.specs.Changes.{has_live, lost, names_below, stated, with_volumes};
ghost use Rattle.vx_config.specs.Checks.{is_sound};
ghost use Rattle.vx_config.specs.Configs.{HasSpelling, spelled_config};
ghost use Rattle.vx_config.specs.declared.config.Config.{Config as ConfigValue};
ghost use Rattle.vx_config.specs.declared.entry.PlexEntry.{PlexEntry as PlexValue};
ghost use Rattle.vx_config.specs.declared.entry.VolumeEntry.{VolumeEntry as VolumeValue};
ghost use Rattle.vx_config.specs.declared.entry.VolumeLog.{VolumeLog as LogValue};
ghost use Rattle.vx_model.specs.declared.site.PlexState.{PlexState as StateValue};

/// No spelling of a configuration begins another, so that what bytes begin with is one configuration at most.
pub fn one_spelling()
    ensures { (c d : ConfigValue) (rest more : List ℕ) → HasSpelling c → HasSpelling d → spelled_config c ++ rest ≡ spelled_config d ++ more → (c ≡ d) × (rest ≡ more) }
{}

/// What is sound stays so where the state of a plex leaves its volume one that is not stale, where a log is lost or not, and where the
/// last volume is taken off that the replicated volume group does not name. A state that is set back leaves what was before.
pub fn changes_are_sound()
    ensures state { (c : ConfigValue) (volume plex : ℕ) (s : StateValue) (whole : Bool) → is_sound c ≡ true → has_live (slice_get (stated volume plex s whole c).volumes volume) ≡ true → is_sound (stated volume plex s whole c) ≡ true }
    ensures loss { (c : ConfigValue) (volume : ℕ) (log : LogValue) (is_lost : Bool) → is_sound (lost volume log is_lost c) ≡ is_sound c }
    ensures last { (c : ConfigValue) (vs : List VolumeValue) (v : VolumeValue) → c.volumes ≡ vs ++ v ∷ [] → names_below (length vs) c.rvg ≡ true → is_sound c ≡ true → is_sound (with_volumes vs c) ≡ true }
    ensures back { (c : ConfigValue) (volume plex : ℕ) (v : VolumeValue) (p : PlexValue) (s : StateValue) (whole : Bool) → slice_get c.volumes volume ≡ Some v → slice_get v.plexes plex ≡ Some p
        → stated volume plex p.state p.whole (stated volume plex s whole c) ≡ c }
{}
