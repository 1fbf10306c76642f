// What is known of the plexes of each volume of a group with logs.
ghost use Rattle.std.specs.Prelude.{◌≡◌, ◌<◌, ℕ, true, false};
ghost use Rattle.vx_loggroup.specs.LoggedVolumes.{is_alike as is_alike_is};
ghost use Rattle.vx_model.specs.declared.limits.TheConstants.{MOST_VOLUMES};

use vx_model::limits::MOST_VOLUMES;

/// Says of a volume whether its plexes are alike.
pub fn set_alike(alike: &mut [bool; MOST_VOLUMES], vol: u32, to: bool)
    requires inside { vol < MOST_VOLUMES }
    ensures here { is_alike_is alike.new vol ≡ to }
    ensures others { (w : ℕ) → (w ≡ vol → ⊥) → is_alike_is alike.new w ≡ is_alike_is alike.old w }
{
    alike[vol as usize] = to;
}

/// Whether the plexes of a volume are said to be alike.
pub fn is_alike(alike: &[bool; MOST_VOLUMES], vol: u32) -> bool
    requires inside { vol < MOST_VOLUMES }
    ensures { result ≡ is_alike_is alike.now vol }
{
    alike[vol as usize]
}

/// Whether marks may be taken off.
pub fn is_sure(alike: bool, stopped: bool, down: bool) -> bool
    ensures alike { result ≡ true → alike ≡ true }
    ensures going { result ≡ true → stopped ≡ false }
    ensures up { result ≡ true → down ≡ false }
    ensures all { alike ≡ true → stopped ≡ false → down ≡ false → result ≡ true }
{
    if alike {
        return !stopped && !down;
    }
    false
}
