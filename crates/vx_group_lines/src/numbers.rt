// The number of a volume in the group of a site. The tests see the data volumes of a replicated volume group first, so that a place in their table is another
// number.
ghost use Rattle.std.specs.List.{position};
ghost use Rattle.std.specs.Prelude.{◌≡◌, ◌<◌, ◌≤◌, length, option_copied, Some, true};
ghost use Rattle.std.specs.Str.{bytes_eq};
ghost use Rattle.vx_config.specs.Checks.{is_sound};
ghost use Rattle.vx_config.specs.declared.config.Config.{Config as ConfigValue};
ghost use Rattle.vx_model.specs.declared.limits.TheConstants.{MOST_VOLUMES};
ghost use Rattle.vx_group_lines.specs.Noting.{HasConfig, number_in};

use vx_config::{Config, VolumeEntry};
use vx_disk::Rack;
use vx_model::Name;
use vx_yard::Yard;

// The place of the first of these volumes that has this name.
fn find_in(volumes: &[VolumeEntry], name: &Name) -> Option<usize>
    ensures { result ≡ position (λ volume. bytes_eq volume.name name.now) volumes.now }
{
    volumes
        .iter()
        .position(|volume| volume.name.as_bytes() == name.as_bytes())
}

// The same as a number; 0 where none has it.
fn place_in(volumes: &[VolumeEntry], name: &Name) -> u32
    requires few { length volumes.now ≤ MOST_VOLUMES }
    ensures { result ≡ number_in volumes.now name.now }
{
    match find_in(volumes, name) {
        Some(place) => place as u32,
        None => 0,
    }
}

// The same of a configuration that is sound.
fn number_over(config: &Config, name: &Name) -> u32
    requires sound { is_sound config.now ≡ true }
    ensures { result ≡ number_in config.now.volumes name.now }
{
    place_in(config.volumes.as_slice(), name)
}

// So it is where there may be no configuration.
fn number_by(config: Option<&Config>, name: &Name) -> u32
    requires sound { (c : ConfigValue) → option_copied config ≡ Some c → is_sound c ≡ true }
    ensures { (c : ConfigValue) → option_copied config.entry ≡ Some c → result ≡ number_in c.volumes name.now }
{
    match config {
        Some(config) => number_over(config, name),
        None => 0,
    }
}

/// The number of the volume of this name in the group of a site that is up.
pub(crate) fn number_of<R: Rack>(yard: &Yard<R>, site: usize, name: &Name) -> u32
    requires disk_set { site < length yard.now.disk_sets.items }
    ensures { (c : ConfigValue) → HasConfig site c yard.now → result ≡ number_in c.volumes name.now }
{
    yard.disk_sets[site].sound();
    number_by(yard.disk_sets[site].config(), name)
}
