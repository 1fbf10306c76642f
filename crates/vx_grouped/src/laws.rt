// That what is noted of a configuration is read back.
ghost use Rattle.std.specs.Prelude.{◌≡◌, ◌≤◌, Ok, []};
ghost use Rattle.vx_config.specs.Configs.{CanSpell, subdisk_count};
ghost use Rattle.vx_config.specs.Table.{config as table};
ghost use Rattle.vx_grouped.specs.GroupNotes.{noted_config};
ghost use Rattle.vx_kept.specs.Cleans.{at_serial};

use vx_config::{Config, encode_into, is_short};
use vx_model::limits::{MOST_CONFIG_BYTES, MOST_SUBDISKS};

/// What is noted of a configuration is read back from its bytes, under the serial 0.
pub fn noted_reads(config: &Config)
    requires can { CanSpell config.now }
    requires few { subdisk_count config.now ≤ MOST_SUBDISKS }
    ensures { table.read (noted_config config.now) ≡ Ok (at_serial 0 config.now, []) }
{
    let mut page = [0; MOST_CONFIG_BYTES];
    is_short(config);
    encode_into(config, &mut page);
}
