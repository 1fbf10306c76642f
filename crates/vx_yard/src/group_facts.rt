// What the tests of a line look at of a site whose disks are a group, as lines change it.
ghost use Rattle.std.specs.Prelude.{◌≡◌, []};
ghost use Rattle.vx_yard.specs.GroupFacts.{deported_facts, group_up_facts, with_table};

use std::alloc::Global;
use vx_model::SiteState;
use vx_order::{LinkTable, SiteFacts, VolumeTable};

/// The site as a group without volumes.
pub fn make_group(alloc: Global, facts: &mut SiteFacts)
    ensures { facts.new ≡ group_up_facts [] facts.old }
{
    come_up_group(facts, VolumeTable::new(alloc));
}

/// The site came up as a group with these volumes.
pub fn come_up_group(facts: &mut SiteFacts, volumes: VolumeTable)
    ensures { facts.new ≡ group_up_facts volumes facts.old }
{
    facts.state = SiteState::Up;
    facts.grouped = true;
    facts.volumes = volumes;
    facts.rvg = None;
}

/// The group of the site has these volumes.
pub fn set_volumes(facts: &mut SiteFacts, volumes: VolumeTable)
    ensures { facts.new ≡ with_table volumes facts.old }
{
    facts.volumes = volumes;
}

/// The site was deported.
pub fn deport(alloc: Global, facts: &mut SiteFacts)
    ensures { facts.new ≡ deported_facts facts.old }
{
    facts.state = SiteState::Deported;
    facts.rvg = None;
    facts.links = LinkTable::new(alloc);
}
