// What a yard carries: where it has no sites, where a site goes down, and where one is fed by another.
ghost use Rattle.std.specs.Prelude.{◌≡◌, All, IfOk, None, length, slice_set};
ghost use Rattle.vx_model.specs.declared.limits.TheConstants.{MOST_SITES};
ghost use Rattle.vx_yard.specs.Loads.{LetGo, LetGoBy};

use std::alloc::Global;
use vx_model::limits::{MOST_SITES, NO_SITE};
use vx_model::{No, OutOfMemory};
use vx_packet::Assembly;

/// For each site number a place for a message, with nothing in assembly.
pub fn empty_assemblies(alloc: Global) -> Result<Vec<Assembly>, OutOfMemory>
    ensures many { IfOk result (λ xs. length xs.items ≡ MOST_SITES) }
    ensures none { IfOk result (λ xs. All (λ a. a.held ≡ None) xs.items) }
{
    let mut assemblies = Vec::new(alloc);
    for k in 0..MOST_SITES {
        assemblies.push(Assembly::new(alloc)?)?;
    }
    Ok(assemblies)
}

/// What a site had in assembly is let go.
pub fn let_go(assemblies: &mut Vec<Assembly>, site: usize)
    ensures { LetGo site assemblies.old.items assemblies.new.items }
{
    if let Some(assembly) = assemblies.get_mut(site) {
        assembly.clear();
    }
}

/// The same where a site went down by this refusal.
pub fn let_go_if_down(assemblies: &mut Vec<Assembly>, site: usize, no: &No)
    ensures { LetGoBy no.now site assemblies.old.items assemblies.new.items }
{
    match no {
        No::Down => let_go(assemblies, site),
        _ => {}
    }
}

/// For each site number that no site feeds it.
pub fn no_feeders(alloc: Global) -> Result<Vec<u32>, OutOfMemory>
    ensures { IfOk result (λ feeders. length feeders.items ≡ MOST_SITES) }
{
    let feeders = Vec::from_elem(alloc, NO_SITE, MOST_SITES)?;
    Ok(feeders)
}

/// Sets the site that feeds this one.
pub fn set_feeder(feeders: &mut Vec<u32>, site: usize, feeder: u32)
    ensures { feeders.new.items ≡ slice_set feeders.old.items site feeder }
{
    if let Some(place) = feeders.get_mut(site) {
        *place = feeder;
    }
}
