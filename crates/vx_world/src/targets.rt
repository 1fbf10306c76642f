// What is asked of a site before it hears or sends a message.
ghost use Rattle.std.specs.Prelude.{◌≡◌, ◌<◌, ◌&&◌, length, IsTrue};
ghost use Rattle.vx_model.specs.Sites.{is_up as up};
ghost use Rattle.vx_history.specs.Refusals.{is_running as running};
ghost use Rattle.vx_sites.specs.Shapes.{world_of, node_of};

use vx_sites::refusals::is_up;
use vx_sites::{Node, World};

/// Whether there is such a site, it is up, and no disk has halted it.
pub fn is_open(world: &World, site: u32) -> bool
    ensures open { let n = (world_of world.now).nodes site in result ≡ (up n.state && running n.halted) }
    ensures within { IsTrue result → site < length world.now.nodes.items }
{
    match world.nodes.get(site as usize) {
        Some(node) => is_up(node) && is_running(node),
        None => false,
    }
}

/// Whether no disk has halted the site.
pub fn is_running(node: &Node) -> bool
    ensures { result ≡ running (node_of node.now).halted }
{
    match node.halted {
        None => true,
        Some(_) => false,
    }
}
