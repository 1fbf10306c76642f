// What a status shows of a disk group.
ghost use Rattle.std.specs.Prelude.{◌≡◌, ◌<◌, [], length, Some, None, slice_get, true};
ghost use Rattle.vx_config.specs.declared.config.Config.{Config as ConfigValue};
ghost use Rattle.vx_events.specs.GroupNotes.{note_at};
ghost use Rattle.vx_events.specs.LinkViews.{linked_view};
ghost use Rattle.vx_events.specs.RvgViews.{is_over_rvg, over_disks};
ghost use Rattle.vx_history.specs.Doubts.{Doubted};
ghost use Rattle.vx_order.specs.declared.facts.SiteFacts.{SiteFacts as Facts};
ghost use Rattle.vx_yard.specs.Standing.{StandsFor};
ghost use Rattle.vx_group_lines.specs.Noting.{HasConfig, HasNoConfig};
ghost use Rattle.vx_group_lines.specs.Views.{view_with};

use std::alloc::Global;
use vx_above::{ViewRoom, full_at};
use vx_disk::Rack;
use vx_report::{LinkViews, SiteView};
use vx_yard::Yard;

/// How a site whose disks are a group stands. Only one that is up shows disks and volumes.
pub(crate) fn view_at<R: Rack>(
    yard: &Yard<R>,
    alloc: Global,
    site: usize,
    room: ViewRoom,
) -> SiteView
    requires facts { site < length yard.now.facts.items }
    requires disk_set { site < length yard.now.disk_sets.items }
    requires disks { room.disks ≡ [] }
    requires volumes { room.volumes ≡ [] }
    ensures up { (f : Facts) (c : ConfigValue) → slice_get yard.now.facts.items site ≡ Some f → f.rvg ≡ None → HasConfig site c yard.now → result ≡ view_with f (Some c) }
    ensures off { (f : Facts) → slice_get yard.now.facts.items site ≡ Some f → f.rvg ≡ None → HasNoConfig site yard.now → result ≡ view_with f None }
    ensures above { (d : Doubted) (f : Facts) → StandsFor d yard.now → site < d.world.sites → is_over_rvg (d.world.nodes site) ≡ true → slice_get yard.now.facts.items site ≡ Some f → f.links ≡ [] → result ≡ over_disks (d.world.nodes site) (note_at (d.world.nodes site)) (linked_view d.world site) }
{
    let links = LinkViews::new(alloc);
    full_at(yard, site, links, room)
}
