// What holds of the updates that are under way.
ghost use Rattle.std.specs.Prelude.{◌≡◌, ℕ, Some};
ghost use Rattle.vx_courier.specs.Together.{AreOne};
ghost use Rattle.vx_history.specs.Events.{packet_at};
ghost use Rattle.vx_history.specs.Fits.{WriteFits};
ghost use Rattle.vx_history.specs.GoodWorld.{GoodWorld};
ghost use Rattle.vx_history.specs.World.{Packet, Update, World};
ghost use Rattle.vx_model.specs.Content.{Write};
ghost use Rattle.vx_model.specs.declared.site.SiteState.TheVariants.{Up};

/// In a good world an update that is handed to a site on its line fits the volumes and the ring of that site, and all updates of one line
/// and number carry one write.
pub fn updates_fit()
    ensures fit { (w : World) (number : ℕ) (p : Packet) (k : ℕ) (x : Write) → GoodWorld w → packet_at w.packets number ≡ Some p → p.message ≡ Update k x
        → (w.nodes p.target).state ≡ Up → p.line ≡ (w.nodes p.target).line → WriteFits (w.nodes p.target) x }
    ensures one { (w : World) → GoodWorld w → AreOne w.packets }
{}
