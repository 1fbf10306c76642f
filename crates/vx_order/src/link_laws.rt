// What each kind of line of links is refused.
ghost use Rattle.std.specs.Prelude.{◌≡◌, ℕ, List, Bool, Some};
ghost use Rattle.vx_model.specs.declared.link.SyncMode.{SyncMode};
ghost use Rattle.vx_model.specs.declared.link.Prot.{Prot};
ghost use Rattle.vx_script.specs.declared.line.ScriptLine.{ScriptLine};
ghost use Rattle.vx_order.specs.declared.facts.SiteFacts.{SiteFacts};
ghost use Rattle.vx_order.specs.Links.{place_named};
ghost use Rattle.vx_order.specs.LinkKinds.{link_refusal, set_refusal, turn_refusal, pump_refusal, settle_refusal, wait_refusal};
ghost use Rattle.vx_order.specs.Order.{line_refusal};
ghost use Rattle.vx_order.specs.Sites.{site_named};

/// A `link` line: an unknown site, one that is not up, a halted one, sites that cannot be linked by the log, a second site that is
/// linked already, too many links, volumes or a log of other sizes, in this order.
pub fn link_lines()
    ensures { (sites : List SiteFacts) (files : Bool) (p s : List ℕ) (sync : SyncMode) (prot : Prot) → line_refusal sites files (ScriptLine.Link p s sync prot) ≡ link_refusal (place_named sites (Some p)) (place_named sites (Some s)) (site_named sites p) (site_named sites s) p s }
{}

/// A `set` line: an unknown site, a first one that is not up, or is halted, or at which no writes arise, and no such link.
pub fn set_lines()
    ensures { (sites : List SiteFacts) (files : Bool) (p s : List ℕ) (sync : SyncMode) (prot : Prot) → line_refusal sites files (ScriptLine.Set p s sync prot) ≡ set_refusal (place_named sites (Some s)) (site_named sites p) (site_named sites s) p s }
{}

/// The lines that turn a link on or off, or count what was sent as lost: as a `set` line, but of a site at which links start.
pub fn turn_lines()
    ensures connect { (sites : List SiteFacts) (files : Bool) (p s : List ℕ) → line_refusal sites files (ScriptLine.Connect p s) ≡ turn_refusal (place_named sites (Some s)) (site_named sites p) (site_named sites s) p s }
    ensures cut { (sites : List SiteFacts) (files : Bool) (p s : List ℕ) → line_refusal sites files (ScriptLine.Cut p s) ≡ turn_refusal (place_named sites (Some s)) (site_named sites p) (site_named sites s) p s }
    ensures pause { (sites : List SiteFacts) (files : Bool) (p s : List ℕ) → line_refusal sites files (ScriptLine.Pause p s) ≡ turn_refusal (place_named sites (Some s)) (site_named sites p) (site_named sites s) p s }
    ensures resume { (sites : List SiteFacts) (files : Bool) (p s : List ℕ) → line_refusal sites files (ScriptLine.Resume p s) ≡ turn_refusal (place_named sites (Some s)) (site_named sites p) (site_named sites s) p s }
    ensures tick { (sites : List SiteFacts) (files : Bool) (p s : List ℕ) → line_refusal sites files (ScriptLine.Tick p s) ≡ turn_refusal (place_named sites (Some s)) (site_named sites p) (site_named sites s) p s }
{}

/// A `pump` line: as a line that turns a link, then a link that is not attached or not connected, and one that is paused.
pub fn pump_lines()
    ensures { (sites : List SiteFacts) (files : Bool) (p s : List ℕ) → line_refusal sites files (ScriptLine.Pump p s) ≡ pump_refusal (place_named sites (Some s)) (site_named sites p) (site_named sites s) p s }
{}

/// A `settle` line: as a `pump` line, but with both sites up and not halted, over a link that goes by something, and not by a fork, to a site that
/// takes what comes by it, on the line of the first.
pub fn settle_lines()
    ensures { (sites : List SiteFacts) (files : Bool) (p s : List ℕ) → line_refusal sites files (ScriptLine.Settle p s) ≡ settle_refusal (place_named sites (Some s)) (site_named sites p) (site_named sites s) p s }
{}

/// A `wait` line: an unknown site, one that is not up, or is halted, or at which no writes arise, no write of this number, and one
/// that cannot be confirmed as some link asks.
pub fn wait_lines()
    ensures { (sites : List SiteFacts) (files : Bool) (p : List ℕ) (number : ℕ) → line_refusal sites files (ScriptLine.Wait p number) ≡ wait_refusal (site_named sites p) p number }
{}
