// What each kind of line of disk groups is refused.
ghost use Rattle.std.specs.Prelude.{◌≡◌, ℕ, List, Bool};
ghost use Rattle.vx_script.specs.declared.line.Layout.{Layout};
ghost use Rattle.vx_script.specs.declared.line.ReadPolicy.{ReadPolicy};
ghost use Rattle.vx_script.specs.declared.line.ScriptLine.{ScriptLine};
ghost use Rattle.vx_script.specs.declared.line.VolumeLog.{VolumeLog};
ghost use Rattle.vx_script.specs.declared.line.VolumeMap.{VolumeMap};
ghost use Rattle.vx_order.specs.declared.facts.SiteFacts.{SiteFacts};
ghost use Rattle.vx_order.specs.GroupKinds.{init_refusal, import_refusal, deport_refusal, volume_refusal, plex_refusal, rvg_refusal};
ghost use Rattle.vx_order.specs.Order.{line_refusal};
ghost use Rattle.vx_order.specs.Sites.{site_named};

/// A `dg init` line: an unknown site, one that is not bare, disks of fewer than 1,024 blocks.
pub fn init_lines()
    ensures { (sites : List SiteFacts) (files : Bool) (name : List ℕ) → line_refusal sites files (ScriptLine.GroupInit name) ≡ init_refusal (site_named sites name) name }
{}

/// A `dg import` line: an unknown site, one that is not deported.
pub fn import_lines()
    ensures { (sites : List SiteFacts) (files : Bool) (name : List ℕ) → line_refusal sites files (ScriptLine.GroupImport name) ≡ import_refusal (site_named sites name) name }
{}

/// A `dg deport` line: an unknown site, one that is not up, a halted one, one that is no disk group.
pub fn deport_lines()
    ensures { (sites : List SiteFacts) (files : Bool) (name : List ℕ) → line_refusal sites files (ScriptLine.GroupDeport name) ≡ deport_refusal (site_named sites name) name }
{}

/// A `vol` line: an unknown site, one that is not up, one that is no disk group, a preferred plex that is not made, a name that
/// a volume of this site has, too many volumes or plexes, no shape, in this order.
pub fn volume_lines()
    ensures { (sites : List SiteFacts) (files : Bool) (name volume : List ℕ) (blocks mirrors : ℕ) (layout : Layout) (log : VolumeLog) (map : VolumeMap) (policy : ReadPolicy)
        → line_refusal sites files (ScriptLine.Volume name volume blocks mirrors layout log map policy) ≡ volume_refusal (site_named sites name) name volume blocks mirrors layout policy }
{}

/// A `plex` line: an unknown site, one that is not up, one that is no disk group, an unknown volume, an unknown plex of it.
pub fn plex_lines()
    ensures detach { (sites : List SiteFacts) (files : Bool) (name volume : List ℕ) (plex : ℕ) → line_refusal sites files (ScriptLine.PlexDetach name volume plex) ≡ plex_refusal (site_named sites name) name volume plex }
    ensures attach { (sites : List SiteFacts) (files : Bool) (name volume : List ℕ) (plex : ℕ) → line_refusal sites files (ScriptLine.PlexAttach name volume plex) ≡ plex_refusal (site_named sites name) name volume plex }
{}

/// An `rvg` line: an unknown site, one that is not up, one that is no disk group, an unknown volume, a replicated volume group
/// that is there, volumes that can be none, in this order.
pub fn rvg_lines()
    ensures { (sites : List SiteFacts) (files : Bool) (name srl maps : List ℕ) (volumes : List (List ℕ)) → line_refusal sites files (ScriptLine.Rvg name srl maps volumes) ≡ rvg_refusal (site_named sites name) name srl maps volumes }
{}
