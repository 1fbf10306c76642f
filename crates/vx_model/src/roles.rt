// What the role of a site says of it.
ghost use Rattle.std.specs.Prelude.{◌≡◌};
ghost use Rattle.vx_model.specs.Sites.{is_origin as is_origin_is};

use crate::Role;

/// Whether writes of a line arise at a site of this role.
pub fn is_origin(role: &Role) -> bool
    ensures { result ≡ is_origin_is role.now }
{
    matches!(role, Role::Primary | Role::Handing { to: _ })
}
