// A link that is made, opened, or given another setting.
ghost use Rattle.std.specs.Prelude.{◌≡◌};
ghost use Rattle.vx_linked.specs.Making.{fresh_link, opened_link, set_link};

use vx_model::{Link, Mode, Prot, SyncMode};

/// A link to the site of this number, which is in this session. It goes by nothing yet.
pub fn new_link(site: u32, sync: SyncMode, session: u64) -> Link
    ensures { result ≡ fresh_link site sync session }
{
    Link {
        site,
        bunker: false,
        attached: true,
        connected: false,
        paused: false,
        sync,
        prot: Prot::Fail,
        session,
        net: 0,
        stored: 0,
        sent: 0,
        trimmed: 0,
        mode: Mode::Stale,
    }
}

/// The link as it goes by the log from this number on.
pub fn opened(link: &Link, head: u64) -> Link
    ensures { result ≡ opened_link link.now head }
{
    Link {
        mode: Mode::Log,
        net: head,
        stored: head,
        sent: head,
        ..*link
    }
}

/// The link with another setting.
pub fn with_setting(link: &Link, sync: SyncMode) -> Link
    ensures { result ≡ set_link link.now sync }
{
    Link {
        sync,
        prot: Prot::Fail,
        ..*link
    }
}
