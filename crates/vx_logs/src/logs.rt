// The logs of a volume.
use vx_drl::Drl;
use vx_fmr::Fmr;

/// The logs of a volume that are in use.
#[derive(Drop)]
pub struct Logs {
    /// The dirty region log; none where the volume has none, or where it is lost.
    pub drl: Option<Drl>,
    /// The log of missed regions, likewise.
    pub fmr: Option<Fmr>,
}

/// Which logs of a volume were lost in a call.
#[derive(Clone, Copy, Debug, PartialEq, Eq)]
pub struct Lost {
    pub drl: bool,
    pub fmr: bool,
}
