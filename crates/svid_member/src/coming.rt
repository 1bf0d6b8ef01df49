use crate::unready::Unready;
use svid_requests::Deed;

/// The outcome for a request that arrives.
#[derive(Clone, Copy, Debug, PartialEq, Eq)]
pub enum Coming {
    /// It is there, and this is to be done.
    Comes(Deed),
    /// No token is judged, for this reason.
    Waits(Unready),
}
