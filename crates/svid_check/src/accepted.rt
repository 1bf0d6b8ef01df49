use svid_id::SpiffeId;
use svid_replay::Use;

/// A token was accepted.
#[derive(Debug, Drop)]
pub struct Accepted {
    /// The SPIFFE ID of the token's subject.
    pub id: SpiffeId,
    /// The use that the record gained.
    pub used: Use,
}
