use crate::callers::Callers;
use svid_member::{Member, Withdrawals};

/// What a handle of C holds for a member: its requests, its withdrawals that are under way, and who may call.
#[derive(Drop)]
pub struct Peer {
    pub(crate) member: Member,
    pub(crate) withdrawals: Withdrawals,
    pub(crate) callers: Callers,
}
