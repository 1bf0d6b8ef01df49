use crate::accepted::Accepted;
use crate::take_fault::TakeFault;
use crate::withdraw_fault::WithdrawFault;
use svid_replay::Use;
use svid_token::Refusal;

/// What a validator answers to an event.
#[derive(Debug, Drop)]
pub enum Answer {
    /// To a check.
    Checked(Result<Accepted, Refusal>),
    /// To a tick.
    Ticked,
    /// To a take.
    Taken(Result<(), TakeFault>),
    /// To a withdrawal.
    Withdrawn(Result<Use, WithdrawFault>),
}
