use svid_check::Accepted;
use svid_claims::Outcome;
use svid_requests::Deed;
use svid_token::Refusal;

/// What became of a request whose claim was answered.
#[derive(Debug, Drop)]
pub struct Claimed {
    /// What is to be done.
    pub deed: Deed,
    /// What became of its claim, if the request waited for that.
    pub outcome: Option<Outcome>,
    /// What the validator answered, if it was asked.
    pub answer: Option<Result<Accepted, Refusal>>,
}
