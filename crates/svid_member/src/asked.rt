use svid_check::Accepted;
use svid_requests::Deed;
use svid_token::Refusal;

/// What became of a request whose token was to be judged.
#[derive(Debug, Drop)]
pub struct Asked {
    /// What is to be done.
    pub deed: Deed,
    /// What the validator answered, if it was asked.
    pub answer: Option<Result<Accepted, Refusal>>,
}
