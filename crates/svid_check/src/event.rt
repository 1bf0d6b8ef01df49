use svid_replay::Batch;

/// A call of a validator, as a part of a run.
#[derive(Clone, Copy, Debug)]
pub enum Event<'a> {
    /// [`Validator::check`](crate::Validator::check).
    Check {
        /// The moment, in seconds.
        now: u64,
        /// The token.
        token: &'a [u8],
    },
    /// [`Validator::tick`](crate::Validator::tick).
    Tick {
        /// The moment, in seconds.
        now: u64,
    },
    /// [`Validator::take`](crate::Validator::take).
    Take {
        /// The moment, in seconds.
        now: u64,
        /// The batch.
        batch: &'a Batch,
    },
    /// [`Validator::withdraw`](crate::Validator::withdraw).
    Withdraw {
        /// The moment, in seconds.
        now: u64,
        /// The key of the tokens.
        key: [u8; 32],
        /// When they expire, in seconds.
        exp: u64,
    },
}
