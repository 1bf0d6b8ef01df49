ghost use Rattle.std.specs.Prelude.{◌≡◌, Bool, false};
ghost use Rattle.svid_c.specs.Live.{is_jump};

use crate::peer::Peer;
use svid_check::Validator;
use svid_keys::{JwtKey, Verifier};
use svid_log::Member;
use svid_replay::RunUses;
use svid_shards::ShardedUses;
use svid_token::Alg;

/// A verifier that says yes to nothing. A validator of C has this one, because each of its checks brings its own answers.
#[derive(Drop)]
pub struct Nobody;

impl Verifier for Nobody {
    ghost use Rattle.svid_c.specs.Nobody.{no_says};

    ghost says = { no_says };

    fn verify(&self, _key: &JwtKey, _alg: Alg, _input: &[u8], _signature: &[u8]) -> bool {
        false
    }
}

/// The store of the uses of a validator that C keeps.
pub(crate) type Store = ShardedUses<RunUses>;

/// What a handle of C holds: a validator, how far its clock may go in one step, its position in a log, if it reads one, and the member
/// that answers requests, if there is one.
#[derive(Drop)]
pub struct Live {
    pub(crate) validator: Validator<Nobody, Store>,
    pub(crate) step: u64,
    pub(crate) member: Option<Member<RunUses>>,
    pub(crate) peer: Option<Peer>,
}

impl Live {
    // Whether a moment is too far past the record's. A record that has seen no moment accepts any.
    pub(crate) fn jumps(&self, now: u64) -> bool
        ensures { result ≡ is_jump self.now now }
    {
        let moment = self.validator.replay().moment();
        moment > 0 && now.saturating_sub(moment) > self.step
    }
}
