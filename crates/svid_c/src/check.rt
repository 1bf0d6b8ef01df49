ghost use Rattle.std.specs.Prelude.{◌≡◌, ◌≤◌, length};
ghost use Rattle.svid_id.specs.Id.{id_text};
ghost use Rattle.svid_c.specs.Status.{told_length};
ghost use Rattle.svid_c.specs.Written.{HasFirst};
ghost use Rattle.svid_c.specs.Checked.{use_seen};

use crate::told::SvidTold;
use crate::writing::put;
use svid_check::Accepted;
use svid_replay::Use;

/// The setting of a check.
#[repr(C)]
#[derive(Drop)]
pub struct SvidSetting {
    /// The moment of the check, in seconds. If the record's is later, the token is judged at that.
    pub moment: u64,
    /// How many seconds past `moment`, or past the record's moment if that is later, a token may expire. 2^64-1
    /// for no limit.
    pub longest: u64,
    /// Tells this validator from every other one that shares its record.
    pub validator_id: [u8; 16],
}

/// The use that an acceptance adds to the record.
#[repr(C)]
#[derive(Drop)]
pub struct SvidUse {
    /// When the token expires, in seconds.
    pub exp: u64,
    /// The record's moment when the token was accepted, in seconds.
    pub at: u64,
    /// The token's key, which identifies the token.
    pub key: [u8; 32],
    /// The ID of the validator that accepted it.
    pub validator_id: [u8; 16],
}

pub(crate) fn use_seen(used: Use) -> SvidUse
    ensures { result ≡ use_seen used }
{
    let Use {
        exp,
        key,
        validator_id,
        at,
        ..
    } = used;
    SvidUse {
        exp,
        at,
        key,
        validator_id,
    }
}

// Writes an acceptance to `out`, which has room for any ID.
#[tactic(auto, using(crate::proofs::CheckedLemmas::has_room))]
pub(crate) fn accept_whole(
    accepted: Accepted,
    out: &mut [u8],
    used: &mut SvidUse,
    told: &mut SvidTold,
) -> u32
    requires { 2048 ≤ length out.old }
    ensures status { result ≡ 0 }
    ensures put { HasFirst (id_text accepted.id) out.old out.new }
    ensures told { told.new ≡ told_length (length (id_text accepted.id)) }
    ensures used { used.new ≡ use_seen accepted.used }
{
    let answered = put(accepted.id.as_str().as_bytes(), out, told);
    *used = use_seen(accepted.used);
    answered
}
