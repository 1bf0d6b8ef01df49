ghost use Rattle.std.specs.Prelude.{◌≡◌, ◌+◌};
ghost use Rattle.svid_claims.specs.Outcomes.{outcome_of};
ghost use Rattle.svid_claims.specs.Owners.{owner_of_caller, owner_of_life, validator_of};
ghost use Rattle.svid_claims.specs.Times.{capped, deaf_after, moment_by};
ghost use Rattle.svid_c.specs.Claims.{claim_by, found_by, outcome_number};

use svid_claims::{Claim, Found, Outcome, Owner, deaf_after, moment_by, stays_until};

fn outcome_number(outcome: Outcome) -> u32
    ensures { result ≡ outcome_number outcome }
{
    match outcome {
        Outcome::Mine => 0,
        Outcome::Withdrawn => 56,
        Outcome::Taken => 57,
        Outcome::Far => 58,
        Outcome::Deaf => 59,
        Outcome::Expired => 60,
    }
}

/// Writes the owner to `owner` with which a validator claims a token that expires at `exp`, in seconds. `life` is 16 random bytes, new at each
/// start.
#[unsafe(no_mangle)]
pub extern "C" fn svid_claim_owner(
    validator_id: &[u8; 16],
    life: &[u8; 16],
    exp: u64,
    owner: &mut [u8; 32],
)
    ensures { owner.new ≡ owner_of_life validator_id.now life.now exp }
{
    let made = Owner::of_life(validator_id, life, exp);
    let bytes = made.bytes;
    *owner = bytes;
}

/// Writes the owner to `owner` with which any validator claims a token for the caller that presents it. The token expires at `exp`, in seconds.
#[unsafe(no_mangle)]
pub extern "C" fn svid_claim_owner_of_caller(caller: &[u8; 32], exp: u64, owner: &mut [u8; 32])
    ensures { owner.new ≡ owner_of_caller caller.now exp }
{
    let made = Owner::of_caller(caller, exp);
    let bytes = made.bytes;
    *owner = bytes;
}

/// Writes the validator ID to `validator_id` that an owner of `svid_claim_owner` begins with.
#[unsafe(no_mangle)]
pub extern "C" fn svid_claim_validator(owner: &[u8; 32], validator_id: &mut [u8; 16])
    ensures { validator_id.new ≡ validator_of owner.now }
{
    let told = Owner { bytes: *owner }.validator_id();
    *validator_id = told;
}

/// Until when a store keeps the entry of a token that expires at `exp`, by the store's clock, in seconds.
#[unsafe(no_mangle)]
pub extern "C" fn svid_claim_until(exp: u64, margin: u64) -> u64
    ensures { result ≡ capped (exp + margin) }
{
    stays_until(exp, margin)
}

/// After a store lost entries: a token that expires by the answer, in seconds, may have been claimed before the loss. `time` is no earlier than
/// the store's time in any answer before the loss. `lasts` is how many seconds past the store's time a token may expire, and `before` is what this
/// call answered for earlier losses, or 0.
#[unsafe(no_mangle)]
pub extern "C" fn svid_claim_deaf(time: u64, lasts: u64, before: u64) -> u64
    ensures { result ≡ capped (deaf_after time lasts before) }
{
    deaf_after(time, lasts, before)
}

/// The moment at which a validator judges an answer of the store with this time: `now`, or `time` less `ahead` if that is later.
#[unsafe(no_mangle)]
pub extern "C" fn svid_claim_moment(now: u64, time: u64, ahead: u64) -> u64
    ensures { result ≡ moment_by now time ahead }
{
    moment_by(now, time, ahead)
}

/// The outcome of a claim: 0 if the token is accepted, and else the first that holds: 56 it was withdrawn, 57 the entry is another's, 58 it lives
/// longer than tokens may, 59 it may have been claimed before the store lost entries, 60 it has expired.
#[unsafe(no_mangle)]
pub extern "C" fn svid_claim_outcome(
    owner: &[u8; 32],
    exp: u64,
    found_owner: &[u8; 32],
    time: u64,
    deaf: u64,
    lasts: u64,
    moment: u64,
) -> u32
    ensures { result ≡ outcome_number (outcome_of (claim_by owner.now exp) (found_by found_owner.now time deaf) lasts moment) }
{
    let claim = Claim {
        owner: Owner { bytes: *owner },
        exp,
    };
    let found = Found {
        owner: Owner {
            bytes: *found_owner,
        },
        time,
        deaf,
    };
    outcome_number(claim.outcome(&found, lasts, moment))
}
