ghost use Rattle.std.specs.Prelude.{◌≡◌, ◌+◌};
ghost use Rattle.svid_claims.specs.Times.{capped, deaf_after, moment_by};

/// Until when a store keeps the entry of a token that expires at `exp`, by its own clock, in seconds. Nobody else removes one.
///
/// `margin` is at least the seconds that a validator lets the store's time be ahead of its own, and those that the store's clock may ever step
/// back, together.
pub fn stays_until(exp: u64, margin: u64) -> u64
    ensures { result ≡ capped (exp + margin) }
{
    exp.saturating_add(margin)
}

/// The expiry up to which tokens may have been claimed before a store lost entries, in seconds: no token that expires by then is accepted by a
/// later answer.
///
/// `time` is no less than the time of any answer before the loss: the store's time at the end, and the seconds that its clock may ever step back.
/// `lasts` is how many seconds past the store's time a token may expire. `before` is what an earlier loss gave, or 0.
pub fn deaf_after(time: u64, lasts: u64, before: u64) -> u64
    ensures { result ≡ capped (deaf_after time lasts before) }
{
    before.max(time.saturating_add(lasts))
}

/// The moment at which a member looks at an answer, in seconds: `now`, or the answer's time less `ahead` if that is later.
///
/// `now` is the later of the member's clock and its record's moment. The record does not advance to the result: a store whose clock is wrong would
/// make all of its uses expire.
pub fn moment_by(now: u64, time: u64, ahead: u64) -> u64
    ensures { result ≡ moment_by now time ahead }
{
    now.max(time.saturating_sub(ahead))
}
