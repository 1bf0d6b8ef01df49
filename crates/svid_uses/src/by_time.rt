ghost use Rattle.std.specs.Prelude.{◌≡◌};
ghost use Rattle.std.specs.Ordering.{eq_by_cmp};
ghost use Rattle.svid_uses.specs.Time.{HasSameUses, IsInTime, time_cmp};

use std::cmp::Ordering;
use svid_replay::Use;

fn by_time(one: &Use, other: &Use) -> Ordering
    ensures { result ≡ time_cmp one.now other.now }
{
    one.at.cmp(&other.at).then(one.cmp(other))
}

// The uses by the times at which they were made, each once. Takes no memory.
pub(crate) fn in_time(uses: Vec<Use>) -> Vec<Use>
    ensures in_time { IsInTime result.items }
    ensures same { HasSameUses uses.items result.items }
{
    let mut sorted = uses;
    sorted.sort_unstable_by(
        |one: &Use, other: &Use| -> Ordering
            ensures { result ≡ time_cmp one.now other.now }
        { by_time(one, other) },
    );
    sorted.dedup_by(
        |one: &mut Use, other: &mut Use| -> bool
            ensures same { result ≡ eq_by_cmp time_cmp one.old other.old }
            ensures one { one.new ≡ one.old }
            ensures other { other.new ≡ other.old }
        { by_time(one, other).is_eq() },
    );
    sorted
}
