ghost use Rattle.std.specs.Prelude.{◌≡◌, ◌≢◌, MatchOption, length};
ghost use Rattle.std.specs.Int.{from_bool, to_be_bytes, w32, w64};
ghost use Rattle.svid_replay.specs.Use.{IsBytes, front_text, text_of};
ghost use Rattle.svid_wire.specs.BatchText.{moment_and_count_text};
ghost use Rattle.svid_wire.specs.Stage.{IsNoUse};
ghost use Rattle.svid_wire.specs.declared.version.Version.{Version};
ghost use Rattle.svid_wire.specs.SummaryText.{moment_text};

use crate::layout::DIGEST_LEN;
use svid_replay::Use;

fn u64_of(bytes: &[u8]) -> u64
    requires { length bytes.now ≡ 8 }
    ensures { to_be_bytes w64 result ≡ bytes.now }
{
    u64::from_be_bytes([
        bytes[0], bytes[1], bytes[2], bytes[3], bytes[4], bytes[5], bytes[6], bytes[7],
    ])
}

fn u32_of(bytes: &[u8]) -> u32
    requires { length bytes.now ≡ 4 }
    ensures { to_be_bytes w32 result ≡ bytes.now }
{
    u32::from_be_bytes([bytes[0], bytes[1], bytes[2], bytes[3]])
}

fn array_of<const N: usize>(bytes: &[u8]) -> [u8; N]
    requires { length bytes.now ≡ N }
    ensures { result ≡ bytes.now }
{
    let mut array = [0; N];
    array.copy_from_slice(bytes);
    array
}

/// The use of this kind with these bytes before it.
#[tactic(auto, using(std::proofs::lemmas::Grind::common_steps), unfolding(svid_replay::specs::Use::front_text))]
pub(crate) fn use_of_kind(front: &[u8], withdrawn: bool) -> Use
    requires { length front.now ≡ 64 }
    ensures text { front_text result ≡ front.now }
    ensures kind { result.withdrawn ≡ withdrawn }
{
    let (exp, rest) = front.split_at(8);
    let (key, rest) = rest.split_at(32);
    let (validator_id, at) = rest.split_at(16);
    Use {
        exp: u64_of(exp),
        key: array_of(key),
        validator_id: array_of(validator_id),
        at: u64_of(at),
        withdrawn,
    }
}

// Whether a byte says that a use is a withdrawal.
fn withdrawn_of(kind: u8) -> Option<bool>
    ensures { MatchOption result ((kind ≢ 0) × (kind ≢ 1)) (λ withdrawn. from_bool withdrawn ≡ kind) }
{
    match kind {
        0 => Some(false),
        1 => Some(true),
        _ => None,
    }
}

/// The use with this text, or none where the last byte is no kind.
pub(crate) fn use_of(field: &[u8]) -> Option<Use>
    requires { length field.now ≡ 65 }
    ensures { MatchOption result (IsNoUse Version.Two field.now) (λ used. text_of used ≡ field.now) }
{
    let (front, kind) = field.split_at(64);
    match withdrawn_of(kind[0]) {
        None => None,
        Some(withdrawn) => Some(use_of_kind(front, withdrawn)),
    }
}

/// The moment and the number of uses in these bytes.
#[tactic(auto, using(std::proofs::lemmas::Grind::common_steps), unfolding(crate::specs::BatchText::moment_and_count_text))]
pub(crate) fn moment_and_count_of(field: &[u8]) -> (u64, u32)
    requires { length field.now ≡ 12 }
    ensures { moment_and_count_text result.0 result.1 ≡ field.now }
{
    let (moment, count) = field.split_at(8);
    (u64_of(moment), u32_of(count))
}

/// The moment in these bytes.
#[tactic(auto, unfolding(crate::specs::SummaryText::moment_text))]
pub(crate) fn moment_of(field: &[u8]) -> u64
    requires { length field.now ≡ 8 }
    ensures { moment_text result ≡ field.now }
{
    u64_of(field)
}

/// The digest with these bytes.
pub(crate) fn digest_of(field: &[u8]) -> [u8; DIGEST_LEN]
    requires { length field.now ≡ 32 }
    ensures value { result ≡ field.now }
    ensures fields { IsBytes 32 result }
{
    array_of(field)
}
