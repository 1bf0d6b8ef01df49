ghost use Rattle.std.specs.Prelude.{◌≡◌};
ghost use Rattle.svid_c.specs.Entries.{entry_seen, use_of};

use crate::told::flag;
use svid_replay::Use;

/// An entry of a record: a use or a withdrawal.
#[repr(C)]
#[derive(Drop)]
pub struct SvidEntry {
    /// 0 if the token was used. Any other number if it was withdrawn; the calls write 1.
    pub withdrawn: u64,
    /// When the token expires, in seconds.
    pub exp: u64,
    /// When it was used or withdrawn, in seconds.
    pub at: u64,
    /// The token's key, which identifies the token.
    pub key: [u8; 32],
    /// The ID of the validator that accepted or withdrew it.
    pub validator_id: [u8; 16],
}

pub(crate) fn use_of(entry: &SvidEntry) -> Use
    ensures { result ≡ use_of entry.now }
{
    Use {
        exp: entry.exp,
        key: entry.key,
        validator_id: entry.validator_id,
        at: entry.at,
        withdrawn: entry.withdrawn != 0,
    }
}

pub(crate) fn entry_seen(used: Use) -> SvidEntry
    ensures { result ≡ entry_seen used }
{
    let Use {
        exp,
        key,
        validator_id,
        at,
        withdrawn,
    } = used;
    SvidEntry {
        withdrawn: flag(withdrawn) as u64,
        exp,
        at,
        key,
        validator_id,
    }
}
