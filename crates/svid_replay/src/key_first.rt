ghost use Rattle.std.specs.Prelude.{◌≡◌};
ghost use Rattle.std.specs.Ordering.{is_eq};
ghost use Rattle.svid_replay.specs.Indexed.{key_first};
ghost use Rattle.svid_replay.specs.Use.{bytes_cmp};

use crate::Use;

// A use with its key first and then its kind, so that the uses of one key are side by side, followed by its withdrawals.
#[derive(Clone, Copy, Debug, PartialEq, Eq, PartialOrd, Ord)]
pub(crate) struct KeyFirst {
    pub(crate) key: [u8; 32],
    pub(crate) withdrawn: bool,
    pub(crate) exp: u64,
    pub(crate) validator_id: [u8; 16],
    pub(crate) at: u64,
}

impl KeyFirst {
    pub(crate) fn of(used: Use) -> KeyFirst
        ensures { result ≡ key_first used }
    {
        let Use {
            exp,
            key,
            validator_id,
            at,
            withdrawn,
        } = used;
        KeyFirst {
            key,
            withdrawn,
            exp,
            validator_id,
            at,
        }
    }

    pub(crate) fn has_key(&self, key: &[u8; 32]) -> bool
        ensures { result ≡ is_eq (bytes_cmp key.now self.now.key) }
    {
        key.cmp(&self.key).is_eq()
    }
}
