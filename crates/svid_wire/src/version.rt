ghost use Rattle.std.specs.Prelude.{◌≡◌, ◌≢◌, MatchOption, length};
ghost use Rattle.svid_wire.specs.Versions.{CanTell, magic_of, most_of, use_len_of, use_text};
ghost use Rattle.svid_wire.specs.Stage.{IsNoUse};

use crate::field::use_of;
use crate::layout::{MAGIC, USE_LEN};
use crate::version_1::{OLD_MAGIC, OLD_MOST_USES, OLD_USE_LEN, old_use_of};
use svid_replay::{MOST_USES, Use};

/// A version of messages. All messages are written in version 2; batches are also read in version 1.
#[derive(Clone, Copy)]
pub(crate) enum Version {
    One,
    Two,
}

impl Version {
    ghost use Rattle.svid_wire.specs.declared.version.Version.{Version};

    /// The version of messages that begin with these four bytes.
    pub(crate) fn of(field: &[u8]) -> Option<Version>
        ensures { MatchOption result ((v : Version) → field.now ≢ magic_of v) (λ v. field.now ≡ magic_of v) }
    {
        if field == MAGIC.as_slice() {
            Some(Version::Two)
        } else if field == OLD_MAGIC.as_slice() {
            Some(Version::One)
        } else {
            None
        }
    }

    /// The most uses that a batch may have.
    pub(crate) fn most_uses(self) -> usize
        ensures { result ≡ most_of self }
    {
        match self {
            Version::One => OLD_MOST_USES,
            Version::Two => MOST_USES,
        }
    }

    /// How many bytes a use has.
    pub(crate) fn use_len(self) -> usize
        ensures { result ≡ use_len_of self }
    {
        match self {
            Version::One => OLD_USE_LEN,
            Version::Two => USE_LEN,
        }
    }

    /// The use with these bytes, or none where the last byte is no kind.
    pub(crate) fn use_of(self, field: &[u8]) -> Option<Use>
        requires { length field.now ≡ use_len_of self }
        ensures { MatchOption result (IsNoUse self field.now) (λ used. (use_text self used ≡ field.now) × CanTell self used) }
    {
        match self {
            Version::One => Some(old_use_of(field)),
            Version::Two => use_of(field),
        }
    }
}
