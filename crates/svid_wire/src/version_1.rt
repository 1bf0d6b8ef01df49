//! Version 1 of messages, which has no withdrawals: its batches are read, and nothing is written in it.

ghost use Rattle.std.specs.Prelude.{◌≡◌, length};
ghost use Rattle.svid_wire.specs.Version1.{OldTells, old_use_text};

use crate::field::use_of_kind;
use svid_replay::Use;

/// What its messages begin with.
pub(crate) const OLD_MAGIC: [u8; 4] = [b'J', b'S', b'R', 1];

/// The most uses that its batches may have.
pub(crate) const OLD_MOST_USES: usize = 4096;

/// How many bytes a use has in it.
pub(crate) const OLD_USE_LEN: usize = 64;

/// The use with these bytes.
pub(crate) fn old_use_of(field: &[u8]) -> Use
    requires { length field.now ≡ 64 }
    ensures text { old_use_text result ≡ field.now }
    ensures tells { OldTells result }
{
    use_of_kind(field, false)
}
