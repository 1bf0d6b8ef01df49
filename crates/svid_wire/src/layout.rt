//! The layout of a message's text: the offsets and lengths of its fields.

/// What every message that is written begins with: `JSR`, and 2 for the version.
pub(crate) const MAGIC: [u8; 4] = [b'J', b'S', b'R', 2];

/// The next byte of a batch.
pub(crate) const BATCH_KIND: u8 = 1;

/// The next byte of a summary.
pub(crate) const SUMMARY_KIND: u8 = 2;

/// How many bytes `JSR` and the version have, in either version.
pub(crate) const MAGIC_LEN: usize = 4;

/// How many bytes the kind has.
pub(crate) const KIND_LEN: usize = 1;

/// How many bytes the moment and the number of uses have.
pub(crate) const MOMENT_AND_COUNT_LEN: usize = 12;

/// How many bytes a use has in version 2.
pub(crate) const USE_LEN: usize = 65;

/// How many bytes come before the first use.
pub(crate) const HEAD_LEN: usize = 17;

/// How many bytes the moment of a summary has.
pub(crate) const MOMENT_LEN: usize = 8;

/// How many bytes a digest has.
pub(crate) const DIGEST_LEN: usize = 32;

/// How many digests a summary has.
pub(crate) const DIGESTS: usize = 256;

/// How many bytes come before the first digest.
pub(crate) const SUMMARY_HEAD_LEN: usize = 13;

/// The offset of the kind.
pub(crate) const KIND_OFFSET: usize = 4;

/// The offset of the moment.
pub(crate) const MOMENT_OFFSET: usize = 5;

/// The offset of the number of uses.
pub(crate) const COUNT_OFFSET: usize = 13;
