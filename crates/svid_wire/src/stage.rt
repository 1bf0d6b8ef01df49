ghost use Rattle.std.specs.Prelude.{◌≡◌, ◌+◌, ◌<◌, ◌≤◌, length};

use crate::layout::{
    DIGEST_LEN, HEAD_LEN, KIND_LEN, MAGIC_LEN, MOMENT_AND_COUNT_LEN, MOMENT_LEN, SUMMARY_HEAD_LEN,
};
use crate::version::Version;
use svid_replay::{Batch, Use};

/// The next field of a message, with the content of the fields before it.
#[derive(Drop)]
pub(crate) enum Stage {
    Magic,
    Kind(Version),
    MomentAndCount(Version),
    Uses {
        version: Version,
        moment: u64,
        count: u32,
        uses: Vec<Use>,
    },
    Moment,
    Digests {
        moment: u64,
        digests: Vec<[u8; DIGEST_LEN]>,
    },
}

impl Stage {
    ghost use Rattle.svid_wire.specs.Stage.{IsStage, field_len, stage_text};

    /// How many bytes that field has.
    pub(crate) fn field_len(&self) -> usize
        ensures value { result ≡ field_len self.now }
        ensures some { 0 < result }
    {
        match self {
            Stage::Magic => MAGIC_LEN,
            Stage::Kind(_) => KIND_LEN,
            Stage::MomentAndCount(_) => MOMENT_AND_COUNT_LEN,
            Stage::Uses { version, .. } => version.use_len(),
            Stage::Moment => MOMENT_LEN,
            Stage::Digests { .. } => DIGEST_LEN,
        }
    }

    /// How many bytes the good fields have.
    pub(crate) fn text_len(&self) -> usize
        requires { IsStage self.now }
        ensures value { result ≡ length (stage_text self.now) }
        ensures most { result + field_len self.now ≤ 4259857 }
    {
        match self {
            Stage::Magic => 0,
            Stage::Kind(_) => MAGIC_LEN,
            Stage::MomentAndCount(_) => MAGIC_LEN + KIND_LEN,
            Stage::Uses { version, uses, .. } => HEAD_LEN + version.use_len() * uses.len(),
            Stage::Moment => MAGIC_LEN + KIND_LEN,
            Stage::Digests { digests, .. } => SUMMARY_HEAD_LEN + DIGEST_LEN * digests.len(),
        }
    }
}

/// The progress after a good field. A whole summary is given by its digests, so that no 8 KiB are moved for each field.
#[derive(Drop)]
pub(crate) enum Progress {
    More(Stage),
    Batch(Version, Batch),
    Summary {
        moment: u64,
        digests: Vec<[u8; DIGEST_LEN]>,
    },
}
