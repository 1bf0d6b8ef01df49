ghost use Rattle.std.specs.Prelude.{◌≡◌, [], ◌+◌, ◌<◌, ◌≤◌, ◌++◌, length, take};
ghost use Rattle.svid_wire.specs.Stage.{IsStage, field_len, stage_text};
ghost use Rattle.svid_wire.specs.Partial.{IsPartial, held_of};

use crate::layout::USE_LEN;
use crate::stage::Stage;

/// The good fields of a message that is not whole, and the first bytes of its next field.
#[derive(Drop)]
pub(crate) struct Partial {
    pub(crate) stage: Stage,
    pub(crate) part: [u8; USE_LEN],
    pub(crate) filled: usize,
}

/// Puts bytes after the first `filled` of a field.
pub(crate) fn put_behind(part: &mut [u8; USE_LEN], filled: usize, more: &[u8])
    requires { filled + length more.now ≤ 65 }
    ensures { take (filled + length more.now) part.new ≡ take filled part.old ++ more.now }
{
    part[filled..filled + more.len()].copy_from_slice(more);
}

impl Partial {
    /// The state after good fields.
    pub(crate) fn behind(stage: Stage) -> Partial
        requires { IsStage stage }
        ensures partial { IsPartial result }
        ensures held { held_of result ≡ stage_text stage }
    {
        Partial {
            stage,
            part: [0; USE_LEN],
            filled: 0,
        }
    }

    /// The state before the first byte of a message.
    pub(crate) fn start() -> Partial
        ensures partial { IsPartial result }
        ensures held { held_of result ≡ [] }
    {
        Partial::behind(Stage::Magic)
    }

    /// How many bytes the next field lacks.
    pub(crate) fn missing(&self) -> usize
        requires { IsPartial self.now }
        ensures value { result + self.now.filled ≡ field_len self.now.stage }
        ensures some { 0 < result }
    {
        self.stage.field_len() - self.filled
    }

    /// The state with more bytes of the next field, which don't complete it.
    pub(crate) fn with(self, more: &[u8]) -> Partial
        requires partial { IsPartial self }
        requires short { length more.now + self.filled < field_len self.stage }
        ensures partial { IsPartial result }
        ensures held { held_of result ≡ held_of self ++ more.now }
    {
        let Partial {
            stage,
            mut part,
            filled,
        } = self;
        put_behind(&mut part, filled, more);
        Partial {
            stage,
            part,
            filled: filled + more.len(),
        }
    }

    /// How many bytes there are.
    pub(crate) fn len(&self) -> usize
        requires { IsPartial self.now }
        ensures value { result ≡ length (held_of self.now) }
        ensures most { result ≤ 4259856 }
    {
        self.stage.text_len() + self.filled
    }
}
