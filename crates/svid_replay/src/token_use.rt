ghost use Rattle.std.specs.Prelude.{◌≡◌, ◌+◌, ◌≤◌, ◌++◌, length, take, nat_lt};
ghost use Rattle.svid_replay.specs.Use.{text_of, IsUse};

use crate::layout::{AT_START, EXP_START, KEY_START, KIND_START, USE_LEN, VALIDATOR_ID_START};

/// One use of a token, which a validator accepted once, or a withdrawal of it. Uses are ordered as their texts are.
#[derive(Clone, Copy, Debug, PartialEq, Eq, PartialOrd, Ord)]
pub struct Use {
    /// When the token expires, in seconds.
    pub exp: u64,
    /// The key of the token. Uses of one key count as uses of one token.
    pub key: [u8; 32],
    /// The ID of the validator where it was used or withdrawn.
    pub validator_id: [u8; 16],
    /// When it was used or withdrawn, in seconds.
    pub at: u64,
    /// Whether the token was withdrawn there, and not used.
    pub withdrawn: bool,
}

fn put_piece(text: &mut [u8; USE_LEN], at: usize, piece: &[u8])
    requires { at + length piece.now ≤ 65 }
    ensures { take (at + length piece.now) text.new ≡ take at text.old ++ piece.now }
{
    text[at..at + piece.len()].copy_from_slice(piece);
}

impl Use {
    /// Whether this use is live at a moment (in seconds): it expires after it.
    pub fn is_live(self, moment: u64) -> bool
        ensures live { result ≡ nat_lt moment self.exp }
        ensures fields { IsUse self }
    {
        self.exp > moment
    }

    /// The 65 bytes of this use: `exp`, `key`, `validator_id` and `at`, each number with its most significant byte first, and
    /// then 1 for a withdrawal or else 0.
    pub fn text(&self) -> [u8; USE_LEN]
        ensures { result ≡ text_of self.now }
    {
        let Use {
            exp,
            key,
            validator_id,
            at,
            withdrawn,
        } = *self;
        let mut text = [0; USE_LEN];
        put_piece(&mut text, EXP_START, &exp.to_be_bytes());
        put_piece(&mut text, KEY_START, &key);
        put_piece(&mut text, VALIDATOR_ID_START, &validator_id);
        put_piece(&mut text, AT_START, &at.to_be_bytes());
        put_piece(&mut text, KIND_START, &[u8::from(withdrawn)]);
        text
    }
}
