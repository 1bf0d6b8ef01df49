ghost use Rattle.std.specs.Prelude.{◌≡◌, ◌↔◌, [], length, IsTrue};

use crate::Use;
use std::marker::Model;

/// A list of uses; contracts see it as a plain list.
#[derive(Debug, Drop)]
pub struct UseList {
    uses: Vec<Use>,
}

impl Model for UseList {
    ghost use Rattle.std.specs.Prelude.{List};
    ghost use Rattle.svid_replay.specs.declared.token_use.Use.{Use};

    ghost Value = { List Use };

    ghost view = { λ l. l.uses.items };
}

impl UseList {
    /// The list of a vector's uses. Takes no memory.
    pub fn from_vec(uses: Vec<Use>) -> UseList
        ensures { result ≡ uses.items }
    {
        UseList { uses }
    }

    /// The uses as a vector again. Takes no memory.
    pub fn into_vec(self) -> Vec<Use>
        ensures { result.items ≡ self }
    {
        self.uses
    }

    /// How many uses the list has.
    pub fn len(&self) -> usize
        ensures { result ≡ length self.now }
    {
        self.uses.len()
    }

    /// Whether the list has no uses.
    pub fn is_empty(&self) -> bool
        ensures { IsTrue result ↔ (self.now ≡ []) }
    {
        self.uses.is_empty()
    }

    /// The uses, in their order.
    pub fn as_slice(&self) -> &[Use]
        ensures { result.now ≡ self.now }
    {
        &self.uses
    }
}
