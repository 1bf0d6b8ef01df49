ghost use Rattle.std.specs.Prelude.{List};
ghost use Rattle.std.specs.Iterator.{YieldsFirst};
ghost use Rattle.svid_replay.specs.declared.token_use.Use.{Use};

use svid_replay::{Stale, Use, UseStore, Walk};

// Uses that are left to a walk, in their order: those of a record, or of a part of one.
pub(crate) trait Walked {
    ghost left: { Self → List Use };

    // Takes the first of them, if there is one.
    fn next_use(&mut self) -> Option<Use>
        ensures { YieldsFirst left self.old result self.new };
}

impl<'a, S: UseStore> Walked for Walk<'a, S> {
    ghost left = { λ w. w };

    fn next_use(&mut self) -> Option<Use> {
        self.next()
    }
}

impl<'a, S: UseStore> Walked for Stale<'a, S> {
    ghost left = { λ s. s };

    fn next_use(&mut self) -> Option<Use> {
        self.next()
    }
}
