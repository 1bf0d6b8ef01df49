ghost use Rattle.std.specs.Prelude.{◌≡◌, IfOk};
ghost use Rattle.svid_check.specs.Saves.{piece_of, uses_after};

use crate::validator::Validator;
use std::alloc::{AllocError, Global};
use svid_keys::Verifier;
use svid_replay::{Batch, MOST_USES, Record, Use, UseStore};

// The uses of a record behind one of them, so many at most.
fn uses_after<S: UseStore>(
    alloc: Global,
    replay: &Record<S>,
    after: Option<Use>,
    most: usize,
) -> Result<Vec<Use>, AllocError>
    ensures { IfOk result (λ uses. uses.items ≡ uses_after replay.now.uses after most) }
{
    let mut uses = Vec::with_capacity(alloc, replay.len().min(most))?;
    let mut walk = replay.walk_after(after);
    while uses.len() < most {
        let Some(used) = walk.next() else {
            return Ok(uses);
        };
        uses.push(used)?;
    }
    Ok(uses)
}

// A batch of a record's moment with its uses behind one of them, so many at most.
fn piece_of<S: UseStore>(
    alloc: Global,
    replay: &Record<S>,
    after: Option<Use>,
    most: usize,
) -> Result<Batch, AllocError>
    ensures { IfOk result (λ batch. batch ≡ piece_of replay.now after most) }
{
    let uses = uses_after(alloc, replay, after, most.min(MOST_USES))?;
    Ok(Batch::from_good(replay.moment(), uses))
}

// Writing or saving a record, one batch per call.
impl<V: Verifier, S: UseStore> Validator<V, S> {
    /// The next piece of the record: a batch of its moment with the uses that are greater than the one given, or
    /// with the first ones where none is given. It has at most `most` uses, and at most 65,536.
    ///
    /// To tell or save a whole record, ask with none, and then each time with the last use of the batch before, until
    /// a batch has fewer uses than were asked for. Other calls may come in between: the batches together have each
    /// use that the record had at the first of these calls and that is still live at the last. A use that is added in
    /// between may be missing.
    pub fn parts_after(&self, after: Option<Use>, most: usize) -> Result<Batch, AllocError>
        ensures { IfOk result (λ batch. batch ≡ piece_of self.now.state after most) }
    {
        piece_of(self.alloc, &self.replay, after, most)
    }
}
