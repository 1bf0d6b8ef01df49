ghost use Rattle.std.specs.Prelude.{◌≡◌, ◌≢◌, IfSome, IfNone};
ghost use Rattle.svid_journal.specs.declared.folder.Folder.{Folder};
ghost use Rattle.svid_journal.specs.Folder.{words_of};

use crate::folder::Folder;
use crate::step::Step;

/// A form in which a caller can keep a [`Folder`]: eight numbers, in the order of its fields. The step counts from 0, and `ended`
/// is 0 or 1.
#[derive(Clone, Copy, Debug, PartialEq, Eq)]
pub struct Words {
    /// The number of the step.
    pub step: u64,
    /// The number of the oldest journal.
    pub oldest: u64,
    /// The number of the newest journal.
    pub newest: u64,
    /// 1 after a failed sync.
    pub ended: u64,
    /// How many frames are synced.
    pub count: u64,
    /// How many bytes they take.
    pub end: u64,
    /// How many bytes the frame takes that is not synced.
    pub flying: u64,
    /// How many pieces of a snapshot were handed out.
    pub pieces: u64,
}

impl Words {
    /// The numbers of a folder.
    pub fn of(folder: &Folder) -> Words
        ensures { result ≡ words_of folder.now }
    {
        Words {
            step: folder.step.number(),
            oldest: folder.oldest,
            newest: folder.newest,
            ended: if folder.ended { 1 } else { 0 },
            count: folder.count,
            end: folder.end,
            flying: folder.flying,
            pieces: folder.pieces,
        }
    }

    /// The folder with these numbers, if there is one. Its calls return [`Fault::Unfit`](crate::Fault::Unfit) where the numbers
    /// do not fit each other.
    pub fn folder(&self) -> Option<Folder>
        ensures some { IfSome result (λ f. self.now ≡ words_of f) }
        ensures none { IfNone result ((f : Folder) → self.now ≢ words_of f) }
    {
        let step = Step::of(self.step)?;
        if self.ended > 1 {
            return None;
        }
        Some(Folder {
            step,
            oldest: self.oldest,
            newest: self.newest,
            ended: self.ended == 1,
            count: self.count,
            end: self.end,
            flying: self.flying,
            pieces: self.pieces,
        })
    }
}
