ghost use Rattle.std.specs.Prelude.{◌≡◌, IfSome, IfNone};
ghost use Rattle.svid_c.specs.Journal.{AreOf, AreOfNone, folder_number, wanted_of};
ghost use Rattle.svid_c.specs.Status.{told_length};

use crate::told::{SvidTold, told_length};
use svid_journal::{Fault, Folder, Words};

/// The state of a folder: eight numbers that C keeps. Each call reads and checks them.
#[repr(C)]
#[derive(Drop)]
pub struct SvidFolder {
    /// The number of the step, which says what is due.
    pub step: u64,
    /// No journal with a smaller number exists.
    pub oldest: u64,
    /// The journal that frames are appended to. At a start, the greatest number that was found.
    pub newest: u64,
    /// 1 after a sync that failed, and else 0.
    pub ended: u64,
    /// How many frames of that journal are synced.
    pub count: u64,
    /// How many bytes they take.
    pub end: u64,
    /// The length in bytes of the frame that was handed out and is not synced yet, or 0.
    pub flying: u64,
    /// How many pieces of a snapshot were handed out.
    pub pieces: u64,
}

/// Tells a state folder from every other one.
#[repr(C)]
#[derive(Drop)]
pub struct SvidFolderId {
    /// Its bytes.
    pub bytes: [u8; 16],
}

impl SvidFolder {
    // The folder with these numbers, if they are those of one.
    pub(crate) fn folder(&self) -> Option<Folder>
        ensures some { IfSome result (AreOf self.now) }
        ensures none { IfNone result (AreOfNone self.now) }
    {
        let words = Words {
            step: self.step,
            oldest: self.oldest,
            newest: self.newest,
            ended: self.ended,
            count: self.count,
            end: self.end,
            flying: self.flying,
            pieces: self.pieces,
        };
        words.folder()
    }

    // The numbers of a folder.
    pub(crate) fn of(folder: &Folder) -> SvidFolder
        ensures { AreOf result folder.now }
    {
        let Words {
            step,
            oldest,
            newest,
            ended,
            count,
            end,
            flying,
            pieces,
        } = Words::of(folder);
        SvidFolder {
            step,
            oldest,
            newest,
            ended,
            count,
            end,
            flying,
            pieces,
        }
    }
}

// The number of a fault.
pub(crate) fn folder_number(fault: Fault) -> u32
    ensures { result ≡ folder_number fault }
{
    match fault {
        Fault::TooShort(_) => 1,
        Fault::Unfit => 41,
        Fault::Ended => 42,
        Fault::NotGrowing => 43,
        Fault::Busy => 44,
        Fault::NothingDue => 45,
        Fault::Flying => 46,
        Fault::NotFlying => 47,
        Fault::NotWriting => 48,
        Fault::NoMark => 49,
        Fault::TooLong => 50,
        Fault::Full => 51,
    }
}

// How many bytes `out` needs if it is too short, and else 0.
fn wanted_of(fault: Fault) -> usize
    ensures { result ≡ wanted_of fault }
{
    match fault {
        Fault::TooShort(len) => len,
        Fault::Unfit
        | Fault::Ended
        | Fault::NotGrowing
        | Fault::Busy
        | Fault::NothingDue
        | Fault::Flying
        | Fault::NotFlying
        | Fault::NotWriting
        | Fault::NoMark
        | Fault::TooLong
        | Fault::Full => 0,
    }
}

// Reports why there is no frame.
pub(crate) fn refuse_frame(fault: Fault, told: &mut SvidTold) -> u32
    ensures number { result ≡ folder_number fault }
    ensures told { told.new ≡ told_length (wanted_of fault) }
{
    *told = told_length(wanted_of(fault));
    folder_number(fault)
}
