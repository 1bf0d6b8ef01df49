ghost use Rattle.std.specs.Prelude.{◌≡◌};
ghost use Rattle.svid_c.specs.Journal.{IsDue, call_of};

use crate::journal::{SvidFolder, folder_number};
use svid_journal::Call;

/// The system call that is due.
#[repr(C)]
#[derive(Drop)]
pub struct SvidDue {
    /// 0 for none, 1 to make an empty journal, 2 to sync the folder, 3 to write the snapshot beside the old one, 4 to sync it, 5 to rename
    /// it over the old one, 6 to remove a journal.
    pub call: u64,
    /// For 1 and 6, the number of the journal, and else 0.
    pub journal: u64,
}

fn call_of(call: Call) -> SvidDue
    ensures { result ≡ call_of call }
{
    let (call, journal) = match call {
        Call::Nothing => (0, 0),
        Call::CreateJournal(number) => (1, number),
        Call::SyncFolder => (2, 0),
        Call::WriteSnapshot => (3, 0),
        Call::SyncSnapshot => (4, 0),
        Call::RenameSnapshot => (5, 0),
        Call::RemoveJournal(number) => (6, number),
    };
    SvidDue { call, journal }
}

/// Says which system call is due. Returns 0; 42 after a sync that failed; 41 if the numbers are not those of a folder. Unless the status
/// is 0, `due` is unchanged.
#[unsafe(no_mangle)]
pub extern "C" fn svid_journal_due(f: &SvidFolder, due: &mut SvidDue) -> u32
    ensures { IsDue f.now result due.old due.new }
{
    let Some(folder) = f.folder() else {
        return 41;
    };
    match folder.due() {
        Ok(call) => {
            *due = call_of(call);
            0
        }
        Err(fault) => folder_number(fault),
    }
}
