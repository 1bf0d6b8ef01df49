ghost use Rattle.svid_journal.specs.Folder.{ended, ready_fault};
ghost use Rattle.svid_c.specs.Journal.{Moves};

use crate::journal::{SvidFolder, folder_number};

/// Reports that a sync of the journal failed. Nothing is acknowledged until the next start. Returns 0; 42 after an earlier sync that
/// failed; 41 if the numbers are not those of a folder. Unless the status is 0, `f` is unchanged.
#[unsafe(no_mangle)]
pub extern "C" fn svid_journal_failed(f: &mut SvidFolder) -> u32
    ensures { Moves ready_fault ended result f.old f.new }
{
    let Some(mut folder) = f.folder() else {
        return 41;
    };
    match folder.failed() {
        Ok(()) => {
            *f = SvidFolder::of(&folder);
            0
        }
        Err(fault) => folder_number(fault),
    }
}
