ghost use Rattle.svid_journal.specs.Folder.{landed_fault, lost};
ghost use Rattle.svid_c.specs.Journal.{Moves};

use crate::journal::{SvidFolder, folder_number};

/// Reports that the write of the frame failed. Nothing ends: the next frame goes to the same offset. Answers as
/// [`svid_journal_synced`](crate::journal_synced::svid_journal_synced) does.
#[unsafe(no_mangle)]
pub extern "C" fn svid_journal_unwritten(f: &mut SvidFolder) -> u32
    ensures { Moves landed_fault lost result f.old f.new }
{
    let Some(mut folder) = f.folder() else {
        return 41;
    };
    match folder.unwritten() {
        Ok(()) => {
            *f = SvidFolder::of(&folder);
            0
        }
        Err(fault) => folder_number(fault),
    }
}
