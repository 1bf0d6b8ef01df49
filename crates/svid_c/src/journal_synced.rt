ghost use Rattle.svid_journal.specs.Folder.{landed, landed_fault};
ghost use Rattle.svid_c.specs.Journal.{Moves};

use crate::journal::{SvidFolder, folder_number};

/// Reports that the frame of [`svid_journal_put`](crate::journal_put::svid_journal_put) was written and synced. It is then acknowledged, and
/// the next one follows it. Returns 0; 42 after a sync that failed; 47 if no frame was handed out; 41 if the numbers are not those of a
/// folder. Unless the status is 0, `f` is unchanged.
#[unsafe(no_mangle)]
pub extern "C" fn svid_journal_synced(f: &mut SvidFolder) -> u32
    ensures { Moves landed_fault landed result f.old f.new }
{
    let Some(mut folder) = f.folder() else {
        return 41;
    };
    match folder.synced() {
        Ok(()) => {
            *f = SvidFolder::of(&folder);
            0
        }
        Err(fault) => folder_number(fault),
    }
}
