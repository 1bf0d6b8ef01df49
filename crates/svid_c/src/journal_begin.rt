ghost use Rattle.svid_journal.specs.Folder.{begin_fault, begun};
ghost use Rattle.svid_c.specs.Journal.{Moves};

use crate::journal::{SvidFolder, folder_number};

/// Begins a new journal and a new snapshot. Returns 0; 42 after a sync that failed; 44 while a call is due; 51 if the number of the
/// journal has reached its limit; 41 if the numbers are not those of a folder. Unless the status is 0, `f` is unchanged.
#[unsafe(no_mangle)]
pub extern "C" fn svid_journal_begin(f: &mut SvidFolder) -> u32
    ensures { Moves begin_fault begun result f.old f.new }
{
    let Some(mut folder) = f.folder() else {
        return 41;
    };
    match folder.begin() {
        Ok(()) => {
            *f = SvidFolder::of(&folder);
            0
        }
        Err(fault) => folder_number(fault),
    }
}
