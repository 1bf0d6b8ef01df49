ghost use Rattle.svid_journal.specs.Folder.{open_fault, opened};
ghost use Rattle.svid_c.specs.Journal.{Starts};

use crate::journal::{SvidFolder, folder_number};
use svid_journal::Folder;

/// Starts with a state folder that was read, whose journals have numbers from `oldest` to `newest`. Pass 1 and 0 for a folder without
/// journals. Returns 0, and `f` is that folder; the next journal is to be made first.
///
/// 51 if `newest` is 2^62-1 or more; 41 if `oldest` is greater than `newest` + 1. Unless the status is 0, `f` is unchanged.
#[unsafe(no_mangle)]
pub extern "C" fn svid_journal_open(f: &mut SvidFolder, oldest: u64, newest: u64) -> u32
    ensures { Starts (open_fault oldest newest) (opened oldest newest) result f.old f.new }
{
    match Folder::open(oldest, newest) {
        Ok(folder) => {
            *f = SvidFolder::of(&folder);
            0
        }
        Err(fault) => folder_number(fault),
    }
}
