ghost use Rattle.std.specs.Prelude.{◌==◌, not};
ghost use Rattle.svid_journal.specs.Folder.{answer_fault, answered};
ghost use Rattle.svid_c.specs.Journal.{Moves};

use crate::journal::{SvidFolder, folder_number};

/// Reports that the system call that was due succeeded, or, if `ok` is 0, that it failed. A failed sync of the folder, or any failure
/// during a start, ends everything until the next start. Any other failure only ends the switch to the next journal.
///
/// Returns 0; 42 after a sync that failed; 45 if no call is due; 46 if the next journal would be appended to while a frame is not synced;
/// 49 if a snapshot would end without a mark; 41 if the numbers are not those of a folder. Unless the status is 0, `f` is unchanged.
#[unsafe(no_mangle)]
pub extern "C" fn svid_journal_answer(f: &mut SvidFolder, ok: u32) -> u32
    ensures { Moves (λ f. answer_fault f (not (ok == 0))) (λ f. answered f (not (ok == 0))) result f.old f.new }
{
    let Some(mut folder) = f.folder() else {
        return 41;
    };
    match folder.answer(ok != 0) {
        Ok(()) => {
            *f = SvidFolder::of(&folder);
            0
        }
        Err(fault) => folder_number(fault),
    }
}
