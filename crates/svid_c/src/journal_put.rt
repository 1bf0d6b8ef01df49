ghost use Rattle.std.specs.Prelude.{◌+◌, length};
ghost use Rattle.svid_journal.specs.Folder.{flown, journal_title, put_fault};
ghost use Rattle.svid_c.specs.Journal.{Frames};

use crate::journal::{SvidFolder, SvidFolderId, refuse_frame};
use crate::told::{SvidTold, told_length};
use crate::validator::only;

/// Writes the frame of a payload to the start of `out`. An empty payload is a mark. Returns 0, with the frame's length in `told.len`: write
/// it at offset `f.end` of the journal `f.newest`. Returns 1 if it is longer than `out`, also with its length.
///
/// 42 after a sync that failed; 43 if there is no journal to append to yet; 46 while the frame before it is not synced; 50 if the payload
/// has more than 16,777,215 bytes; 51 if a number of the folder has reached its limit; 41 if the numbers are not those of a folder. Unless
/// the status is 0, `f` and `out` are unchanged.
#[unsafe(no_mangle)]
pub extern "C" fn svid_journal_put(
    f: &mut SvidFolder,
    folder_id: &SvidFolderId,
    payload: &[u8],
    out: &mut [u8],
    told: &mut SvidTold,
) -> u32
    ensures { Frames (λ f. put_fault f (length payload.now)) (λ f. journal_title f folder_id.now.bytes) (λ f. 1 + f.count) (λ f. flown f (length payload.now)) payload.now result told.new out.old out.new f.old f.new }
{
    let Some(mut folder) = f.folder() else {
        return only(41, told);
    };
    match folder.put(out, folder_id.bytes, payload) {
        Ok(len) => {
            *told = told_length(len);
            *f = SvidFolder::of(&folder);
            0
        }
        Err(fault) => refuse_frame(fault, told),
    }
}
