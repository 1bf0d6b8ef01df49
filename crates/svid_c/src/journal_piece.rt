ghost use Rattle.std.specs.Prelude.{◌+◌, length};
ghost use Rattle.svid_journal.specs.Folder.{piece_fault, pieced, snapshot_title};
ghost use Rattle.svid_c.specs.Journal.{Frames};

use crate::journal::{SvidFolder, SvidFolderId, refuse_frame};
use crate::told::{SvidTold, told_length};
use crate::validator::only;

/// Writes the frame of the next piece of a snapshot to the start of `out`. Append it to the pieces before it. An empty payload is the mark that ends
/// the snapshot. 48 if no snapshot is being written; else it answers as [`svid_journal_put`](crate::journal_put::svid_journal_put) does.
#[unsafe(no_mangle)]
pub extern "C" fn svid_journal_piece(
    f: &mut SvidFolder,
    folder_id: &SvidFolderId,
    payload: &[u8],
    out: &mut [u8],
    told: &mut SvidTold,
) -> u32
    ensures { Frames (λ f. piece_fault f (length payload.now)) (λ f. snapshot_title folder_id.now.bytes) (λ f. 1 + f.pieces) (λ f. pieced f (length payload.now)) payload.now result told.new out.old out.new f.old f.new }
{
    let Some(mut folder) = f.folder() else {
        return only(41, told);
    };
    match folder.piece(out, folder_id.bytes, payload) {
        Ok(len) => {
            *told = told_length(len);
            *f = SvidFolder::of(&folder);
            0
        }
        Err(fault) => refuse_frame(fault, told),
    }
}
