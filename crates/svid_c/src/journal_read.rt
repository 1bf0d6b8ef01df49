ghost use Rattle.std.specs.Prelude.{◌≡◌};
ghost use Rattle.svid_c.specs.Journal.{Reads, file_of, reader_in, reader_out, title_of};

use crate::journal::SvidFolderId;
use crate::told::flag;
use svid_journal::{FORMAT, File, Next, Reader, Title};

/// How far a file is read. C makes it with all bytes 0, and only the calls write it.
#[repr(C)]
#[derive(Drop)]
pub struct SvidReader {
    /// How many frames were read.
    pub count: u64,
    /// How many bytes they take, which is the offset of the next one.
    pub at: u64,
    /// 1 if the last of them is a mark, and else 0.
    pub marked: u64,
}

/// A frame in a file.
#[repr(C)]
#[derive(Drop)]
pub struct SvidFrame {
    /// The offset of the payload's first byte.
    pub payload: usize,
    /// How many bytes it has.
    pub len: usize,
    /// The number of the frame's format.
    pub format: u64,
}

fn file_of(number: u64) -> File
    ensures { result ≡ file_of number }
{
    if number == 0 {
        File::Snapshot
    } else {
        File::Journal(number)
    }
}

fn title_of(number: u64, folder_id: &SvidFolderId) -> Title
    ensures { result ≡ title_of number folder_id.now.bytes }
{
    Title {
        file: file_of(number),
        folder: folder_id.bytes,
    }
}

fn reader_in(reader: &SvidReader) -> Reader
    ensures { result ≡ reader_in reader.now }
{
    Reader {
        count: reader.count,
        at: reader.at,
        marked: reader.marked != 0,
    }
}

fn reader_out(reader: &Reader) -> SvidReader
    ensures { result ≡ reader_out reader.now }
{
    SvidReader {
        count: reader.count,
        at: reader.at,
        marked: flag(reader.marked) as u64,
    }
}

/// Reads the next frame of a file of the state folder `folder_id`: of the journal with this number, or of the snapshot if `journal` is 0.
/// `bytes` is the whole file.
///
/// Returns 0: `frame` says where in `bytes` the payload stands, and the reader advances past it. Else the reader is unchanged, and the status
/// says what is at its offset `reader.at`: 52 the end; 53 a write that was cut off; 54 a frame that was synced and has changed; 55 a frame of
/// another format. 41 if the numbers of the reader do not fit the bytes.
///
/// For 55, `frame.format` is the number of that format, and the rest of `frame` is 0. For any other status but 0, `frame` is unchanged.
#[unsafe(no_mangle)]
pub extern "C" fn svid_journal_read(
    folder_id: &SvidFolderId,
    journal: u64,
    bytes: &[u8],
    reader: &mut SvidReader,
    frame: &mut SvidFrame,
) -> u32
    ensures { Reads (title_of journal folder_id.now.bytes) bytes.now result frame.old frame.new reader.old reader.new }
{
    let mut read = reader_in(reader);
    match read.next(&title_of(journal, folder_id), bytes) {
        Next::Payload(payload) => {
            *frame = SvidFrame {
                payload: reader.at as usize + 32,
                len: payload.len(),
                format: FORMAT as u64,
            };
            *reader = reader_out(&read);
            0
        }
        Next::End => 52,
        Next::Tear => 53,
        Next::Damage => 54,
        Next::Other(format) => {
            *frame = SvidFrame {
                payload: 0,
                len: 0,
                format: format as u64,
            };
            55
        }
        Next::Unfit => 41,
    }
}
