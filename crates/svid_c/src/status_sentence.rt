ghost use Rattle.std.specs.Prelude.{◌≡◌, length};
ghost use Rattle.svid_c.specs.Status.{told_length};
ghost use Rattle.svid_c.specs.Texts.{sentence, texts_of, told_sentence};
ghost use Rattle.svid_c.specs.Written.{IsPut};

use crate::told::SvidTold;
use crate::words::words_of;
use crate::writing::put;

/// Writes the name of a status to the start of `out`, like "SVID_REPLAYED"; "SVID_?" for a number without a status.
///
/// Returns 0, with the length of the name in `told.len`; or 1 if it is longer than `out`, which is then unchanged.
#[unsafe(no_mangle)]
pub extern "C" fn svid_status_name(status: u32, out: &mut [u8], told: &mut SvidTold) -> u32
    ensures put { IsPut (texts_of status).name result out.old out.new }
    ensures told { told.new ≡ told_length (length (texts_of status).name) }
{
    put(words_of(status).name.as_bytes(), out, told)
}

/// Writes the sentence of a status to the start of `out`, and after a space its advice, if it has any; "No status has this number." for a
/// number without a status.
///
/// Returns 0, with the length of the text in `told.len`, and of its part before any advice in `told.more`; or 1 if it is longer than
/// `out`, which is then unchanged.
#[unsafe(no_mangle)]
pub extern "C" fn svid_status_sentence(status: u32, out: &mut [u8], told: &mut SvidTold) -> u32
    ensures put { IsPut (sentence (texts_of status)) result out.old out.new }
    ensures told { told.new ≡ told_sentence (texts_of status) }
{
    let words = words_of(status);
    let number = put(words.sentence.as_bytes(), out, told);
    told.more = words.says_len;
    number
}
