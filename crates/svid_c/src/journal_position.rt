ghost use Rattle.std.specs.Prelude.{◌≡◌};
ghost use Rattle.svid_journal.specs.Payloads.{position_text};
ghost use Rattle.svid_c.specs.Payloads.{position_of};
ghost use Rattle.svid_c.specs.Status.{told_length};
ghost use Rattle.svid_c.specs.Written.{IsPut};

use crate::told::SvidTold;
use crate::validator_mark::SvidMark;
use crate::writing::put;
use svid_journal::LogPosition;

fn position_of(mark: &SvidMark) -> LogPosition
    ensures { result ≡ position_of mark.now }
{
    LogPosition {
        passed: mark.passed,
        begun: mark.begun as u64,
        deaf: mark.deaf,
    }
}

/// Writes the position of a validator in its log to the start of `out`, as the first part of a payload, and returns 0. Append messages to it,
/// or none. `told.len` is 28. 1 if `out` is shorter than these 28 bytes: it is unchanged.
#[unsafe(no_mangle)]
pub extern "C" fn svid_journal_position(mark: &SvidMark, out: &mut [u8], told: &mut SvidTold) -> u32
    ensures put { IsPut (position_text (position_of mark.now)) result out.old out.new }
    ensures told { told.new ≡ told_length 28 }
{
    put(&position_of(mark).text(), out, told)
}
