ghost use Rattle.std.specs.Prelude.{◌≡◌};
ghost use Rattle.svid_c.specs.Payloads.{Bears, mark_of};

use crate::validator_mark::SvidMark;
use svid_journal::{LOG_POSITION_LEN, LogPosition};

/// The parts of a payload.
#[repr(C)]
#[derive(Drop)]
pub struct SvidBears {
    /// The validator's position in its log when the payload was written, and else 0.
    pub mark: SvidMark,
    /// 1 if the payload begins with a position, and else 0.
    pub marked: usize,
    /// The offset of its messages in the payload.
    pub messages: usize,
}

fn mark_of(position: &LogPosition) -> SvidMark
    ensures { result ≡ mark_of position.now }
{
    SvidMark {
        passed: position.passed,
        begun: position.begun as usize,
        deaf: position.deaf,
    }
}

/// Says whether a payload begins with the position of a validator in its log, and where its messages begin. Does not look at the messages.
#[unsafe(no_mangle)]
pub extern "C" fn svid_journal_bears(payload: &[u8], bears: &mut SvidBears)
    ensures { Bears payload.now bears.new }
{
    *bears = match LogPosition::split(payload) {
        Some((position, _)) => SvidBears {
            mark: mark_of(&position),
            marked: 1,
            messages: LOG_POSITION_LEN,
        },
        None => SvidBears {
            mark: SvidMark {
                passed: 0,
                begun: 0,
                deaf: 0,
            },
            marked: 0,
            messages: 0,
        },
    };
}
