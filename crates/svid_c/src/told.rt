ghost use Rattle.std.specs.Prelude.{◌≡◌};
ghost use Rattle.svid_c.specs.Status.{bundles_number, bundles_index, fault_number, flag, reason_number, told_fault, told_length, told_rows};

use svid_keys::BundleFault;
use svid_share::ToolFault;
use svid_wire::Reason;

/// What a call reports beside its status; 0 where it has nothing to report.
#[repr(C)]
#[derive(Drop)]
pub struct SvidTold {
    /// The length of the text that was written, or that has no room, in bytes.
    pub len: usize,
    /// The number of the refused input of messages, counted from 1 in the order of the call's inputs; 1 for bundles that are too long; 0 for any
    /// other fault.
    pub input: usize,
    /// The number of the refused message in it, counted from 1.
    pub message: usize,
    /// The offset in that message, in bytes from its first. For bundles, the index of the refused name among all names in rising order of their
    /// bytes, counted from 0. For a table, the number of the line, counted from 1.
    pub offset: usize,
    /// For [`svid_validator_ask_token`](crate::validator_ask_token::svid_validator_ask_token) and
    /// [`svid_bundles_ask`](crate::bundles_ask::svid_bundles_ask), 1 if more keys may have signed the token than it lists, and else 0. For
    /// [`svid_validator_differs`](crate::validator_differs::svid_validator_differs), 1 if the bucket differs, and else 0. For
    /// [`svid_status_sentence`](crate::status_sentence::svid_status_sentence), the length of the text before any advice.
    pub more: usize,
}

// A boolean as C has it.
pub(crate) fn flag(truth: bool) -> usize
    ensures { result ≡ flag truth }
{
    if truth { 1 } else { 0 }
}

pub(crate) fn told_length(len: usize) -> SvidTold
    ensures { result ≡ told_length len }
{
    SvidTold {
        len,
        input: 0,
        message: 0,
        offset: 0,
        more: 0,
    }
}

pub(crate) fn told_rows(len: usize, more: bool) -> SvidTold
    ensures { result ≡ told_rows len more }
{
    SvidTold {
        len,
        input: 0,
        message: 0,
        offset: 0,
        more: flag(more),
    }
}

pub(crate) fn told_fault(fault: ToolFault) -> SvidTold
    ensures { result ≡ told_fault fault }
{
    let (input, message, offset) = match fault {
        ToolFault::Wire {
            input,
            message,
            offset,
            ..
        } => (input, message, offset),
        ToolFault::Bundles(fault) => (0, 0, bundles_index(fault)),
        ToolFault::Table(line) => (0, 0, line),
        ToolFault::TooMuch { input } => (input, 0, 0),
        ToolFault::NotSummary
        | ToolFault::Read { .. }
        | ToolFault::Write
        | ToolFault::OutOfMemory => (0, 0, 0),
    };
    SvidTold {
        len: 0,
        input,
        message,
        offset,
        more: 0,
    }
}

fn bundles_index(fault: BundleFault) -> usize
    ensures { result ≡ bundles_index fault }
{
    match fault {
        BundleFault::Domain(index) | BundleFault::Keys(index) => index,
        BundleFault::NotObject | BundleFault::OutOfMemory => 0,
    }
}

pub(crate) fn reason_number(reason: Reason) -> u32
    ensures { result ≡ reason_number reason }
{
    match reason {
        Reason::OutOfMemory | Reason::Failed => 2,
        Reason::Magic => 11,
        Reason::Kind => 12,
        Reason::Count => 13,
        Reason::UseKind => 14,
        Reason::UseExpired => 15,
        Reason::UseFuture => 16,
        Reason::UseOrder => 17,
        Reason::Truncated => 18,
    }
}

fn bundles_number(fault: BundleFault) -> u32
    ensures { result ≡ bundles_number fault }
{
    match fault {
        BundleFault::OutOfMemory => 2,
        BundleFault::NotObject => 31,
        BundleFault::Domain(_) => 32,
        BundleFault::Keys(_) => 33,
    }
}

pub(crate) fn fault_number(fault: ToolFault) -> u32
    ensures { result ≡ fault_number fault }
{
    match fault {
        ToolFault::Wire { reason, .. } => reason_number(reason),
        ToolFault::NotSummary => 4,
        ToolFault::Bundles(fault) => bundles_number(fault),
        ToolFault::Table(_) => 34,
        ToolFault::TooMuch { .. } => 3,
        ToolFault::Read { .. } | ToolFault::Write | ToolFault::OutOfMemory => 2,
    }
}
