ghost use Rattle.std.specs.Prelude.{◌≡◌, Some};
ghost use Rattle.svid_share.specs.Faults.{bundle_fault_of, fault_text, reason_name, status_of, table_fault_of};
ghost use Rattle.svid_share.specs.declared.tool_fault.ToolFault.TheVariants.{OutOfMemory};

use std::alloc::{AllocError, AllocFailed};
use std::error::Error;
use std::fmt;
use svid_keys::{BundleFault, TableFault};
use svid_wire::Reason;

/// Why an engine gave up. Inputs and messages are numbered from 1.
#[derive(Clone, Copy, Debug, PartialEq, Eq)]
pub enum ToolFault {
    /// The bytes of an input are no message, from this offset of this message on.
    Wire {
        /// The number of the input.
        input: usize,
        /// The number of whole messages of that input before the fault, plus one.
        message: usize,
        /// The offset in that message.
        offset: usize,
        /// What is wrong there.
        reason: Reason,
    },
    /// An input that must be one summary is something else.
    NotSummary,
    /// The bundles are refused.
    Bundles(BundleFault),
    /// The line with this number, counted from 1, is the first of the table that is neither empty nor a question.
    Table(usize),
    /// An input could not be read.
    Read {
        /// The number of the input.
        input: usize,
    },
    /// An input has more than 67,108,864 bytes.
    TooMuch {
        /// The number of the input.
        input: usize,
    },
    /// The output could not be written.
    Write,
    /// Memory was refused.
    OutOfMemory,
}

impl ToolFault {
    /// The exit status of the program after this fault: 1 where an input was refused, 2 where something else went wrong.
    pub fn status(&self) -> u8
        ensures { result ≡ status_of self.now }
    {
        match self {
            ToolFault::Wire { .. }
            | ToolFault::NotSummary
            | ToolFault::Bundles(_)
            | ToolFault::Table(_) => 1,
            ToolFault::Read { .. }
            | ToolFault::TooMuch { .. }
            | ToolFault::Write
            | ToolFault::OutOfMemory => 2,
        }
    }
}

fn reason_name(reason: Reason) -> &'static str
    ensures { result.now ≡ reason_name reason }
{
    match reason {
        Reason::Magic => "Magic",
        Reason::Kind => "Kind",
        Reason::Count => "Count",
        Reason::UseKind => "UseKind",
        Reason::UseExpired => "UseExpired",
        Reason::UseFuture => "UseFuture",
        Reason::UseOrder => "UseOrder",
        Reason::Truncated => "Truncated",
        Reason::OutOfMemory => "OutOfMemory",
        Reason::Failed => "Failed",
    }
}

// The text that main prints on standard error.
impl fmt::Display for ToolFault {
    ghost output = { λ e. Some (fault_text e) };

    fn fmt<W: fmt::Write>(&self, f: &mut fmt::Formatter<W>) -> fmt::Result {
        match *self {
            ToolFault::Wire {
                input,
                message,
                offset,
                reason,
            } => {
                let reason = reason_name(reason);
                write!(
                    f,
                    "svid: input {input} message {message} place {offset}: {reason}"
                )
            }
            ToolFault::NotSummary => f.write_str("svid: not one summary"),
            ToolFault::Bundles(BundleFault::NotObject) => f.write_str("svid: bundles: NotObject"),
            ToolFault::Bundles(BundleFault::Domain(index)) => {
                write!(f, "svid: bundles: Domain({index})")
            }
            ToolFault::Bundles(BundleFault::Keys(index)) => {
                write!(f, "svid: bundles: Keys({index})")
            }
            ToolFault::Table(line) => write!(f, "svid: table: line {line}"),
            ToolFault::Read { input } => write!(f, "svid: cannot read input {input}"),
            ToolFault::TooMuch { input } => write!(f, "svid: input {input} too long"),
            ToolFault::Write => f.write_str("svid: cannot write"),
            ToolFault::OutOfMemory | ToolFault::Bundles(BundleFault::OutOfMemory) => {
                f.write_str("svid: out of memory")
            }
        }
    }
}

impl Error for ToolFault {}

impl From<AllocError> for ToolFault {
    ghost from_gives = { λ _ e. e ≡ OutOfMemory };

    fn from(_error: AllocError) -> ToolFault {
        ToolFault::OutOfMemory
    }
}

impl<T: Drop> From<AllocFailed<T>> for ToolFault {
    ghost from_gives = { λ _ e. e ≡ OutOfMemory };

    fn from(_error: AllocFailed<T>) -> ToolFault {
        ToolFault::OutOfMemory
    }
}

impl From<BundleFault> for ToolFault {
    ghost from_gives = { λ fault e. e ≡ bundle_fault_of fault };

    fn from(fault: BundleFault) -> ToolFault {
        match fault {
            BundleFault::OutOfMemory => ToolFault::OutOfMemory,
            fault => ToolFault::Bundles(fault),
        }
    }
}

impl From<TableFault> for ToolFault {
    ghost from_gives = { λ fault e. e ≡ table_fault_of fault };

    fn from(fault: TableFault) -> ToolFault {
        match fault {
            TableFault::Line(line) => ToolFault::Table(line),
            TableFault::OutOfMemory => ToolFault::OutOfMemory,
        }
    }
}
