ghost use Rattle.std.specs.Prelude.{◌≡◌, ◌++◌, ◌∷◌, [], OnOk};
ghost use Rattle.std.specs.Io.KnownBytes.{Appends};
ghost use Rattle.svid_cli.specs.Failure.{bundles_sentence, failure_line, failure_status, input_of, magic_sentence, message_sentence, sentence_of, tool_input, tool_sentence, unopened_line, words_line, written};

use crate::sentence::{HexByte, MessageFault, Sentence, TableFault, Words};
use std::alloc::{AllocError, AllocFailed};
use std::io;
use std::io::Write;
use svid_keys::BundleFault;
use svid_share::ToolFault;
use svid_wire::Reason;

/// Why the program ends with a line on standard error.
#[derive(Drop)]
pub enum Failure {
    /// An engine gave up.
    Tool {
        fault: ToolFault,
        /// The first byte of the input at fault, where it is known.
        first: Option<u8>,
    },
    /// A file with this name could not be opened.
    CannotOpen(Vec<u8>),
    /// The file of trust bundles has the bundle of one trust domain, without its name.
    Unnamed,
    /// A validator ID is not 32 hexadecimal digits.
    BadValidatorId,
}

fn message_sentence(message: usize, offset: usize, reason: Reason) -> Sentence
    ensures { result ≡ message_sentence message offset reason }
{
    Sentence::Message {
        message_fault: MessageFault {
            message,
            offset,
            reason,
        },
    }
}

// The sentence for a message whose first four bytes are not those of one.
fn magic_sentence(first: Option<u8>, message: usize, offset: usize) -> Sentence
    ensures { result ≡ magic_sentence first message offset }
{
    match first {
        Some(byte) if message == 1 && byte != b'J' => Sentence::NotJsr {
            byte: HexByte(byte),
        },
        _ => message_sentence(message, offset, Reason::Magic),
    }
}

fn bundles_sentence(fault: BundleFault) -> Sentence
    ensures { result ≡ bundles_sentence fault }
{
    match fault {
        BundleFault::NotObject => Sentence::BundlesNotObject,
        BundleFault::Domain(index) => Sentence::BundlesDomain { index },
        BundleFault::Keys(index) => Sentence::BundlesKeys { index },
        BundleFault::OutOfMemory => Sentence::OutOfMemory,
    }
}

fn tool_sentence(fault: ToolFault, first: Option<u8>) -> Sentence
    ensures { result ≡ tool_sentence fault first }
{
    match fault {
        ToolFault::Wire {
            message,
            offset,
            reason: Reason::Magic,
            ..
        } => magic_sentence(first, message, offset),
        ToolFault::Wire {
            message,
            offset,
            reason,
            ..
        } => message_sentence(message, offset, reason),
        ToolFault::NotSummary => Sentence::NotSummary,
        ToolFault::Bundles(fault) => bundles_sentence(fault),
        ToolFault::Table(line) => Sentence::BadTable {
            table_fault: TableFault { line },
        },
        ToolFault::Read { .. } => Sentence::CannotRead,
        ToolFault::TooMuch { .. } => Sentence::TooLong,
        ToolFault::Write => Sentence::CannotWrite,
        ToolFault::OutOfMemory => Sentence::OutOfMemory,
    }
}

/// The number of the input that a fault is about, 0 where it is about none.
pub fn tool_input(fault: ToolFault) -> usize
    ensures { result ≡ tool_input fault }
{
    match fault {
        ToolFault::Wire { input, .. } | ToolFault::Read { input } | ToolFault::TooMuch { input } =>
            input,
        ToolFault::NotSummary | ToolFault::Bundles(_) => 1,
        ToolFault::Table(_) => 2,
        ToolFault::Write | ToolFault::OutOfMemory => 0,
    }
}

fn write_unopened<W: Write>(name: &[u8], to: &mut W) -> io::Result<()>
    ensures { OnOk result (Appends (W.contents to.old) (W.contents to.new) (unopened_line name.now)) }
{
    to.write_all(b"svid: cannot open ")?;
    to.write_all(name)
}

impl Failure {
    /// The exit status.
    pub fn status(&self) -> u8
        ensures { result ≡ failure_status self.now }
    {
        match self {
            Failure::Tool { fault, .. } => fault.status(),
            Failure::Unnamed => 1,
            Failure::CannotOpen(_) | Failure::BadValidatorId => 2,
        }
    }

    /// The sentence for it.
    pub fn sentence(&self) -> Sentence
        ensures { result ≡ sentence_of self.now }
    {
        match self {
            Failure::Tool { fault, first } => tool_sentence(*fault, *first),
            Failure::Unnamed => Sentence::BundlesUnnamed,
            Failure::CannotOpen(_) => Sentence::CannotOpen,
            Failure::BadValidatorId => Sentence::BadPlace,
        }
    }

    /// The number of the input that it is about, 0 where it is about none.
    pub fn input(&self) -> usize
        ensures { result ≡ input_of self.now }
    {
        match self {
            Failure::Tool { fault, .. } => tool_input(*fault),
            Failure::Unnamed => 1,
            Failure::CannotOpen(_) | Failure::BadValidatorId => 0,
        }
    }

    fn write_line<W: Write>(&self, to: &mut W) -> io::Result<()>
        ensures { OnOk result (Appends (W.contents to.old) (W.contents to.new) (failure_line self.now ++ 10 ∷ [])) }
    {
        match self {
            Failure::Tool { fault, .. } => writeln!(to, "{fault}"),
            Failure::BadValidatorId => to.write_all(b"svid: bad place\n"),
            Failure::Unnamed => to.write_all(b"svid: bundles: Unnamed\n"),
            Failure::CannotOpen(name) => {
                write_unopened(name, to)?;
                to.write_all(b"\n")
            }
        }
    }

    /// Writes the line, followed by these words, where there are any.
    pub fn tell<W: Write>(&self, words: Option<Words<'_>>, to: &mut W) -> io::Result<()>
        ensures { OnOk result (Appends (W.contents to.old) (W.contents to.new) (written self.now words.entry)) }
    {
        self.write_line(to)?;
        match words {
            Some(words) => writeln!(to, "{words}"),
            None => Ok(()),
        }
    }
}

impl From<ToolFault> for Failure {
    fn from(fault: ToolFault) -> Failure {
        Failure::Tool { fault, first: None }
    }
}

impl From<AllocError> for Failure {
    fn from(_error: AllocError) -> Failure {
        Failure::from(ToolFault::OutOfMemory)
    }
}

impl<T: Drop> From<AllocFailed<T>> for Failure {
    fn from(_error: AllocFailed<T>) -> Failure {
        Failure::from(ToolFault::OutOfMemory)
    }
}
