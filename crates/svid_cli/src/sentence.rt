ghost use Rattle.std.specs.Prelude.{◌≡◌, ◌<◌, Some, slice_index};
ghost use Rattle.hex.specs.Hex.{lower_digits};
ghost use Rattle.svid_cli.specs.HexByte.{hex_text};
ghost use Rattle.svid_cli.specs.Sentence.{message_fault_text, reason_words, sentence_text, table_fault_text};

use std::fmt;
use svid_wire::Reason;

/// A byte, shown as two hexadecimal digits.
#[derive(Clone, Copy)]
pub struct HexByte(pub u8);

/// Where messages are bad, and why.
#[derive(Clone, Copy)]
pub struct MessageFault {
    pub message: usize,
    pub offset: usize,
    pub reason: Reason,
}

/// The first line of a table that is neither empty nor a question.
#[derive(Clone, Copy)]
pub struct TableFault {
    pub line: usize,
}

/// What is wrong after a failure, and what to do.
#[derive(Clone, Copy)]
pub enum Sentence {
    /// An input of messages begins with this byte, and not with `J`.
    NotJsr { byte: HexByte },
    /// An input of messages is bad.
    Message { message_fault: MessageFault },
    /// An input is not one summary.
    NotSummary,
    /// A line of the table is no question.
    BadTable { table_fault: TableFault },
    /// The bundles are no JSON object.
    BundlesNotObject,
    /// A name of the bundles is no trust domain name.
    BundlesDomain { index: usize },
    /// A name of the bundles has no list of keys.
    BundlesKeys { index: usize },
    /// The bundles are those of one trust domain, without its name.
    BundlesUnnamed,
    /// A validator ID is not 32 hexadecimal digits.
    BadPlace,
    /// A file was not opened.
    CannotOpen,
    /// A read failed.
    CannotRead,
    /// An input has too many bytes.
    TooLong,
    /// A write failed.
    CannotWrite,
    /// Memory was refused.
    OutOfMemory,
}

/// A sentence, with the name of its input.
#[derive(Clone, Copy)]
pub struct Words<'a> {
    pub sentence: Sentence,
    pub input: &'a str,
}

fn digit(value: u8) -> char
    requires { value < 16 }
    ensures { result ≡ slice_index lower_digits value }
{
    if value < 10 {
        char::from(b'0' + value)
    } else {
        char::from(b'a' - 10 + value)
    }
}

impl fmt::Display for HexByte {
    ghost output = { λ b. Some (hex_text b.0) };

    fn fmt<W: fmt::Write>(&self, f: &mut fmt::Formatter<W>) -> fmt::Result {
        let high = digit(self.0 / 16);
        let low = digit(self.0 % 16);
        write!(f, "{high}{low}")
    }
}

// What is wrong with a message, and what belongs there.
fn reason_words(reason: Reason) -> &'static str
    ensures { result.now ≡ reason_words reason }
{
    match reason {
        // lists:begin reasons (written by tools/lists from lists/statuses.toml)
        Reason::Magic =>
            "the first four bytes are those of no version, and due is 4A 53 52, which is JSR, and then 02 or 01",
        Reason::Kind =>
            "the fifth byte is that of no kind of message of the version, and due is 01 for a batch, or 02 for a summary, which only version 2 has",
        Reason::Count =>
            "a batch tells of too many uses, and due is a number of at most 65,536 uses, or of 4,096 in version 1",
        Reason::UseKind =>
            "the last byte of a use is neither 0 nor 1, and due is a use whose last byte is 00 or 01",
        Reason::UseExpired =>
            "a use expires at its batch's moment or before it, and due is a use that expires after the batch's moment",
        Reason::UseFuture =>
            "a use was made after its batch's moment, and due is a use that was made at the batch's moment or before it",
        Reason::UseOrder =>
            "a use is not greater than the one before it, and due is a use that is greater than the one before it",
        Reason::Truncated =>
            "the bytes end before the message does, and due is the rest of the message",
        // lists:end
        Reason::OutOfMemory => "memory was refused for it",
        Reason::Failed => "a read failed",
    }
}

impl fmt::Display for MessageFault {
    ghost output = { λ m. Some (message_fault_text m) };

    fn fmt<W: fmt::Write>(&self, f: &mut fmt::Formatter<W>) -> fmt::Result {
        // lists:begin MessageFault (written by tools/lists from lists/faults.toml)
        let message = self.message;
        let offset = self.offset;
        let reason = reason_words(self.reason);
        write!(
            f,
            "message {message} is bad from byte {offset} on: {reason}"
        )
        // lists:end
    }
}

impl fmt::Display for TableFault {
    ghost output = { λ t. Some (table_fault_text t) };

    fn fmt<W: fmt::Write>(&self, f: &mut fmt::Formatter<W>) -> fmt::Result {
        // lists:begin TableFault (written by tools/lists from lists/faults.toml)
        let line = self.line;
        write!(
            f,
            "a line is neither empty nor a question. It is line {line}"
        )
        // lists:end
    }
}

impl<'a> fmt::Display for Words<'a> {
    ghost output = { λ w. Some (sentence_text w.sentence w.input.now) };

    fn fmt<W: fmt::Write>(&self, f: &mut fmt::Formatter<W>) -> fmt::Result {
        let input = self.input;
        match self.sentence {
            // lists:begin sentences (written by tools/lists from lists/faults.toml)
            Sentence::NotJsr { byte } => write!(
                f,
                "{input} is no message of svid: byte 0 is {byte}, where JSR is due. Name a file that svid wrote."
            ),
            Sentence::Message { message_fault } => write!(
                f,
                "{input} is no message of svid: {message_fault}. Name a whole file that svid wrote."
            ),
            Sentence::NotSummary => write!(
                f,
                "{input} is no summary of svid: it is messages, but not one summary. Let the other validator write one with svid summary."
            ),
            Sentence::BadTable { table_fault } => write!(
                f,
                "{input} is no table of questions: {table_fault}. Write one question a line."
            ),
            Sentence::BundlesNotObject => write!(
                f,
                "{input} is no file of trust bundles: no JSON object. Write one object that has a JWK Set under the name of each trust domain."
            ),
            Sentence::BundlesDomain { index } => write!(
                f,
                "{input} is no file of trust bundles: a name is no trust domain name. It is the one behind {index} others in rising order. Correct that name, or take it out."
            ),
            Sentence::BundlesKeys { index } => write!(
                f,
                "{input} is no file of trust bundles: a name has no list of keys. It is the one behind {index} others in rising order. Write a JWK Set under that name, or take it out."
            ),
            Sentence::BundlesUnnamed => write!(
                f,
                "{input} is the bundle of one trust domain, without its name. Name it: give --trust-domain NAME too."
            ),
            Sentence::BadPlace => f.write_str(
                "The value of --validator-id is not 32 hexadecimal digits. Choose 32 that no other validator has, and give them each time.",
            ),
            Sentence::CannotOpen => f.write_str(
                "There is no such file, or you may not open it, or its name is not UTF-8. Look at the name, and at who may read the file, or write to that of --out.",
            ),
            Sentence::CannotRead => write!(
                f,
                "A read of {input} failed. Name a file, and no folder, or leave standard input open."
            ),
            Sentence::TooLong => write!(
                f,
                "{input} has more than 67,108,864 bytes, the most of one input. Cut a record into parts by split -b 4259857, and name them."
            ),
            Sentence::CannotWrite => f.write_str(
                "A write to standard output failed, or one to the file of --out. Leave standard output open, and see that the disk has room.",
            ),
            Sentence::OutOfMemory => f.write_str(
                "The system refused memory. Give the program more of it, or less to read at once.",
            ),
            // lists:end
        }
    }
}
