/// What is wrong with the bytes of a message.
#[derive(Clone, Copy, Debug, PartialEq, Eq)]
pub enum Reason {
    /// The first four bytes are the magic of no version.
    Magic,
    /// The fifth byte is no kind of message, or it is a summary in version 1.
    Kind,
    /// A batch announces more than 65,536 uses or, in version 1, more than 4,096.
    Count,
    /// The last byte of a use is neither 0 nor 1.
    UseKind,
    /// A use expires at its batch's moment or before.
    UseExpired,
    /// A use was made after its batch's moment.
    UseFuture,
    /// A use is not greater than the one before it.
    UseOrder,
    /// The bytes end before the message does, and no field that is whole is bad.
    Truncated,
    /// Memory for the message was refused.
    OutOfMemory,
    /// The reader refused bytes before, and reads no more.
    Failed,
}
