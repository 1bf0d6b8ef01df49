use thiserror::Error;

/// Why a folder takes no call. Its numbers are as they were.
#[derive(Clone, Copy, Debug, PartialEq, Eq, Error)]
pub enum Fault {
    /// The numbers are not those of a folder.
    #[error("these are not the numbers of a folder")]
    Unfit,
    /// A sync failed: what the disk holds is unknown until the next start.
    #[error("a sync failed: start anew")]
    Ended,
    /// No journal grows yet.
    #[error("no journal grows yet")]
    NotGrowing,
    /// Another call is due.
    #[error("another call is due")]
    Busy,
    /// No call is due.
    #[error("no call is due")]
    NothingDue,
    /// A frame was handed out, and is not synced yet.
    #[error("a frame is not synced yet")]
    Flying,
    /// No frame was handed out.
    #[error("there is no frame to sync")]
    NotFlying,
    /// No snapshot is being written.
    #[error("no snapshot is being written")]
    NotWriting,
    /// The snapshot has no mark at its end.
    #[error("the snapshot has no mark at its end")]
    NoMark,
    /// The payload is longer than a frame can hold.
    #[error("a payload has more than 16777215 bytes")]
    TooLong,
    /// A number has reached its limit.
    #[error("a number of the folder has come to its end")]
    Full,
    /// The room is too short: the frame takes so many bytes.
    #[error("the room is too short: the frame takes {0} bytes")]
    TooShort(usize),
}
