/// A call of the system.
#[derive(Clone, Copy, Debug, PartialEq, Eq)]
pub enum Call {
    /// No call is due.
    Nothing,
    /// Make an empty journal of this number, a new file: a file that has its name is removed first.
    CreateJournal(u64),
    /// Sync the folder.
    SyncFolder,
    /// Make a file beside the snapshot, and write the pieces of a snapshot to it.
    WriteSnapshot,
    /// Sync that file.
    SyncSnapshot,
    /// Rename it over the snapshot.
    RenameSnapshot,
    /// Remove the journal of this number. If it is not there, that counts as a success.
    RemoveJournal(u64),
}
