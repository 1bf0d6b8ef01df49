/// A file of a state folder.
#[derive(Clone, Copy, Debug, PartialEq, Eq)]
pub enum File {
    /// The journal of this number.
    Journal(u64),
    /// The snapshot.
    Snapshot,
}

/// The identity of a file. No file holds its own title: its reader knows its name and its folder.
#[derive(Clone, Copy, Debug, PartialEq, Eq)]
pub struct Title {
    /// Which file of its folder.
    pub file: File,
    /// 16 bytes that distinguish the folder from every other one.
    pub folder: [u8; 16],
}

impl Title {
    ghost use Rattle.std.specs.Prelude.{◌≡◌};
    ghost use Rattle.svid_journal.specs.Titles.{kind_of, number_of};

    /// The kind of the file, in seven letters.
    pub fn kind(&self) -> &'static [u8]
        ensures { result.now ≡ kind_of self.now.file }
    {
        match self.file {
            File::Journal(_) => b"svidjnl",
            File::Snapshot => b"svidsnp",
        }
    }

    /// The number of the journal, or 0.
    pub fn number(&self) -> u64
        ensures { result ≡ number_of self.now.file }
    {
        match self.file {
            File::Journal(number) => number,
            File::Snapshot => 0,
        }
    }
}
