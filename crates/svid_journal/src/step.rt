/// The step that a folder waits for.
#[derive(Clone, Copy, Debug, PartialEq, Eq)]
pub enum Step {
    /// No step.
    Idle,
    /// At a start, an empty file: the next journal.
    Starting,
    /// At a start, a sync of the folder: the next journal has its name, and grows from then on.
    Entering,
    /// An empty file: the next journal. The one before it still grows.
    Creating,
    /// A sync of the folder: the next journal has its name, and grows from then on.
    Naming,
    /// A snapshot, in pieces, beside the old one. The last piece is a mark.
    Writing,
    /// The write of the mark.
    Ending,
    /// A sync of that file.
    Syncing,
    /// Its new name, that of the old snapshot.
    Renaming,
    /// A sync of the folder: then the old snapshot is gone.
    Publishing,
    /// The removal of the oldest journal.
    Removing,
}

impl Step {
    ghost use Rattle.std.specs.Prelude.{◌≡◌, ◌≢◌, ◌≤◌, IfSome, IfNone};
    ghost use Rattle.svid_journal.specs.Folder.{is_starting, gap_of, step_number};
    ghost use Rattle.svid_journal.specs.declared.step.Step.{Step};

    // Whether no journal grows yet.
    pub(crate) fn is_starting(self) -> bool
        ensures { result ≡ is_starting self }
    {
        match self {
            Step::Starting | Step::Entering => true,
            _ => false,
        }
    }

    // The least difference between the number after the newest journal and that of the oldest.
    pub(crate) fn gap(self) -> u64
        ensures value { result ≡ gap_of self }
        ensures small { result ≤ 2 }
    {
        match self {
            Step::Starting | Step::Entering => 0,
            Step::Idle | Step::Creating | Step::Naming => 1,
            _ => 2,
        }
    }

    // The number of the step, from 0 on, in the order of the list.
    pub(crate) fn number(self) -> u64
        ensures { result ≡ step_number self }
    {
        match self {
            Step::Idle => 0,
            Step::Starting => 1,
            Step::Entering => 2,
            Step::Creating => 3,
            Step::Naming => 4,
            Step::Writing => 5,
            Step::Ending => 6,
            Step::Syncing => 7,
            Step::Renaming => 8,
            Step::Publishing => 9,
            Step::Removing => 10,
        }
    }

    // The step with a number.
    pub(crate) fn of(number: u64) -> Option<Step>
        ensures some { IfSome result (λ step. number ≡ step_number step) }
        ensures none { IfNone result ((step : Step) → number ≢ step_number step) }
    {
        match number {
            0 => Some(Step::Idle),
            1 => Some(Step::Starting),
            2 => Some(Step::Entering),
            3 => Some(Step::Creating),
            4 => Some(Step::Naming),
            5 => Some(Step::Writing),
            6 => Some(Step::Ending),
            7 => Some(Step::Syncing),
            8 => Some(Step::Renaming),
            9 => Some(Step::Publishing),
            10 => Some(Step::Removing),
            _ => None,
        }
    }
}
