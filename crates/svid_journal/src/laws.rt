//! Laws of a folder over every history. Each is the contract of a function with an empty body.

ghost use Rattle.svid_journal.specs.Titles.{TitlesDiffer};
ghost use Rattle.svid_journal.specs.Payloads.{MessagesHaveNoPosition, PositionsAreReadBack};
ghost use Rattle.svid_journal.specs.Promises.{AcknowledgedIsRead, CrashesMayCome, DamageIsSeen, EndedAcknowledgesNothing, ExampleIsAllowed, FailuresEnd, IdIsRead, JournalsAreRead, NothingElseIsRead, NumbersStayFit, TornIsAsWritten};

/// We prove this for every history of appends, switches, failures, crashes and starts in a folder that was empty. A use that was
/// acknowledged is read at the next start, whenever that is. All that was acknowledged of a journal is read of it, in order. Only
/// what was appended is read, or two texts have one tag. Damage is seen. Once a sync of the folder or of the journal that grows
/// failed, nothing is acknowledged until the next start. From the first journal on, the file with the folder's ID is there. The
/// numbers stay those of a folder. A crash may come at any time.
pub fn histories_keep()
    ensures acknowledged { AcknowledgedIsRead }
    ensures in_order { JournalsAreRead }
    ensures nothing_else { NothingElseIsRead }
    ensures torn { TornIsAsWritten }
    ensures damage { DamageIsSeen }
    ensures ended { EndedAcknowledgesNothing }
    ensures failures { FailuresEnd }
    ensures id { IdIsRead }
    ensures fit { NumbersStayFit }
    ensures crashes { CrashesMayCome }
    ensures example { ExampleIsAllowed }
{}

/// Two different files have different titles.
pub fn titles_differ()
    ensures { TitlesDiffer }
{}

/// The position of a member in its log that is written before messages is read back, with the messages after it. Messages alone,
/// which begin with `JSR`, are never read as a position.
pub fn payloads_are_read_back()
    ensures positions { PositionsAreReadBack }
    ensures messages { MessagesHaveNoPosition }
{}
