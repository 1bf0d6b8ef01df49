ghost use Rattle.std.specs.Prelude.{◌≡◌, ◌+◌, ◌<◌, ◌≤◌, ◌^◌, ◌++◌, None, Some, true, length, drop, IfOk, IfErr, IfNone, OnOk, OnErr};
ghost use Rattle.svid_journal.specs.Titles.{bytes_of};
ghost use Rattle.svid_journal.specs.Frames.{frame_of, frame_len};
ghost use Rattle.svid_journal.specs.Folder.{IsSmall, gap_in, is_fit, ready_fault, begin_fault, answer_fault, put_fault, landed_fault, piece_fault, room_fault, open_fault, opened, begun, gone_on, given_up, answered, removed, due, flown, landed, lost, ended, pieced, journal_title, snapshot_title};

use crate::call::Call;
use crate::fault::Fault;
use crate::frame::{MOST, MOST_PAYLOAD, frame_len, put_frame};
use crate::step::Step;
use crate::title::{File, Title};

/// The state of a state folder: which journals it may have, which call is due, and how much of the journal that grows is written.
///
/// All fields are plain numbers, so a caller can keep them in any form. Each call checks them, and returns a [`Fault`] if they
/// are not those of a folder.
#[derive(Clone, Copy, Debug, PartialEq, Eq)]
pub struct Folder {
    /// The step whose call is due.
    pub step: Step,
    /// No journal has a smaller number.
    pub oldest: u64,
    /// The journal that grows; at a start, the greatest number that was found.
    pub newest: u64,
    /// A sync failed.
    pub ended: bool,
    /// How many frames of the journal that grows are synced.
    pub count: u64,
    /// How many bytes they take.
    pub end: u64,
    /// How many bytes the frame takes that was handed out and is not synced, or 0.
    pub flying: u64,
    /// How many pieces of a snapshot were handed out.
    pub pieces: u64,
}

impl Folder {
    // The least difference between the number after the newest journal and that of the oldest. A start that ended may have made
    // no journal.
    fn gap(&self) -> u64
        ensures value { result ≡ gap_in self.now }
        ensures small { result ≤ 2 }
    {
        if !self.ended { self.step.gap() } else { 0 }
    }

    fn is_fit(&self) -> bool
        ensures value { result ≡ is_fit self.now }
        ensures small { result ≡ true → IsSmall self.now }
    {
        self.newest < MOST
            && self.oldest <= MOST
            && self.oldest + self.gap() <= self.newest + 1
            && self.count < MOST
            && self.end < MOST
            && self.flying <= 33_554_432
            && self.pieces < MOST
            && (self.flying == 0 || !self.step.is_starting())
    }

    fn ready_fault(&self) -> Option<Fault>
        ensures value { result ≡ ready_fault self.now }
        ensures small { IfNone result (IsSmall self.now) }
    {
        if !self.is_fit() {
            return Some(Fault::Unfit);
        }
        if self.ended {
            return Some(Fault::Ended);
        }
        None
    }

    fn begin_fault(&self) -> Option<Fault>
        ensures { result ≡ begin_fault self.now }
    {
        if let Some(fault) = self.ready_fault() {
            return Some(fault);
        }
        if self.step != Step::Idle {
            return Some(Fault::Busy);
        }
        if self.newest + 1 >= MOST {
            return Some(Fault::Full);
        }
        None
    }

    fn answer_fault(&self, ok: bool) -> Option<Fault>
        ensures value { result ≡ answer_fault self.now ok }
        ensures small { IfNone result (IsSmall self.now) }
    {
        if let Some(fault) = self.ready_fault() {
            return Some(fault);
        }
        match self.step {
            Step::Idle => Some(Fault::NothingDue),
            Step::Naming if ok && self.flying > 0 => Some(Fault::Flying),
            Step::Writing if ok => Some(Fault::NoMark),
            _ => None,
        }
    }

    fn put_fault(&self, len: usize) -> Option<Fault>
        ensures value { result ≡ put_fault self.now len }
        ensures small { IfNone result (IsSmall self.now × (len < 2 ^ 24)) }
    {
        if let Some(fault) = self.ready_fault() {
            return Some(fault);
        }
        if self.step.is_starting() {
            return Some(Fault::NotGrowing);
        }
        if self.flying > 0 {
            return Some(Fault::Flying);
        }
        if len > MOST_PAYLOAD {
            return Some(Fault::TooLong);
        }
        if self.count + 1 >= MOST {
            return Some(Fault::Full);
        }
        if self.end + 33_554_432 >= MOST {
            return Some(Fault::Full);
        }
        None
    }

    fn landed_fault(&self) -> Option<Fault>
        ensures value { result ≡ landed_fault self.now }
        ensures small { IfNone result (IsSmall self.now) }
    {
        if let Some(fault) = self.ready_fault() {
            return Some(fault);
        }
        if self.flying == 0 {
            return Some(Fault::NotFlying);
        }
        None
    }

    fn piece_fault(&self, len: usize) -> Option<Fault>
        ensures value { result ≡ piece_fault self.now len }
        ensures small { IfNone result (IsSmall self.now × (len < 2 ^ 24)) }
    {
        if let Some(fault) = self.ready_fault() {
            return Some(fault);
        }
        if self.step != Step::Writing {
            return Some(Fault::NotWriting);
        }
        if len > MOST_PAYLOAD {
            return Some(Fault::TooLong);
        }
        if self.pieces + 1 >= MOST {
            return Some(Fault::Full);
        }
        None
    }

    /// A start, in a folder that was read: no journal has a number below `oldest` or above `newest`. In a folder without journals
    /// these are 1 and 0.
    ///
    /// The next journal is made first, and grows. `Unfit` if `oldest` is greater than the number after `newest`, `Full` if that
    /// number is 2^62 or more.
    pub fn open(oldest: u64, newest: u64) -> Result<Folder, Fault>
        ensures ok { IfOk result (λ f. (open_fault oldest newest ≡ None) × (f ≡ opened oldest newest)) }
        ensures err { IfErr result (λ e. open_fault oldest newest ≡ Some e) }
    {
        if newest >= MOST - 1 {
            return Err(Fault::Full);
        }
        if oldest > newest + 1 {
            return Err(Fault::Unfit);
        }
        Ok(Folder {
            step: Step::Starting,
            oldest,
            newest,
            ended: false,
            count: 0,
            end: 0,
            flying: 0,
            pieces: 0,
        })
    }

    /// Begins a new journal and a new snapshot. `Busy` while a call is due.
    pub fn begin(&mut self) -> Result<(), Fault>
        ensures ok { OnOk result ((begin_fault self.old ≡ None) × (self.new ≡ begun self.old)) }
        ensures err { IfErr result (λ e. (begin_fault self.old ≡ Some e) × (self.new ≡ self.old)) }
    {
        if let Some(fault) = self.begin_fault() {
            return Err(fault);
        }
        self.step = Step::Creating;
        Ok(())
    }

    /// The call of the system that is due. The caller makes it, and reports by [`Folder::answer`] whether it succeeded.
    pub fn due(&self) -> Result<Call, Fault>
        ensures { result ≡ due self.now (ready_fault self.now) }
    {
        if let Some(fault) = self.ready_fault() {
            return Err(fault);
        }
        Ok(match self.step {
            Step::Idle => Call::Nothing,
            Step::Starting | Step::Creating => Call::CreateJournal(self.newest + 1),
            Step::Entering | Step::Naming | Step::Publishing => Call::SyncFolder,
            Step::Writing | Step::Ending => Call::WriteSnapshot,
            Step::Syncing => Call::SyncSnapshot,
            Step::Renaming => Call::RenameSnapshot,
            Step::Removing => Call::RemoveJournal(self.oldest),
        })
    }

    // The next journal grows.
    fn grow(&mut self, step: Step)
        requires { self.old.newest < 2 ^ 62 }
        ensures { self.new ≡ record { step = step; oldest = self.old.oldest; newest = self.old.newest + 1; ended = self.old.ended; count = 0; end = 0; flying = 0; pieces = 0 } }
    {
        self.step = step;
        self.newest += 1;
        self.count = 0;
        self.end = 0;
        self.flying = 0;
        self.pieces = 0;
    }

    // The oldest journal was removed.
    fn remove(&mut self)
        requires { self.old.oldest ≤ 2 ^ 62 }
        ensures { self.new ≡ removed self.old }
    {
        self.oldest += 1;
        if self.oldest >= self.newest {
            self.step = Step::Idle;
        }
    }

    fn go_on(&mut self)
        requires { IsSmall self.old }
        ensures { self.new ≡ gone_on self.old.step self.old }
    {
        match self.step {
            Step::Idle | Step::Writing => {}
            Step::Starting => self.step = Step::Entering,
            Step::Entering => self.grow(Step::Idle),
            Step::Creating => self.step = Step::Naming,
            Step::Naming => self.grow(Step::Writing),
            Step::Ending => self.step = Step::Syncing,
            Step::Syncing => self.step = Step::Renaming,
            Step::Renaming => self.step = Step::Publishing,
            Step::Publishing => self.step = Step::Removing,
            Step::Removing => self.remove(),
        }
    }

    // The content of the disk is unknown from here on.
    fn end(&mut self)
        ensures { self.new ≡ ended self.old }
    {
        self.step = Step::Idle;
        self.ended = true;
        self.flying = 0;
    }

    fn give_up(&mut self)
        ensures { self.new ≡ given_up self.old.step self.old }
    {
        match self.step {
            Step::Starting | Step::Entering | Step::Naming | Step::Publishing => self.end(),
            _ => self.step = Step::Idle,
        }
    }

    /// Reports that the call that was due succeeded, or failed.
    ///
    /// If a sync of the folder fails, or the call of a start, everything ends until the next start. Any other call that fails
    /// only ends the switch, and [`Folder::begin`] begins it again. `Flying` if the next journal would grow while a frame is not
    /// synced, `NoMark` if a snapshot is ended without a mark, `NothingDue` if no call was due.
    pub fn answer(&mut self, ok: bool) -> Result<(), Fault>
        ensures ok { OnOk result ((answer_fault self.old ok ≡ None) × (self.new ≡ answered self.old ok)) }
        ensures err { IfErr result (λ e. (answer_fault self.old ok ≡ Some e) × (self.new ≡ self.old)) }
    {
        if let Some(fault) = self.answer_fault(ok) {
            return Err(fault);
        }
        if ok {
            self.go_on();
        } else {
            self.give_up();
        }
        Ok(())
    }

    /// Puts the frame of a payload at the start of `room`, and returns its length. Write it at offset `end` of the journal
    /// `newest`.
    ///
    /// An empty payload is a mark. The next frame is handed out once the caller has reported the result of this one, by
    /// [`Folder::synced`], [`Folder::unwritten`] or [`Folder::failed`]. On a fault the room stays as it was. It takes no memory.
    pub fn put(&mut self, room: &mut [u8], folder: [u8; 16], payload: &[u8]) -> Result<usize, Fault>
        ensures ok { IfOk result (λ len. (room_fault (put_fault self.old (length payload.now)) (length payload.now) (length room.old) ≡ None) × (len ≡ frame_len (length payload.now)) × (self.new ≡ flown self.old (length payload.now))) }
        ensures frame { OnOk result (room.new ≡ frame_of (bytes_of (journal_title self.old folder)) (1 + self.old.count) payload.now ++ drop (frame_len (length payload.now)) room.old) }
        ensures err { IfErr result (λ e. (room_fault (put_fault self.old (length payload.now)) (length payload.now) (length room.old) ≡ Some e) × (self.new ≡ self.old)) }
        ensures none { OnErr result (room.new ≡ room.old) }
    {
        if let Some(fault) = self.put_fault(payload.len()) {
            return Err(fault);
        }
        let len = frame_len(payload.len());
        if room.len() < len {
            return Err(Fault::TooShort(len));
        }
        let title = Title {
            file: File::Journal(self.newest),
            folder,
        };
        put_frame(room, &title, 1 + self.count, payload);
        self.flying = len as u64;
        Ok(len)
    }

    /// Reports that the frame was written and synced: it is acknowledged.
    pub fn synced(&mut self) -> Result<(), Fault>
        ensures ok { OnOk result ((landed_fault self.old ≡ None) × (self.new ≡ landed self.old)) }
        ensures err { IfErr result (λ e. (landed_fault self.old ≡ Some e) × (self.new ≡ self.old)) }
    {
        if let Some(fault) = self.landed_fault() {
            return Err(fault);
        }
        self.count += 1;
        self.end += self.flying;
        self.flying = 0;
        Ok(())
    }

    /// Reports that the write of the frame failed. Nothing ends: the next frame goes to the same offset.
    pub fn unwritten(&mut self) -> Result<(), Fault>
        ensures ok { OnOk result ((landed_fault self.old ≡ None) × (self.new ≡ lost self.old)) }
        ensures err { IfErr result (λ e. (landed_fault self.old ≡ Some e) × (self.new ≡ self.old)) }
    {
        if let Some(fault) = self.landed_fault() {
            return Err(fault);
        }
        self.flying = 0;
        Ok(())
    }

    /// Reports that a sync of the journal that grows failed. Nothing is acknowledged until the next start.
    pub fn failed(&mut self) -> Result<(), Fault>
        ensures ok { OnOk result ((ready_fault self.old ≡ None) × (self.new ≡ ended self.old)) }
        ensures err { IfErr result (λ e. (ready_fault self.old ≡ Some e) × (self.new ≡ self.old)) }
    {
        if let Some(fault) = self.ready_fault() {
            return Err(fault);
        }
        self.end();
        Ok(())
    }

    /// Puts the frame of the next piece of a snapshot at the start of `room`, and returns its length. Append it to the ones
    /// before it. An empty payload is the mark that ends the snapshot. On a fault the room stays as it was. It takes no memory.
    pub fn piece(
        &mut self,
        room: &mut [u8],
        folder: [u8; 16],
        payload: &[u8],
    ) -> Result<usize, Fault>
        ensures ok { IfOk result (λ len. (room_fault (piece_fault self.old (length payload.now)) (length payload.now) (length room.old) ≡ None) × (len ≡ frame_len (length payload.now)) × (self.new ≡ pieced self.old (length payload.now))) }
        ensures frame { OnOk result (room.new ≡ frame_of (bytes_of (snapshot_title folder)) (1 + self.old.pieces) payload.now ++ drop (frame_len (length payload.now)) room.old) }
        ensures err { IfErr result (λ e. (room_fault (piece_fault self.old (length payload.now)) (length payload.now) (length room.old) ≡ Some e) × (self.new ≡ self.old)) }
        ensures none { OnErr result (room.new ≡ room.old) }
    {
        if let Some(fault) = self.piece_fault(payload.len()) {
            return Err(fault);
        }
        let len = frame_len(payload.len());
        if room.len() < len {
            return Err(Fault::TooShort(len));
        }
        let title = Title {
            file: File::Snapshot,
            folder,
        };
        put_frame(room, &title, 1 + self.pieces, payload);
        self.pieces += 1;
        if payload.is_empty() {
            self.step = Step::Ending;
        }
        Ok(len)
    }
}
