ghost use Rattle.std.specs.Prelude.{◌≡◌};
ghost use Rattle.svid_member.specs.Pacing.{after_answer, after_none, after_send, due, may_send, new_pacing};

/// When the claims that wait go out: many share a call to the store, and none waits long for that. Times are milliseconds by a clock that only
/// goes ahead.
///
/// A call is sent at once if none is under way. Else claims wait for its answer, for at most 20 ms, or until 32 wait and fewer than 4 calls are
/// under way. At most 64 calls are under way at a time.
#[derive(Clone, Copy, Debug, PartialEq, Eq)]
pub struct Pacing {
    /// How many calls are under way.
    pub calls: u64,
    /// When the last one went out.
    pub at: u64,
    /// How long claims without an answer wait before they are put again. It doubles from 10 up to 250, as long as no call is answered.
    pub pause: u64,
}

impl Pacing {
    /// No call is under way.
    pub fn new() -> Pacing
        ensures { result ≡ new_pacing }
    {
        Pacing {
            calls: 0,
            at: 0,
            pause: 10,
        }
    }

    /// Whether to send a call at `up`, with so many claims waiting.
    pub fn may_send(&self, up: u64, waiting: u64) -> bool
        ensures { result ≡ may_send up waiting self.now }
    {
        if waiting == 0 || self.calls >= 64 {
            return false;
        }
        self.calls == 0 || up >= self.at.saturating_add(20) || waiting >= 32 && self.calls < 4
    }

    /// When to send a call beside those under way, if claims wait. `None` if an answer has to come first.
    pub fn due(&self) -> Option<u64>
        ensures { result ≡ due self.now }
    {
        if self.calls >= 64 {
            return None;
        }
        Some(self.at.saturating_add(20))
    }

    /// Reports that a call is sent.
    pub fn sent(&mut self, up: u64)
        ensures { self.new ≡ after_send up self.old }
    {
        self.calls = self.calls.saturating_add(1);
        self.at = up;
    }

    /// A call has ended, and the store has answered some of its claims.
    pub fn answered(&mut self)
        ensures { self.new ≡ after_answer self.old }
    {
        self.calls = self.calls.saturating_sub(1);
        self.pause = 10;
    }

    /// A call has ended without an answer. Answers how long its claims wait before they are put again.
    pub fn unanswered(&mut self) -> u64
        ensures pause { result ≡ self.old.pause }
        ensures left { self.new ≡ after_none self.old }
    {
        let pause = self.pause;
        self.calls = self.calls.saturating_sub(1);
        self.pause = pause.saturating_mul(2).min(250);
        pause
    }
}
