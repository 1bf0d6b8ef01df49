ghost use Rattle.std.specs.Prelude.{◌≡◌, ◌∷◌, ◌++◌, MatchOption};
ghost use Rattle.svid_keys.specs.Lines.{HasNoFeed, line_feed, without_return};

use memchr::memchr;

const LINE_FEED: u8 = b'\n';

const CARRIAGE_RETURN: u8 = b'\r';

/// The lines of an input: each ends at a line feed or at the end of the input, and one carriage
/// return right before that is not part of it. No step takes memory.
#[derive(Clone, Copy, Debug)]
pub struct Lines<'a> {
    rest: Option<&'a [u8]>,
}

impl<'a> Lines<'a> {
    ghost use Rattle.svid_keys.specs.Lines.{lines_left, lines_of};

    /// The lines of these bytes. What stands after the last line feed is a line, be it empty.
    pub fn of(text: &'a [u8]) -> Lines<'a>
        ensures { lines_left result ≡ lines_of text.now }
    {
        Lines { rest: Some(text) }
    }
}

impl<'a> Iterator for Lines<'a> {
    ghost use Rattle.std.specs.Iterator.{YieldsFirstBy, item_count};
    ghost use Rattle.svid_keys.specs.Lines.{lines_left};

    type Item = &'a [u8];

    ghost next_gives = { YieldsFirstBy (λ line. line.now) lines_left };

    ghost remaining = { item_count lines_left };

    #[tactic(auto, using(crate::proofs::LinesLemmas::lines))]
    fn next(&mut self) -> Option<&'a [u8]> {
        let text = self.rest?;
        match split_feed(text) {
            Some((line, rest)) => {
                self.rest = Some(rest);
                Some(without_return(line))
            }
            None => {
                self.rest = None;
                Some(without_return(text))
            }
        }
    }
}

// What stands before and after the first line feed.
#[tactic(auto, using(crate::proofs::LinesLemmas::cut_at_feed))]
fn split_feed(bytes: &[u8]) -> Option<(&[u8], &[u8])>
    ensures { MatchOption result (HasNoFeed bytes.now)
        (λ x. HasNoFeed x.0.now × (bytes.now ≡ x.0.now ++ line_feed ∷ x.1.now)) }
{
    let at = memchr(LINE_FEED, bytes)?;
    let (before, _) = bytes.split_at(at);
    let (_, after) = bytes.split_at(at + 1);
    Some((before, after))
}

// A line without one carriage return at its end.
#[tactic(auto, using(crate::proofs::LinesLemmas::returns))]
fn without_return(line: &[u8]) -> &[u8]
    ensures { result.now ≡ without_return line.now }
{
    match line.split_last() {
        Some((last, front)) if *last == CARRIAGE_RETURN => front,
        _ => line,
    }
}
