ghost use Rattle.std.specs.Prelude.{◌≡◌, length, map};
ghost use Rattle.svid_c.specs.Statuses.{calls, folders, formats, keys, members, refusals};
ghost use Rattle.svid_c.specs.Texts.{nothing, row_in, seen, seen_row, sentence, shown, shown_row, texts_of};

use crate::statuses::{CALLS, FOLDERS, FORMATS, KEYS, MEMBERS, REFUSALS};

/// The texts of a status.
pub(crate) struct Words {
    /// Its name in the header, like "SVID_OK".
    pub name: &'static str,
    /// Its sentence, and after a space its advice, if it has any.
    pub sentence: &'static str,
    /// The length of the sentence, in bytes. Any advice begins one byte further on.
    pub says_len: usize,
}

// The texts of a number without a status.
static NONE: Words = Words {
    name: "SVID_?",
    sentence: "No status has this number.",
    says_len: 26,
};

fn none() -> &'static Words
    ensures { seen result.now ≡ shown nothing }
{
    &NONE
}

#[tactic(auto, unfolding(crate::specs::Statuses::calls))]
fn calls() -> &'static [(u32, Words)]
    ensures { map seen_row result.now ≡ map shown_row calls }
{
    &CALLS
}

#[tactic(auto, unfolding(crate::specs::Statuses::formats))]
fn formats() -> &'static [(u32, Words)]
    ensures { map seen_row result.now ≡ map shown_row formats }
{
    &FORMATS
}

#[tactic(auto, unfolding(crate::specs::Statuses::keys))]
fn keys() -> &'static [(u32, Words)]
    ensures { map seen_row result.now ≡ map shown_row keys }
{
    &KEYS
}

#[tactic(auto, unfolding(crate::specs::Statuses::folders))]
fn folders() -> &'static [(u32, Words)]
    ensures { map seen_row result.now ≡ map shown_row folders }
{
    &FOLDERS
}

#[tactic(auto, unfolding(crate::specs::Statuses::members))]
fn members() -> &'static [(u32, Words)]
    ensures { map seen_row result.now ≡ map shown_row members }
{
    &MEMBERS
}

#[tactic(auto, unfolding(crate::specs::Statuses::refusals))]
fn refusals() -> &'static [(u32, Words)]
    ensures { map seen_row result.now ≡ map shown_row refusals }
{
    &REFUSALS
}

// The row with this number, or else `none`.
#[tactic(auto, unfolding(crate::specs::Texts::row_in))]
fn row_in<'a>(table: &'a [(u32, Words)], number: u32, none: &'a Words) -> &'a Words
    ensures { result.now ≡ row_in number none.now table.now }
{
    for row in table {
        if row.0 == number {
            return &row.1;
        }
    }
    none
}

/// The texts of the status with this number, or those of a number without a status.
pub(crate) fn words_of(number: u32) -> &'static Words
    ensures name { result.now.name.now ≡ (texts_of number).name }
    ensures sentence { result.now.sentence.now ≡ sentence (texts_of number) }
    ensures says { result.now.says_len ≡ length (texts_of number).says }
{
    let in_refusals = row_in(refusals(), number, none());
    let in_members = row_in(members(), number, in_refusals);
    let in_folders = row_in(folders(), number, in_members);
    let in_keys = row_in(keys(), number, in_folders);
    let in_formats = row_in(formats(), number, in_keys);
    row_in(calls(), number, in_formats)
}
