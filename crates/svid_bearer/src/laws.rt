//! What holds of the definitions that this crate's contracts cite: the contracts of functions that do
//! nothing.

ghost use Rattle.std.specs.Prelude.{◌≡◌, ◌≤◌, ◌++◌, ℕ, List, Result, Ok, codes, length};
ghost use Rattle.std.specs.List.{AllPass};
ghost use Rattle.svid_bearer.specs.Read.{Found, IsAnswer};
ghost use Rattle.svid_bearer.specs.Value.{IsToken, is_no_separator};

use crate::no_bearer::NoBearer;

/// What a header is written with is read back: a token behind the scheme and one space.
pub fn written_is_read()
    ensures { (token : List ℕ) (answer : Result Found NoBearer) → IsToken token → length token ≤ 65536
        → IsAnswer 1 (codes "Bearer " ++ token) answer
        → answer ≡ Ok (record { offset = 7; token = token }) }
{}

/// Of each header one answer is due.
pub fn one_answer()
    ensures { (fields : ℕ) (value : List ℕ) (one other : Result Found NoBearer)
        → IsAnswer fields value one → IsAnswer fields value other → one ≡ other }
{}

/// No byte of a token is a blank or a comma, so that no two tokens, joined in any way, are one.
pub fn no_comma_in_a_token()
    ensures { (token : List ℕ) → IsToken token → AllPass is_no_separator token }
{}
