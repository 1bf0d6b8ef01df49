//! What holds of the definitions that this crate's contracts cite: the contracts of functions that
//! do nothing.

ghost use Rattle.std.specs.Prelude.{◌≡◌, ◌≢◌, ◌↔◌, ℕ, List, [], ◌∷◌, ◌++◌, All, None, Some};
ghost use Rattle.std.specs.List.{AllZip, join_with_byte};
ghost use Rattle.serde_json.specs.Data.{Data};
ghost use Rattle.svid_keys.specs.Bundles.{IsBundles, IsFirstBundleFault, bundles_fault};
ghost use Rattle.svid_keys.specs.Key.{IsKey, KeyData, kept_key};
ghost use Rattle.svid_keys.specs.Lines.{HasNoFeed, IsPieceOf, carriage_return, line_feed, lines_of, pieces_of, without_return};
ghost use Rattle.svid_keys.specs.Table.{IsFirstTableFault, table_fault};

use crate::bundle_fault::BundleFault;
use crate::table_fault::TableFault;

/// The key that is made from an entry of a bundle is the key that the entry is: it is for JWT-SVIDs, has a
/// name and a family, holds only whole numbers of 64 bits, and is not too long. If no key is made from an
/// entry, it is no key.
pub fn kept_entries_are_keys()
    ensures { (name : List ℕ) (entry : Data) (key : KeyData)
        → (kept_key name entry ≡ Some key) ↔ IsKey name entry key }
{}

/// A text has no fault as bundles exactly if it is a JSON object whose names are trust domain names
/// and whose values are JWK Sets.
pub fn no_fault_means_bundles()
    ensures { (text : List ℕ) → (bundles_fault text ≡ None) ↔ IsBundles text }
{}

/// The fault of a text as bundles is the first: the names before it are bundles, and it is bad in the
/// way that it says.
pub fn bundles_fault_is_first()
    ensures { (text : List ℕ) (fault : BundleFault)
        → (bundles_fault text ≡ Some fault) ↔ IsFirstBundleFault text fault }
{}

/// The fault of a text as a table is the first line that is neither empty nor a question.
pub fn table_fault_is_first()
    ensures { (text : List ℕ) (fault : TableFault)
        → (table_fault text ≡ Some fault) ↔ IsFirstTableFault text fault }
{}

/// The pieces of a text hold no line feed, and give the text back where they are joined by line
/// feeds; no other pieces do. A line is a piece without one carriage return at its end: each piece is
/// its line, or its line and one carriage return, and that alone is cut off where it stands.
pub fn lines_give_the_text()
    ensures joined { (text : List ℕ) → join_with_byte line_feed (pieces_of text) ≡ text }
    ensures whole { (text : List ℕ) → All HasNoFeed (pieces_of text) }
    ensures alone { (first : List ℕ) (more : List (List ℕ)) → All HasNoFeed (first ∷ more)
        → pieces_of (join_with_byte line_feed (first ∷ more)) ≡ first ∷ more }
    ensures lines { (text : List ℕ) → AllZip IsPieceOf (lines_of text) (pieces_of text) }
    ensures cut { (front : List ℕ) → without_return (front ++ carriage_return ∷ []) ≡ front }
    ensures kept { (front : List ℕ) (last : ℕ) → last ≢ carriage_return
        → without_return (front ++ last ∷ []) ≡ front ++ last ∷ [] }
    ensures empty { without_return [] ≡ [] }
{}
