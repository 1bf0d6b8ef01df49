//! What holds of the bundles that documents are joined to, and of their entries: the contracts of functions that do nothing.

ghost use Rattle.std.specs.Prelude.{◌≡◌, ◌↔◌, ℕ, List, ◌∷◌, ◌++◌, Err, IsSome, None, Ok, Some, true};
ghost use Rattle.std.specs.Result.{result_ok};
ghost use Rattle.serde_json.specs.Data.{Data, Members};
ghost use Rattle.serde_json.specs.Find.{get_member};
ghost use Rattle.svid_keys.specs.Bundles.{bundles_in, bundles_of as kept_of};
ghost use Rattle.svid_keys.specs.Candidates.{bundle_at};
ghost use Rattle.svid_documents.specs.Document.{DocumentData, bundles, bundles_of, is_unnamed};
ghost use Rattle.svid_documents.specs.Entry.{kept_text, key_due};
ghost use Rattle.svid_documents.specs.Join.{IsJoined, joined};
ghost use Rattle.svid_documents.specs.declared.document_fault.DocumentFault.TheVariants.{Unnamed};

/// The text of joined bundles is bundles, as `svid_keys` reads them: those that were joined.
pub fn joined_text_is_read()
    ensures { (documents : List DocumentData) (text : List ℕ) (is : IsJoined documents text)
        → bundles_in text ≡ Some (kept_of is.bundles) }
{}

/// Each trust domain of a document is among the joined ones, with the JSON value that it has there.
pub fn each_bundle_is_joined()
    ensures { (before : List DocumentData) (one : DocumentData) (after : List DocumentData) (all own : Members)
        → joined (before ++ one ∷ after) ≡ Ok all → bundles_of one ≡ Ok own
        → (name : List ℕ) (set : Data) → get_member name own ≡ Some set → get_member name all ≡ Some set }
{}

/// What `svid_keys` reads of joined bundles for a trust domain of a document is what it reads of that
/// document's bundles alone.
pub fn each_domain_is_read_as_alone()
    ensures { (before : List DocumentData) (one : DocumentData) (after : List DocumentData) (all own : Members)
        → joined (before ++ one ∷ after) ≡ Ok all → bundles_of one ≡ Ok own
        → (name : List ℕ) → IsSome (get_member name own) → bundle_at name (kept_of all) ≡ bundle_at name (kept_of own) }
{}

/// There is no reason against an entry exactly if `svid_keys` makes a key from it, in the bundle of any trust domain. The
/// text that the call answers is that of this key.
pub fn entries_without_a_reason_are_kept()
    ensures { (domain entry : List ℕ) → result_ok (key_due entry) ≡ kept_text domain entry }
{}

/// A text is the bundle of one trust domain, without its name, exactly if that is the fault of it as a document;
/// and then `svid_keys` reads no bundles from it.
pub fn unnamed_bundles_are_refused()
    ensures fault { (text : List ℕ) → (is_unnamed text ≡ true) ↔ (bundles_of (bundles text) ≡ Err Unnamed) }
    ensures unread { (text : List ℕ) → is_unnamed text ≡ true → bundles_in text ≡ None }
{}
