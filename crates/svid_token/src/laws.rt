//! Laws of the definitions that the contracts cite, carried by functions that compute nothing.

ghost use Rattle.std.specs.Prelude.{◌≡◌, List, ◌++◌, ◌↔◌, ℕ, Some};
ghost use Rattle.std.specs.Option.{option_or};
ghost use Rattle.base64.specs.GeneralPurpose.{IsBytes};
ghost use Rattle.svid_token.specs.Compact.{IsCompact, Parts, parts_of};
ghost use Rattle.svid_token.specs.Part.{Spells, part_bytes};
ghost use Rattle.svid_token.specs.Rows.{Row, first_row};

/// Two tables, one after the other, refuse as the first does, and where it does not, as the second.
pub fn appended_tables()
    ensures { (first second : List Row)
        → first_row (first ++ second) ≡ option_or (first_row first) (first_row second) }
{}

/// The three parts that a token is cut into are exactly those that it is made of, whatever its length.
pub fn parts_make_tokens()
    ensures { (token : List ℕ) (parts : Parts) → (parts_of token ≡ Some parts)
        ↔ IsCompact token parts.header parts.payload parts.signature }
{}

/// The bytes that a part is decoded to are exactly those that it spells.
pub fn decoded_parts()
    ensures { (part bytes : List ℕ) → IsBytes part → IsBytes bytes
        → (part_bytes part ≡ Some bytes) ↔ Spells part bytes }
{}
