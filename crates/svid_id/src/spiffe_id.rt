ghost use Rattle.std.specs.Prelude.{◌≡◌, ◌<◌, ◌≤◌, IfOk, IfErr, IsOkUnless, Some, bytes_eq, length, refl, unwrap_or};
ghost use Rattle.std.specs.Cmp.{on_equiv, on_per, on_po, on_total, partial_equiv_from_equiv};
ghost use Rattle.std.specs.Cmp.Lexicographic.{nat_list_cmp_total, nat_list_eq_equiv, slice_cmp, texts_po, texts_ties};
ghost use Rattle.std.specs.Ordering.{nat_cmp};
ghost use Rattle.std.specs.Result.{result_err};
ghost use Rattle.svid_id.specs.Domain.{IsDomain};
ghost use Rattle.svid_id.specs.Path.{IsPath};
ghost use Rattle.svid_id.specs.Id.{IdParts, IsId, id_fault, id_parts, id_text, parts_of};

use crate::domain::domain_len;
use crate::id_fault::IdFault;
use crate::path::check_path;
use crate::text::to_text;
use std::alloc::{AllocError, Global};
use std::cmp::Ordering;
use std::convert::AsStr;
use std::fmt;
use std::marker::Model;

// The most bytes of an ID that are read.
const MAX_ID: usize = 2048;

const SCHEME: &[u8] = b"spiffe://";

/// A SPIFFE ID (SPIFFE-ID, section 2): the scheme `spiffe://`, a trust domain name and a path, which
/// may be empty.
///
/// Contracts see it as its name and its path. IDs are compared, shown and lent as their texts.
#[derive(Debug, Drop)]
pub struct SpiffeId {
    text: String,
    domain_len: usize,
}

impl Model for SpiffeId {
    ghost use Rattle.std.specs.Prelude.{◌≡◌, length};
    ghost use Rattle.std.specs.String.{string_bytes};
    ghost use Rattle.svid_id.specs.Id.{IdParts, IsId, parts_of};

    ghost Value = { IdParts };

    ghost view = { λ id. parts_of (string_bytes id.text) };

    ghost invariant = { λ id. IsId (string_bytes id.text) (parts_of (string_bytes id.text))
        × (id.domain_len ≡ length (parts_of (string_bytes id.text)).domain) };
}

impl SpiffeId {
    /// Reads an ID from the bytes of its text, in one pass.
    ///
    /// Of a text that is no ID, the first fault is answered, in the order of [`IdFault`]: its
    /// length, the scheme, the trust domain name, and then the first faulty segment from the left.
    /// Of an ID, `OutOfMemory` alone.
    pub fn parse(alloc: Global, text: &[u8]) -> Result<SpiffeId, IdFault>
        ensures ok { IfOk result (λ id. IsId text.now id) }
        ensures value { IfOk result (λ id. id_parts text.now ≡ Some id) }
        ensures fault { IfErr result
            (λ fault. fault ≡ unwrap_or (id_fault text.now) IdFault.OutOfMemory) }
        ensures only { (id : IdParts) → IsId text.now id → IsOkUnless result IdFault.OutOfMemory }
    {
        let domain_len = check_id(text)?;
        let text = to_text(alloc, text)?;
        Ok(SpiffeId { text, domain_len })
    }

    /// The whole text, from which `parse` reads this ID again.
    pub fn as_str(&self) -> &str
        ensures text { result.now ≡ id_text self.now }
        ensures id { IsId result.now self.now }
    {
        self.text.as_str()
    }

    /// The trust domain name, of 1 to 255 bytes.
    pub fn domain(&self) -> &str
        ensures value { result.now ≡ self.now.domain }
        ensures name { IsDomain result.now }
        ensures len { (0 < length result.now) × (length result.now ≤ 255) }
    {
        let end = SCHEME.len() + self.domain_len;
        &self.text[SCHEME.len()..end]
    }

    /// The path: empty, or one or more segments, each after a `/`.
    pub fn path(&self) -> &str
        ensures value { result.now ≡ self.now.path }
        ensures path { IsPath result.now }
    {
        let start = SCHEME.len() + self.domain_len;
        &self.text[start..]
    }
}

impl Clone for SpiffeId {
    ghost is_clone = { λ id copy. copy ≡ id };

    fn clone(&self) -> Result<SpiffeId, AllocError> {
        let text = self.text.clone()?;
        Ok(SpiffeId {
            text,
            domain_len: self.domain_len,
        })
    }
}

impl PartialEq for SpiffeId {
    ghost eq = { λ one other. bytes_eq (id_text one) (id_text other) };

    ghost laws = { on_per id_text (partial_equiv_from_equiv nat_list_eq_equiv) };

    fn eq(&self, other: &SpiffeId) -> bool {
        self.as_str() == other.as_str()
    }
}

impl Eq for SpiffeId {
    ghost laws = { on_equiv id_text nat_list_eq_equiv };
}

impl PartialOrd for SpiffeId {
    ghost partial_cmp = { λ one other. Some (slice_cmp nat_cmp (id_text one) (id_text other)) };

    ghost laws = { on_po id_text texts_po };

    fn partial_cmp(&self, other: &SpiffeId) -> Option<Ordering> {
        Some(self.cmp(other))
    }
}

impl Ord for SpiffeId {
    ghost cmp = { λ one other. slice_cmp nat_cmp (id_text one) (id_text other) };

    ghost total = { on_total id_text nat_list_cmp_total };

    ghost matches_partial_cmp = { λ one other. refl };

    ghost matches_eq = { λ one other. texts_ties (id_text one) (id_text other) };

    fn cmp(&self, other: &SpiffeId) -> Ordering {
        self.as_str().cmp(other.as_str())
    }
}

impl fmt::Display for SpiffeId {
    ghost output = { λ id. Some (id_text id) };

    fn fmt<W: fmt::Write>(&self, f: &mut fmt::Formatter<W>) -> fmt::Result {
        fmt::Display::fmt(&self.as_str(), f)
    }
}

impl AsStr for SpiffeId {
    ghost text = { id_text };

    fn as_str(&self) -> &str {
        SpiffeId::as_str(self)
    }
}

// Checks an ID, and answers the length of its trust domain name.
fn check_id(text: &[u8]) -> Result<usize, IdFault>
    ensures len { IfOk result (λ len. len ≡ length (parts_of text.now).domain) }
    ensures fault { result_err result ≡ id_fault text.now }
{
    if text.len() > MAX_ID {
        return Err(IdFault::TooLong);
    }
    if !text.starts_with(SCHEME) {
        return Err(IdFault::Scheme);
    }
    let (_, rest) = text.split_at(SCHEME.len());
    let len = domain_len(rest, SCHEME.len())?;
    check_path(rest.split_at(len).1, SCHEME.len() + len)?;
    Ok(len)
}
