ghost use Rattle.std.specs.Prelude.{◌≡◌, IfOk, IfErr, IsOkUnless, Some, bytes_eq, refl, unwrap_or};
ghost use Rattle.std.specs.Cmp.{partial_equiv_from_equiv};
ghost use Rattle.std.specs.Cmp.Lexicographic.{nat_list_cmp_total, nat_list_eq_equiv, slice_cmp, texts_po, texts_ties};
ghost use Rattle.std.specs.Ordering.{nat_cmp};
ghost use Rattle.svid_id.specs.Domain.{IsDomain, domain_fault};

use crate::domain::check_domain;
use crate::id_fault::IdFault;
use crate::text::to_text;
use std::alloc::{AllocError, Global};
use std::cmp::Ordering;
use std::convert::AsStr;
use std::fmt;
use std::marker::Model;

/// A trust domain name (SPIFFE-ID, section 2.1): one to 255 bytes, each a small letter, a digit,
/// `.`, `-` or `_`.
///
/// Contracts see it as its bytes. Names are compared, shown and lent as their texts.
#[derive(Debug, Drop)]
pub struct TrustDomain {
    name: String,
}

impl Model for TrustDomain {
    ghost use Rattle.std.specs.Prelude.{ℕ, List};
    ghost use Rattle.std.specs.String.{string_bytes};
    ghost use Rattle.svid_id.specs.Domain.{IsDomain};

    ghost Value = { List ℕ };

    ghost view = { λ domain. string_bytes domain.name };

    ghost invariant = { λ domain. IsDomain (string_bytes domain.name) };
}

impl TrustDomain {
    /// Reads a trust domain name from the bytes of its text.
    ///
    /// Of a text that is none, the first fault is answered: `DomainEmpty`, then `DomainByte` with
    /// the offset of the first byte that may not stand there, then `DomainLong`. Of one that is a
    /// name, `OutOfMemory` alone.
    pub fn parse(alloc: Global, text: &[u8]) -> Result<TrustDomain, IdFault>
        ensures ok { IfOk result (λ _. IsDomain text.now) }
        ensures value { IfOk result (λ domain. domain ≡ text.now) }
        ensures fault { IfErr result
            (λ fault. fault ≡ unwrap_or (domain_fault 0 text.now) IdFault.OutOfMemory) }
        ensures only { IsDomain text.now → IsOkUnless result IdFault.OutOfMemory }
    {
        check_domain(text)?;
        let name = to_text(alloc, text)?;
        Ok(TrustDomain { name })
    }

    /// The name.
    pub fn as_str(&self) -> &str
        ensures text { result.now ≡ self.now }
        ensures name { IsDomain result.now }
    {
        self.name.as_str()
    }
}

impl Clone for TrustDomain {
    ghost is_clone = { λ domain copy. copy ≡ domain };

    fn clone(&self) -> Result<TrustDomain, AllocError> {
        let name = self.name.clone()?;
        Ok(TrustDomain { name })
    }
}

impl PartialEq for TrustDomain {
    ghost eq = { bytes_eq };

    ghost laws = { partial_equiv_from_equiv nat_list_eq_equiv };

    fn eq(&self, other: &TrustDomain) -> bool {
        self.as_str() == other.as_str()
    }
}

impl Eq for TrustDomain {
    ghost laws = { nat_list_eq_equiv };
}

impl PartialOrd for TrustDomain {
    ghost partial_cmp = { λ one other. Some (slice_cmp nat_cmp one other) };

    ghost laws = { texts_po };

    fn partial_cmp(&self, other: &TrustDomain) -> Option<Ordering> {
        Some(self.cmp(other))
    }
}

impl Ord for TrustDomain {
    ghost cmp = { slice_cmp nat_cmp };

    ghost total = { nat_list_cmp_total };

    ghost matches_partial_cmp = { λ one other. refl };

    ghost matches_eq = { texts_ties };

    fn cmp(&self, other: &TrustDomain) -> Ordering {
        self.as_str().cmp(other.as_str())
    }
}

impl fmt::Display for TrustDomain {
    ghost output = { λ domain. Some domain };

    fn fmt<W: fmt::Write>(&self, f: &mut fmt::Formatter<W>) -> fmt::Result {
        fmt::Display::fmt(&self.as_str(), f)
    }
}

impl AsStr for TrustDomain {
    ghost text = { λ domain. domain };

    fn as_str(&self) -> &str {
        TrustDomain::as_str(self)
    }
}
