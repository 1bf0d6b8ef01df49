// The rules of trust domain names, over bytes.

ghost use Rattle.std.specs.Prelude.{◌≡◌, ◌+◌, ◌^◌, ◌<◌, ◌↔◌, IsTrue, IfOk, length};
ghost use Rattle.std.specs.List.{before_first, position_or_len, prefix_len};
ghost use Rattle.std.specs.Result.{result_err};
ghost use Rattle.svid_id.specs.Domain.{IsDomain, domain_fault, is_domain, is_domain_byte};
ghost use Rattle.svid_id.specs.Path.{is_slash};

use crate::id_fault::IdFault;

// The most bytes of a trust domain name.
const MAX_DOMAIN: usize = 255;

fn is_domain_byte(byte: u8) -> bool
    ensures { result ≡ is_domain_byte byte }
{
    matches!(byte, b'a'..=b'z' | b'0'..=b'9' | b'-' | b'.' | b'_')
}

// How many bytes from the front may stand in a trust domain name.
fn domain_run(text: &[u8]) -> usize
    ensures { result ≡ prefix_len is_domain_byte text.now }
{
    text.iter()
        .take_while(|byte| is_domain_byte(**byte))
        .count()
}

// Checks a trust domain name.
pub(crate) fn check_domain(name: &[u8]) -> Result<(), IdFault>
    ensures { result_err result ≡ domain_fault 0 name.now }
{
    let run = domain_run(name);
    if name.is_empty() {
        Err(IdFault::DomainEmpty)
    } else if run < name.len() {
        Err(IdFault::DomainByte(run))
    } else if name.len() > MAX_DOMAIN {
        Err(IdFault::DomainLong)
    } else {
        Ok(())
    }
}

/// Whether a text is a trust domain name (SPIFFE-ID, section 2.1): one to 255 bytes, each a small
/// letter, a digit, `.`, `-` or `_`. Allocates nothing.
pub fn is_domain_name(text: &[u8]) -> bool
    ensures value { result ≡ is_domain text.now }
    ensures domain { IsTrue result ↔ IsDomain text.now }
{
    check_domain(text).is_ok()
}

// The length of the trust domain name that `text`, at `offset` in the whole, begins with.
#[tactic(auto, using(crate::proofs::DomainLemmas::domain_runs))]
pub(crate) fn domain_len(text: &[u8], offset: usize) -> Result<usize, IdFault>
    requires { offset + length text.now < 2 ^ 64 }
    ensures len { IfOk result (λ len. len ≡ position_or_len is_slash text.now) }
    ensures fault { result_err result ≡ domain_fault offset (before_first is_slash text.now) }
{
    let run = domain_run(text);
    if run < text.len() && text[run] != b'/' {
        Err(IdFault::DomainByte(offset + run))
    } else if run == 0 {
        Err(IdFault::DomainEmpty)
    } else if run > MAX_DOMAIN {
        Err(IdFault::DomainLong)
    } else {
        Ok(run)
    }
}
