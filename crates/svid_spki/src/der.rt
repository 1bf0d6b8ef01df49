// Writes values in DER.

ghost use Rattle.std.specs.Prelude.{◌≡◌, ◌<◌, ◌≤◌, ◌+◌, ◌++◌, IfOk, OnOk, length, vec_len};
ghost use Rattle.svid_spki.specs.Der.{der, der_length, positive};

use std::alloc::{AllocError, Global};

pub(crate) const INTEGER: u8 = 0x02;

pub(crate) const BIT_STRING: u8 = 0x03;

pub(crate) const SEQUENCE: u8 = 0x30;

// Puts the length of contents behind bytes.
fn put_length(out: &mut Vec<u8>, len: usize) -> Result<(), AllocError>
    requires { len < 65536 }
    ensures value { OnOk result (out.new.items ≡ out.old.items ++ der_length len) }
    ensures len { OnOk result (vec_len out.new ≤ vec_len out.old + 3) }
{
    if len < 128 {
        out.extend_from_slice(&[len as u8])
    } else if len < 256 {
        out.extend_from_slice(&[0x81, len as u8])
    } else {
        out.extend_from_slice(&[0x82, (len / 256) as u8, (len % 256) as u8])
    }
}

// Puts a value behind others: its tag, the length of its contents, and these.
#[tactic(auto, unfolding(crate::specs::Der::der))]
pub(crate) fn put(out: &mut Vec<u8>, tag: u8, contents: &[u8]) -> Result<(), AllocError>
    requires { length contents.now < 65536 }
    ensures value { OnOk result (out.new.items ≡ out.old.items ++ der tag contents.now) }
    ensures len { OnOk result (vec_len out.new ≤ vec_len out.old + length contents.now + 4) }
{
    out.push(tag)?;
    put_length(out, contents.len())?;
    out.extend_from_slice(contents)
}

// A value alone.
pub(crate) fn value(alloc: Global, tag: u8, contents: &[u8]) -> Result<Vec<u8>, AllocError>
    requires { length contents.now < 65536 }
    ensures value { IfOk result (λ v. v.items ≡ der tag contents.now) }
    ensures len { IfOk result (λ v. vec_len v ≤ length contents.now + 4) }
{
    let mut out = Vec::new(alloc);
    put(&mut out, tag, contents)?;
    Ok(out)
}

// The contents of a number above 0.
#[tactic(auto, unfolding(crate::specs::Der::positive))]
pub(crate) fn positive(alloc: Global, number: &[u8]) -> Result<Vec<u8>, AllocError>
    ensures value { IfOk result (λ v. v.items ≡ positive number.now) }
    ensures len { IfOk result (λ v. vec_len v ≤ length number.now + 1) }
{
    let mut contents = Vec::new(alloc);
    if let Some(first) = number.first()
        && *first >= 128
    {
        contents.push(0)?;
    }
    contents.extend_from_slice(number)?;
    Ok(contents)
}
