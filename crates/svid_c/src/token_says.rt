ghost use Rattle.std.specs.Prelude.{◌≡◌, ◌++◌, [], ◌∷◌, ℕ, List, IfOk, OnOk, length, map, string_bytes, unwrap_or, option_map};
ghost use Rattle.std.specs.List.{concat};
ghost use Rattle.svid_check.specs.Said.{said_in};
ghost use Rattle.svid_c.specs.Says.{ArePut, Says, said_seen, texts_of};
ghost use Rattle.svid_c.specs.Status.{told_length};

use crate::rows::refuse_token;
use crate::told::{SvidTold, told_length};
use std::alloc::{AllocError, Global};
use svid_check::Reading;
use svid_token::Refusal;

/// What a token says, except its texts.
#[repr(C)]
#[derive(Drop)]
pub struct SvidSaid {
    /// The token's key, which identifies the token.
    pub key: [u8; 32],
    /// When the token expires, in seconds.
    pub exp: u64,
    /// How many texts it has: its algorithm, its subject, the subject's trust domain, the name of its key, and its audiences.
    pub texts: usize,
}

// Texts, one directly after the other, and the length of each.
#[derive(Drop)]
struct Texts {
    bytes: Vec<u8>,
    lens: Vec<usize>,
}

// Adds a text.
fn push(texts: &mut Texts, text: &[u8]) -> Result<(), AllocError>
    ensures bytes { OnOk result (texts.new.bytes.items ≡ texts.old.bytes.items ++ text.now) }
    ensures lens { OnOk result (texts.new.lens.items ≡ texts.old.lens.items ++ length text.now ∷ []) }
{
    texts.bytes.extend_from_slice(text)?;
    texts.lens.push(text.len())?;
    Ok(())
}

// Adds texts.
fn push_all(texts: &mut Texts, names: &[String]) -> Result<(), AllocError>
    ensures bytes { OnOk result (texts.new.bytes.items ≡ texts.old.bytes.items ++ concat (map string_bytes names.now)) }
    ensures lens { OnOk result (texts.new.lens.items ≡ texts.old.lens.items ++ map length (map string_bytes names.now)) }
{
    for name in names {
        push(texts, name.as_bytes())?;
    }
    Ok(())
}

// The name of a token's key, empty if it has none.
fn kid_of<'a>(reading: &'a Reading) -> &'a [u8]
    ensures { result.now ≡ unwrap_or (said_in reading.now).kid [] }
{
    match &reading.header.kid {
        Some(kid) => kid.as_bytes(),
        None => &[],
    }
}

// The texts of a token.
fn texts_of(alloc: Global, reading: &Reading) -> Result<Texts, AllocError>
    ensures bytes { IfOk result (λ texts. texts.bytes.items ≡ concat (texts_of (said_in reading.now))) }
    ensures lens { IfOk result (λ texts. texts.lens.items ≡ map length (texts_of (said_in reading.now))) }
{
    let mut texts = Texts {
        bytes: Vec::new(alloc),
        lens: Vec::new(alloc),
    };
    push(&mut texts, reading.header.alg.name().as_bytes())?;
    push(&mut texts, reading.claims.sub.as_str().as_bytes())?;
    push(&mut texts, reading.claims.sub.domain().as_bytes())?;
    push(&mut texts, kid_of(reading))?;
    push_all(&mut texts, &reading.claims.aud)?;
    Ok(texts)
}

// Writes texts and their lengths, if both have room.
fn put_texts(bytes: &[u8], lens: &[usize], out_lens: &mut [usize], out: &mut [u8]) -> u32
    ensures { (texts : List (List ℕ)) → bytes.now ≡ concat texts → lens.now ≡ map length texts → ArePut texts result out_lens.old out_lens.new out.old out.new }
{
    if lens.len() > out_lens.len() || bytes.len() > out.len() {
        return 1;
    }
    out_lens[..lens.len()].copy_from_slice(lens);
    out[..bytes.len()].copy_from_slice(bytes);
    0
}

/// Reads a token and reports what it says, without judging it: its key, when it expires, and its texts. The texts are its algorithm, its
/// subject, the subject's trust domain, the name of its key (empty if it has none), and its audiences. They are written to the start of
/// `out`, one directly after the other, and `lens` has the length of each.
///
/// Returns 0, with the length of all texts in `told.len`; or 1 if `out` or `lens` is too short, with the sizes needed in `told.len` and
/// `said.texts`. A refusal if the token is refused for its form, 2 if out of memory: `said` is unchanged. Unless the status is 0, `lens`
/// and `out` are unchanged.
#[unsafe(no_mangle)]
pub extern "C" fn svid_token_says(
    alloc: Global,
    token: &[u8],
    said: &mut SvidSaid,
    lens: &mut [usize],
    out: &mut [u8],
    told: &mut SvidTold,
) -> u32
    ensures { Says token.now result told.new said.old said.new lens.old lens.new out.old out.new }
{
    let reading = match Reading::of(alloc, token) {
        Ok(reading) => reading,
        Err(refusal) => return refuse_token(refusal, told),
    };
    let texts = match texts_of(alloc, &reading) {
        Ok(texts) => texts,
        Err(_) => return refuse_token(Refusal::OutOfMemory, told),
    };
    let bytes: &[u8] = &texts.bytes;
    let each: &[usize] = &texts.lens;
    *said = SvidSaid {
        key: reading.key(),
        exp: reading.claims.exp,
        texts: each.len(),
    };
    *told = told_length(bytes.len());
    put_texts(bytes, each, lens, out)
}
