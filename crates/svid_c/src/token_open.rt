ghost use Rattle.std.specs.Prelude.{◌≡◌, IfOk, IfErr, None, Ok, Some};
ghost use Rattle.svid_token.specs.Rows.{Refuses};
ghost use Rattle.svid_check.specs.Said.{reading_of};
ghost use Rattle.svid_c.specs.Checked.{RefusesAs};
ghost use Rattle.svid_c.specs.Token.{OpensToken};

use crate::rows::refuse_token;
use crate::token::SvidToken;
use crate::token_read::TokenRead;
use crate::told::SvidTold;
use crate::validator::only;
use std::alloc::Global;
use svid_check::Reading;
use svid_token::Refusal;

// What a token says, on the heap.
fn read_of(alloc: Global, token: &[u8]) -> Result<Box<TokenRead>, Refusal>
    ensures ok { IfOk result (λ read. reading_of token.now ≡ Ok (Some read.value)) }
    ensures fault { IfErr result (λ why. Refuses why (reading_of token.now)) }
    ensures form { IfErr result (RefusesAs token.now) }
{
    let reading = match Reading::of(alloc, token) {
        Ok(reading) => reading,
        Err(refusal) => return Err(refusal),
    };
    match Box::new(alloc, TokenRead::of(reading)) {
        Ok(read) => Ok(read),
        Err(_) => Err(Refusal::OutOfMemory),
    }
}

// Opens a closed handle.
fn open(alloc: Global, t: &mut SvidToken, token: &[u8], told: &mut SvidTold) -> u32
    requires { t.old.handle.read ≡ None }
    ensures { OpensToken token.now result told.new None t.new.handle.read }
{
    match read_of(alloc, token) {
        Ok(read) => {
            t.put(read);
            only(0, told)
        }
        Err(refusal) => refuse_token(refusal, told),
    }
}

/// Opens a closed handle with a token, which it reads, and returns 0. The handle keeps what the token says, and nothing of `token` itself,
/// so that later calls need not read it again.
///
/// 6 if it is open already: it is unchanged. A refusal if the token is refused for its form, 2 if out of memory: it stays closed.
#[unsafe(no_mangle)]
pub extern "C" fn svid_token_open(
    alloc: Global,
    t: &mut SvidToken,
    token: &[u8],
    told: &mut SvidTold,
) -> u32
    ensures { OpensToken token.now result told.new t.old.handle.read t.new.handle.read }
{
    if let Some(read) = t.take(alloc) {
        t.put(read);
        return only(6, told);
    }
    open(alloc, t, token, told)
}

/// Closes a handle of a token, and frees all its memory. A closed handle is left closed.
#[unsafe(no_mangle)]
pub extern "C" fn svid_token_close(alloc: Global, t: &mut SvidToken)
    ensures { t.new.handle.read ≡ None }
{
    if let Some(read) = t.take(alloc) {
        drop(read);
    }
}
