ghost use Rattle.std.specs.Prelude.{◌≡◌, IfOk};
ghost use Rattle.svid_documents.specs.Document.{is_unnamed};

use crate::uses::is_set;
use std::alloc::{AllocError, Global};
use svid_token::read_json;

/// Whether a text is the bundle of one trust domain: an object with a list, or null, as its `keys`. It
/// has no name, so as an object of trust domains [`join`](crate::join) answers
/// [`DocumentFault::Unnamed`](crate::DocumentFault::Unnamed), and `svid_keys` refuses it.
pub fn is_unnamed(alloc: Global, text: &[u8]) -> Result<bool, AllocError>
    ensures { IfOk result (λ unnamed. unnamed ≡ is_unnamed text.now) }
{
    match read_json(alloc, text)? {
        Some(value) => Ok(is_set(&value)),
        None => Ok(false),
    }
}
