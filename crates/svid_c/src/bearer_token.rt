ghost use Rattle.svid_c.specs.Bearer.{Bears, bearer_number};
ghost use Rattle.std.specs.Prelude.{◌≡◌};

use svid_bearer::{Bearer, NoBearer};

/// Where the bearer token of a request stands; 0 if it has none.
#[repr(C)]
#[derive(Drop)]
pub struct SvidBearer {
    /// The offset of its first byte in the field's value.
    pub at: usize,
    /// Its length, in bytes.
    pub len: usize,
}

fn bearer_number(why: NoBearer) -> u32
    ensures { result ≡ bearer_number why }
{
    match why {
        NoBearer::Absent => 81,
        NoBearer::Several => 82,
        NoBearer::Scheme => 83,
        NoBearer::Spelling => 84,
        NoBearer::TooLong => 101,
    }
}

/// Finds the bearer token of a request. `fields` is how many header fields `Authorization` it has, and `value` is the value of the
/// first (RFC 9110, section 11.4; RFC 6750, section 2.1). Returns 0, and `out` says where in the value it stands.
///
/// Otherwise returns the first that holds: 81 if the request has no such field, 82 if it has more than one, 83 if the scheme is not
/// `Bearer` (in any case), 84 if what follows is not one token, 101 if the token has more than 65,536 bytes. Allocates nothing.
#[unsafe(no_mangle)]
pub extern "C" fn svid_bearer_token(fields: u64, value: &[u8], out: &mut SvidBearer) -> u32
    ensures { Bears fields value.now result out.new }
{
    match Bearer::read(fields, value) {
        Ok(bearer) => {
            *out = SvidBearer {
                at: bearer.at,
                len: bearer.token.len(),
            };
            0
        }
        Err(why) => {
            *out = SvidBearer { at: 0, len: 0 };
            bearer_number(why)
        }
    }
}
