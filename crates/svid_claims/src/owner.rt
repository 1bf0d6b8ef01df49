ghost use Rattle.std.specs.Prelude.{◌≡◌, ◌+◌, ◌≤◌, ◌++◌, length, replicate, take};
ghost use Rattle.std.specs.Int.{to_be_bytes, w64};
ghost use Rattle.sha2.specs.Sha256.{sha256};
ghost use Rattle.svid_claims.specs.Owners.{owner_of_caller, owner_of_life, validator_of};

use sha2::{Digest, Sha256};

const LIFE: &[u8] = b"svid claim life";

const CALLER: &[u8] = b"svid claim caller";

/// Whose claim an entry is. Contracts see its bytes.
#[derive(Clone, Copy, Debug)]
pub struct Owner {
    /// Its bytes.
    pub bytes: [u8; 32],
}

fn put_piece(bytes: &mut [u8; 32], at: usize, piece: &[u8])
    requires { at + length piece.now ≤ 32 }
    ensures { take (at + length piece.now) bytes.new ≡ take at bytes.old ++ piece.now }
{
    bytes[at..at + piece.len()].copy_from_slice(piece);
}

// The digest of a label, an identity and an expiry.
fn digest(label: &[u8], told: &[u8], exp: u64) -> [u8; 32]
    ensures { result ≡ sha256 (label.now ++ (told.now ++ to_be_bytes w64 exp)) }
{
    let mut hasher = Sha256::new();
    hasher.update(label);
    hasher.update(told);
    hasher.update(exp.to_be_bytes());
    hasher.finalize()
}

impl Owner {
    /// The owner of a withdrawal: 32 zeros.
    pub const WITHDRAWN: Owner = Owner { bytes: [0; 32] };

    /// The owner that a life of a validator claims a token for. `exp` is when the token expires, in seconds.
    ///
    /// `life` is 16 random bytes, new at each start. So a restarted validator, or one from a copied state folder, does not own what an
    /// earlier life claimed. The owner begins with the validator ID, so an entry shows who used the token.
    pub fn of_life(validator_id: &[u8; 16], life: &[u8; 16], exp: u64) -> Owner
        ensures { result.bytes ≡ owner_of_life validator_id.now life.now exp }
    {
        let digest = digest(LIFE, life, exp);
        let mut bytes = [0; 32];
        put_piece(&mut bytes, 0, validator_id);
        put_piece(&mut bytes, 16, digest.split_at(16).0);
        Owner { bytes }
    }

    /// The owner that every validator claims a token for which this caller presents. `exp` is when the token expires, in seconds.
    ///
    /// `caller` is 32 bytes that identify a caller, for example a digest of its certificate.
    pub fn of_caller(caller: &[u8; 32], exp: u64) -> Owner
        ensures { result.bytes ≡ owner_of_caller caller.now exp }
    {
        Owner {
            bytes: digest(CALLER, caller, exp),
        }
    }

    /// The validator ID that an owner of [`of_life`](Owner::of_life) begins with.
    pub fn validator_id(&self) -> [u8; 16]
        ensures { result ≡ validator_of self.now.bytes }
    {
        let mut id = [0; 16];
        id.copy_from_slice(self.bytes.split_at(16).0);
        id
    }
}
