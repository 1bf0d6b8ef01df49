ghost use Rattle.std.specs.Prelude.{◌≡◌, Some, slice_get};
ghost use Rattle.std.specs.List.{AllByRecursion};
ghost use Rattle.svid_replay.specs.Summary.{IsSummary};
ghost use Rattle.svid_replay.specs.Use.{IsBytes};

use std::marker::Model;

/// A moment, and the digest of each bucket of a record. There are 256 buckets, one for each first byte
/// of a key.
///
/// It is 8,200 bytes long: lend it where you don't keep it.
#[derive(Debug, Drop)]
pub struct Summary {
    moment: u64,
    digests: [[u8; 32]; 256],
}

impl Model for Summary {
    ghost use Rattle.svid_replay.specs.Summary.{IsSummary, SummaryData};

    ghost Value = { SummaryData };

    ghost view = { λ s. record { moment = s.moment; digests = s.digests } };

    ghost invariant = { λ s. IsSummary (record { moment = s.moment; digests = s.digests }) };
}

// does nothing: it says what the type has of a row
fn row(digest: [u8; 32])
    ensures { IsBytes 32 digest }
{}

// does nothing: it says what the type has of each row
fn rows(digests: &[[u8; 32]; 256])
    ensures { AllByRecursion (IsBytes 32) digests.now }
{
    for digest in digests {
        row(*digest);
    }
}

impl Summary {
    /// The summary of a moment (in seconds) and the digests of the buckets 0 to 255. Takes no memory.
    pub fn make(moment: u64, digests: [[u8; 32]; 256]) -> Summary
        ensures { result ≡ record { moment = moment; digests = digests } }
    {
        rows(&digests);
        Summary { moment, digests }
    }

    /// The moment of the summary, in seconds.
    pub fn moment(&self) -> u64
        ensures value { result ≡ self.now.moment }
        ensures summary { IsSummary self.now }
    {
        self.moment
    }

    /// The digest of a bucket, which has the uses whose keys begin with this byte.
    pub fn digest(&self, bucket: u8) -> &[u8; 32]
        ensures { slice_get self.now.digests bucket ≡ Some result.now }
    {
        &self.digests[bucket as usize]
    }

    /// The digests of the buckets 0 to 255.
    pub fn digests(&self) -> &[[u8; 32]; 256]
        ensures { result.now ≡ self.now.digests }
    {
        &self.digests
    }
}
