/// A text that has trust bundles, and what is known of it.
///
/// The name of a trust domain may also be given as its SPIFFE ID: `spiffe://` and the name.
#[derive(Clone, Copy, Debug)]
pub enum Document<'a> {
    /// An object of trust domain names and their bundles.
    Bundles(&'a [u8]),
    /// The bundle of one trust domain: a JWK Set whose keys say what they are for (SPIFFE Trust Domain
    /// and Bundle, section 4).
    Bundle { domain: &'a str, text: &'a [u8] },
    /// The keys of one trust domain for JWT-SVIDs: a JWK Set of nothing else, so that a key that
    /// doesn't say what it is for is for JWT-SVIDs (SPIFFE Workload API, section 6.2.2).
    Keys { domain: &'a str, text: &'a [u8] },
}
