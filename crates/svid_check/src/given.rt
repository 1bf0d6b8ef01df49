use svid_keys::Bundles;

// What a validator is given, beside its record and its verifier.
#[derive(Drop)]
pub(crate) struct Given {
    pub(crate) own: Vec<String>,
    pub(crate) validator_id: [u8; 16],
    pub(crate) ahead: u64,
    pub(crate) bundles: Bundles,
    pub(crate) longest: Option<u64>,
}
