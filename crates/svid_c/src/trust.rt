use svid_keys::Bundles;

/// What a handle of trust bundles holds. (It is empty only while another call has taken them.)
#[derive(Drop)]
pub struct Trust {
    pub(crate) bundles: Option<Bundles>,
}
