ghost use Rattle.std.specs.Prelude.{◌≡◌, Some, map, string_bytes};
ghost use Rattle.svid_check.specs.Setting.{renewed, setting_of, with_bundles, with_own};

use crate::validator::Validator;
use std::mem;
use svid_keys::{Bundles, Verifier};
use svid_replay::UseStore;

// The trust bundles and the audiences, which change while a validator lives. No memory is taken, and the record stays as it is.
impl<V: Verifier, S: UseStore> Validator<V, S> {
    /// The trust bundles.
    pub fn bundles(&self) -> &Bundles
        ensures { result.now ≡ self.now.bundles }
    {
        &self.given.bundles
    }

    /// Puts other trust bundles in the place of those that there are, which it gives back. The record and all else
    /// stays as it is, so a token that was accepted under the old bundles is still `Replayed`.
    pub fn replace_bundles(&mut self, bundles: Bundles) -> Bundles
        ensures state { self.new ≡ with_bundles self.old bundles }
        ensures before { result ≡ self.old.bundles }
        ensures renewed { setting_of V.says self.new
            ≡ renewed (setting_of V.says self.old) (Some (record { own = self.old.own; bundles = bundles; says = V.says self.old.verifier })) }
    {
        mem::replace(&mut self.given.bundles, bundles)
    }
    /// Puts other audiences in the place of those that there are, which it gives back. The record and all else stays as it is, so a
    /// token that was accepted for another audience is still `Replayed`.
    pub fn replace_own(&mut self, own: Vec<String>) -> Vec<String>
        ensures state { self.new ≡ with_own self.old (map string_bytes own.items) }
        ensures before { map string_bytes result.items ≡ self.old.own }
        ensures renewed { setting_of V.says self.new
            ≡ renewed (setting_of V.says self.old) (Some (record { own = map string_bytes own.items; bundles = self.old.bundles; says = V.says self.old.verifier })) }
    {
        mem::replace(&mut self.given.own, own)
    }
}
