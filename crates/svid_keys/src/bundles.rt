ghost use Rattle.std.specs.Prelude.{◌≡◌, ◌+◌, IfOk, IfErr, IsOkUnless, None, OnOk, Some, filter_map, is_some, map, option_map, option_to_list, ◌++◌, string_cmp, unwrap_or, []};
ghost use Rattle.std.specs.BTreeMap.{insert_entry};
ghost use Rattle.serde_json.specs.Data.{Members, member};
ghost use Rattle.serde_json.specs.View.{members_view, view};
ghost use Rattle.svid_id.specs.Domain.{IsDomain};
ghost use Rattle.svid_keys.specs.Bundles.{AreBundles, IsBundle, IsBundles, IsRefusal, bundle_view, bundles_fault, bundles_in, bundles_of, entries_in, members_fault};
ghost use Rattle.svid_keys.specs.Candidates.{bundle_at, candidates_left, candidates_of, keys_at};
ghost use Rattle.svid_keys.specs.Key.{kept_key};

use crate::bundle_fault::BundleFault;
use crate::candidates::Candidates;
use crate::jwt_key::JwtKey;
use serde_json::{Map, Value};
use std::alloc::{AllocError, Global};
use std::collections::BTreeMap;
use std::marker::Model;
use svid_id::is_domain_name;
use svid_token::{Alg, read_json};

/// The trust bundles of trust domains: for each its keys for JWT-SVIDs.
///
/// Contracts see it as the list of the bundles, in rising order of their names.
#[derive(Debug, Drop)]
pub struct Bundles {
    domains: BTreeMap<String, Vec<JwtKey>>,
}

impl Model for Bundles {
    ghost use Rattle.std.specs.Prelude.{List, map};
    ghost use Rattle.svid_keys.specs.Bundles.{Bundle, bundle_view};

    ghost Value = { List Bundle };

    ghost view = { λ bundles. map bundle_view bundles.domains.entries };
}

impl Bundles {
    /// Reads bundles from JSON: one object whose names are trust domain names and whose values are
    /// JWK Sets (RFC 7517, section 5), each an object with `keys`, a list or null.
    ///
    /// An entry of such a list that is no key for JWT-SVIDs is passed over, as are other members.
    /// Of a name that is written twice the last value stands. The first faulty name in rising
    /// byte order is answered with its index: `Domain`, and then `Keys`.
    pub fn read(alloc: Global, text: &[u8]) -> Result<Bundles, BundleFault>
        ensures accepted { OnOk result (IsBundles text.now) }
        ensures value { IfOk result (λ bundles. bundles_in text.now ≡ Some bundles) }
        ensures fault { IfErr result (IsRefusal (bundles_fault text.now)) }
        ensures only { IsBundles text.now → IsOkUnless result BundleFault.OutOfMemory }
    {
        let Some(object) = read_json(alloc, text)? else {
            return Err(BundleFault::NotObject);
        };
        let Some(members) = object.as_object() else {
            return Err(BundleFault::NotObject);
        };
        let domains = read_members(alloc, members)?;
        Ok(Bundles { domains })
    }

    /// Whether there is a bundle of this trust domain. Allocates nothing.
    pub fn has_domain(&self, domain: &str) -> bool
        ensures { result ≡ is_some (bundle_at domain.now self.now) }
    {
        self.domains.contains_key(domain)
    }

    /// The keys of a trust domain that may have signed a token of this algorithm which names its
    /// key so, if it names one: in the order of the bundle's list. Allocates nothing.
    pub fn candidates<'a>(&'a self, domain: &str, alg: Alg, kid: Option<&'a str>) -> Candidates<'a>
        ensures { candidates_left result
            ≡ candidates_of self.now domain.now alg (option_map (λ kid. kid.now) kid.entry) }
    {
        Candidates::among(self.keys_at(domain), alg.kty(), kid)
    }

    // The keys of a trust domain, none where it has no bundle.
    fn keys_at(&self, domain: &str) -> &[JwtKey]
        ensures { result.now ≡ keys_at domain.now self.now }
    {
        match self.domains.get(domain) {
            Some(keys) => keys.as_slice(),
            None => &[],
        }
    }
}

// The bundles that the members of an object are, by their names.
fn read_members(
    alloc: Global,
    members: &Map<String, Value>,
) -> Result<BTreeMap<String, Vec<JwtKey>>, BundleFault>
    ensures accepted { OnOk result (AreBundles (members_view members.now.entries)) }
    ensures value { IfOk result
        (λ domains. map bundle_view domains.entries ≡ bundles_of (members_view members.now.entries)) }
    ensures fault { IfErr result (IsRefusal (members_fault 0 (members_view members.now.entries))) }
{
    let mut domains = BTreeMap::new(alloc);
    for (name, set) in members {
        let keys = read_bundle(alloc, domains.len(), name.as_str(), set)?;
        insert(&mut domains, String::from_str(alloc, name.as_str())?, keys)?;
    }
    Ok(domains)
}

// Puts the keys of a trust domain to the others.
fn insert(
    domains: &mut BTreeMap<String, Vec<JwtKey>>,
    name: String,
    keys: Vec<JwtKey>,
) -> Result<(), AllocError>
    ensures { OnOk result (domains.new.entries ≡ insert_entry string_cmp domains.old.entries name keys) }
{
    domains.insert(name, keys)?;
    Ok(())
}

// The keys of the bundle that a member is, which stands at `index` in the object.
fn read_bundle(
    alloc: Global,
    index: usize,
    name: &str,
    set: &Value,
) -> Result<Vec<JwtKey>, BundleFault>
    ensures accepted { OnOk result (IsBundle name.now (view set.now)) }
    ensures value { IfOk result
        (λ keys. keys.items ≡ filter_map (kept_key name.now) (unwrap_or (entries_in (view set.now)) [])) }
    ensures next { OnOk result ((ms : Members) → members_fault index (member name.now (view set.now) ms) ≡ members_fault (index + 1) ms) }
    ensures fault { IfErr result (λ fault. (ms : Members) → IsRefusal (members_fault index (member name.now (view set.now) ms)) fault) }
{
    if !is_domain_name(name.as_bytes()) {
        return Err(BundleFault::Domain(index));
    }
    let Some(entries) = entries_in(set) else {
        return Err(BundleFault::Keys(index));
    };
    Ok(read_keys(alloc, name, entries)?)
}

// The entries of a JWK Set: its `keys`, a list or null.
fn entries_in(set: &Value) -> Option<&[Value]>
    ensures { option_map (λ entries. map view entries.now) result ≡ entries_in (view set.now) }
{
    let keys = set.get("keys")?;
    match keys.as_array() {
        Some(entries) => Some(entries.as_slice()),
        None if keys.is_null() => Some(&[]),
        None => None,
    }
}

// Of the entries of the bundle of a domain, those that are keys.
fn read_keys(alloc: Global, domain: &str, entries: &[Value]) -> Result<Vec<JwtKey>, AllocError>
    requires { IsDomain domain.now }
    ensures { IfOk result (λ keys. keys.items ≡ filter_map (kept_key domain.now) (map view entries.now)) }
{
    let mut keys = Vec::new(alloc);
    for entry in entries {
        push_kept(&mut keys, JwtKey::read(alloc, domain, entry)?)?;
    }
    Ok(keys)
}

// Puts a key, if there is one, to the others.
fn push_kept(keys: &mut Vec<JwtKey>, key: Option<JwtKey>) -> Result<(), AllocError>
    ensures { OnOk result (keys.new.items ≡ keys.old.items ++ option_to_list key) }
{
    if let Some(key) = key {
        keys.push(key)?;
    }
    Ok(())
}
