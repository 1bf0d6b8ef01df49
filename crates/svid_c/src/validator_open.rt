ghost use Rattle.std.specs.Prelude.{◌≡◌, None, IfOk, IfErr, map, string_bytes};
ghost use Rattle.svid_c.specs.Inputs.{AreNoBundles};
ghost use Rattle.svid_c.specs.Live.{Begins, IsBegun, Opens};
ghost use Rattle.svid_c.specs.Own.{AreCut, AreLines, IsCutFault, IsLineFault};

use crate::inputs::bundles_of;
use crate::live::{Live, Nobody, Store};
use crate::names::{names_by, names_in};
use crate::refuse_bundles::refuse_bundles;
use crate::told::SvidTold;
use crate::validator::{SvidValidator, only};
use std::alloc::Global;
use svid_check::Validator;
use svid_replay::Record;
use svid_share::ToolFault;

/// The terms that a validator has for its whole life, beside its audiences.
#[repr(C)]
#[derive(Drop)]
pub struct SvidTerms {
    /// How many seconds past the moment of a check, or past the record's moment if that is later, a token may expire. 2^64-1
    /// for no limit.
    pub longest: u64,
    /// How many seconds a message's moment may be past the moment at which it is taken.
    pub ahead: u64,
    /// How many seconds past the record's moment the moment of a call may be. 2^64-1 for no limit.
    pub step: u64,
    /// Tells this validator from every other one that shares its record.
    pub validator_id: [u8; 16],
}

// A validator with a new record, which has these audiences.
#[tactic(auto, using(crate::proofs::LiveLemmas::begun))]
fn begin(
    alloc: Global,
    terms: &SvidTerms,
    own: Vec<String>,
    bundles: &[u8],
) -> Result<Live, ToolFault>
    ensures ok { IfOk result (IsBegun (map string_bytes own.items) bundles.now terms.now) }
    ensures fault { IfErr result (AreNoBundles bundles.now) }
{
    let bundles = bundles_of(alloc, bundles)?;
    let record = Record::new(Store::new(alloc)?);
    let validator_id = terms.validator_id;
    Ok(Live {
        validator: Validator::new(
            alloc,
            own,
            validator_id,
            terms.ahead,
            bundles,
            Nobody,
            record,
            Some(terms.longest),
        ),
        step: terms.step,
        member: None,
        peer: None,
    })
}

// The same on the heap.
fn begin_boxed(
    alloc: Global,
    terms: &SvidTerms,
    own: Vec<String>,
    bundles: &[u8],
) -> Result<Box<Live>, ToolFault>
    ensures ok { IfOk result (λ live. IsBegun (map string_bytes own.items) bundles.now terms.now live.value) }
    ensures fault { IfErr result (AreNoBundles bundles.now) }
{
    let live = begin(alloc, terms, own, bundles)?;
    match Box::new(alloc, live) {
        Ok(live) => Ok(live),
        Err(_) => Err(ToolFault::OutOfMemory),
    }
}

// Opens a closed handle with these audiences.
fn open(
    alloc: Global,
    v: &mut SvidValidator,
    terms: &SvidTerms,
    own: Vec<String>,
    bundles: &[u8],
    told: &mut SvidTold,
) -> u32
    requires { v.old.handle.live ≡ None }
    ensures { Begins bundles.now terms.now result told.new v.new.handle.live (map string_bytes own.items) }
{
    match begin_boxed(alloc, terms, own, bundles) {
        Ok(live) => {
            v.put(live);
            only(0, told)
        }
        Err(fault) => refuse_bundles(alloc, bundles, fault, told),
    }
}

/// Opens a closed validator with a new record, and returns 0. `own` has an audience in each line. Skips empty lines.
///
/// 6 if it is open already; 35 if an audience is not UTF-8; 3 (with `told.input` 1) or a bundle fault if the bundles are refused; 2
/// if out of memory. Then it is unchanged.
#[unsafe(no_mangle)]
pub extern "C" fn svid_validator_open(
    alloc: Global,
    v: &mut SvidValidator,
    terms: &SvidTerms,
    own: &[u8],
    bundles: &[u8],
    told: &mut SvidTold,
) -> u32
    ensures { Opens (AreLines own.now) (IsLineFault own.now) bundles.now terms.now result told.new v.old.handle.live v.new.handle.live }
{
    if v.is_open() {
        return only(6, told);
    }
    match names_in(alloc, own) {
        Ok(own) => open(alloc, v, terms, own, bundles, told),
        Err(fault) => only(fault.number(), told),
    }
}

/// As [`svid_validator_open`], but `own` has the audiences one after the other, and `lens` their lengths. 36 if these do not
/// add up to the length of `own`.
#[unsafe(no_mangle)]
pub extern "C" fn svid_validator_open_by_lengths(
    alloc: Global,
    v: &mut SvidValidator,
    terms: &SvidTerms,
    own: &[u8],
    lens: &[usize],
    bundles: &[u8],
    told: &mut SvidTold,
) -> u32
    ensures { Opens (AreCut own.now lens.now) (IsCutFault own.now lens.now) bundles.now terms.now result told.new v.old.handle.live v.new.handle.live }
{
    if v.is_open() {
        return only(6, told);
    }
    match names_by(alloc, own, lens) {
        Ok(own) => open(alloc, v, terms, own, bundles, told),
        Err(fault) => only(fault.number(), told),
    }
}

/// Closes a validator, and frees all its memory. A closed one is left closed.
#[unsafe(no_mangle)]
pub extern "C" fn svid_validator_close(alloc: Global, v: &mut SvidValidator)
    ensures { v.new.handle.live ≡ None }
{
    if let Some(live) = v.take(alloc) {
        drop(live);
    }
}
