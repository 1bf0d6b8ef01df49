ghost use Rattle.std.specs.Prelude.{◌≡◌, Some, map, string_bytes};
ghost use Rattle.svid_token.specs.Rows.{Answers};
ghost use Rattle.svid_check.specs.Said.{RefusesForm};
ghost use Rattle.svid_c.specs.Alone.{Judges, TellsJudgment, verdict_alone};
ghost use Rattle.svid_c.specs.Own.{AreCut, IsCutFault, Named};
ghost use Rattle.svid_c.specs.Trust.{Reads, ReadsHeld};

use crate::answered::Answered;
use crate::bundles::SvidBundles;
use crate::check::{SvidSetting, SvidUse, accept_whole};
use crate::live::Nobody;
use crate::names::names_by;
use crate::rows::refuse_token;
use crate::told::{SvidTold, told_length};
use crate::trust::Trust;
use crate::validator::only;
use std::alloc::Global;
use svid_check::{Accepted, Validator};
use svid_keys::Bundles;
use svid_replay::{Record, RunUses};
use svid_token::Refusal;

// A judgment, and the bundles that it used.
#[derive(Drop)]
struct Judged {
    answer: Result<Accepted, Refusal>,
    bundles: Bundles,
}

// Judges a token as a validator with a new record does. (The validator is left with the spare bundles.)
fn judge_new(
    alloc: Global,
    setting: &SvidSetting,
    own: Vec<String>,
    bundles: Bundles,
    spare: Bundles,
    yes: &[[u8; 32]],
    token: &[u8],
) -> Judged
    ensures answer { Answers Some result.answer (verdict_alone setting.now (map string_bytes own.items) bundles yes.now token.now) }
    ensures early { RefusesForm token.now result.answer }
    ensures back { result.bundles ≡ bundles }
{
    let record = Record::new(RunUses::new(alloc));
    let validator_id = setting.validator_id;
    let mut validator = Validator::new(
        alloc,
        own,
        validator_id,
        0,
        bundles,
        Nobody,
        record,
        Some(setting.longest),
    );
    let answer = validator.judge_by(setting.moment, token, &Answered::Questions(yes));
    let bundles = validator.replace_bundles(spare);
    Judged { answer, bundles }
}

// Judges a token by these bundles, with these audiences.
fn judge(
    alloc: Global,
    trust: &mut Trust,
    setting: &SvidSetting,
    own: Vec<String>,
    yes: &[[u8; 32]],
    token: &[u8],
    out: &mut [u8],
    used: &mut SvidUse,
    told: &mut SvidTold,
) -> u32
    ensures does { ReadsHeld ((out.new ≡ out.old) × (used.new ≡ used.old)) (Judges setting.now yes.now token.now result told.new out.old out.new used.old used.new (map string_bytes own.items))
        result told.new trust.old.bundles }
    ensures stays { trust.new ≡ trust.old }
{
    let Some(bundles) = trust.bundles.take() else {
        return only(5, told);
    };
    let Ok(spare) = Bundles::read(alloc, b"{}") else {
        trust.bundles = Some(bundles);
        return only(2, told);
    };
    let Judged { answer, bundles } = judge_new(alloc, setting, own, bundles, spare, yes, token);
    trust.bundles = Some(bundles);
    tell(answer, out, used, told)
}

// Writes a judgment, if an ID has room.
fn tell(
    answer: Result<Accepted, Refusal>,
    out: &mut [u8],
    used: &mut SvidUse,
    told: &mut SvidTold,
) -> u32
    ensures { TellsJudgment answer result told.new out.old out.new used.old used.new }
{
    if out.len() < 2048 {
        *told = told_length(2048);
        return 1;
    }
    match answer {
        Ok(accepted) => accept_whole(accepted, out, used, told),
        Err(refusal) => refuse_token(refusal, told),
    }
}

// The same with the audiences that C lends.
fn judge_held(
    alloc: Global,
    trust: &mut Trust,
    setting: &SvidSetting,
    own: &[u8],
    lens: &[usize],
    yes: &[[u8; 32]],
    token: &[u8],
    out: &mut [u8],
    used: &mut SvidUse,
    told: &mut SvidTold,
) -> u32
    ensures does { ReadsHeld ((out.new ≡ out.old) × (used.new ≡ used.old))
        (λ bundles. Named (AreCut own.now lens.now) (IsCutFault own.now lens.now) ((out.new ≡ out.old) × (used.new ≡ used.old))
        (λ names. Judges setting.now yes.now token.now result told.new out.old out.new used.old used.new names bundles) result told.new)
        result told.new trust.old.bundles }
    ensures stays { trust.new ≡ trust.old }
{
    if trust.bundles.is_none() {
        return only(5, told);
    }
    match names_by(alloc, own, lens) {
        Ok(own) => judge(alloc, trust, setting, own, yes, token, out, used, told),
        Err(fault) => only(fault.number(), told),
    }
}

/// Judges a token at the moment of the setting, as a validator with these audiences, bundles and setting, and with a new record, would. No
/// record counts, so it never answers 124 or 125. `own` has the audiences one after the other, and `lens` their lengths. `yes` has the
/// questions about this token whose answer is yes.
///
/// Returns 0 if it accepts the token: `out` has the SPIFFE ID of its subject, and `used` is the use that a check would add. Else
/// the first refusal that holds. 5 if the handle is closed, 35 if an audience is not UTF-8, 36 if the lengths do not add up to the length
/// of `own`, 1 if `out` is shorter than 2,048 bytes, 2 if out of memory. Unless the status is 0, `out` and `used` are unchanged.
#[unsafe(no_mangle)]
pub extern "C" fn svid_bundles_judge(
    alloc: Global,
    b: &mut SvidBundles,
    setting: &SvidSetting,
    own: &[u8],
    lens: &[usize],
    yes: &[[u8; 32]],
    token: &[u8],
    out: &mut [u8],
    used: &mut SvidUse,
    told: &mut SvidTold,
) -> u32
    ensures { Reads ((out.new ≡ out.old) × (used.new ≡ used.old))
        (λ bundles. Named (AreCut own.now lens.now) (IsCutFault own.now lens.now) ((out.new ≡ out.old) × (used.new ≡ used.old))
        (λ names. Judges setting.now yes.now token.now result told.new out.old out.new used.old used.new names bundles) result told.new)
        result told.new b.old.handle.trust b.new.handle.trust }
{
    let Some(mut trust) = b.take(alloc) else {
        return only(5, told);
    };
    let status = judge_held(
        alloc, &mut trust, setting, own, lens, yes, token, out, used, told,
    );
    b.put(trust);
    status
}
