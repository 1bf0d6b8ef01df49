ghost use Rattle.std.specs.Prelude.{◌≡◌, ◌≤◌, ◌++◌, [], ◌∷◌, length, None};
ghost use Rattle.std.specs.List.{AllByRecursion, flat_map};
ghost use Rattle.svid_replay.specs.Use.{IsBytes, IsUse};
ghost use Rattle.svid_replay.specs.Batches.{AllGood, last_of};
ghost use Rattle.svid_wire.specs.BatchText.{batch_kind, head_text};
ghost use Rattle.svid_wire.specs.Versions.{CanTell, magic_of, most_of, use_len_of, use_text};
ghost use Rattle.svid_wire.specs.declared.version.Version.{Version};
ghost use Rattle.svid_wire.specs.SummaryText.{summary_kind, summary_head, digest_text};
ghost use Rattle.svid_wire.specs.WireFault.{AreBegun, IsBegun, flaw_reason};
ghost use Rattle.svid_wire.specs.Stage.{IsStage, Judges, Reaches, field_len, stage_text};

use crate::field::{digest_of, moment_and_count_of, moment_of};
use crate::layout::{
    BATCH_KIND, COUNT_OFFSET, DIGEST_LEN, DIGESTS, HEAD_LEN, KIND_OFFSET, SUMMARY_KIND,
};
use crate::stage::{Progress, Stage};
use crate::version::Version;
use crate::{Reason, WireFault};
use std::alloc::Global;
use svid_replay::{Batch, Flaw, Use, flaw_of};

fn reason_of(flaw: Flaw) -> Reason
    ensures { result ≡ flaw_reason flaw }
{
    match flaw {
        Flaw::Expired => Reason::UseExpired,
        Flaw::Future => Reason::UseFuture,
        Flaw::Order => Reason::UseOrder,
    }
}

fn judge_magic(field: &[u8]) -> Result<Progress, WireFault>
    requires { length field.now ≡ 4 }
    ensures { Judges field.now result }
{
    match Version::of(field) {
        Some(version) => Ok(Progress::More(Stage::Kind(version))),
        None => Err(WireFault {
            offset: 0,
            reason: Reason::Magic,
        }),
    }
}

fn judge_kind(version: Version, field: &[u8]) -> Result<Progress, WireFault>
    requires { length field.now ≡ 1 }
    ensures { Judges (magic_of version ++ field.now) result }
{
    match (version, field[0]) {
        (_, BATCH_KIND) => Ok(Progress::More(Stage::MomentAndCount(version))),
        (Version::Two, SUMMARY_KIND) => Ok(Progress::More(Stage::Moment)),
        _ => Err(WireFault {
            offset: KIND_OFFSET,
            reason: Reason::Kind,
        }),
    }
}

// The progress after good uses of a batch: the batch itself, where there are as many as it announces.
fn next(version: Version, moment: u64, count: u32, uses: Vec<Use>) -> Progress
    requires few { count ≤ most_of version }
    requires within { length uses.items ≤ count }
    requires fields { AllByRecursion IsUse uses.items }
    requires tells { AllByRecursion (CanTell version) uses.items }
    requires good { AllGood moment None uses.items }
    ensures { Reaches (head_text version moment count ++ flat_map (use_text version) uses.items) result }
{
    if uses.len() == count as usize {
        Progress::Batch(version, Batch::from_good(moment, uses))
    } else {
        Progress::More(Stage::Uses {
            version,
            moment,
            count,
            uses,
        })
    }
}

fn judge_moment_and_count(
    alloc: Global,
    version: Version,
    field: &[u8],
) -> Result<Progress, WireFault>
    requires { length field.now ≡ 12 }
    ensures { Judges (magic_of version ++ batch_kind ∷ [] ++ field.now) result }
{
    let (moment, count) = moment_and_count_of(field);
    if count as usize > version.most_uses() {
        return Err(WireFault {
            offset: COUNT_OFFSET,
            reason: Reason::Count,
        });
    }
    Ok(next(version, moment, count, Vec::new(alloc)))
}

fn last_use(uses: &[Use]) -> Option<Use>
    ensures { result ≡ last_of None uses.now }
{
    uses.last().copied()
}

fn judge_use(
    version: Version,
    moment: u64,
    count: u32,
    mut uses: Vec<Use>,
    field: &[u8],
) -> Result<Progress, WireFault>
    requires begun { IsBegun version moment count uses.items }
    requires whole { length field.now ≡ use_len_of version }
    ensures { Judges (head_text version moment count ++ flat_map (use_text version) uses.items ++ field.now) result }
{
    let offset = HEAD_LEN + version.use_len() * uses.len();
    let Some(used) = version.use_of(field) else {
        return Err(WireFault {
            offset,
            reason: Reason::UseKind,
        });
    };
    if let Some(flaw) = flaw_of(moment, last_use(&uses), used) {
        return Err(WireFault {
            offset,
            reason: reason_of(flaw),
        });
    }
    uses.push(used)?;
    Ok(next(version, moment, count, uses))
}

fn judge_moment(alloc: Global, field: &[u8]) -> Progress
    requires { length field.now ≡ 8 }
    ensures { Reaches (magic_of Version.Two ++ summary_kind ∷ [] ++ field.now) result }
{
    Progress::More(Stage::Digests {
        moment: moment_of(field),
        digests: Vec::new(alloc),
    })
}

// The progress after some digests of a summary: the summary itself, where all are there.
fn next_digest(moment: u64, digests: Vec<[u8; DIGEST_LEN]>) -> Progress
    requires within { length digests.items ≤ 256 }
    requires fields { AllByRecursion (IsBytes 32) digests.items }
    ensures { Reaches (summary_head moment ++ flat_map digest_text digests.items) result }
{
    if digests.len() == DIGESTS {
        Progress::Summary { moment, digests }
    } else {
        Progress::More(Stage::Digests { moment, digests })
    }
}

fn judge_digest(
    moment: u64,
    mut digests: Vec<[u8; DIGEST_LEN]>,
    field: &[u8],
) -> Result<Progress, WireFault>
    requires begun { AreBegun moment digests.items }
    requires whole { length field.now ≡ 32 }
    ensures { Judges (summary_head moment ++ flat_map digest_text digests.items ++ field.now) result }
{
    digests.push(digest_of(field))?;
    Ok(next_digest(moment, digests))
}

/// Judges the next field.
pub(crate) fn judge(alloc: Global, stage: Stage, field: &[u8]) -> Result<Progress, WireFault>
    requires good { IsStage stage }
    requires whole { length field.now ≡ field_len stage }
    ensures { Judges (stage_text stage ++ field.now) result }
{
    match stage {
        Stage::Magic => judge_magic(field),
        Stage::Kind(version) => judge_kind(version, field),
        Stage::MomentAndCount(version) => judge_moment_and_count(alloc, version, field),
        Stage::Uses {
            version,
            moment,
            count,
            uses,
        } => judge_use(version, moment, count, uses, field),
        Stage::Moment => Ok(judge_moment(alloc, field)),
        Stage::Digests { moment, digests } => judge_digest(moment, digests, field),
    }
}
