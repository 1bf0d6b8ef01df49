ghost use Rattle.std.specs.Prelude.{◌≡◌, ◌≢◌, ◌==◌, IfOk, length};
ghost use Rattle.svid_replay.specs.Walks.{uses_behind};
ghost use Rattle.svid_wire.specs.BatchText.{batch_text};
ghost use Rattle.svid_c.specs.Live.{Calls};
ghost use Rattle.svid_c.specs.Parts.{Saves, after_of, behind, moved, or_done, uses_in_room};
ghost use Rattle.svid_c.specs.Status.{flag};

use crate::live::Live;
use crate::told::{SvidTold, flag, told_length};
use crate::validator::{SvidValidator, only};
use crate::writing::put;
use std::alloc::{AllocError, Global};
use svid_replay::{Batch, Use};
use svid_wire::{MemSink, write_batch};

/// How far a record is written. C makes it with all bytes 0, and only the calls write it.
#[repr(C)]
#[derive(Drop)]
pub struct SvidPart {
    /// 0 before the first call, and 1 once a use was written. The fields below are those of the last one.
    pub begun: u64,
    /// 1 if the record had no use after the last one that was written, and else 0.
    pub done: u64,
    /// 1 where the last use is a withdrawal, and else 0.
    pub withdrawn: u64,
    /// When the token of the last use expires, in seconds.
    pub exp: u64,
    /// When the last use was made, in seconds.
    pub at: u64,
    /// Its key.
    pub key: [u8; 32],
    /// The validator ID where it was made.
    pub validator_id: [u8; 16],
}

// The use that was written last, if there is one.
fn after_of(part: &SvidPart) -> Option<Use>
    ensures { result ≡ after_of part.now }
{
    if part.begun == 0 {
        return None;
    }
    Some(Use {
        exp: part.exp,
        key: part.key,
        validator_id: part.validator_id,
        at: part.at,
        withdrawn: part.withdrawn != 0,
    })
}

// The text of a batch.
fn text_of(alloc: Global, batch: &Batch) -> Result<MemSink, AllocError>
    ensures { IfOk result (λ sink. sink.bytes ≡ batch_text batch.now) }
{
    let mut sink = MemSink::new(alloc, 65_536, None);
    match write_batch(batch, &mut sink) {
        Ok(()) => Ok(sink),
        Err(_) => Err(AllocError),
    }
}

// How far a record is written after this use, if there is one.
fn behind(part: &SvidPart, last: Option<Use>) -> SvidPart
    ensures { result ≡ behind part.now last }
{
    match last {
        None => SvidPart {
            begun: part.begun,
            done: 0,
            withdrawn: part.withdrawn,
            exp: part.exp,
            at: part.at,
            key: part.key,
            validator_id: part.validator_id,
        },
        Some(used) => {
            let Use {
                exp,
                key,
                validator_id,
                at,
                withdrawn,
            } = used;
            SvidPart {
                begun: 1,
                done: 0,
                withdrawn: flag(withdrawn) as u64,
                exp,
                at,
                key,
                validator_id,
            }
        }
    }
}

// Whether a record has no use that is greater than this one, or none at all.
fn ends_at(live: &Live, after: Option<Use>) -> bool
    ensures { result ≡ (length (uses_behind live.now.validator.state.uses after) == 0) }
{
    live.validator.replay().walk_after(after).next().is_none()
}

// The same part, marked as done if that is the whole record.
fn or_done(live: &Live, part: SvidPart) -> SvidPart
    ensures { result ≡ or_done live.now.validator part }
{
    let done = ends_at(live, after_of(&part));
    let SvidPart {
        begun,
        done: _,
        withdrawn,
        exp,
        at,
        key,
        validator_id,
    } = part;
    SvidPart {
        begun,
        done: flag(done) as u64,
        withdrawn,
        exp,
        at,
        key,
        validator_id,
    }
}

// How far it is written after these uses.
fn moved(live: &Live, part: &SvidPart, uses: &[Use]) -> SvidPart
    ensures { result ≡ moved live.now.validator part.now uses.now }
{
    or_done(live, behind(part, uses.last().copied()))
}

// Advances past the uses if they were written.
fn settle(status: u32, live: &Live, part: &mut SvidPart, uses: &[Use])
    ensures moved { status ≡ 0 → part.new ≡ moved live.now.validator part.old uses.now }
    ensures kept { status ≢ 0 → part.new ≡ part.old }
{
    if status == 0 {
        *part = moved(live, part, uses);
    }
}

// How many uses fit into so many bytes.
fn uses_in_room(len: usize) -> usize
    ensures { result ≡ uses_in_room len }
{
    (len.saturating_sub(17) / 65).min(65_536)
}

fn put_part(
    alloc: Global,
    live: &Live,
    part: &mut SvidPart,
    out: &mut [u8],
    told: &mut SvidTold,
) -> u32
    ensures { Saves result told.new out.old out.new part.old part.new live.now.validator live.now.validator }
{
    if out.len() < 82 {
        *told = told_length(82);
        return 1;
    }
    let most = uses_in_room(out.len());
    let Ok(batch) = live.validator.parts_after(after_of(part), most) else {
        return only(2, told);
    };
    let Ok(sink) = text_of(alloc, &batch) else {
        return only(2, told);
    };
    let status = put(sink.bytes(), out, told);
    settle(status, live, part, batch.uses());
    status
}

/// Writes the next piece of the record to `out` as one batch: as many uses as have room, and at most 65,536. It begins with the first use,
/// or after those that earlier calls with `part` wrote. `part` then says how far the record is written: `done` is 1 exactly if the record
/// has no use after the last one that was written.
///
/// Other calls may come in between. The pieces together have each use that the record had at the first of these calls and that is still live
/// at the last.
///
/// Returns 0, with the batch's length in `told.len`. 1 if `out` has fewer than 82 bytes, the length of a batch of one use; 2 if out of
/// memory; 5 if the validator is closed. Unless the status is 0, `out` and `part` are unchanged.
#[unsafe(no_mangle)]
pub extern "C" fn svid_validator_parts(
    alloc: Global,
    v: &mut SvidValidator,
    part: &mut SvidPart,
    out: &mut [u8],
    told: &mut SvidTold,
) -> u32
    ensures { Calls ((out.new ≡ out.old) × (part.new ≡ part.old)) (Saves result told.new out.old out.new part.old part.new) result told.new v.old.handle.live v.new.handle.live }
{
    let Some(live) = v.take(alloc) else {
        return only(5, told);
    };
    let status = put_part(alloc, &live, part, out, told);
    v.put(live);
    status
}
