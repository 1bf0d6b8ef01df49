ghost use Rattle.std.specs.Prelude.{◌≡◌};
ghost use Rattle.svid_c.specs.Peers.{CallsHandle};
ghost use Rattle.svid_c.specs.Rules.{Rules};

use crate::callers::Callers;
use crate::id_allows::pattern_number;
use crate::live::Live;
use crate::names::names_in;
use crate::validator::SvidValidator;
use std::alloc::Global;

// Replaces the audiences of a validator and the callers of its member.
fn replace(alloc: Global, live: &mut Live, own: &[u8], all: u64, callers: &[u8]) -> u32
    ensures { Rules own.now all callers.now result live.old live.new }
{
    let Some(peer) = &mut live.peer else {
        return 20;
    };
    let names = match names_in(alloc, own) {
        Ok(names) => names,
        Err(fault) => return fault.number(),
    };
    let callers = match Callers::read(alloc, all, callers) {
        Ok(callers) => callers,
        Err(fault) => return pattern_number(fault),
    };
    let _before = live.validator.replace_own(names);
    peer.callers = callers;
    0
}

/// Replaces the audiences of a validator, and who may call its member, in one step, and returns 0. `own` has an audience in each line. If `all` is
/// not 0, all may call, and `callers` is ignored. Else `callers` has a pattern in each line, and those may call that one of them allows. Skips empty
/// lines. The record is unchanged.
///
/// 35 if an audience is not UTF-8, a pattern fault if a line of `callers` is not a pattern, 2 if out of memory, 20 if the validator has no member:
/// then nothing happened. 5 if the validator is closed.
#[unsafe(no_mangle)]
pub extern "C" fn svid_member_rules(
    alloc: Global,
    v: &mut SvidValidator,
    own: &[u8],
    all: u64,
    callers: &[u8],
) -> u32
    ensures { CallsHandle (Rules own.now all callers.now result) result v.old.handle.live v.new.handle.live }
{
    let Some(mut live) = v.take(alloc) else {
        return 5;
    };
    let status = replace(alloc, &mut live, own, all, callers);
    v.put(live);
    status
}
