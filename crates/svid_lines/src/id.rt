ghost use Rattle.std.specs.Prelude.{◌≡◌, ◌≢◌, IfOk, IfErr, string_bytes};
ghost use Rattle.svid_wire.specs.Streams.{TookAll, taken};
ghost use Rattle.svid_id.specs.Id.{is_id};
ghost use Rattle.svid_lines.specs.Id.{fault_name, path_line, parts_lines, refused_line, id_answer, IsIdEngineFault};

use std::alloc::{AllocError, Global};
use svid_id::{IdFault, SpiffeId};
use svid_share::{ToolFault, put_text};
use svid_wire::Sink;

// The name of a fault of the text. Out of memory has none, and is passed on.
fn fault_name(alloc: Global, fault: IdFault) -> Result<String, AllocError>
    ensures { IfOk result (λ name. (fault ≢ IdFault.OutOfMemory) × (string_bytes name ≡ fault_name fault)) }
{
    match fault {
        IdFault::TooLong => String::from_str(alloc, "TooLong"),
        IdFault::Scheme => String::from_str(alloc, "Scheme"),
        IdFault::DomainEmpty => String::from_str(alloc, "DomainEmpty"),
        IdFault::DomainByte(offset) => format!(in alloc; "DomainByte({offset})"),
        IdFault::DomainLong => String::from_str(alloc, "DomainLong"),
        IdFault::SegmentEmpty(offset) => format!(in alloc; "SegmentEmpty({offset})"),
        IdFault::SegmentDots(offset) => format!(in alloc; "SegmentDots({offset})"),
        IdFault::PathByte(offset) => format!(in alloc; "PathByte({offset})"),
        IdFault::OutOfMemory => Err(AllocError),
    }
}

fn refused_line(alloc: Global, fault: IdFault) -> Result<String, AllocError>
    ensures { IfOk result (λ line. (fault ≢ IdFault.OutOfMemory) × (string_bytes line ≡ refused_line fault)) }
{
    let name = fault_name(alloc, fault)?;
    let name = name.as_str();
    format!(in alloc; "refused {name}\n")
}

fn path_line(alloc: Global, path: &str) -> Result<String, AllocError>
    ensures { IfOk result (λ line. string_bytes line ≡ path_line path.now) }
{
    if path.is_empty() {
        Ok(String::new(alloc))
    } else {
        format!(in alloc; "path {path}\n")
    }
}

fn parts_lines(alloc: Global, id: &SpiffeId) -> Result<String, AllocError>
    ensures { IfOk result (λ lines. string_bytes lines ≡ parts_lines id.now) }
{
    let domain = id.domain();
    let line = path_line(alloc, id.path())?;
    let path = line.as_str();
    format!(in alloc; "domain {domain}\n{path}")
}

// The answer, and whether the text is an ID.
fn answer(alloc: Global, text: &[u8]) -> Result<(bool, String), AllocError>
    ensures { IfOk result (λ a. (a.0 ≡ is_id text.now) × (string_bytes a.1 ≡ id_answer text.now)) }
{
    match SpiffeId::parse(alloc, text) {
        Ok(id) => Ok((true, parts_lines(alloc, &id)?)),
        Err(fault) => Ok((false, refused_line(alloc, fault)?)),
    }
}

/// Writes the parts of the text's SPIFFE ID, or why it is none; returns whether it is one.
///
/// `OutOfMemory` before anything is written; `Write` where the sink stopped: then part of the answer went out.
pub fn run_id<K: Sink>(alloc: Global, text: &[u8], out: &mut K) -> Result<bool, ToolFault>
    ensures accepted { IfOk result (λ accepted. accepted ≡ is_id text.now) }
    ensures answer { IfOk result (λ _. TookAll (taken K.told K.stops out.old out.new) (id_answer text.now)) }
    ensures fault { IfErr result (IsIdEngineFault (taken K.told K.stops out.old out.new) (id_answer text.now)) }
    ensures kept { IfErr result (λ fault. fault ≢ ToolFault.Write → out.new ≡ out.old) }
{
    let (accepted, answer) = answer(alloc, text)?;
    put_text(out, answer.as_str())?;
    Ok(accepted)
}
