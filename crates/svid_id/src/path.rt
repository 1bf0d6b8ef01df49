// The rules of paths, over bytes.

ghost use Rattle.std.specs.Prelude.{◌≡◌, ◌+◌, ◌^◌, ◌<◌, IfOk, length};
ghost use Rattle.std.specs.List.{before_first, position_or_len, prefix_len};
ghost use Rattle.std.specs.Result.{result_err};
ghost use Rattle.svid_id.specs.Path.{is_dots, is_segment_byte, is_slash, path_fault, segment_fault};

use crate::id_fault::IdFault;

fn is_segment_byte(byte: u8) -> bool
    ensures { result ≡ is_segment_byte byte }
{
    matches!(byte, b'a'..=b'z' | b'A'..=b'Z' | b'0'..=b'9' | b'-' | b'.' | b'_')
}

// How many bytes from the front may stand in a segment.
fn segment_run(text: &[u8]) -> usize
    ensures { result ≡ prefix_len is_segment_byte text.now }
{
    text.iter()
        .take_while(|byte| is_segment_byte(**byte))
        .count()
}

fn is_dots(segment: &[u8]) -> bool
    ensures { result ≡ is_dots segment.now }
{
    segment == b".".as_slice() || segment == b"..".as_slice()
}

// The length of the segment that `text`, at `offset` in the whole, begins with.
#[tactic(auto, using(crate::proofs::PathLemmas::segment_runs))]
fn segment_len(text: &[u8], offset: usize) -> Result<usize, IdFault>
    requires { offset + length text.now < 2 ^ 64 }
    ensures len { IfOk result (λ len. len ≡ position_or_len is_slash text.now) }
    ensures fault { result_err result ≡ segment_fault offset (before_first is_slash text.now) }
{
    let run = segment_run(text);
    if run < text.len() && text[run] != b'/' {
        Err(IdFault::PathByte(offset + run))
    } else if run == 0 {
        Err(IdFault::SegmentEmpty(offset))
    } else if is_dots(&text[..run]) {
        Err(IdFault::SegmentDots(offset))
    } else {
        Ok(run)
    }
}

// Checks a path at `offset` in the whole text, which is empty or begins with its `/`.
pub(crate) fn check_path(path: &[u8], offset: usize) -> Result<(), IdFault>
    requires { offset + length path.now < 2 ^ 64 }
    ensures { result_err result ≡ path_fault offset path.now }
{
    let mut at = offset;
    let mut rest = path;
    while let Some((_, text)) = rest.split_first() {
        let len = segment_len(text, at + 1)?;
        at += 1 + len;
        rest = text.split_at(len).1;
    }
    Ok(())
}
