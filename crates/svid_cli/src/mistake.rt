//! A mistake on the command line, in one line.
ghost use Rattle.std.specs.Prelude.{◌≡◌, ◌++◌, IfOk, true};
ghost use Rattle.svid_cli.specs.Mistake.{HasWords, hides_tokens, is_of_token, is_one_line, left_after, mistake_text, most_of_token, shown, shown_from};

use crate::words::bytes_of_text;
use std::alloc::{AllocError, Global};

// How many bytes of a token are shown.
const MOST_OF_TOKEN: u32 = 20;

// The content of a line of the parser's text, without the word before it.
fn said(line: &str) -> &str {
    let line = line.trim();
    match line.strip_prefix("error: ") {
        Some(mistake) => mistake,
        None => line.strip_prefix("tip: ").unwrap_or(line),
    }
}

// Whether the rest of the parser's text is only usage.
fn is_usage(said: &str) -> bool {
    said.starts_with("Usage: ") || said.starts_with("For more information")
}

// The separator between these words and the next ones.
fn between(told: &str) -> &'static str {
    if told.is_empty() {
        ""
    } else if told.ends_with(':') {
        " "
    } else {
        "\n"
    }
}

// The parser's text before the usage, joined to one line.
fn joined(alloc: Global, text: &str) -> Result<String, AllocError> {
    let mut told = String::new(alloc);
    for line in text.lines() {
        let said = said(line);
        if is_usage(said) {
            break;
        }
        if !said.is_empty() {
            told.push_str(between(told.as_str()))?;
            told.push_str(said)?;
        }
    }
    Ok(told)
}

// Whether a token may have this byte.
fn is_of_token(byte: u8) -> bool
    ensures { result ≡ is_of_token byte }
{
    matches!(byte, b'0'..=b'9' | b'A'..=b'Z' | b'a'..=b'z' | b'-' | b'_' | b'.')
}

// Appends what the line has for a byte, where so many bytes of a token may still be shown.
fn push_shown(line: &mut Vec<u8>, left: u32, byte: u8) -> Result<(), AllocError>
    ensures { IfOk result (λ _. line.new.items ≡ line.old.items ++ shown left byte) }
{
    if is_of_token(byte) {
        if left > 0 {
            line.push(byte)?;
        }
    } else if byte == b'\n' {
        line.extend_from_slice(b"; ")?;
    } else if byte >= 32 && byte != 127 {
        line.push(byte)?;
    }
    Ok(())
}

// How many bytes of a token may be shown after this one.
fn left_after(left: u32, byte: u8) -> u32
    ensures { result ≡ left_after left byte }
{
    if is_of_token(byte) {
        left.saturating_sub(1)
    } else if byte < 32 || byte == 127 {
        left
    } else {
        MOST_OF_TOKEN
    }
}

// What the line has for these bytes.
fn shown_of(alloc: Global, bytes: &[u8]) -> Result<Vec<u8>, AllocError>
    ensures { IfOk result (λ line. line.items ≡ shown_from most_of_token bytes.now) }
{
    let mut line = Vec::new(alloc);
    let mut left = MOST_OF_TOKEN;
    for byte in bytes {
        push_shown(&mut line, left, *byte)?;
        left = left_after(left, *byte);
    }
    Ok(line)
}

// The line's bytes before any are hidden: what is wrong, and which help to ask for.
fn whole(alloc: Global, told: &[u8], help: &str) -> Result<Vec<u8>, AllocError>
    ensures { IfOk result (λ line. line.items ≡ mistake_text told.now help.now) }
{
    let mut line = Vec::new(alloc);
    line.extend_from_slice(b"svid: ")?;
    line.extend_from_slice(told)?;
    line.extend_from_slice(b"; see '")?;
    line.extend_from_slice(help.as_bytes())?;
    line.extend_from_slice(b"'")?;
    Ok(line)
}

/// The parser's lines about a mistake, as one: `svid: `, what is wrong, the nearest name where there is one, and which help to
/// ask for. It has no control character of ASCII, so no word of the command line adds a line to it, or commands a terminal. Of a
/// token it has no more than 20 bytes.
pub fn one_line(alloc: Global, text: &str, help: &str) -> Result<Vec<u8>, AllocError>
    ensures words { IfOk result (λ line. HasWords help.now line.items) }
    ensures one { IfOk result (λ line. is_one_line line.items ≡ true) }
    ensures hides { IfOk result (λ line. hides_tokens most_of_token line.items ≡ true) }
{
    let told = joined(alloc, text)?;
    let bytes = bytes_of_text(alloc, told.as_str())?;
    let line = whole(alloc, &bytes, help)?;
    shown_of(alloc, &line)
}
