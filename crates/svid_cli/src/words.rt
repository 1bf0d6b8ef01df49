//! The words of the command line as bytes, though clap reads text: each byte is handed to clap as the
//! character of the same number, and a value is turned back into its bytes.
ghost use Rattle.std.specs.Prelude.{◌≡◌, IfOk, string_bytes, encode_utf8};
ghost use Rattle.std.specs.List.{flat_map};

use std::alloc::{AllocError, Global};
use std::env::{Env, FillError};

/// The bytes as text, each as the character of the same number.
pub fn text_of_bytes(alloc: Global, bytes: &[u8]) -> Result<String, AllocError>
    ensures { IfOk result (λ text. string_bytes text ≡ flat_map encode_utf8 bytes.now) }
{
    let mut text = String::new(alloc);
    for byte in bytes {
        text.push(char::from(*byte))?;
    }
    Ok(text)
}

/// The bytes from which `text_of_bytes` made this text. Leaves out a character that it never makes.
pub fn bytes_of_text(alloc: Global, text: &str) -> Result<Vec<u8>, AllocError> {
    let mut bytes = Vec::new(alloc);
    for character in text.chars() {
        if let Ok(byte) = u8::try_from(u32::from(character)) {
            bytes.push(byte)?;
        }
    }
    Ok(bytes)
}

// The word at this index, or `None` after the last one.
fn word<R: Env>(rt: &R, alloc: Global, index: usize) -> Result<Option<String>, AllocError> {
    for power in 8..32u32 {
        let mut room = vec![in alloc; 0u8; 1usize << power]?;
        match rt.arg(index, &mut room) {
            Ok(length) => return Ok(Some(text_of_bytes(alloc, &room[..length])?)),
            Err(FillError::NotPresent) => return Ok(None),
            Err(FillError::TooLong) => {}
        }
    }
    Err(AllocError)
}

/// All words, the program's name first.
pub fn words<R: Env>(rt: &R, alloc: Global) -> Result<Vec<String>, AllocError> {
    let mut words = Vec::new(alloc);
    for index in 0..usize::MAX {
        match word(rt, alloc, index)? {
            Some(word) => words.push(word)?,
            None => break,
        }
    }
    Ok(words)
}
