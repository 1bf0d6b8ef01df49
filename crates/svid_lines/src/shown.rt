//! JSON text for people.
ghost use Rattle.std.specs.Prelude.{◌≡◌, ◌++◌, IfOk, string_bytes};
ghost use Rattle.svid_lines.specs.Shown.{shown_char, shown_text};

use std::alloc::{AllocError, Global};
use std::fmt::Write;

// Puts a character of JSON text, or its escape.
fn push_shown(alloc: Global, line: &mut String, character: char) -> Result<(), AllocError>
    ensures { IfOk result (λ _. string_bytes line.new ≡ string_bytes line.old ++ shown_char character) }
{
    match u8::try_from(u32::from(character)) {
        Ok(byte) if byte >= 0x7f && byte <= 0x9f => {
            let digits = hex::encode(alloc, [byte])?;
            line.push_str("\\u00")?;
            line.push_str(digits.as_str())
        }
        _ => line.push(character),
    }
}

/// JSON text, in which each of U+007F to U+009F is escaped: a terminal may take these for commands.
pub fn shown_text(alloc: Global, text: &str) -> Result<String, AllocError>
    ensures { IfOk result (λ line. string_bytes line ≡ shown_text text.now) }
{
    let mut line = String::new(alloc);
    for character in text.chars() {
        push_shown(alloc, &mut line, character)?;
    }
    Ok(line)
}
