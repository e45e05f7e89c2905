//! A program that builds texts character by character: it decodes `%41` and `+`, and lowers ASCII characters.

use crate::text::{Refused, Text};
use std::alloc::Global;
use std::io;
use std::io::Write;

/// Writes each line decoded.
pub fn decode<W: Write>(alloc: Global, input: &str, writer: &mut W) -> io::Result<()> {
    for line in input.lines() {
        let Ok(decoded) = decoded_line(alloc, line) else {
            return Err(io::Error::from(io::ErrorKind::OutOfMemory));
        };
        writer.write_all(decoded.as_bytes())?;
        writer.write_all(b"\n")?;
    }
    Ok(())
}

/// Decodes a line.
fn decoded_line(alloc: Global, line: &str) -> Result<Text, Refused> {
    let mut decoded = Text::from_str(alloc, "")?;
    // After a `%`, 1 and the digits read so far; else 0.
    let mut code: u32 = 0;
    for character in line.chars() {
        if character == '%' {
            code = 1;
        } else if code == 0 {
            decoded.push(plain(character))?;
        } else {
            let digit = character.to_digit(16).unwrap_or(0);
            code = code.wrapping_mul(16).wrapping_add(digit);
            if code >= 256 {
                decoded.push(char::from_u32(code % 128).unwrap_or(' '))?;
                code = 0;
            }
        }
    }
    Ok(decoded)
}

/// Returns the character that an escape denotes.
fn plain(character: char) -> char {
    if character == '+' {
        ' '
    } else {
        character.to_ascii_lowercase()
    }
}
