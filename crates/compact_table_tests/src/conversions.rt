//! Calls that convert a value: on failure they return it unchanged.

use compact_str::{AsText, CompactString, Refused};

/// Converts a value, and returns whether the result has this text. Returns the value if that fails, or if there is no
/// call of this name.
pub fn leave(value: CompactString, name: &str, text: &str) -> Result<bool, CompactString> {
    match name {
        "into_string" => is_text(value.into_string(), text),
        "into_vec" => vec(value, text),
        "into_bytes" => bytes(value, text),
        "into_boxed_str" => is_text(value.into_boxed_str(), text),
        "into_rc" => shared(value, text),
        "into_cow" => is_text(value.into_cow(), text),
        "to_json" => json(value, text),
        _ => Err(value),
    }
}

/// Returns whether the result is this text.
fn is_text<T: AsText>(
    outcome: Result<T, Refused<CompactString>>,
    text: &str,
) -> Result<bool, CompactString> {
    match outcome {
        Ok(out) => Ok(out.text() == text),
        Err(back) => Err(back.value),
    }
}

fn vec(value: CompactString, text: &str) -> Result<bool, CompactString> {
    match value.into_vec() {
        Ok(out) => Ok(out.as_slice() == text.as_bytes()),
        Err(back) => Err(back.value),
    }
}

fn bytes(value: CompactString, text: &str) -> Result<bool, CompactString> {
    match value.into_bytes() {
        Ok(out) => Ok(out.as_slice() == text.as_bytes()),
        Err(back) => Err(back.value),
    }
}

fn shared(value: CompactString, text: &str) -> Result<bool, CompactString> {
    match value.into_rc() {
        Ok(out) => Ok(out.as_str() == text),
        Err(back) => Err(back.value),
    }
}

fn json(value: CompactString, text: &str) -> Result<bool, CompactString> {
    match value.to_json() {
        Ok(out) => Ok(out.as_str() == Some(text)),
        Err(_) => Err(value),
    }
}
