//! Splitting a text and formatting one. Each contract names the parts.
#![tactic(auto, using(compact_str::proofs::ForCallers::caller_facts, compact_str::proofs::PartFacts::part_facts))]

ghost use Rattle.std.specs.Prelude.{◌≡◌, ◌≢◌, ◌↔◌, ◌++◌, IfSome, OnOk, OnErr, IsTrue, Some, true, false, codes, decimal, slice_get, length, ◌==◌};
ghost use Rattle.std.specs.List.{slice_split};
ghost use Rattle.std.specs.Str.{trim};
ghost use Rattle.compact_str.specs.Text.{text_of, utf8};
ghost use Rattle.compact_str.specs.Ranges.{IsBetweenWhitespace};

use compact_str::{CompactString, ReserveError};

/// Counts the fields of a line, between the commas.
#[tactic(auto, using(compact_str::proofs::PartFacts::split_facts))]
pub fn field_count(line: &str) -> usize
    ensures { result ≡ length (slice_split (λ byte. byte == 44) line.now) }
{
    line.split(',').count()
}

/// Appends an address. Its contract joins from the right, as a formatter does.
#[tactic(auto, using(compact_str::proofs::ForCallers::caller_facts))]
pub fn append_address(
    line: &mut CompactString,
    scheme: &str,
    host: &CompactString,
    port: u16,
    path: &str,
) -> Result<(), ReserveError>
    ensures { OnOk result (line.new.text ≡ line.old.text ++ (text_of scheme.now ++ (codes "://"
        ++ (host.now.text ++ (codes ":" ++ (decimal port ++ (codes "/" ++ text_of path.now))))))) }
{
    let host = host.as_str();
    write!(line, "{scheme}://{host}:{port}/{path}")
}

/// Appends a request. The contract is in bytes, so no proof reads it as characters.
#[tactic(auto, using(compact_str::proofs::PartFacts::part_facts))]
pub fn append_request(
    line: &mut CompactString,
    method: &str,
    host: &CompactString,
    port: u16,
    path: &str,
) -> Result<(), ReserveError>
    ensures { OnOk result (utf8 line.new.text ≡ utf8 line.old.text ++ (method.now ++ (codes " "
        ++ (utf8 host.now.text ++ (codes ":" ++ (decimal port ++ (codes "/" ++ path.now))))))) }
{
    write!(line, "{method} {host}:{port}/{path}")
}

/// Appends a line of a list, or leaves the text unchanged.
#[tactic(auto, using(compact_str::proofs::PartFacts::part_facts))]
pub fn append_line(line: &mut CompactString, name: &str, count: u64) -> Result<(), ReserveError>
    ensures bytes { OnOk result (utf8 line.new.text
        ≡ utf8 line.old.text ++ (name.now ++ (codes ": " ++ (decimal count ++ codes "\n")))) }
    ensures unchanged { OnErr result (line.new ≡ line.old) }
{
    writeln!(line, "{name}: {count}")
}

/// Appends a text with its `Display`.
pub fn append_shown(line: &mut CompactString, text: &str) -> Result<(), ReserveError>
    ensures bytes { OnOk result (utf8 line.new.text ≡ utf8 line.old.text ++ text.now) }
    ensures unchanged { OnErr result (line.new ≡ line.old) }
{
    line.write(text)
}

/// Returns `true` if a word is `"abc"`.
#[tactic(auto, using(compact_str::proofs::PartFacts::literal_facts))]
pub fn is_abc(word: &CompactString) -> bool
    ensures { IsTrue result ↔ (word.now.text ≡ codes "abc") }
{
    word.as_str() == "abc"
}

/// Returns `true` if a word is not `"naïve"`.
#[tactic(auto, using(compact_str::proofs::PartFacts::literal_facts))]
pub fn is_not_naive(word: &CompactString) -> bool
    ensures { IsTrue result ↔ (word.now.text ≢ codes "naïve") }
{
    word.as_str() != "naïve"
}

/// Returns `true` if a header names the encoding of a body.
#[tactic(auto, using(compact_str::proofs::PartFacts::literal_facts))]
pub fn is_encoding_header(name: &CompactString) -> bool
    ensures { IsTrue result ↔ (name.now.text ≡ codes "content-transfer-encoding") }
{
    name.as_str() == "content-transfer-encoding"
}

/// Parses `yes` or `no`.
#[tactic(auto, using(compact_str::proofs::PartFacts::literal_facts))]
pub fn yes_or_no(word: &CompactString) -> Option<bool>
    ensures yes { result ≡ Some true ↔ (word.now.text ≡ codes "yes") }
    ensures no { result ≡ Some false ↔ (word.now.text ≡ codes "no") }
{
    match word.as_str() {
        "yes" => Some(true),
        "no" => Some(false),
        _ => None,
    }
}

/// Returns the first character of a line.
pub fn first_of(line: &CompactString) -> Option<char>
    ensures { result ≡ slice_get line.now.text 0 }
{
    line.chars().next()
}

/// Splits a `key=value` field.
pub fn key_and_value(field: &CompactString) -> Option<(&str, &str)>
    ensures { IfSome result (λ parts.
        field.now.text ≡ text_of parts.0.now ++ codes "=" ++ text_of parts.1.now) }
{
    field.split_once('=')
}

/// Splits a title at its section sign into number and name.
pub fn number_and_name(title: &CompactString) -> Option<(&str, &str)>
    ensures { IfSome result (λ parts.
        title.now.text ≡ text_of parts.0.now ++ codes "§" ++ text_of parts.1.now) }
{
    let at = title.find('§')?;
    Some((&title[..at], &title[at + '§'.len_utf8()..]))
}

/// Splits a `&str` at the first arrow.
pub fn sides_of_arrow(line: &str) -> Option<(&str, &str)>
    ensures { IfSome result (λ parts.
        text_of line.now ≡ text_of parts.0.now ++ codes "→" ++ text_of parts.1.now) }
{
    line.split_once('→')
}

/// Splits a `&str` at the first dash.
pub fn sides_of_dash(line: &str) -> Option<(&str, &str)>
    ensures { IfSome result (λ parts.
        text_of line.now ≡ text_of parts.0.now ++ codes "–" ++ text_of parts.1.now) }
{
    let at = line.find('–')?;
    Some((&line[..at], &line[at + '–'.len_utf8()..]))
}

/// Strips the mark from a name.
pub fn unmarked(name: &CompactString) -> Option<&str>
    ensures { IfSome result (λ rest. name.now.text ≡ codes "x-" ++ text_of rest.now) }
{
    name.strip_prefix("x-")
}

/// Trims white space from both ends.
pub fn trimmed(line: &CompactString) -> &str
    ensures text { IsBetweenWhitespace line.now.text (text_of result.now) }
    ensures bytes { result.now ≡ trim (utf8 line.now.text) }
{
    line.trim()
}

/// Returns the first two bytes of a line, if they end at a boundary.
pub fn first_two_bytes(line: &CompactString) -> &str {
    if line.is_char_boundary(2) {
        &line[..2]
    } else {
        ""
    }
}

/// Appends an address with all its parts.
#[tactic(auto, using(compact_str::proofs::PartFacts::long_write_facts))]
pub fn append_whole_address(
    line: &mut CompactString,
    scheme: &str,
    user: &str,
    password: &str,
    host: &CompactString,
    port: u16,
    path: &str,
    query: &str,
    fragment: &str,
) -> Result<(), ReserveError>
    ensures { OnOk result (line.new.text ≡ line.old.text ++ (text_of scheme.now ++ (codes "://"
        ++ (text_of user.now ++ (codes ":" ++ (text_of password.now ++ (codes "@" ++ (host.now.text
        ++ (codes ":" ++ (decimal port ++ (codes "/" ++ (text_of path.now ++ (codes "?"
        ++ (text_of query.now ++ (codes "#" ++ text_of fragment.now))))))))))))))) }
{
    // With values as holes, at most six prove.
    let host = host.as_str();
    write!(
        line,
        "{scheme}://{user}:{password}@{host}:{port}/{path}?{query}#{fragment}"
    )
}
