//! A tokenizer: cuts a text into words, numbers, white space and marks, and interns each.
ghost use Rattle.std.specs.Prelude.{◌≡◌, ◌≢◌, ◌+◌, ◌<◌, ◌≤◌, ◌∷◌, ℕ, List, [], flat_map, length, slice_get, Some, IsOk, IfOk, IfSome, IfErr, OnErr, MatchBool, MatchOption};
ghost use Rattle.compact_str.specs.Text.{text_of};
ghost use Rattle.compact_uses.specs.Tokens.{kind_of, token_text, BeginsApart, Continues, IsFirstPiece, IsTokenized, IsPartlyTokenized, IsTokenRefusal};
ghost use Rattle.compact_uses.specs.declared.tokenizer.Kind.TheVariants.{Mark};

use compact_edit::{InternError, Interner};
use compact_str::{CompactString, ReserveError};
use std::alloc::Global;

/// The kind of a token.
#[derive(Clone, Copy, Debug, PartialEq, Eq)]
pub enum Kind {
    /// Alphabetic characters.
    Word,
    /// Digits and other numeric characters.
    Number,
    /// White space.
    Space,
    /// Any other character, alone.
    Mark,
}

/// A piece of a text: its kind, and the number of its text among the names.
#[derive(Clone, Copy, Debug, PartialEq, Eq)]
pub struct Token {
    pub kind: Kind,
    pub name: u32,
}

/// Cuts a text into tokens. Joined, their texts are the text. None is empty, and each has characters of its kind only.
/// Each is as long as possible: no token continues the one before it. A mark is one character.
///
/// Appends the new texts to the names, by first occurrence, and at most one for each character of the text. Names keep
/// their numbers.
///
/// # Errors
///
/// Returns `Reserve` if allocation fails, and `Full` if all 2^32 - 1 numbers are in use. Only the texts of the first
/// tokens, up to some position, are added to the names then. Never fails if the text is empty.
///
/// # Examples
///
/// The tokens of `ab, 12` are the word `ab`, the mark `,`, a space and the number `12`.
#[tactic(auto, using(crate::proofs::TokenLemmas::token_facts))]
pub fn tokenize(
    alloc: Global,
    names: &mut Interner,
    text: &CompactString,
) -> Result<Vec<Token>, InternError>
    // Returns all pieces of the text in order, each with the number of its name.
    ensures joined { IfOk result (λ tokens.
        flat_map (token_text names.new) tokens.items ≡ text.now.text) }
    ensures tokens { IfOk result (λ tokens.
        IsTokenized names.old names.new tokens.items [] text.now.text) }

    // Names keep their numbers, and at most one comes for each character.
    ensures kept { (n : ℕ) (name : List ℕ)
        → slice_get names.old n ≡ Some name → slice_get names.new n ≡ Some name }
    ensures bound { length names.new ≤ length names.old + length text.now.text }

    // Fails if allocation fails, or if all numbers are in use. The names then have the texts of the
    // first tokens.
    ensures succeeds { text.now.text ≡ [] → IsOk result }
    ensures cause { IfErr result (IsTokenRefusal names.new) }
    ensures err { OnErr result (IsPartlyTokenized names.old names.new text.now.text) }
{
    // For the proof: the names are distinct, even if there is no token.
    let _distinct = names.len();
    let mut tokens = Vec::new(alloc);
    let mut rest = text.as_str();
    while let Some(piece) = next_piece(rest) {
        if tokens.reserve(1).is_err() {
            return Err(InternError::Reserve(ReserveError));
        }
        let name = names.intern(piece.text)?;
        tokens.push_reserved(Token {
            kind: piece.kind,
            name,
        });
        rest = piece.rest;
    }
    Ok(tokens)
}

/// The start of a text: a piece as long as possible, of one kind, and the rest.
#[derive(Drop)]
struct Piece<'a> {
    kind: Kind,
    text: &'a str,
    rest: &'a str,
}

/// Cuts off the first piece, or returns `None` if the text is empty.
fn next_piece(text: &str) -> Option<Piece<'_>>
    ensures first { MatchOption result (text_of text.now ≡ []) (λ piece. IsFirstPiece piece.kind
        (text_of piece.text.now) (text_of piece.rest.now) (text_of text.now)) }
    ensures shorter { IfSome result (λ piece.
        length (text_of piece.rest.now) < length (text_of text.now)) }
{
    let (first, others) = first_character(text)?;
    let kind = kind_of(first);
    let rest = skip_kind(kind, others);
    let (text, _) = text.split_at(text.len() - rest.len());
    Some(Piece { kind, text, rest })
}

/// Returns the text without the characters at its start that continue a piece of this kind.
fn skip_kind(kind: Kind, text: &str) -> &str
    ensures more { Continues kind (text_of text.now) (text_of result.now) }
    ensures apart { BeginsApart kind (text_of result.now) }
{
    let mut rest = text;
    while let Some((character, others)) = first_character(rest) {
        if !continues_piece(kind, kind_of(character)) {
            return rest;
        }
        rest = others;
    }
    rest
}

/// Returns the first character and the rest, or `None` if the text is empty.
#[inline]
#[tactic(auto, using(crate::proofs::PieceLemmas::piece_facts))]
fn first_character(text: &str) -> Option<(char, &str)>
    ensures { MatchOption result (text_of text.now ≡ [])
        (λ cut. text_of text.now ≡ cut.0 ∷ text_of cut.1.now) }
{
    let mut characters = text.chars();
    let character = characters.next()?;
    Some((character, characters.as_str()))
}

/// Returns the kind of token that a character belongs to.
fn kind_of(character: char) -> Kind
    ensures { result ≡ kind_of character }
{
    if character.is_alphabetic() {
        Kind::Word
    } else if character.is_numeric() {
        Kind::Number
    } else if character.is_whitespace() {
        Kind::Space
    } else {
        Kind::Mark
    }
}

/// Returns `true` if a character of the kind `next` continues a piece of the kind `kind`.
#[inline]
fn continues_piece(kind: Kind, next: Kind) -> bool
    ensures { MatchBool result ((next ≡ kind) × (kind ≢ Mark)) (next ≡ kind → kind ≡ Mark) }
{
    kind == next && kind != Kind::Mark
}
