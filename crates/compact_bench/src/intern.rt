//! Interning words, alone and as tokens of a text.

use crate::inputs::{Generator, LETTERS, prose};
use crate::run::mix;
use compact_edit::{InternError, Interner};
use compact_str::CompactString;
use compact_uses::{Kind, Token, tokenize};
use std::alloc::Global;

/// Interns words drawn from 20,000 of at most `longest` letters.
fn interned(alloc: Global, n: u64, longest: u32) -> Result<u64, InternError> {
    let mut generator = Generator::new();
    let words = generator.texts(alloc, LETTERS, 20_000, 1, longest)?;
    let mut names = Interner::new(alloc);
    let mut sum = 0;
    for _ in 0..n {
        if let Some(word) = words.get(generator.below(20_000) as usize) {
            let number = names.intern(word.as_str())?;
            sum = mix(sum, u64::from(number));
        }
    }
    Ok(sum)
}

/// Tokenizes a text.
fn tokens(alloc: Global, n: u64, text: &CompactString) -> Result<u64, InternError> {
    let mut sum = 0;
    for _ in 0..n {
        let mut names = Interner::new(alloc);
        let tokens = tokenize(alloc, &mut names, text)?;
        sum = mix(mixed(&tokens, sum), names.len() as u64);
    }
    Ok(sum)
}

/// Mixes these tokens into `sum`.
#[inline]
fn mixed(tokens: &[Token], sum: u64) -> u64 {
    let mut sum = sum;
    for token in tokens {
        let kind = match token.kind {
            Kind::Word => 0,
            Kind::Number => 1,
            Kind::Space => 2,
            Kind::Mark => 3,
        };
        sum = mix(
            sum,
            u64::from(token.name).wrapping_mul(4).wrapping_add(kind),
        );
    }
    sum
}

#[unsafe(no_mangle)]
pub extern "C" fn cs_bench_intern(alloc: Global, n: u64) -> u64 {
    interned(alloc, n, 30).unwrap_or(u64::MAX)
}

#[unsafe(no_mangle)]
pub extern "C" fn cs_bench_intern_short(alloc: Global, n: u64) -> u64 {
    interned(alloc, n, 12).unwrap_or(u64::MAX)
}

/// Cuts a text of 1 MiB into tokens, each of which is interned.
#[unsafe(no_mangle)]
pub extern "C" fn cs_bench_tokenize(alloc: Global, n: u64) -> u64 {
    let Ok(text) = prose(alloc) else {
        return u64::MAX;
    };
    tokens(alloc, n, &text).unwrap_or(u64::MAX)
}
