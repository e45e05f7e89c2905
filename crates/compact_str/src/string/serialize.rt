//! Serialization by serde.
ghost use Rattle.std.specs.Prelude.{◌≡◌, IfOk, string_bytes};
ghost use Rattle.serde.specs.Event.{Logs, text as text_event};
ghost use Rattle.compact_str.specs.Words.{utf8};
ghost use Rattle.compact_str.specs.Serde.{IsGivenText};

use crate::error::ReserveError;
use crate::string::PolicyString;
use compact_repr::Policy;
use serde::{
    Described, Deserialize, DeserializeOwned, Deserializer, Format, Serialize, Serializer,
};
use std::alloc::Global;

impl<P: Policy> Described for PolicyString<P> {
    ghost writes = { λ v old new. Logs old new (text_event (utf8 v.text)) };
}

impl<P: Policy> Serialize for PolicyString<P> {
    /// Serializes like a `String`.
    ///
    /// # Errors
    ///
    /// The error of `out`.
    #[inline]
    fn serialize<S: Serializer>(&self, out: &mut S) -> Result<(), S::Error> {
        out.str(self.as_str())
    }
}

impl<P: Policy> DeserializeOwned for PolicyString<P> {
    /// Reads a string. Copies one without escapes as `new` does, so that up to 24 bytes never allocate.
    ///
    /// For a concrete reader the contract does not say which text was read.
    ///
    /// # Errors
    ///
    /// The reader's own, if it has no string or allocation fails.
    fn deserialize_owned<F: Format>(
        alloc: Global,
        from: &mut Deserializer<'_, '_, F>,
    ) -> Result<Self, F::Error>
        ensures { IfOk result (λ v. IsGivenText F.gives (utf8 v.text)) }
    {
        read_text(alloc, from)
    }
}

impl<'de, P: Policy> Deserialize<'de> for PolicyString<P> {
    /// Same as `deserialize_owned`: borrows nothing from the input.
    ///
    /// # Errors
    ///
    /// As from `deserialize_owned`.
    fn deserialize<F: Format>(
        alloc: Global,
        from: &mut Deserializer<'de, '_, F>,
    ) -> Result<Self, F::Error>
        ensures { IfOk result (λ v. IsGivenText F.gives (utf8 v.text)) }
    {
        read_text(alloc, from)
    }
}

/// Copies borrowed input directly; reads escaped strings through a `String`.
fn read_text<P: Policy, F: Format>(
    alloc: Global,
    from: &mut Deserializer<'_, '_, F>,
) -> Result<PolicyString<P>, F::Error>
    ensures { IfOk result (λ v. IsGivenText F.gives (utf8 v.text)) }
{
    let mark = from.mark();
    match from.borrowed_str() {
        Ok(text) => {
            from.release(mark);
            return match new_from(alloc, text) {
                Ok(value) => Ok(value),
                Err(_) => Err(from.no_memory()),
            };
        }
        Err(error) => {
            if from.is_fatal(&error) {
                return Err(error);
            }
        }
    }
    from.rewind(mark);
    from.release(mark);
    let text = from.string(alloc)?;
    Ok(from_owned(text))
}

/// `new`, with a clause in bytes.
#[inline]
fn new_from<P: Policy>(alloc: Global, text: &str) -> Result<PolicyString<P>, ReserveError>
    ensures { IfOk result (λ v. utf8 v.text ≡ text.now) }
{
    PolicyString::new(alloc, text)
}

/// `From<String>`, with a clause in bytes.
#[inline]
#[tactic(auto, using(crate::proofs::EditFacts::string_facts))]
fn from_owned<P: Policy>(text: String) -> PolicyString<P>
    ensures { utf8 result.text ≡ string_bytes text }
{
    PolicyString::from(text)
}
