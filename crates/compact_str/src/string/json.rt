//! JSON strings.
ghost use Rattle.std.specs.Prelude.{◌≡◌, Some, IfOk};
ghost use Rattle.serde_json.specs.View.{view as json_view};
ghost use Rattle.serde_json.specs.Data.{string as json_string};
ghost use Rattle.compact_str.specs.Words.{utf8};
ghost use Rattle.compact_str.specs.Serde.{ReadsJson};

use crate::error::ReserveError;
use crate::string::PolicyString;
use compact_repr::Policy;
use serde_json::Value;
use std::alloc::Global;
use thiserror::Error;

/// The error of `from_json`.
#[derive(Debug, Drop, Error)]
pub enum FromJsonError {
    /// The value is not a string.
    #[error("not a JSON string")]
    NotAString,
    /// Copying the string failed.
    #[error("{0}")]
    Reserve(ReserveError),
}

impl From<ReserveError> for FromJsonError {
    ghost use Rattle.compact_str.specs.declared.string.json.FromJsonError.TheVariants.{Reserve};

    ghost from_gives = { λ e error. error ≡ Reserve e };

    fn from(error: ReserveError) -> Self {
        FromJsonError::Reserve(error)
    }
}

impl<P: Policy> PolicyString<P> {
    /// Returns a copy of the text as a JSON string.
    ///
    /// # Errors
    ///
    /// [`ReserveError`] if the copy cannot be allocated. When it succeeds is tested, not proved.
    ///
    /// # Examples
    ///
    /// ```
    /// let json = CompactString::new(alloc, "café")?.to_json()?;
    /// assert_eq!(rt; json.as_str(), Some("café"));
    /// ```
    pub fn to_json(&self) -> Result<Value, ReserveError>
        // Returns a JSON string of the text. When it succeeds is tested, not proved.
        ensures { IfOk result (λ v. json_view v ≡ json_string (utf8 self.now.text)) }
    {
        let text = String::from_str(self.allocator(), self.as_str())?;
        Ok(Value::String(text))
    }

    /// Returns a copy of the text of a JSON string, as by `new`.
    ///
    /// # Errors
    ///
    /// `NotAString` if `value` is not a string, such as 1 or null. `Reserve` if `new` fails, never up to 24 bytes.
    ///
    /// # Examples
    ///
    /// ```
    /// let json = CompactString::new(alloc, "café")?.to_json()?;
    /// assert_eq!(rt; CompactString::from_json(alloc, &json)?.as_str(), "café");
    /// ```
    pub fn from_json(alloc: Global, value: &Value) -> Result<Self, FromJsonError>
        ensures reads { ReadsJson P.growth (json_view value.now) result }
        ensures text { IfOk result (λ v. json_view value.now ≡ json_string (utf8 v.text)) }
    {
        let Some(text) = value.as_str() else {
            return Err(FromJsonError::NotAString);
        };
        Ok(Self::new(alloc, text)?)
    }
}
