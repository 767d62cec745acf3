//! Why a JSON value is no version, no specifier or no list, and its message.
ghost use Rattle.std.specs.Prelude.{◌≡◌};
ghost use Rattle.pep440_rs.specs.Json.{IsJsonClone, json_text_of};
ghost use Rattle.pep440_rs.specs.declared.json.error.JsonError.TheVariants.{OutOfMemory};

use std::alloc::AllocError;
use std::error::Error;
use std::fmt;

/// Why a JSON value is no version, no specifier or no list; `E` is the error of the reader of strings. Two are equal
/// exactly if they report the same.
#[derive(Debug, PartialEq, Eq, Drop)]
pub enum JsonError<E> {
    /// The value is no string. Numbers are rejected, including fractions.
    NotAString,
    /// The string is rejected, and not because an allocation failed.
    Text(E),
    /// Out of memory, which says nothing about the value. It is never inside a `Text`.
    OutOfMemory,
}

impl<E: Clone> Clone for JsonError<E> {
    ghost is_clone = { IsJsonClone E.is_clone };

    fn clone(&self) -> Result<JsonError<E>, AllocError> {
        match self {
            JsonError::NotAString => Ok(JsonError::NotAString),
            JsonError::Text(error) => Ok(JsonError::Text(error.clone()?)),
            JsonError::OutOfMemory => Ok(JsonError::OutOfMemory),
        }
    }
}

impl<E> From<AllocError> for JsonError<E> {
    ghost from_gives = { λ _ error. error ≡ OutOfMemory };

    fn from(_refused: AllocError) -> JsonError<E> {
        JsonError::OutOfMemory
    }
}

impl<E: fmt::Display> fmt::Display for JsonError<E> {
    ghost output = { json_text_of E.output };

    ghost styled_output = { λ e style. json_text_of (λ inner. E.styled_output inner style) e };

    fn fmt<W: fmt::Write>(&self, f: &mut fmt::Formatter<W>) -> fmt::Result {
        match self {
            JsonError::NotAString => f.write_str("expected a JSON string"),
            JsonError::Text(error) => fmt::Display::fmt(error, f),
            JsonError::OutOfMemory => f.write_str("out of memory"),
        }
    }
}

impl<E: Error> Error for JsonError<E> {}
