//! Why a string is not a version or not a pattern: kinds, errors and the conversions between them.
ghost use Rattle.std.specs.Prelude.{◌≡◌, is_none};
ghost use Rattle.pep440_version.specs.Errors.{kind_of, pattern_kind_of, rejection_of, error_rejection, pattern_rejection_of, pattern_error_rejection};
ghost use Rattle.pep440_version.specs.declared.error.PatternErrorKind.TheVariants.{Version};
ghost use Rattle.pep440_version.specs.declared.error.VersionParseError.{VersionParseError};
ghost use Rattle.pep440_version.specs.declared.error.ErrorKind.TheVariants.{OutOfMemory};

use std::alloc::AllocError;

/// Why a string is not a version (PEP 440, "Public version identifiers" and Appendix B).
///
/// A string that is not a version has exactly one kind, apart from the last.
#[derive(Debug, PartialEq, Eq, Drop)]
pub enum ErrorKind {
    /// The string begins with epoch and release followed by `.*`, which only a pattern may have.
    Wildcard,
    /// A number is above 18446744073709551615.
    NumberTooBig {
        /// The whole run of ASCII digits.
        bytes: Vec<u8>,
    },
    /// There is no digit after white space and the letter `v`.
    NoLeadingNumber,
    /// There is no digit after an epoch.
    NoLeadingReleaseNumber,
    /// There is no ASCII letter or digit after the start of a local part or of one of its segments.
    LocalEmpty {
        /// The `+`, `.`, `-` or `_` after which the segment is missing.
        precursor: char,
    },
    /// The string goes on after a version.
    UnexpectedEnd {
        /// The longest prefix that is a version, with the white space at its end.
        version: String,
        /// The rest of the string.
        remaining: String,
    },
    /// Out of memory; the string may be valid or not.
    OutOfMemory,
}

impl Clone for ErrorKind {
    ghost is_clone = { λ kind copy. rejection_of copy ≡ rejection_of kind };

    fn clone(&self) -> Result<ErrorKind, AllocError> {
        match self {
            ErrorKind::Wildcard => Ok(ErrorKind::Wildcard),
            ErrorKind::NumberTooBig { bytes } => Ok(ErrorKind::NumberTooBig {
                bytes: bytes.clone()?,
            }),
            ErrorKind::NoLeadingNumber => Ok(ErrorKind::NoLeadingNumber),
            ErrorKind::NoLeadingReleaseNumber => Ok(ErrorKind::NoLeadingReleaseNumber),
            ErrorKind::LocalEmpty { precursor } => Ok(ErrorKind::LocalEmpty {
                precursor: *precursor,
            }),
            ErrorKind::UnexpectedEnd { version, remaining } => Ok(ErrorKind::UnexpectedEnd {
                version: version.clone()?,
                remaining: remaining.clone()?,
            }),
            ErrorKind::OutOfMemory => Ok(ErrorKind::OutOfMemory),
        }
    }
}

impl From<AllocError> for ErrorKind {
    ghost from_gives = { λ _ kind. kind ≡ OutOfMemory };

    fn from(_refused: AllocError) -> ErrorKind {
        ErrorKind::OutOfMemory
    }
}

/// A string is not a version, or the call is out of memory. Two errors are equal exactly if their kinds are.
#[derive(Debug, PartialEq, Eq, Drop)]
pub struct VersionParseError {
    kind: ErrorKind,
}

impl VersionParseError {
    /// Why: the kind of the error, with what it holds.
    pub fn kind(&self) -> &ErrorKind
        ensures { result.now ≡ kind_of self.now }
    {
        &self.kind
    }

    /// Whether the call was out of memory, which says nothing about the string.
    pub fn is_out_of_memory(&self) -> bool
        ensures { result ≡ is_none (error_rejection self.now) }
    {
        matches!(self.kind, ErrorKind::OutOfMemory)
    }
}

impl Clone for VersionParseError {
    ghost is_clone = { λ error copy. error_rejection copy ≡ error_rejection error };

    fn clone(&self) -> Result<VersionParseError, AllocError> {
        Ok(VersionParseError {
            kind: self.kind.clone()?,
        })
    }
}

impl From<ErrorKind> for VersionParseError {
    ghost from_gives = { λ kind error. kind_of error ≡ kind };

    fn from(kind: ErrorKind) -> VersionParseError {
        VersionParseError { kind }
    }
}

/// Why a string is not a version pattern (PEP 440, "Version matching").
#[derive(Debug, PartialEq, Eq, Drop)]
pub enum PatternErrorKind {
    /// The string is not a version either, or the call is out of memory.
    Version(VersionParseError),
    /// Something follows the `.*` after a release.
    WildcardNotTrailing,
}

impl Clone for PatternErrorKind {
    ghost is_clone = { λ kind copy. pattern_rejection_of copy ≡ pattern_rejection_of kind };

    fn clone(&self) -> Result<PatternErrorKind, AllocError> {
        match self {
            PatternErrorKind::Version(error) => Ok(PatternErrorKind::Version(error.clone()?)),
            PatternErrorKind::WildcardNotTrailing => Ok(PatternErrorKind::WildcardNotTrailing),
        }
    }
}

impl From<VersionParseError> for PatternErrorKind {
    ghost from_gives = { λ error kind. kind ≡ Version error };

    fn from(error: VersionParseError) -> PatternErrorKind {
        PatternErrorKind::Version(error)
    }
}

impl From<ErrorKind> for PatternErrorKind {
    ghost from_gives = { λ kind outer. (e : VersionParseError) × (outer ≡ Version e) × (kind_of e ≡ kind) };

    fn from(kind: ErrorKind) -> PatternErrorKind {
        PatternErrorKind::Version(VersionParseError::from(kind))
    }
}

/// A string is not a version pattern, or the call is out of memory. Two errors are equal exactly if their kinds are.
#[derive(Debug, PartialEq, Eq, Drop)]
pub struct VersionPatternParseError {
    kind: PatternErrorKind,
}

impl VersionPatternParseError {
    /// Why: the kind of the error, with what it holds.
    pub fn kind(&self) -> &PatternErrorKind
        ensures { result.now ≡ pattern_kind_of self.now }
    {
        &self.kind
    }

    /// Whether the call was out of memory, which says nothing about the string.
    pub fn is_out_of_memory(&self) -> bool
        ensures { result ≡ is_none (pattern_error_rejection self.now) }
    {
        match &self.kind {
            PatternErrorKind::Version(error) => error.is_out_of_memory(),
            PatternErrorKind::WildcardNotTrailing => false,
        }
    }
}

impl Clone for VersionPatternParseError {
    ghost is_clone = { λ error copy. pattern_error_rejection copy ≡ pattern_error_rejection error };

    fn clone(&self) -> Result<VersionPatternParseError, AllocError> {
        Ok(VersionPatternParseError {
            kind: self.kind.clone()?,
        })
    }
}

impl From<PatternErrorKind> for VersionPatternParseError {
    ghost from_gives = { λ kind error. pattern_kind_of error ≡ kind };

    fn from(kind: PatternErrorKind) -> VersionPatternParseError {
        VersionPatternParseError { kind }
    }
}

impl From<VersionParseError> for VersionPatternParseError {
    ghost from_gives = { λ inner error. pattern_kind_of error ≡ Version inner };

    fn from(error: VersionParseError) -> VersionPatternParseError {
        VersionPatternParseError {
            kind: PatternErrorKind::Version(error),
        }
    }
}

impl From<ErrorKind> for VersionPatternParseError {
    ghost from_gives = { λ kind error. (e : VersionParseError) × (pattern_kind_of error ≡ Version e) × (kind_of e ≡ kind) };

    fn from(kind: ErrorKind) -> VersionPatternParseError {
        VersionPatternParseError {
            kind: PatternErrorKind::Version(VersionParseError { kind }),
        }
    }
}
