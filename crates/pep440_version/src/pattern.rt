//! Version patterns and their parser.
ghost use Rattle.std.specs.Prelude.{◌≡◌, Bool, true, false, Ok, Err, Some, IfOk, IfErr, IfSome, IsOk};
ghost use Rattle.std.specs.Cmp.{partial_equiv_from_equiv};
ghost use Rattle.pep440_version.specs.ErrorTexts.{pattern_error_text, pattern_rejection_text};
ghost use Rattle.pep440_version.specs.Errors.{ReturnsOutcome, pattern_error_rejection};
ghost use Rattle.pep440_version.specs.PatternLaws.{pattern_equiv, patterns_feed_alike};
ghost use Rattle.pep440_version.specs.Patterns.{DerivesPattern, pattern_eq, feed_pattern};
ghost use Rattle.pep440_version.specs.Record.{Record};
ghost use Rattle.pep440_version.specs.Rejections.{PatternRejection, RejectsPattern};
ghost use Rattle.pep440_version.specs.Whole.{read_pattern};
ghost use Rattle.pep440_version.specs.Word.{is_packed};

use crate::error::VersionPatternParseError;
use crate::parse;
use crate::version::Version;
use std::alloc::{AllocError, Global};
use std::hash::{Hash, Hasher};
use std::marker::Model;

/// A version, and whether `.*` follows it, as `1.2.*` (PEP 440, "Version matching").
///
/// Patterns are equal if their versions are equal and both have a star or neither has.
#[derive(Debug, Drop)]
pub struct VersionPattern {
    version: Version,
    wildcard: bool,
}

impl Model for VersionPattern {
    ghost use Rattle.std.specs.Prelude.{Bool};
    ghost use Rattle.pep440_version.specs.Record.{Record};

    ghost Value = { Record × Bool };

    ghost view = { λ p. (p.version, p.wildcard) };
}

impl VersionPattern {
    /// The version without a star.
    pub fn verbatim(version: Version) -> VersionPattern
        ensures { result ≡ (version, false) }
    {
        VersionPattern {
            version,
            wildcard: false,
        }
    }

    /// The version with a star.
    pub fn wildcard(version: Version) -> VersionPattern
        ensures { result ≡ (version, true) }
    {
        VersionPattern {
            version,
            wildcard: true,
        }
    }

    /// The version before the star, or the whole version.
    pub fn version(&self) -> &Version
        ensures { result.now ≡ self.now.0 }
    {
        &self.version
    }

    /// The version, taken out of the pattern.
    pub fn into_version(self) -> Version
        ensures { result ≡ self.0 }
    {
        let VersionPattern { version, .. } = self;
        version
    }

    /// Whether a star follows.
    pub fn is_wildcard(&self) -> bool
        ensures { result ≡ self.now.1 }
    {
        self.wildcard
    }

    // The result of parsing from left to right.
    fn parse_any(alloc: Global, text: &str) -> Result<VersionPattern, VersionPatternParseError>
        ensures reads { ReturnsOutcome pattern_error_rejection result (read_pattern text.now) }
        ensures memory { (x : Record × Bool) → read_pattern text.now ≡ Ok x → is_packed x.0 ≡ true → IsOk result }
    {
        if let Some((version, wildcard)) = parse::parse_normal_pattern(text) {
            return Ok(VersionPattern { version, wildcard });
        }
        let (version, wildcard) = parse::parse_pattern(alloc, text)?;
        Ok(VersionPattern { version, wildcard })
    }

    /// Parses a pattern: a version, or epoch and release followed by `.*` and the end (PEP 440, "Version matching"
    /// and Appendix B).
    ///
    /// Allocates only if the version is not packed, or for the strings in an error. Every other string is rejected
    /// with exactly one `PatternErrorKind`; only if an allocation failed the kind may be `OutOfMemory` of `Version`
    /// instead.
    #[inline(always)]
    pub fn from_str(alloc: Global, text: &str) -> Result<VersionPattern, VersionPatternParseError>
        // Ok has what the string denotes.
        ensures found { IfOk result (λ p. DerivesPattern text.now p.0 p.1) }
        // A string that denotes a value parses to it, unless out of memory.
        ensures only { (r : Record) (star : Bool) → DerivesPattern text.now r star → ReturnsOutcome pattern_error_rejection result (Ok (r, star)) }
        // Err has an error that the prefixes of the string determine.
        ensures refused { IfErr result (λ e. IfSome (pattern_error_rejection e) (RejectsPattern text.now)) }
        // The error that the prefixes of the string determine is returned, unless out of memory.
        ensures decided { (f : PatternRejection) → RejectsPattern text.now f → ReturnsOutcome pattern_error_rejection result (Err f) }
        // The message is that of the error's kind.
        ensures message { IfErr result (λ e. IfSome (pattern_error_rejection e)
            (λ f. pattern_error_text (pattern_error_rejection e) ≡ Some (pattern_rejection_text f))) }
        // A string that denotes a packed record is parsed without allocating, with a star or without.
        ensures memory { (r : Record) (star : Bool) → DerivesPattern text.now r star → is_packed r ≡ true → IsOk result }
    {
        VersionPattern::parse_any(alloc, text)
    }
}

impl Clone for VersionPattern {
    ghost is_clone = { λ pattern copy. copy ≡ pattern };

    ghost is_infallible = { λ pattern. is_packed pattern.0 ≡ true };

    fn clone(&self) -> Result<VersionPattern, AllocError> {
        Ok(VersionPattern {
            version: self.version.clone()?,
            wildcard: self.wildcard,
        })
    }
}

impl PartialEq for VersionPattern {
    ghost eq = { pattern_eq };

    ghost laws = { partial_equiv_from_equiv pattern_equiv };

    fn eq(&self, other: &VersionPattern) -> bool {
        self.version() == other.version() && self.is_wildcard() == other.is_wildcard()
    }
}

impl Eq for VersionPattern {
    ghost laws = { pattern_equiv };
}

impl Hash for VersionPattern {
    ghost hash_input = { feed_pattern };

    ghost respects_eq = { patterns_feed_alike };

    fn hash<H: Hasher>(&self, state: &mut H) {
        self.version().hash(state);
        state.write_u64(if self.is_wildcard() { 1 } else { 0 });
    }
}
