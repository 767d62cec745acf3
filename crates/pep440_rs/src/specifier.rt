//! Specifiers: how one is made and read, its parts, its forms as a string and as JSON, its order and hash.
ghost use Rattle.std.specs.Prelude.{◌≡◌, ◌≢◌, ◌||◌, ◌<◌, not, IsOk, length, is_some, Ok, Err, Some, IfOk, IfErr, IfSome, ℕ, List, refl, ◌↔◌, IsErrOf, IsSomeAnd, None};
ghost use Rattle.pep440_rs.specs.Agreement.{HasOperand};
ghost use Rattle.pep440_rs.specs.Build.{built, built_pattern};
ghost use Rattle.pep440_rs.specs.Errors.{Builds, ReturnsSpecifier, specifier_rejection_of, parse_kind_of, IsLifted};
ghost use Rattle.pep440_rs.specs.ErrorTexts.{specifier_error_text, specifier_rejection_text};
ghost use Rattle.pep440_rs.specs.Matching.{matches};
ghost use Rattle.pep440_rs.specs.Operators.{has_lower_bound};
ghost use Rattle.pep440_rs.specs.Specifiers.SpecifierGrammar.{DerivesSpecifier, RejectsSpecifier, SpecifierRejection};
ghost use Rattle.pep440_rs.specs.Specifiers.SpecifierReading.{read_specifier};
ghost use Rattle.pep440_rs.specs.Specifiers.{Spec, IsSpec, print_spec, spec_cmp, feed_spec};
ghost use Rattle.pep440_rs.specs.declared.specifier.operator.Operator.TheVariants.{Equal, EqualStar, ExactEqual, NotEqual, NotEqualStar, LessThan, LessThanEqual, GreaterThan, GreaterThanEqual, TildeEqual};
ghost use Rattle.std.specs.Cmp.{partial_equiv_from_equiv};
ghost use Rattle.std.specs.Ordering.{as_partial_cmp, eq_by_cmp};
ghost use Rattle.pep440_rs.specs.Specifiers.SpecifierLaws.{spec_equiv, spec_po, spec_total, specs_feed_alike};
ghost use Rattle.std.specs.Fmt.{WritesStyledOnOk};
ghost use Rattle.pep440_rs.specs.Json.{text_of, IsString, IfParserError, ReturnsFromJson};
ghost use Rattle.pep440_rs.specs.declared.json.error.JsonError.TheVariants.{NotAString};
ghost use Rattle.pep440_rs.specs.BoundErrors.{ReturnsBound};
ghost use Rattle.pep440_rs.specs.BoundsAgreement.{IsReleaseBound, MatchesWithin};
ghost use Rattle.pep440_rs.specs.Members.{lower_member, upper_member, without_locals, pair_members};

pub(crate) mod contains;
pub(crate) mod error;
mod literal;
pub(crate) mod operator;
pub(crate) mod read;
pub(crate) mod scan;

use crate::bounds::error::BoundError;
use crate::bounds::members::{convert_lower, convert_pair, convert_upper, reject_local};
use crate::bounds::release_bounds::ReleaseBounds;
use crate::json::error::JsonError;
use crate::json::{expect_string, from_specifier_error};
use crate::specifier::contains::{
    cmp_candidate, has_prefix, has_same_print, is_early, is_late, without_last,
};
use crate::specifier::error::{
    BuildErrorKind, VersionSpecifierBuildError, VersionSpecifierParseError,
};
use crate::specifier::operator::Operator;
use pep440_version::{Version, VersionPattern};
use serde_json::Value;
use std::alloc::{AllocError, Global};
use std::cmp::Ordering;
use std::fmt;
use std::hash::{Hash, Hasher};
use std::marker::Model;
use std::ops::Bound;

/// An operator and a version, as `>=1.2.3` (PEP 440, "Version specifiers"). The version of a `~=` has
/// two release numbers or more.
///
/// Specifiers are ordered by operator, then by version; so `==1.0` equals `==1.0.0`, though the two may print
/// differently.
#[derive(Debug, Drop)]
pub struct VersionSpecifier {
    operator: Operator,
    version: Version,
}

impl Model for VersionSpecifier {
    ghost use Rattle.pep440_rs.specs.Specifiers.{Spec, IsSpec};

    ghost Value = { Spec };

    ghost view = { λ s. record { operator = s.operator; version = s.version } };

    ghost invariant = { λ s. IsSpec (record { operator = s.operator; version = s.version }) };
}

impl VersionSpecifier {
    /// The specifier of these parts, as `into_parts` returns them. Unchecked, as the eight calls below: a local part and the
    /// sentinels `min` and `max` may be there. Before `~=` two release numbers or more are required (PEP 440, "Compatible
    /// release").
    ///
    /// Allocates nothing.
    // Every specifier is made here.
    #[inline(always)]
    pub fn from_parts(operator: Operator, version: Version) -> VersionSpecifier
        requires { operator ≡ TildeEqual → 1 < length version.release }
        ensures { result ≡ record { operator = operator; version = version } }
    {
        prove!(!version.release().is_empty());
        VersionSpecifier { operator, version }
    }

    /// The specifier of an operator and a pattern. A star turns `==` and `!=` into their star forms, and every other
    /// operator is rejected as `OperatorWithStar`, the star forms too. Then the version is tested as by
    /// `from_version` (PEP 440, "Version matching" and "Version exclusion").
    ///
    /// Allocates nothing.
    #[inline(always)]
    pub fn from_pattern(
        operator: Operator,
        pattern: VersionPattern,
    ) -> Result<VersionSpecifier, VersionSpecifierBuildError>
        ensures { Builds result (built_pattern operator pattern.0 pattern.1) }
    {
        if !pattern.is_wildcard() {
            return VersionSpecifier::from_version(operator, pattern.into_version());
        }
        let star = match operator {
            Operator::Equal => Operator::EqualStar,
            Operator::NotEqual => Operator::NotEqualStar,
            _ => {
                return Err(VersionSpecifierBuildError::from(BuildErrorKind::OperatorWithStar {
                    operator,
                }));
            }
        };
        VersionSpecifier::from_version(star, pattern.into_version())
    }

    /// The specifier of an operator and a version. A local part is rejected as `OperatorLocalCombo`, but for `==`,
    /// `!=` and `===`; else `~=` before fewer than two release numbers is rejected as `CompatibleRelease` (PEP 440,
    /// "Compatible release" and "Version matching").
    ///
    /// Allocates nothing.
    #[inline(always)]
    pub fn from_version(
        operator: Operator,
        version: Version,
    ) -> Result<VersionSpecifier, VersionSpecifierBuildError>
        ensures { Builds result (built operator version) }
    {
        if version.is_local() && !operator.allows_local() {
            return Err(VersionSpecifierBuildError::from(BuildErrorKind::OperatorLocalCombo {
                operator,
                version,
            }));
        }
        if operator == Operator::TildeEqual && version.release().len() < 2 {
            return Err(VersionSpecifierBuildError::from(BuildErrorKind::CompatibleRelease));
        }
        Ok(VersionSpecifier::from_parts(operator, version))
    }

    /// `==version`. Unchecked, as the seven calls below: a local part and the sentinels `min` and `max` may be there.
    pub fn equals_version(version: Version) -> VersionSpecifier
        ensures { result ≡ record { operator = Equal; version = version } }
    {
        VersionSpecifier::from_parts(Operator::Equal, version)
    }

    /// `==version.*`
    pub fn equals_star_version(version: Version) -> VersionSpecifier
        ensures { result ≡ record { operator = EqualStar; version = version } }
    {
        VersionSpecifier::from_parts(Operator::EqualStar, version)
    }

    /// `!=version`
    pub fn not_equals_version(version: Version) -> VersionSpecifier
        ensures { result ≡ record { operator = NotEqual; version = version } }
    {
        VersionSpecifier::from_parts(Operator::NotEqual, version)
    }

    /// `!=version.*`
    pub fn not_equals_star_version(version: Version) -> VersionSpecifier
        ensures { result ≡ record { operator = NotEqualStar; version = version } }
    {
        VersionSpecifier::from_parts(Operator::NotEqualStar, version)
    }

    /// `>=version`
    pub fn greater_than_equal_version(version: Version) -> VersionSpecifier
        ensures { result ≡ record { operator = GreaterThanEqual; version = version } }
    {
        VersionSpecifier::from_parts(Operator::GreaterThanEqual, version)
    }

    /// `>version`
    pub fn greater_than_version(version: Version) -> VersionSpecifier
        ensures { result ≡ record { operator = GreaterThan; version = version } }
    {
        VersionSpecifier::from_parts(Operator::GreaterThan, version)
    }

    /// `<=version`
    pub fn less_than_equal_version(version: Version) -> VersionSpecifier
        ensures { result ≡ record { operator = LessThanEqual; version = version } }
    {
        VersionSpecifier::from_parts(Operator::LessThanEqual, version)
    }

    /// `<version`
    pub fn less_than_version(version: Version) -> VersionSpecifier
        ensures { result ≡ record { operator = LessThan; version = version } }
    {
        VersionSpecifier::from_parts(Operator::LessThan, version)
    }

    /// The specifier of a lower bound: `>=` of an included version, `>` of an excluded one, none if there is no
    /// bound. A version with a local part is rejected as `Build` of `OperatorLocalCombo` with that operator (PEP 440,
    /// "Inclusive ordered comparison" and "Exclusive ordered comparison").
    ///
    /// Allocates; returns `OutOfMemory` if that fails.
    pub fn from_lower_bound(
        alloc: Global,
        bound: &Bound<Version>,
    ) -> Result<Option<VersionSpecifier>, BoundError>
        ensures { ReturnsBound result (without_locals (lower_member bound.now)) }
    {
        reject_local(convert_lower(bound)?)
    }

    /// The specifier of an upper bound: `<=` of an included version, `<` of an excluded one, none if there is no
    /// bound. A version with a local part is rejected as `Build` of `OperatorLocalCombo` with that operator (PEP 440,
    /// "Inclusive ordered comparison" and "Exclusive ordered comparison").
    ///
    /// Allocates; returns `OutOfMemory` if that fails.
    pub fn from_upper_bound(
        alloc: Global,
        bound: &Bound<Version>,
    ) -> Result<Option<VersionSpecifier>, BoundError>
        ensures { ReturnsBound result (without_locals (upper_member bound.now)) }
    {
        reject_local(convert_upper(bound)?)
    }

    /// The specifiers that together contain exactly the releases from the lower bound to the upper: `==` of the
    /// lower version if both are included and equal; `==a.b.*` from `a.b` on to below `a.c`, where c is b plus
    /// 1; else the specifier of the lower bound, then of the upper, if there are such (PEP 440, "Version
    /// specifiers"). Each version must be only a release; `Version::is_release_only` is its test.
    ///
    /// Allocates.
    pub fn from_release_only_bounds(
        alloc: Global,
        bounds: (&Bound<Version>, &Bound<Version>),
    ) -> Result<ReleaseBounds, AllocError>
        requires start { IsReleaseBound bounds.0.now }
        requires end { IsReleaseBound bounds.1.now }
        ensures value { IfOk result (λ members. members ≡ pair_members bounds.entry.0.now bounds.entry.1.now) }
        // Together they contain exactly the releases within the bounds.
        ensures agrees { IfOk result (λ members. MatchesWithin (bounds.entry.0.now, bounds.entry.1.now) members) }
    {
        let (start, end) = bounds;
        convert_pair(start, end)
    }

    /// The operator.
    pub fn operator(&self) -> &Operator
        ensures value { result.now ≡ self.now.operator }
        // There is a release number, and `~=` stands before two or more.
        ensures valid { IsSpec self.now }
    {
        &self.operator
    }

    /// The version.
    pub fn version(&self) -> &Version
        ensures value { result.now ≡ self.now.version }
        // There is a release number, and `~=` stands before two or more.
        ensures valid { IsSpec self.now }
    {
        &self.version
    }

    /// The operator and the version, taken out of the specifier.
    pub fn into_parts(self) -> (Operator, Version)
        ensures value { result ≡ (self.operator, self.version) }
        // There is a release number, and `~=` stands before two or more.
        ensures valid { IsSpec self }
    {
        let VersionSpecifier { operator, version } = self;
        (operator, version)
    }

    /// Whether the version has a pre-release or a developmental part.
    pub fn any_prerelease(&self) -> bool
        ensures { result ≡ (is_some self.now.version.pre || is_some self.now.version.dev) }
    {
        self.version.any_prerelease()
    }

    /// Whether the operator is one of `==`, `==` with a star, `===`, `~=`, `>` and `>=`.
    pub fn has_lower_bound(&self) -> bool
        ensures { result ≡ has_lower_bound self.now.operator }
    {
        self.operator.has_lower_bound()
    }

    // What the reading from the left gives.
    fn read(alloc: Global, text: &str) -> Result<VersionSpecifier, VersionSpecifierParseError>
        ensures value { ReturnsSpecifier result (read_specifier text.now) }
        ensures lifted { IfErr result (λ e. IsLifted (parse_kind_of e)) }
    {
        Ok(read::parse_specifier(alloc, text)?)
    }

    /// The specifier that the string denotes: white space, an operator, white space, a version pattern, white space
    /// and the end; white space is what `char::is_whitespace` accepts (PEP 440, "Version specifiers").
    ///
    /// Allocates. Every string that is no specifier is rejected with its one `ParseErrorKind`; only if an
    /// allocation failed the kind may be `OutOfMemory` instead.
    pub fn from_str(
        alloc: Global,
        text: &str,
    ) -> Result<VersionSpecifier, VersionSpecifierParseError>
        // What is returned is what the string denotes.
        ensures found { IfOk result (λ s. DerivesSpecifier text.now s) }
        // Its version is one that a string can have beside the operator, as the agreement of ranges requires.
        ensures operand { IfOk result HasOperand }
        // What the string denotes is returned, unless an allocation fails.
        ensures only { (s : Spec) → DerivesSpecifier text.now s → ReturnsSpecifier result (Ok s) }
        // The error is that of the string.
        ensures refused { IfErr result (λ e. IfSome (specifier_rejection_of (parse_kind_of e)) (RejectsSpecifier text.now)) }
        // The error of the string is returned, unless an allocation fails.
        ensures decided { (f : SpecifierRejection) → RejectsSpecifier text.now f → ReturnsSpecifier result (Err f) }
        // The error's message is the stated one.
        ensures message { IfErr result (λ e. IfSome (specifier_rejection_of (parse_kind_of e))
            (λ f. specifier_error_text (specifier_rejection_of (parse_kind_of e)) ≡ Some (specifier_rejection_text f))) }
        // Out of memory is the last kind, and stands in no other.
        ensures lifted { IfErr result (λ e. IsLifted (parse_kind_of e)) }
        // The printed form of what some string denotes round-trips, unless an allocation fails.
        ensures again { (t : List ℕ) (s : Spec) → DerivesSpecifier t s → text.now ≡ print_spec s → ReturnsSpecifier result (Ok s) }
    {
        VersionSpecifier::read(alloc, text)
    }

    /// Whether the specifier contains the version (PEP 440, "Version specifiers"). A specifier whose version has no
    /// local part ignores the candidate's.
    ///
    /// Allocates only for `===`, which compares normalized forms; with any other operator it always succeeds.
    pub fn contains(&self, alloc: Global, version: &Version) -> Result<bool, AllocError>
        ensures value { IfOk result (λ b. b ≡ matches self.now.operator self.now.version version.now) }
        ensures answered { self.now.operator ≢ ExactEqual → IsOk result }
        // `!=` contains exactly what `==` does not, and `!=` star exactly what `==` star does not.
        ensures excluded { self.now.operator ≡ NotEqual → IfOk result (λ b. b ≡ not (matches Equal self.now.version version.now)) }
        ensures excluded_star { self.now.operator ≡ NotEqualStar
            → IfOk result (λ b. b ≡ not (matches EqualStar self.now.version version.now)) }
    {
        let specifier = self.version();
        Ok(match self.operator() {
            Operator::Equal => cmp_candidate(specifier, version).is_eq(),
            Operator::NotEqual => cmp_candidate(specifier, version).is_ne(),
            Operator::EqualStar => has_prefix(specifier, specifier.release(), version),
            Operator::NotEqualStar => !has_prefix(specifier, specifier.release(), version),
            Operator::TildeEqual => {
                has_prefix(specifier, without_last(specifier.release()), version)
                    && cmp_candidate(specifier, version).is_ge()
            }
            Operator::LessThan => {
                cmp_candidate(specifier, version).is_lt() && !is_early(specifier, version)
            }
            Operator::LessThanEqual => cmp_candidate(specifier, version).is_le(),
            Operator::GreaterThan => {
                cmp_candidate(specifier, version).is_gt() && !is_late(specifier, version)
            }
            Operator::GreaterThanEqual => cmp_candidate(specifier, version).is_ge(),
            Operator::ExactEqual => has_same_print(alloc, specifier, version)?,
        })
    }

    /// The specifier as JSON: the string that it prints.
    ///
    /// Allocates.
    pub fn to_json(&self, alloc: Global) -> Result<Value, AllocError>
        ensures { IfOk result (λ value. IsString value (print_spec self.now)) }
    {
        Ok(Value::from(self.to_string(alloc)?))
    }

    /// The specifier that a JSON string denotes, as by `VersionSpecifier::from_str`.
    ///
    /// Allocates. Every other value is rejected as `NotAString`, and a string that is no specifier as `Text` of the
    /// error of `VersionSpecifier::from_str`; only if an allocation failed the error of a string may be
    /// `OutOfMemory` instead.
    pub fn from_json(
        alloc: Global,
        value: &Value,
    ) -> Result<VersionSpecifier, JsonError<VersionSpecifierParseError>>
        // `NotAString` is the error of what is no string, and of nothing else.
        ensures no_string { IsErrOf result NotAString ↔ (text_of value.now ≡ None) }
        // What is returned is what the string denotes.
        ensures found { IfOk result (λ s. (t : List ℕ) × IsString value.now t × DerivesSpecifier t s) }
        // What the string denotes is returned, unless an allocation fails.
        ensures only { (t : List ℕ) (s : Spec) → IsString value.now t → DerivesSpecifier t s
            → ReturnsFromJson (λ e. specifier_rejection_of (parse_kind_of e)) result (Ok s) }
        // The error of the string is its one error, and not out of memory.
        ensures refused { IfErr result (λ e. IfParserError e
            (λ inner. IsSomeAnd (specifier_rejection_of (parse_kind_of inner))
            (λ f. (t : List ℕ) × IsString value.now t × RejectsSpecifier t f))) }
        // The error's message is the stated one.
        ensures message { IfErr result (λ e. IfParserError e
            (λ inner. IfSome (specifier_rejection_of (parse_kind_of inner))
            (λ f. specifier_error_text (specifier_rejection_of (parse_kind_of inner)) ≡ Some (specifier_rejection_text f)))) }
        // The error of the string is returned, unless an allocation fails.
        ensures decided { (t : List ℕ) (f : SpecifierRejection) → IsString value.now t → RejectsSpecifier t f
            → ReturnsFromJson (λ e. specifier_rejection_of (parse_kind_of e)) result (Err f) }
        // The JSON form of what some string denotes round-trips, unless an allocation fails.
        ensures again { (t : List ℕ) (s : Spec) → DerivesSpecifier t s → IsString value.now (print_spec s)
            → ReturnsFromJson (λ e. specifier_rejection_of (parse_kind_of e)) result (Ok s) }
    {
        let text = expect_string::<VersionSpecifierParseError>(value)?;
        VersionSpecifier::from_str(alloc, text).map_err(from_specifier_error)
    }
}

impl Clone for VersionSpecifier {
    ghost is_clone = { λ specifier copy. copy ≡ specifier };

    fn clone(&self) -> Result<VersionSpecifier, AllocError> {
        Ok(VersionSpecifier {
            operator: self.operator,
            version: self.version.clone()?,
        })
    }
}

impl PartialEq for VersionSpecifier {
    ghost eq = { eq_by_cmp spec_cmp };

    ghost laws = { partial_equiv_from_equiv spec_equiv };

    fn eq(&self, other: &VersionSpecifier) -> bool {
        self.cmp(other) == Ordering::Equal
    }
}

impl Eq for VersionSpecifier {
    ghost laws = { spec_equiv };
}

impl PartialOrd for VersionSpecifier {
    ghost partial_cmp = { as_partial_cmp spec_cmp };

    ghost laws = { spec_po };

    fn partial_cmp(&self, other: &VersionSpecifier) -> Option<Ordering> {
        Some(self.cmp(other))
    }
}

impl Ord for VersionSpecifier {
    ghost cmp = { spec_cmp };

    ghost total = { spec_total };

    ghost matches_partial_cmp = { λ a b. refl };

    ghost matches_eq = { λ a b. refl };

    fn cmp(&self, other: &VersionSpecifier) -> Ordering {
        self.operator()
            .cmp(other.operator())
            .then(self.version().cmp(other.version()))
    }
}

impl Hash for VersionSpecifier {
    ghost hash_input = { feed_spec };

    ghost respects_eq = { specs_feed_alike };

    fn hash<H: Hasher>(&self, state: &mut H) {
        self.operator().hash(state);
        self.version().hash(state);
    }
}

// Writes the operator, the version, and `.*` for a star form.
#[tactic(auto, using(pep440_version::proofs::RoundTrip::Writing::two_writes))]
pub(crate) fn write_specifier<W: fmt::Write>(
    f: &mut fmt::Formatter<W>,
    specifier: &VersionSpecifier,
) -> fmt::Result
    ensures { WritesStyledOnOk W.write_str_gives f.old result (print_spec specifier.now) f.new }
{
    f.write_str(specifier.operator().as_str())?;
    fmt::Display::fmt(specifier.version(), f)?;
    if specifier.operator().is_star() {
        f.write_str(".*")
    } else {
        Ok(())
    }
}

impl fmt::Display for VersionSpecifier {
    ghost output = { λ s. Some (print_spec s) };

    ghost styled_output = { λ s _. Some (print_spec s) };

    fn fmt<W: fmt::Write>(&self, f: &mut fmt::Formatter<W>) -> fmt::Result {
        write_specifier(f, self)
    }
}
