//! Whether a string can have a version beside an operator.
ghost use Rattle.std.specs.List.{list_all};
ghost use Rattle.std.specs.Prelude.{◌≡◌};
ghost use Rattle.pep440_compiled.specs.Lists.{is_bare, may_stand};
ghost use Rattle.pep440_rs.specs.Specifiers.{Spec};

use pep440_rs::{Operator, Version, VersionSpecifier};

// Whether the version is just an epoch and a release.
fn is_bare(version: &Version) -> bool
    ensures { result ≡ is_bare version.now }
{
    version.pre().is_none()
        && version.post().is_none()
        && version.dev().is_none()
        && !version.is_local()
}

// Whether a string can have the version beside the operator: beside a star only an epoch and a release, and a local part only beside
// `==`, `!=` and `===` (PEP 440, "Version specifiers").
fn has_operand(specifier: &VersionSpecifier) -> bool
    ensures { result ≡ may_stand specifier.now.operator specifier.now.version }
{
    let version = specifier.version();
    match specifier.operator() {
        Operator::EqualStar | Operator::NotEqualStar => is_bare(version),
        Operator::Equal | Operator::NotEqual | Operator::ExactEqual => true,
        Operator::TildeEqual
        | Operator::LessThan
        | Operator::LessThanEqual
        | Operator::GreaterThan
        | Operator::GreaterThanEqual => !version.is_local(),
    }
}

// Whether strings can denote all of these.
pub(crate) fn have_operands(specifiers: &[VersionSpecifier]) -> bool
    ensures { result ≡ list_all (λ (s : Spec). may_stand s.operator s.version) specifiers.now }
{
    specifiers.iter().all(has_operand)
}
