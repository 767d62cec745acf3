//! Matching where the exclusions of `<` and `>` are read literally.
ghost use Rattle.std.specs.Prelude.{◌≡◌, ◌≢◌, IfOk, IsOk};
ghost use Rattle.pep440_rs.specs.LiteralMatching.{has_post, is_before, is_postrelease_of, is_prerelease_of, matches_literally, same_pre};
ghost use Rattle.pep440_rs.specs.declared.specifier.operator.Operator.TheVariants.{ExactEqual};

use crate::specifier::VersionSpecifier;
use crate::specifier::contains::{cmp_candidate, same_release};
use crate::specifier::operator::Operator;
use pep440_version::{Prerelease, Version};
use std::alloc::{AllocError, Global};

fn same_pre(a: Option<Prerelease>, b: Option<Prerelease>) -> bool
    ensures { result ≡ same_pre a b }
{
    match (a, b) {
        (None, None) => true,
        (Some(a), Some(b)) => a.cmp(&b).is_eq(),
        (None, Some(_)) | (Some(_), None) => false,
    }
}

// Whether the version has a pre-release or a developmental part that a specifier with this post-release lacks.
fn is_before(post: Option<u64>, version: &Version) -> bool
    ensures { result ≡ is_before post version.now }
{
    match post {
        None => version.any_prerelease(),
        Some(number) => { !version.is_pre() && version.is_dev() && version.post() == Some(number) }
    }
}

fn is_prerelease_of(specifier: &Version, version: &Version) -> bool
    ensures { result ≡ is_prerelease_of specifier.now version.now }
{
    !specifier.any_prerelease()
        && same_release(specifier, version)
        && is_before(specifier.post(), version)
}

fn is_postrelease_of(specifier: &Version, version: &Version) -> bool
    ensures { result ≡ is_postrelease_of specifier.now version.now }
{
    !(specifier.is_post() || specifier.is_dev())
        && same_release(specifier, version)
        && same_pre(version.pre(), specifier.pre())
        && version.is_post()
}

impl VersionSpecifier {
    /// Whether the specifier matches the version, with the exclusions of `<` and `>` read literally, as pip 26 and `packaging` 26 read them
    /// (PEP 440, "Exclusive ordered comparison"): `<V` leaves out the pre-releases of V, and `>V` its post-releases. `contains` leaves out the
    /// pre-releases and post-releases of every version that has V's release: `>1.0rc1` matches 1.0.post1 literally, and does not contain it.
    ///
    /// Allocates only for `===`, which compares normalized forms; with any other operator it always succeeds.
    pub fn matches_literally(&self, alloc: Global, version: &Version) -> Result<bool, AllocError>
        ensures value { IfOk result (λ b. b ≡ matches_literally self.now.operator self.now.version version.now) }
        ensures answered { self.now.operator ≢ ExactEqual → IsOk result }
    {
        let specifier = self.version();
        match self.operator() {
            Operator::LessThan => Ok(
                cmp_candidate(specifier, version).is_lt() && !is_prerelease_of(specifier, version),
            ),
            Operator::GreaterThan => Ok(
                cmp_candidate(specifier, version).is_gt() && !is_postrelease_of(specifier, version),
            ),
            Operator::Equal
            | Operator::EqualStar
            | Operator::ExactEqual
            | Operator::NotEqual
            | Operator::NotEqualStar
            | Operator::TildeEqual
            | Operator::LessThanEqual
            | Operator::GreaterThanEqual => self.contains(alloc, version),
        }
    }
}
