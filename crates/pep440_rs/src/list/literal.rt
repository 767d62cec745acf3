//! Lists matched with the exclusions of `<` and `>` read literally.
ghost use Rattle.std.specs.Prelude.{◌≡◌, ◌≢◌, IfOk, IsOk};
ghost use Rattle.std.specs.List.{All};
ghost use Rattle.pep440_rs.specs.LiteralMatching.{list_allows_literally, list_matches_literally};
ghost use Rattle.pep440_rs.specs.declared.specifier.operator.Operator.TheVariants.{ExactEqual};

use crate::list::VersionSpecifiers;
use pep440_version::Version;
use std::alloc::{AllocError, Global};

impl VersionSpecifiers {
    /// Whether each member matches the version, as by `VersionSpecifier::matches_literally`; so the empty list matches every version. The
    /// first member that does not, or whose allocation fails, decides (PEP 440, "Version specifiers").
    ///
    /// Allocates only for members with `===`.
    pub fn matches_literally(&self, alloc: Global, version: &Version) -> Result<bool, AllocError>
        ensures value { IfOk result (λ b. b ≡ list_matches_literally self.now version.now) }
        ensures answered { All (λ m. m.operator ≢ ExactEqual) self.now → IsOk result }
    {
        for member in self.as_slice() {
            if !member.matches_literally(alloc, version)? {
                return Ok(false);
            }
        }
        Ok(true)
    }

    /// Whether the list matches the version, as by `matches_literally`, and the version is no pre-release and no developmental release unless
    /// `prereleases` (PEP 440, "Handling of pre-releases"). The usual value is `requests_prereleases` of the list.
    ///
    /// Allocates only for members with `===`.
    pub fn allows_literally(
        &self,
        alloc: Global,
        prereleases: bool,
        version: &Version,
    ) -> Result<bool, AllocError>
        ensures value { IfOk result (λ b. b ≡ list_allows_literally prereleases self.now version.now) }
        ensures answered { All (λ m. m.operator ≢ ExactEqual) self.now → IsOk result }
    {
        if !prereleases && version.any_prerelease() {
            return Ok(false);
        }
        self.matches_literally(alloc, version)
    }
}
