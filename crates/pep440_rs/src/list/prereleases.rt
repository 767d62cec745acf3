//! What a list allows where pre-releases are left out (PEP 440, "Handling of pre-releases").
ghost use Rattle.std.specs.Prelude.{◌≡◌, IfOk};
ghost use Rattle.pep440_rs.specs.Prereleases.{list_allows, requests_prerelease, requests_prereleases};

use crate::list::VersionSpecifiers;
use crate::specifier::VersionSpecifier;
use pep440_version::Version;
use std::alloc::{AllocError, Global};

fn requests_prerelease(specifier: &VersionSpecifier) -> bool
    ensures { result ≡ requests_prerelease specifier.now }
{
    !specifier.operator().is_exclusion() && specifier.any_prerelease()
}

impl VersionSpecifiers {
    /// Whether the list asks for pre-releases: some member with another operator than `!=` names a pre-release or a developmental
    /// release (PEP 440, "Handling of pre-releases").
    ///
    /// Does not allocate.
    pub fn requests_prereleases(&self) -> bool
        ensures { result ≡ requests_prereleases self.now }
    {
        self.iter().any(requests_prerelease)
    }

    /// Whether the list contains the version, and the version is no pre-release and no developmental release unless
    /// `prereleases` (PEP 440, "Handling of pre-releases"). The usual value is `requests_prereleases` of the list.
    ///
    /// Allocates only for members with `===`.
    pub fn allows(
        &self,
        alloc: Global,
        prereleases: bool,
        version: &Version,
    ) -> Result<bool, AllocError>
        ensures { IfOk result (λ b. b ≡ list_allows prereleases self.now version.now) }
    {
        if !prereleases && version.any_prerelease() {
            return Ok(false);
        }
        self.contains(alloc, version)
    }
}
