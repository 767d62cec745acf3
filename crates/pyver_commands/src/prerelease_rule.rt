//! Which pre-releases a list allows (PEP 440, "Handling of pre-releases").
ghost use Rattle.std.specs.Prelude.{◌≡◌};
ghost use Rattle.pyver_commands.specs.Matches.{takes_prereleases};

use pep440_rs::VersionSpecifiers;

/// Which pre-releases are taken.
#[derive(Clone, Copy)]
pub enum Prereleases {
    /// Those that a specifier asks for.
    Listed,
    Always,
    Never,
}

/// Whether pre-releases are taken by the list.
pub fn takes_prereleases(prereleases: Prereleases, list: &VersionSpecifiers) -> bool
    ensures { result ≡ takes_prereleases prereleases list.now }
{
    match prereleases {
        Prereleases::Listed => list.requests_prereleases(),
        Prereleases::Always => true,
        Prereleases::Never => false,
    }
}
