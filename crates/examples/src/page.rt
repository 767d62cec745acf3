//! The newest candidate of an index page.
ghost use Rattle.std.specs.Prelude.{◌≡◌, IfOk};
ghost use Rattle.examples.specs.Versions.{LastGreatest, collect_matches};

use pep440_rs::{Version, VersionSpecifiers};
use std::alloc::{AllocError, Global};

// The versions that the list contains.
fn collect_matches(
    alloc: Global,
    wanted: &VersionSpecifiers,
    page: Vec<Version>,
) -> Result<Vec<Version>, AllocError>
    ensures { IfOk result (λ versions. versions.items ≡ collect_matches wanted.now page.items) }
{
    let mut versions = Vec::new(alloc);
    for version in page {
        if wanted.contains(alloc, &version)? {
            versions.push(version)?;
        }
    }
    Ok(versions)
}

/// The newest version of the page that the list contains; none if it contains none. Of equal ones, as `1.0` and
/// `1.0.0`, the last.
///
/// Allocates; the error is out of memory.
pub fn newest(
    alloc: Global,
    wanted: &VersionSpecifiers,
    page: Vec<Version>,
) -> Result<Option<Version>, AllocError>
    ensures { IfOk result (LastGreatest (collect_matches wanted.now page.items)) }
{
    let versions = collect_matches(alloc, wanted, page)?;
    Ok(versions.into_iter().max())
}
