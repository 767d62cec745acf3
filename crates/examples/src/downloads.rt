//! Versions as keys of a map: how often each was loaded.
ghost use Rattle.std.specs.Prelude.{◌≡◌, ◌+◌, ◌-◌, ◌^◌, min, unwrap_or, OnErr, OnOk, Some};
ghost use Rattle.std.specs.BTreeMap.{IsUnchanged, Updates, get};
ghost use Rattle.pep440_version.specs.Key.{record_cmp};

use pep440_rs::Version;
use std::alloc::AllocError;
use std::collections::BTreeMap;

/// How often the version was loaded: 0 if it is no key. Equal versions, as `1.0` and `1.0.0`, are one key.
///
/// Allocates nothing.
pub fn count_loads(downloads: &BTreeMap<Version, u64>, version: &Version) -> u64
    ensures { result ≡ unwrap_or (get record_cmp downloads.now version.now) 0 }
{
    downloads.get(version).copied().unwrap_or(0)
}

/// The version was loaded so many times more, up to the greatest number there is. After an error the map is what it was.
///
/// May allocate; the error is out of memory.
pub fn add(
    downloads: &mut BTreeMap<Version, u64>,
    version: Version,
    times: u64,
) -> Result<(), AllocError>
    ensures ok { OnOk result (Updates record_cmp downloads.old downloads.new version
        (Some (min (unwrap_or (get record_cmp downloads.old version) 0 + times) (2 ^ 64 - 1)))) }
    ensures err { OnErr result (IsUnchanged downloads.old downloads.new) }
{
    let sum = count_loads(downloads, &version).saturating_add(times);
    downloads.insert(version, sum)?;
    Ok(())
}
