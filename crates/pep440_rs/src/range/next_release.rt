//! Numbers and releases raised.
ghost use Rattle.std.specs.Prelude.{◌≡◌, ◌<◌, length, MatchResult, IfOk, IsErrOf, Some, None};
ghost use Rattle.pep440_rs.specs.Bounds.{next_number, raise_last};

use crate::range::error::RangeError;
use std::alloc::Global;

// The next number.
pub(crate) fn next_number(n: u64) -> Result<u64, RangeError>
    ensures { MatchResult result (λ m. next_number n ≡ Some m) (λ e. (e ≡ RangeError.NumberAtMax) × (next_number n ≡ None)) }
{
    if n == u64::MAX {
        Err(RangeError::NumberAtMax)
    } else {
        Ok(n + 1)
    }
}

// The release with its last number raised.
pub(crate) fn raise_last(alloc: Global, release: &[u64]) -> Result<Vec<u64>, RangeError>
    requires { 0 < length release.now }
    ensures value { IfOk result (λ v. raise_last release.now ≡ Some v.items) }
    ensures len { IfOk result (λ v. 0 < length v.items) }
    ensures refused { IsErrOf result RangeError.NumberAtMax → raise_last release.now ≡ None }
{
    let at = release.len() - 1;
    let next = next_number(release[at])?;
    let mut numbers = Vec::from_slice(alloc, &release[..at])?;
    numbers.push(next)?;
    Ok(numbers)
}
