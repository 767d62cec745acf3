//! Release numbers: up to four need no allocation.
ghost use Rattle.std.specs.Prelude.{◌≡◌, ◌≤◌, ◌<◌, ◌++◌, ℕ, [], ◌∷◌, length, take, slice_index, IfOk, IsOk, is_ok, if◌then◌else◌};
ghost use Rattle.pep440_version.specs.Record.{Fits};

use std::alloc::{AllocError, Global};
use std::marker::Model;

/// The numbers of a release; up to four need no allocation.
#[derive(Drop)]
pub struct Release {
    storage: Storage,
}

#[derive(Drop)]
enum Storage {
    Few(Few),
    Many(Vec<u64>),
}

// The first `count` of four numbers.
#[derive(Clone, Copy)]
struct Few {
    numbers: [u64; 4],
    count: usize,
}

impl Model for Release {
    ghost use Rattle.std.specs.Prelude.{ℕ, List};

    ghost Value = { List ℕ };

    ghost use Rattle.pep440_version.specs.Inline.{storage_numbers, IsStorage};

    ghost view = { λ r. storage_numbers r.storage };

    ghost invariant = { λ r. IsStorage r.storage };
}

// Up to four numbers, padded with zeros.
pub(crate) fn pad_with_zeros(numbers: &[u64]) -> [u64; 4]
    requires { length numbers.now ≤ 4 }
    ensures prefix { take (length numbers.now) result ≡ numbers.now }
    ensures first { slice_index result 0 ≡ slice_index numbers.now 0 }
    ensures second { slice_index result 1 ≡ slice_index numbers.now 1 }
    ensures third { slice_index result 2 ≡ slice_index numbers.now 2 }
    ensures fourth { slice_index result 3 ≡ slice_index numbers.now 3 }
{
    match numbers {
        [] => [0, 0, 0, 0],
        [first] => [*first, 0, 0, 0],
        [first, second] => [*first, *second, 0, 0],
        [first, second, third] => [*first, *second, *third, 0],
        [first, second, third, fourth, ..] => [*first, *second, *third, *fourth],
    }
}

// These numbers and one more, with room for eight.
fn extend(alloc: Global, numbers: &[u64], number: u64) -> Result<Vec<u64>, AllocError>
    ensures { IfOk result (λ v. v.items ≡ numbers.now ++ number ∷ []) }
{
    let mut many = Vec::with_capacity(alloc, 8)?;
    many.extend_from_slice(numbers)?;
    many.push(number)?;
    Ok(many)
}

impl Release {
    // The first `count` of four numbers.
    pub(crate) fn from_array(numbers: [u64; 4], count: usize) -> Release
        requires { count ≤ 4 }
        ensures { result ≡ take count numbers }
    {
        Release {
            storage: Storage::Few(Few { numbers, count }),
        }
    }

    // One number.
    pub(crate) fn from_number(number: u64) -> Release
        ensures { result ≡ number ∷ [] }
    {
        Release::from_array([number, 0, 0, 0], 1)
    }

    pub(crate) fn from_slice(alloc: Global, numbers: &[u64]) -> Result<Release, AllocError>
        ensures value { IfOk result (λ r. r ≡ numbers.now) }
        ensures memory { length numbers.now ≤ 4 → IsOk result }
    {
        if numbers.len() <= 4 {
            return Ok(Release::from_array(pad_with_zeros(numbers), numbers.len()));
        }
        Ok(Release {
            storage: Storage::Many(Vec::from_slice(alloc, numbers)?),
        })
    }

    /// The numbers.
    pub fn as_slice(&self) -> &[u64]
        ensures { result.now ≡ self.now }
    {
        match &self.storage {
            Storage::Few(few) => &few.numbers[..few.count],
            Storage::Many(numbers) => numbers.as_slice(),
        }
    }

    // Appends one number.
    pub(crate) fn push(&mut self, alloc: Global, number: u64) -> Result<(), AllocError>
        ensures value { self.new ≡ (if is_ok result then self.old ++ number ∷ [] else self.old) }
        ensures memory { length self.old < 4 → IsOk result }
    {
        match &mut self.storage {
            Storage::Few(few) if few.count < 4 => {
                few.numbers[few.count] = number;
                few.count += 1;
            }
            Storage::Few(few) => {
                let many = extend(alloc, &few.numbers[..few.count], number)?;
                self.storage = Storage::Many(many);
            }
            Storage::Many(many) => many.push(number)?,
        }
        Ok(())
    }
}

// Each number fits, since it is a `u64`.
pub(crate) fn prove_numbers_fit(numbers: &[u64])
    ensures { (i : ℕ) → Fits (slice_index numbers.now i) }
{
    let _len = numbers.len();
}

impl Clone for Release {
    ghost use Rattle.std.specs.Prelude.{◌≡◌};

    ghost is_clone = { λ release copy. copy ≡ release };

    fn clone(&self) -> Result<Release, AllocError> {
        match &self.storage {
            Storage::Few(few) => Ok(Release {
                storage: Storage::Few(*few),
            }),
            Storage::Many(numbers) => Ok(Release {
                storage: Storage::Many(numbers.clone()?),
            }),
        }
    }
}
