//! How two versions compare.
ghost use Rattle.std.specs.Prelude.{IfErr, List, ℕ, ◌≡◌, ◌≢◌};
ghost use Rattle.pep440_calls.specs.Statuses.{HoldsOrFaults};
ghost use Rattle.pep440_calls.specs.CallResults.{IsRejectedString, IsTakenForm, NeedsNoMemory, OrderResult, ReturnsOrder, order_number};
ghost use Rattle.pep440_calls.specs.declared.fault.Fault.TheVariants.{OutOfMemory};

use crate::buffer::OK;
use crate::fault::Fault;
use crate::one_version::compile_string;
use pep440_compiled::{FormBuffer, has_version_format};
use std::alloc::Global;
use std::cmp::Ordering;

/// How the left version compares with the right one: -1 below, 0 equal, 1 above (PEP 440, "Summary of permitted
/// suffixes and relative ordering"). Status 6 if only the right one is invalid. Allocates nothing for compiled versions and
/// short strings in normal form.
pub fn write_order(alloc: Global, left: &[u8], right: &[u8], order: &mut i8) -> u8
    ensures found { OrderResult left.now right.now order.old order.new result }
    ensures memory { NeedsNoMemory left.now → NeedsNoMemory right.now → result ≢ 3 }
{
    match compare(alloc, left, right) {
        Ok(found) => {
            *order = order_number(found);
            OK
        }
        Err(fault) => fault.status(),
    }
}

// The number that stands for an order.
fn order_number(order: Ordering) -> i8
    ensures { result ≡ order_number order }
{
    match order {
        Ordering::Less => -1,
        Ordering::Equal => 0,
        Ordering::Greater => 1,
    }
}

// The compiled form of a version: a compiled one as it lies, that of a string in the buffer. A call of its own, since two copies would make
// each program that compares larger.
#[inline(never)]
fn make_form<'a>(
    alloc: Global,
    buffer: &'a mut FormBuffer,
    bytes: &'a [u8],
) -> Result<&'a [u8], Fault>
    ensures found { HoldsOrFaults (IsRejectedString bytes.now) ⊥ ⊥ (λ form. IsTakenForm bytes.now form.now) result }
    ensures memory { NeedsNoMemory bytes.now → IfErr result (λ f. f ≢ OutOfMemory) }
{
    if has_version_format(bytes) {
        return Ok(bytes);
    }
    compile_string(alloc, buffer, bytes)
}

// How a version that has this compiled form compares with the right one.
#[inline(always)]
fn compare_form(alloc: Global, form: &[u8], right: &[u8]) -> Result<Ordering, Fault>
    ensures found { (left : List ℕ) → IsTakenForm left form.now → ReturnsOrder left right.now result }
    ensures memory { NeedsNoMemory right.now → IfErr result (λ f. f ≢ OutOfMemory) }
{
    let mut buffer = FormBuffer::new(alloc);
    match make_form(alloc, &mut buffer, right) {
        Ok(other) => Ok(pep440_compiled::compare(form, other).unwrap_or(Ordering::Equal)),
        Err(Fault::OutOfMemory) => Err(Fault::OutOfMemory),
        Err(_rejected) => Err(Fault::InvalidRight),
    }
}

// How versions compare of which one at least is a string. A compiled left one pays nothing for a buffer.
#[inline(never)]
fn compare_forms(alloc: Global, left: &[u8], right: &[u8]) -> Result<Ordering, Fault>
    ensures found { ReturnsOrder left.now right.now result }
    ensures memory { NeedsNoMemory left.now → NeedsNoMemory right.now → IfErr result (λ f. f ≢ OutOfMemory) }
{
    if has_version_format(left) {
        return compare_form(alloc, left, right);
    }
    let mut buffer = FormBuffer::new(alloc);
    let form = make_form(alloc, &mut buffer, left)?;
    compare_form(alloc, form, right)
}

// How the left version compares with the right one.
fn compare(alloc: Global, left: &[u8], right: &[u8]) -> Result<Ordering, Fault>
    ensures found { ReturnsOrder left.now right.now result }
    ensures memory { NeedsNoMemory left.now → NeedsNoMemory right.now → IfErr result (λ f. f ≢ OutOfMemory) }
{
    match pep440_compiled::compare(left, right) {
        Ok(order) => Ok(order),
        Err(_) => compare_forms(alloc, left, right),
    }
}
