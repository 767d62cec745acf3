//! Runs the cases of standard input; why a case has no result.
use crate::case_fields::split_fields;
use crate::sizes::{case_of_size, failing_size};
use std::alloc::{AllocError, AllocFailed, Global};
use std::io;

/// Why a case has no result.
#[derive(Clone, Copy, Debug, PartialEq, Eq)]
pub enum CaseError {
    /// There is no such call with so many arguments, or it takes no such argument.
    Unreadable,
    /// Two results of the case differ.
    Disagreement,
    /// Out of memory; the case may hold or not.
    OutOfMemory,
}

impl From<AllocError> for CaseError {
    fn from(_: AllocError) -> CaseError {
        CaseError::OutOfMemory
    }
}

impl<T: Drop> From<AllocFailed<T>> for CaseError {
    fn from(_: AllocFailed<T>) -> CaseError {
        CaseError::OutOfMemory
    }
}

/// The calls that cases name.
pub trait Calls {
    /// The result of the call for these arguments.
    fn answer(&self, alloc: Global, call: &str, arguments: &[String]) -> Result<String, CaseError>;
}

// The result of the plain case, if it is not the wanted one.
fn plain_difference<C: Calls>(
    alloc: Global,
    calls: &C,
    line: &str,
) -> Result<Option<String>, CaseError> {
    let fields = split_fields(alloc, line)?;
    let [call, arguments @ .., wanted] = fields.as_slice() else {
        return Err(CaseError::Unreadable);
    };
    let found = calls.answer(alloc, call.as_str(), arguments)?;
    Ok(if found == *wanted { None } else { Some(found) })
}

// The result of a case of any kind, if it is not the wanted one.
fn difference<C: Calls>(alloc: Global, calls: &C, line: &str) -> Result<Option<String>, CaseError> {
    if let Some(case) = line.strip_prefix("sizes\t") {
        return failing_size(alloc, calls, case);
    }
    if let Some(case) = line.strip_prefix("size\t") {
        let case = case_of_size(alloc, case)?;
        return plain_difference(alloc, calls, case.as_str());
    }
    plain_difference(alloc, calls, line)
}

// The result of a case, if it is not the wanted one, after a second try if out of memory: at most one allocation of a run fails.
fn difference_again<C: Calls>(
    alloc: Global,
    calls: &C,
    line: &str,
) -> Result<Option<String>, CaseError> {
    match difference(alloc, calls, line) {
        Err(CaseError::OutOfMemory) => difference(alloc, calls, line),
        answer => answer,
    }
}

// Whether the case holds; if not, prints its line and its result.
fn holds<C: Calls>(rt: HostRuntime, calls: &C, number: usize, line: &str) -> io::Result<bool> {
    match difference_again(rt.alloc(), calls, line) {
        Ok(None) => return Ok(true),
        Ok(Some(found)) => println!(rt; "line {number}: {found:?}")?,
        Err(CaseError::Unreadable) => println!(rt; "line {number}: no such call or argument")?,
        Err(CaseError::Disagreement) => println!(rt; "line {number}: its answers disagree")?,
        Err(CaseError::OutOfMemory) => println!(rt; "line {number}: out of memory")?,
    }
    Ok(false)
}

/// Runs the case of each line that is neither empty nor a comment, which begins with `#`. Prints each with another
/// result than the wanted one, and at the end how many cases there are, and how many of these.
pub fn run_cases<C: Calls>(rt: HostRuntime, calls: &C) -> io::Result<()> {
    let text = io::read_to_string(rt.alloc(), rt.stdin())?;
    let mut cases = 0u64;
    let mut different = 0u64;
    for (index, line) in text.as_str().lines().enumerate() {
        if line.is_empty() || line.starts_with('#') {
            continue;
        }
        cases = cases.saturating_add(1);
        if !holds(rt, calls, index.saturating_add(1), line)? {
            different = different.saturating_add(1);
        }
    }
    println!(rt; "{cases} cases, {different} differ")
}
