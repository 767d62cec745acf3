//! The sizes at which calls are run, and strings of such a size.
use crate::case_fields::split_fields;
use crate::run::{Calls, CaseError};
use std::alloc::{AllocError, Global};

const POWERS: [usize; 10] = [128, 256, 512, 1024, 2048, 4096, 8192, 16384, 32768, 65536];

/// 0 to 66, then each power of two with its neighbours, and 70,000; none above the greatest one wanted.
pub fn sizes_up_to(alloc: Global, greatest: usize) -> Result<Vec<usize>, AllocError> {
    let mut sizes = Vec::new(alloc);
    for size in 0..=66 {
        sizes.push(size)?;
    }
    for power in POWERS {
        for size in [power.saturating_sub(1), power, power.saturating_add(1)] {
            sizes.push(size)?;
        }
    }
    sizes.push(70_000)?;
    sizes.retain(|size| *size <= greatest);
    Ok(sizes)
}

// Appends the part so often, with the number of the copy, from 1, where it has a `#`.
fn push_copies(text: &mut String, part: &str, size: usize) -> Result<(), AllocError> {
    for number in 1..=size {
        for (index, piece) in part.split('#').enumerate() {
            if index > 0 {
                write!(text, "{number}")?;
            }
            text.push_str(piece)?;
        }
    }
    Ok(())
}

/// The text with each part between `«` and `»` repeated so often; for a `#` in it stands the number of the copy, from 1.
pub fn repeat(alloc: Global, text: &str, size: usize) -> Result<String, AllocError> {
    let mut repeated = String::new(alloc);
    for piece in text.split('«') {
        match piece.split_once('»') {
            Some((part, rest)) => {
                push_copies(&mut repeated, part, size)?;
                repeated.push_str(rest)?;
            }
            None => repeated.push_str(piece)?,
        }
    }
    Ok(repeated)
}

// Runs the call of this size.
fn run_size<C: Calls>(alloc: Global, calls: &C, line: &str, size: usize) -> Result<(), CaseError> {
    let fields = split_fields(alloc, repeat(alloc, line, size)?.as_str())?;
    let [call, arguments @ ..] = fields.as_slice() else {
        return Err(CaseError::Unreadable);
    };
    calls.answer(alloc, call.as_str(), arguments)?;
    Ok(())
}

// The number of the first field, and the others.
fn split_size(case: &str) -> Result<(usize, &str), CaseError> {
    let Some((size, line)) = case.split_once('\t') else {
        return Err(CaseError::Unreadable);
    };
    match usize::from_str_radix(size, 10) {
        Ok(size) => Ok((size, line)),
        Err(_) => Err(CaseError::Unreadable),
    }
}

/// The case of `SIZE CALL ARGUMENTS.. RESULT`, with its parts repeated so often.
pub fn case_of_size(alloc: Global, case: &str) -> Result<String, CaseError> {
    let (size, line) = split_size(case)?;
    Ok(repeat(alloc, line, size)?)
}

/// The first size up to the greatest one at which the call of `GREATEST CALL ARGUMENTS..` is out of memory.
pub fn failing_size<C: Calls>(
    alloc: Global,
    calls: &C,
    case: &str,
) -> Result<Option<String>, CaseError> {
    let (greatest, line) = split_size(case)?;
    for size in &sizes_up_to(alloc, greatest)? {
        match run_size(alloc, calls, line, *size) {
            Ok(()) => {}
            Err(CaseError::OutOfMemory) => {
                return Ok(Some(format!(in alloc; "out of memory at {size}")?));
            }
            Err(error) => return Err(error),
        }
    }
    Ok(None)
}
