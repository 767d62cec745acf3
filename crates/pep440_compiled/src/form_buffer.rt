//! The compiled form of a string, on the stack if it is short.
ghost use Rattle.std.specs.Prelude.{IfErr, IfOk, IsOk, ◌≡◌};
ghost use Rattle.pep440_compiled.specs.Strings.{IsCompileStringError};
ghost use Rattle.pep440_compiled.specs.Version.{DenotesVersion, HasShortForm, compiled_bytes};
ghost use Rattle.pep440_version.specs.Grammar.{Derives};
ghost use Rattle.pep440_version.specs.Print.{print};
ghost use Rattle.pep440_version.specs.Record.{Record};

use crate::error::CompileStringError;
use crate::stack_form::compile_parts;
use crate::version::push_compiled_form;
use arrayvec::ArrayVec;
use pep440_version::Version;
use std::alloc::Global;

// The version that the string of these bytes parses to.
fn parse(alloc: Global, text: &[u8]) -> Result<Version, CompileStringError>
    ensures found { IfOk result (λ version. Derives text.now version) }
    ensures rejected { IfErr result (IsCompileStringError text.now) }
{
    let Ok(text) = std::str::from_utf8(text) else {
        return Err(CompileStringError::NotAVersion);
    };
    match Version::from_str(alloc, text) {
        Ok(version) => Ok(version),
        Err(error) => {
            if error.is_out_of_memory() {
                return Err(CompileStringError::OutOfMemory);
            }
            Err(CompileStringError::NotAVersion)
        }
    }
}

// The compiled form of a string, which is parsed first.
fn parse_and_compile(alloc: Global, text: &[u8]) -> Result<Vec<u8>, CompileStringError>
    ensures found { IfOk result (λ form. (r : Record) × Derives text.now r × (form.items ≡ compiled_bytes r)) }
    ensures rejected { IfErr result (IsCompileStringError text.now) }
{
    let version = parse(alloc, text)?;
    let mut form = Vec::with_capacity(alloc, 32)?;
    push_compiled_form(&mut form, &version)?;
    Ok(form)
}

/// A buffer for the compiled form of a string: on the stack if it has at most 64 bytes, as for nearly every string.
#[derive(Drop)]
pub struct FormBuffer {
    stack: ArrayVec<u8, 64>,
    heap: Vec<u8>,
}

impl FormBuffer {
    /// An empty buffer.
    ///
    /// Does not allocate.
    #[inline(always)]
    pub fn new(alloc: Global) -> FormBuffer {
        FormBuffer {
            stack: ArrayVec::new(),
            heap: Vec::new(alloc),
        }
    }

    /// The compiled form of the version that the string of these bytes parses to (PEP 440, "Public version identifiers"), as
    /// `compile_version` makes it of the parsed version; an error if the string is rejected. What the buffer had is overwritten.
    ///
    /// Does not allocate for the normalized form of a version whose compiled form has at most 64 bytes, nor for other spellings of its pre-release.
    #[inline(always)]
    pub fn compile<'a>(
        &'a mut self,
        alloc: Global,
        text: &[u8],
    ) -> Result<&'a [u8], CompileStringError>
        ensures found { IfOk result (λ form. (r : Record) × Derives text.now r × DenotesVersion form.now r) }
        ensures rejected { IfErr result (IsCompileStringError text.now) }
        ensures memory { (r : Record) → HasShortForm r → text.now ≡ print r → IsOk result }
    {
        self.stack.clear();
        if compile_parts(&mut self.stack, text) {
            return Ok(self.stack.as_slice());
        }
        self.compile_other(alloc, text)
    }

    // As `compile`, of a string with a longer form or in another spelling. A call of its own, since few are.
    #[inline(never)]
    fn compile_other<'a>(
        &'a mut self,
        alloc: Global,
        text: &[u8],
    ) -> Result<&'a [u8], CompileStringError>
        ensures found { IfOk result (λ form. (r : Record) × Derives text.now r × DenotesVersion form.now r) }
        ensures rejected { IfErr result (IsCompileStringError text.now) }
    {
        self.heap = parse_and_compile(alloc, text)?;
        Ok(self.heap.as_slice())
    }
}
