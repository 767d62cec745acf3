//! The version or the list that bytes denote, which are a string or a compiled form.
ghost use Rattle.pep440_compiled.specs.Lists.{DenotesList};
ghost use Rattle.pep440_compiled.specs.Version.{HasVersionFormat};
ghost use Rattle.pep440_calls.specs.CallerBytes.{IsNoCompiledList, BytesDenote, BytesDenoteList, ListFaults, StringDenotesList, StringDenotes, RejectsBytes, RejectsListBytes, RejectsListString, RejectsString};
ghost use Rattle.pep440_calls.specs.Statuses.{HoldsOr, HoldsOrFaults};
ghost use Rattle.pep440_calls.specs.declared.fault.Fault.TheVariants.{OutOfMemory};

use crate::fault::Fault;
use pep440_compiled::{
    CompiledError, has_list_format, has_lone_set_format, has_version_format, read_version,
};
use pep440_rs::{SpecifiersErrorKind, Version, VersionSpecifiers};
use std::alloc::Global;

// The version that the string denotes.
fn read_string(alloc: Global, bytes: &[u8]) -> Result<Version, Fault>
    ensures { HoldsOrFaults (RejectsString bytes.now) ⊥ ⊥ (StringDenotes bytes.now) result }
{
    let Ok(text) = std::str::from_utf8(bytes) else {
        return Err(Fault::InvalidVersion);
    };
    match Version::from_str(alloc, text) {
        Ok(version) => Ok(version),
        Err(error) => {
            if error.is_out_of_memory() {
                return Err(Fault::OutOfMemory);
            }
            Err(Fault::InvalidVersion)
        }
    }
}

// The version of bytes that begin as a compiled one.
#[tactic(auto, using(crate::proofs::Forms::no_compiled))]
fn read_compiled(alloc: Global, bytes: &[u8]) -> Result<Version, Fault>
    requires { HasVersionFormat bytes.now }
    ensures { HoldsOrFaults (RejectsBytes bytes.now) ⊥ ⊥ (BytesDenote bytes.now) result }
{
    match read_version(alloc, bytes) {
        Ok(version) => Ok(version),
        Err(CompiledError::NotCompiled) => Err(Fault::InvalidVersion),
        Err(CompiledError::OutOfMemory) => Err(Fault::OutOfMemory),
    }
}

// The version that the bytes denote.
#[tactic(auto, using(crate::proofs::Forms::string_read))]
pub(crate) fn read(alloc: Global, bytes: &[u8]) -> Result<Version, Fault>
    ensures { HoldsOrFaults (RejectsBytes bytes.now) ⊥ ⊥ (BytesDenote bytes.now) result }
{
    if has_version_format(bytes) {
        return read_compiled(alloc, bytes);
    }
    read_string(alloc, bytes)
}

// The list that the string denotes.
fn read_list_string(alloc: Global, bytes: &[u8]) -> Result<VersionSpecifiers, Fault>
    ensures { HoldsOrFaults ⊥ (RejectsListString bytes.now) ⊥ (StringDenotesList bytes.now) result }
{
    let Ok(text) = std::str::from_utf8(bytes) else {
        return Err(Fault::InvalidList);
    };
    match VersionSpecifiers::from_str(alloc, text) {
        Ok(list) => Ok(list),
        Err(error) => {
            if let SpecifiersErrorKind::OutOfMemory = error.kind() {
                return Err(Fault::OutOfMemory);
            }
            Err(Fault::InvalidList)
        }
    }
}

// The list of the compiled form.
fn read_compiled_list(alloc: Global, bytes: &[u8]) -> Result<VersionSpecifiers, Fault>
    ensures { HoldsOrFaults ⊥ (IsNoCompiledList bytes.now) ⊥ (DenotesList bytes.now) result }
{
    match pep440_compiled::read_list(alloc, bytes) {
        Ok(list) => Ok(list),
        Err(CompiledError::NotCompiled) => Err(Fault::InvalidList),
        Err(CompiledError::OutOfMemory) => Err(Fault::OutOfMemory),
    }
}

// The list that the bytes denote; bytes that begin as a set by itself denote none.
pub(crate) fn read_list(alloc: Global, bytes: &[u8]) -> Result<VersionSpecifiers, Fault>
    ensures { HoldsOrFaults ⊥ (RejectsListBytes bytes.now) ⊥ (BytesDenoteList bytes.now) result }
{
    if has_list_format(bytes) {
        return read_compiled_list(alloc, bytes);
    }
    read_list_string(alloc, bytes)
}

// The list that the bytes denote, for a call that needs its members: a set by itself has none.
#[tactic(auto, using(crate::proofs::Forms::members_read))]
pub(crate) fn to_list(alloc: Global, bytes: &[u8]) -> Result<VersionSpecifiers, Fault>
    ensures { HoldsOr (ListFaults ⊥ bytes.now ⊥) (BytesDenoteList bytes.now) result }
{
    if has_lone_set_format(bytes) {
        return Err(Fault::NoList);
    }
    read_list(alloc, bytes)
}
