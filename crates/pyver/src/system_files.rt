//! The files of the system, which are opened by their names.
use pyver_tool::{Files, OpenFailure};
use std::alloc::{AllocError, Global};
use std::fs::{self, Metadata, OpenFile};
use std::io::{Error, ErrorKind};
use std::os::unix::fs::MetadataExt;
use std::rt;

// The files that a runtime reaches.
#[derive(Drop)]
pub(crate) struct SystemFiles<'a, R> {
    runtime: &'a R,
}

impl<'a, R: rt::Files> SystemFiles<'a, R> {
    pub(crate) fn new(runtime: &'a R) -> SystemFiles<'a, R> {
        SystemFiles { runtime }
    }
}

// The open files themselves, whatever their names, where /proc is mounted.
const STANDARD_INPUT: &str = "/proc/self/fd/0";

const STANDARD_OUTPUT: &str = "/proc/self/fd/1";

fn is_same_file(a: &Metadata, b: &Metadata) -> bool {
    a.dev() == b.dev() && a.ino() == b.ino()
}

fn failure(error: Error) -> OpenFailure {
    match error.kind() {
        ErrorKind::NotFound => OpenFailure::NotFound,
        ErrorKind::NotADirectory => OpenFailure::NotFound,
        ErrorKind::PermissionDenied => OpenFailure::PermissionDenied,
        ErrorKind::IsADirectory => OpenFailure::IsDirectory,
        ErrorKind::OutOfMemory => OpenFailure::OutOfMemory,
        _ => OpenFailure::Other,
    }
}

impl<R: rt::Files> Files for SystemFiles<'_, R> {
    type File = R::File;

    // Not of a device or a pipe, which give nothing of what is written to them.
    fn is_output(&self, name: &str) -> bool {
        let path = if name == "-" { STANDARD_INPUT } else { name };
        match (
            self.runtime.metadata(path),
            self.runtime.metadata(STANDARD_OUTPUT),
        ) {
            (Ok(source), Ok(output)) => source.is_file() && is_same_file(&source, &output),
            _ => false,
        }
    }

    // The system opens a directory, too, and fails only where it is read.
    fn open(&mut self, _alloc: Global, name: &str) -> Result<R::File, OpenFailure> {
        let file = fs::open(self.runtime, name).map_err(failure)?;
        if file.metadata().map_err(failure)?.is_dir() {
            return Err(OpenFailure::IsDirectory);
        }
        Ok(file)
    }

    // Of a pipe and of what is missing there is none.
    fn canonical_path(&mut self, alloc: Global, name: &str) -> Result<String, AllocError> {
        match self.runtime.canonicalize(alloc, name) {
            Ok(path) => Ok(path.into_string()),
            Err(error) => match error.kind() {
                ErrorKind::OutOfMemory => Err(AllocError),
                _ => name.to_string(alloc),
            },
        }
    }
}
