//! The files that the lines of a requirements file name.
ghost use Rattle.std.specs.Prelude.{◌≡◌, ◌++◌, IfOk, map, option_map};
ghost use Rattle.std.specs.List.{flat_map};
ghost use Rattle.pyver_findings.specs.NamedFiles.{folder, named_by, named_files, named_in, path_from, path_in, path_position};
ghost use Rattle.pyver_findings.specs.Views.{file_of, named_file_of, position_of};
ghost use Rattle.pyver_requirements.specs.LineKinds.{line_kind_of, logical_line_of};

use crate::file_line::SourceFile;
use crate::line_meaning::has_scheme;
use pyver_requirements::{
    LineKind, LogicalLine, classify, has_variable, logical_lines, value_column,
};
use std::alloc::{AllocError, Global};

/// Where a line names a file.
#[derive(Debug, Drop)]
pub struct Position {
    /// The name of the file that the line is in.
    pub file: Vec<u8>,
    /// The number of the line, from 1.
    pub line: u64,
    /// The column of the path in the logical line, in bytes from 1.
    pub column: usize,
}

/// A file that a word or a line names.
#[derive(Debug, Drop)]
pub struct NamedFile {
    pub name: Vec<u8>,
    /// Where a line names it; none if a word does.
    pub position: Option<Position>,
}

impl Clone for Position {
    ghost use Rattle.pyver_findings.specs.Views.{position_of};

    ghost is_clone = { λ position copy. position_of copy ≡ position_of position };

    fn clone(&self) -> Result<Position, AllocError> {
        Ok(Position {
            file: self.file.clone()?,
            line: self.line,
            column: self.column,
        })
    }
}

impl Clone for NamedFile {
    ghost use Rattle.pyver_findings.specs.Views.{named_file_of};

    ghost is_clone = { λ file copy. named_file_of copy ≡ named_file_of file };

    fn clone(&self) -> Result<NamedFile, AllocError> {
        Ok(NamedFile {
            name: self.name.clone()?,
            position: clone_position(&self.position)?,
        })
    }
}

fn clone_position(position: &Option<Position>) -> Result<Option<Position>, AllocError>
    ensures { IfOk result (λ copy. option_map position_of copy ≡ option_map position_of position.now) }
{
    match position {
        Some(position) => Ok(Some(position.clone()?)),
        None => Ok(None),
    }
}

/// The folder of the file with this name: what stands up to the last `/`, with it.
///
/// Allocates nothing.
pub fn folder(name: &[u8]) -> &[u8]
    ensures { result.now ≡ folder name.now }
{
    let mut front = name;
    while let [rest @ .., last] = front {
        if *last == b'/' {
            return front;
        }
        front = rest;
    }
    front
}

// The path as it is to be opened, of a line of the file with this name.
pub(crate) fn path_from(alloc: Global, name: &[u8], path: &[u8]) -> Result<Vec<u8>, AllocError>
    ensures { IfOk result (λ joined. joined.items ≡ path_from name.now path.now) }
{
    if path.starts_with(b"/") {
        return Vec::from_slice(alloc, path);
    }
    let mut joined = Vec::from_slice(alloc, folder(name))?;
    joined.extend_from_slice(path)?;
    Ok(joined)
}

fn path_in(kind: LineKind<'_>) -> Option<&[u8]>
    ensures { option_map (λ p. p.now) result ≡ path_in (line_kind_of kind.entry) }
{
    match kind {
        LineKind::RequirementsFile(path) => Some(path),
        LineKind::ConstraintsFile(path) => Some(path),
        LineKind::Invalid(_, _) => None,
        LineKind::Editable => None,
        LineKind::PipOption => None,
        LineKind::Variable => None,
        LineKind::Location => None,
        LineKind::Requirement => None,
    }
}

// The position of the path in this line of the file.
fn path_position(alloc: Global, file: &[u8], line: &LogicalLine) -> Result<Position, AllocError>
    ensures { IfOk result (λ position. position_of position ≡ path_position file.now (logical_line_of line.now)) }
{
    Ok(Position {
        file: Vec::from_slice(alloc, file)?,
        line: line.number,
        column: value_column(line.text.as_slice()) + 1,
    })
}

fn push_path(
    alloc: Global,
    names: &mut Vec<NamedFile>,
    file: &[u8],
    line: &LogicalLine,
    path: Option<&[u8]>,
) -> Result<(), AllocError>
    ensures { IfOk result (λ _. map named_file_of names.new.items ≡ map named_file_of names.old.items
        ++ named_by file.now (logical_line_of line.now) (option_map (λ p. p.now) path.entry)) }
{
    let Some(path) = path else {
        return Ok(());
    };
    if has_variable(path) || has_scheme(path) {
        return Ok(());
    }
    names.push(NamedFile {
        name: path_from(alloc, file, path)?,
        position: Some(path_position(alloc, file, line)?),
    })?;
    Ok(())
}

fn push_named_file(
    alloc: Global,
    names: &mut Vec<NamedFile>,
    file: &[u8],
    line: &LogicalLine,
) -> Result<(), AllocError>
    ensures { IfOk result (λ _. map named_file_of names.new.items ≡ map named_file_of names.old.items
        ++ named_in file.now (logical_line_of line.now)) }
{
    push_path(
        alloc,
        names,
        file,
        line,
        path_in(classify(line.text.as_slice())),
    )
}

fn push_of_lines(
    alloc: Global,
    names: &mut Vec<NamedFile>,
    file: &[u8],
    lines: &[LogicalLine],
) -> Result<(), AllocError>
    ensures { IfOk result (λ _. map named_file_of names.new.items ≡ map named_file_of names.old.items
        ++ flat_map (named_in file.now) (map logical_line_of lines.now)) }
{
    for line in lines {
        push_named_file(alloc, names, file, line)?;
    }
    Ok(())
}

/// Pushes the names of the files that the lines of the file name, in order, after `-r`, `--requirement`, `-c` and
/// `--constraint`, each with the position of its path. A path is relative to the folder of the file, unless it begins with `/`. A path with a
/// variable and a URL name none. `-` is the standard input only if the file has no folder: in `sub/a.txt` it is `sub/-`, and `./-` is a file
/// anywhere. Fails if memory runs out; then some of them may have been pushed.
///
/// Allocates.
pub fn push_named_files(
    alloc: Global,
    names: &mut Vec<NamedFile>,
    file: &SourceFile,
) -> Result<(), AllocError>
    ensures { IfOk result (λ _. map named_file_of names.new.items ≡ map named_file_of names.old.items
        ++ named_files (file_of file.now)) }
{
    let lines = logical_lines(alloc, file.text.as_slice())?;
    push_of_lines(alloc, names, file.name.as_slice(), lines.as_slice())
}
