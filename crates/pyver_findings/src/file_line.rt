//! Requirements files, and their logical lines.
ghost use Rattle.std.specs.Prelude.{◌≡◌, ◌∷◌, ◌++◌, [], IfOk, map};
ghost use Rattle.pyver_findings.specs.FileLines.{all_lines, file_line, file_lines};
ghost use Rattle.pyver_findings.specs.Views.{file_line_of, file_of};
ghost use Rattle.pyver_requirements.specs.LineKinds.{logical_line_of};

use pyver_requirements::{LogicalLine, logical_lines};
use std::alloc::{AllocError, Global};

/// A requirements file that was read.
#[derive(Debug, Drop)]
pub struct SourceFile {
    /// Its name in findings.
    pub name: Vec<u8>,
    pub text: Vec<u8>,
}

/// A logical line of a requirements file.
#[derive(Debug, Drop)]
pub struct FileLine {
    /// The name of its file.
    pub file: Vec<u8>,
    /// The number of its first physical line, from 1.
    pub number: u64,
    pub text: Vec<u8>,
    /// The comment behind the text, or nothing.
    pub comment: Vec<u8>,
}

impl Clone for FileLine {
    ghost use Rattle.pyver_findings.specs.Views.{file_line_of};

    ghost is_clone = { λ line copy. file_line_of copy ≡ file_line_of line };

    fn clone(&self) -> Result<FileLine, AllocError> {
        Ok(FileLine {
            file: self.file.clone()?,
            number: self.number,
            text: self.text.clone()?,
            comment: self.comment.clone()?,
        })
    }
}

fn push_line(
    alloc: Global,
    lines: &mut Vec<FileLine>,
    file: &[u8],
    line: LogicalLine,
) -> Result<(), AllocError>
    ensures { IfOk result (λ _. map file_line_of lines.new.items ≡ map file_line_of lines.old.items
        ++ file_line file.now (logical_line_of line) ∷ []) }
{
    let file = Vec::from_slice(alloc, file)?;
    lines.push(FileLine {
        file,
        number: line.number,
        text: line.text,
        comment: line.comment,
    })?;
    Ok(())
}

fn push_lines(
    alloc: Global,
    lines: &mut Vec<FileLine>,
    file: &[u8],
    found: Vec<LogicalLine>,
) -> Result<(), AllocError>
    ensures { IfOk result (λ _. map file_line_of lines.new.items ≡ map file_line_of lines.old.items
        ++ map (file_line file.now) (map logical_line_of found.items)) }
{
    for line in found {
        push_line(alloc, lines, file, line)?;
    }
    Ok(())
}

pub(crate) fn push_file(
    alloc: Global,
    lines: &mut Vec<FileLine>,
    file: &SourceFile,
) -> Result<(), AllocError>
    ensures { IfOk result (λ _. map file_line_of lines.new.items ≡ map file_line_of lines.old.items ++ file_lines (file_of file.now)) }
{
    let found = logical_lines(alloc, file.text.as_slice())?;
    push_lines(alloc, lines, file.name.as_slice(), found)
}

// The logical lines of the files.
pub(crate) fn all_lines(alloc: Global, files: &[SourceFile]) -> Result<Vec<FileLine>, AllocError>
    ensures { IfOk result (λ lines. map file_line_of lines.items ≡ all_lines (map file_of files.now)) }
{
    let mut lines = Vec::new(alloc);
    for file in files {
        push_file(alloc, &mut lines, file)?;
    }
    Ok(lines)
}
