//! What a line of a requirements file is to the check.
ghost use Rattle.std.specs.Prelude.{◌≡◌, IfOk};
ghost use Rattle.pyver_findings.specs.LineMeanings.{IsKindMeaning, IsMeaning, fault_reason, has_part, has_scheme, names_file};
ghost use Rattle.pyver_findings.specs.Views.{file_line_of, line_meaning_of};
ghost use Rattle.pyver_requirements.specs.LineKinds.{line_kind_of};

use crate::demand::Demand;
use crate::file_line::FileLine;
use crate::finding::Finding;
use crate::requirement_line::{parse_pip_line, reject};
use pyver_requirements::{Cause, LineFault, LineKind, classify, has_variable};
use std::alloc::{AllocError, Global};

/// What a line of a requirements file or a string of a document is to the check.
#[derive(Drop)]
pub enum LineMeaning {
    /// A requirement.
    Asks(Demand),
    /// Not what it is to be.
    IsNone(Finding),
    /// It is left out.
    LeftOut(Cause),
    /// It asks for no package: the name of another file, or a string that is no requirement and need not be one.
    AsksNothing,
}

// The part stands somewhere in the text.
pub(crate) fn has_part(text: &[u8], part: &str) -> bool
    ensures { result ≡ has_part part.now text.now }
{
    let mut rest = text;
    while let [_, later @ ..] = rest {
        if rest.starts_with(part.as_bytes()) {
            return true;
        }
        rest = later;
    }
    false
}

// `://` stands somewhere in the text.
pub(crate) fn has_scheme(text: &[u8]) -> bool
    ensures { result ≡ has_scheme text.now }
{
    has_part(text, "://")
}

fn name_file(path: &[u8]) -> LineMeaning
    ensures { line_meaning_of result ≡ names_file path.now }
{
    if has_variable(path) {
        LineMeaning::LeftOut(Cause::Variable)
    } else if has_scheme(path) {
        LineMeaning::LeftOut(Cause::Url)
    } else {
        LineMeaning::AsksNothing
    }
}

fn fault_reason(fault: LineFault) -> &'static str
    ensures { result.now ≡ fault_reason fault }
{
    match fault {
        LineFault::UnknownOption => "pip 26.2 has no such option",
        LineFault::AmbiguousOption => "several options of pip begin so",
        LineFault::MissingValue => "the option has no value",
        LineFault::UnwantedValue => "the option takes no value",
        LineFault::WrongHash => "a hash begins with sha256:, sha384: or sha512:",
        LineFault::WrongSetting => "a setting has the form KEY=VALUE",
        LineFault::UnclosedQuote => "a quote or a backslash in the options has no end",
        LineFault::ConflictMark => "the mark of a merge conflict",
        LineFault::Utf16 => "the file is UTF-16, which is not read",
    }
}

fn interpret_kind(
    alloc: Global,
    line: &FileLine,
    kind: LineKind<'_>,
) -> Result<LineMeaning, AllocError>
    ensures { IfOk result (λ x. IsKindMeaning (file_line_of line.now) (line_kind_of kind.entry) (line_meaning_of x)) }
{
    match kind {
        LineKind::RequirementsFile(path) => Ok(name_file(path)),
        LineKind::ConstraintsFile(path) => Ok(name_file(path)),
        LineKind::Invalid(fault, column) => reject(alloc, line, fault_reason(fault), column),
        LineKind::Editable => Ok(LineMeaning::LeftOut(Cause::Editable)),
        LineKind::PipOption => Ok(LineMeaning::LeftOut(Cause::PipOption)),
        LineKind::Variable => Ok(LineMeaning::LeftOut(Cause::Variable)),
        LineKind::Location => Ok(LineMeaning::LeftOut(Cause::Location)),
        LineKind::Requirement => parse_pip_line(alloc, line),
    }
}

// What the line is.
pub(crate) fn parse_line(alloc: Global, line: &FileLine) -> Result<LineMeaning, AllocError>
    ensures { IfOk result (λ x. IsMeaning (file_line_of line.now) (line_meaning_of x)) }
{
    interpret_kind(alloc, line, classify(line.text.as_slice()))
}
