//! A report as JSON.
ghost use Rattle.std.specs.Prelude.{◌≡◌, ◌++◌, IfOk, map, option_map};
ghost use Rattle.std.specs.List.{flat_map};
ghost use Rattle.pyver_findings.specs.ReportTexts.{environment_member, finding_array, finding_members, finding_object, kind_members, line_array, line_members, line_object, next_finding, next_line, reason_members, report_object};
ghost use Rattle.pyver_findings.specs.Views.{file_line_of, finding_of, report_of};

use crate::file_line::FileLine;
use crate::finding::{Finding, FindingKind};
use crate::json_string::push_json_string;
use crate::report::Report;
use crate::report_text::{push_number, push_text};
use std::alloc::{AllocError, Global};

fn push_members(alloc: Global, bytes: &mut Vec<u8>, line: &FileLine) -> Result<(), AllocError>
    ensures { IfOk result (λ _. bytes.new.items ≡ bytes.old.items ++ line_members (file_line_of line.now)) }
{
    push_text(bytes, "\"file\":")?;
    push_json_string(bytes, line.file.as_slice())?;
    push_text(bytes, ",\"line\":")?;
    push_number(alloc, bytes, line.number)?;
    push_text(bytes, ",\"text\":")?;
    push_json_string(bytes, line.text.as_slice())
}

fn push_line(alloc: Global, bytes: &mut Vec<u8>, line: &FileLine) -> Result<(), AllocError>
    ensures { IfOk result (λ _. bytes.new.items ≡ bytes.old.items ++ line_object (file_line_of line.now)) }
{
    push_text(bytes, "{")?;
    push_members(alloc, bytes, line)?;
    push_text(bytes, "}")
}

fn push_next_line(alloc: Global, bytes: &mut Vec<u8>, line: &FileLine) -> Result<(), AllocError>
    ensures { IfOk result (λ _. bytes.new.items ≡ bytes.old.items ++ next_line (file_line_of line.now)) }
{
    push_text(bytes, ",")?;
    push_line(alloc, bytes, line)
}

fn push_next_lines(alloc: Global, bytes: &mut Vec<u8>, lines: &[FileLine]) -> Result<(), AllocError>
    ensures { IfOk result (λ _. bytes.new.items ≡ bytes.old.items ++ flat_map next_line (map file_line_of lines.now)) }
{
    for line in lines {
        push_next_line(alloc, bytes, line)?;
    }
    Ok(())
}

fn push_lines(alloc: Global, bytes: &mut Vec<u8>, lines: &[FileLine]) -> Result<(), AllocError>
    ensures { IfOk result (λ _. bytes.new.items ≡ bytes.old.items ++ line_array (map file_line_of lines.now)) }
{
    match lines {
        [] => push_text(bytes, "[]"),
        [first, rest @ ..] => {
            push_text(bytes, "[")?;
            push_line(alloc, bytes, first)?;
            push_next_lines(alloc, bytes, rest)?;
            push_text(bytes, "]")
        }
    }
}

fn push_reason(
    alloc: Global,
    bytes: &mut Vec<u8>,
    reason: &str,
    column: usize,
) -> Result<(), AllocError>
    ensures { IfOk result (λ _. bytes.new.items ≡ bytes.old.items ++ reason_members reason.now column) }
{
    push_text(bytes, ",\"reason\":")?;
    push_json_string(bytes, reason.as_bytes())?;
    push_text(bytes, ",\"column\":")?;
    push_number(alloc, bytes, column as u64)?;
    Ok(())
}

fn push_environment_member(
    bytes: &mut Vec<u8>,
    environment: &Option<Vec<u8>>,
) -> Result<(), AllocError>
    ensures { IfOk result (λ _. bytes.new.items ≡ bytes.old.items ++ environment_member (option_map (λ e. e.items) environment.now)) }
{
    match environment {
        Some(environment) => {
            push_text(bytes, ",\"environment\":")?;
            push_json_string(bytes, environment.as_slice())
        }
        None => Ok(()),
    }
}

fn push_finding_members(
    alloc: Global,
    bytes: &mut Vec<u8>,
    finding: &Finding,
) -> Result<(), AllocError>
    ensures { IfOk result (λ _. bytes.new.items ≡ bytes.old.items ++ finding_members (finding_of finding.now)) }
{
    match finding {
        Finding::NoRequirement(line, reason, column) => {
            push_members(alloc, bytes, line)?;
            push_reason(alloc, bytes, reason.as_str(), *column)
        }
        Finding::Conflicting(_, lines, environment) => {
            push_text(bytes, "\"lines\":")?;
            push_lines(alloc, bytes, lines.as_slice())?;
            push_environment_member(bytes, environment)
        }
    }
}

fn push_kind(bytes: &mut Vec<u8>, kind: FindingKind) -> Result<(), AllocError>
    ensures { IfOk result (λ _. bytes.new.items ≡ bytes.old.items ++ kind_members kind) }
{
    push_text(bytes, "\"kind\":\"")?;
    push_text(bytes, kind.word())?;
    push_text(bytes, "\",\"code\":\"")?;
    push_text(bytes, kind.code())?;
    push_text(bytes, "\",")
}

fn push_finding(alloc: Global, bytes: &mut Vec<u8>, finding: &Finding) -> Result<(), AllocError>
    ensures { IfOk result (λ _. bytes.new.items ≡ bytes.old.items ++ finding_object (finding_of finding.now)) }
{
    push_text(bytes, "{")?;
    push_kind(bytes, finding.kind())?;
    push_finding_members(alloc, bytes, finding)?;
    push_text(bytes, "}")
}

fn push_next_finding(
    alloc: Global,
    bytes: &mut Vec<u8>,
    finding: &Finding,
) -> Result<(), AllocError>
    ensures { IfOk result (λ _. bytes.new.items ≡ bytes.old.items ++ next_finding (finding_of finding.now)) }
{
    push_text(bytes, ",")?;
    push_finding(alloc, bytes, finding)
}

fn push_next_findings(
    alloc: Global,
    bytes: &mut Vec<u8>,
    findings: &[Finding],
) -> Result<(), AllocError>
    ensures { IfOk result (λ _. bytes.new.items ≡ bytes.old.items ++ flat_map next_finding (map finding_of findings.now)) }
{
    for finding in findings {
        push_next_finding(alloc, bytes, finding)?;
    }
    Ok(())
}

fn push_findings(alloc: Global, bytes: &mut Vec<u8>, findings: &[Finding]) -> Result<(), AllocError>
    ensures { IfOk result (λ _. bytes.new.items ≡ bytes.old.items ++ finding_array (map finding_of findings.now)) }
{
    match findings {
        [] => push_text(bytes, "[]"),
        [first, rest @ ..] => {
            push_text(bytes, "[")?;
            push_finding(alloc, bytes, first)?;
            push_next_findings(alloc, bytes, rest)?;
            push_text(bytes, "]")
        }
    }
}

impl Report {
    /// The findings as a JSON array of objects, and a newline: the kind of each and its code, and then the line with the reason and the
    /// column, or the lines and the environment, if one is named, with strings as by `push_json_string`.
    ///
    /// Allocates.
    pub fn to_json(&self, alloc: Global) -> Result<Vec<u8>, AllocError>
        ensures { IfOk result (λ bytes. bytes.items ≡ report_object (report_of self.now)) }
    {
        let mut bytes = Vec::new(alloc);
        push_findings(alloc, &mut bytes, self.findings.as_slice())?;
        push_text(&mut bytes, "\n")?;
        Ok(bytes)
    }
}
