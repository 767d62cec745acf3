//! A report as commands to GitHub Actions.
ghost use Rattle.std.specs.Prelude.{◌≡◌, ◌++◌, IfOk, map};
ghost use Rattle.std.specs.List.{flat_map};
ghost use Rattle.pyver_findings.specs.ReportTexts.{finding_command, finding_message, finding_properties, first_properties, line_properties, message_byte, property_byte, report_commands};
ghost use Rattle.pyver_findings.specs.Views.{file_line_of, finding_of, report_of};

use crate::file_line::FileLine;
use crate::finding::Finding;
use crate::report::Report;
use crate::report_text::{push_from_one, push_message, push_number, push_text};
use std::alloc::{AllocError, Global};

fn push_message_byte(bytes: &mut Vec<u8>, byte: u8) -> Result<(), AllocError>
    ensures { IfOk result (λ _. bytes.new.items ≡ bytes.old.items ++ message_byte byte) }
{
    if byte == b'%' {
        return push_text(bytes, "%25");
    }
    if byte == b'\r' {
        return push_text(bytes, "%0D");
    }
    if byte == b'\n' {
        return push_text(bytes, "%0A");
    }
    bytes.push(byte)?;
    Ok(())
}

fn push_message_bytes(bytes: &mut Vec<u8>, message: &[u8]) -> Result<(), AllocError>
    ensures { IfOk result (λ _. bytes.new.items ≡ bytes.old.items ++ flat_map message_byte message.now) }
{
    for byte in message {
        push_message_byte(bytes, *byte)?;
    }
    Ok(())
}

fn push_property_byte(bytes: &mut Vec<u8>, byte: u8) -> Result<(), AllocError>
    ensures { IfOk result (λ _. bytes.new.items ≡ bytes.old.items ++ property_byte byte) }
{
    if byte == b':' {
        return push_text(bytes, "%3A");
    }
    if byte == b',' {
        return push_text(bytes, "%2C");
    }
    push_message_byte(bytes, byte)
}

fn push_property_bytes(bytes: &mut Vec<u8>, property: &[u8]) -> Result<(), AllocError>
    ensures { IfOk result (λ _. bytes.new.items ≡ bytes.old.items ++ flat_map property_byte property.now) }
{
    for byte in property {
        push_property_byte(bytes, *byte)?;
    }
    Ok(())
}

fn push_line_properties(
    alloc: Global,
    bytes: &mut Vec<u8>,
    line: &FileLine,
) -> Result<(), AllocError>
    ensures { IfOk result (λ _. bytes.new.items ≡ bytes.old.items ++ line_properties (file_line_of line.now)) }
{
    push_text(bytes, "file=")?;
    push_property_bytes(bytes, line.file.as_slice())?;
    push_text(bytes, ",line=")?;
    push_number(alloc, bytes, line.number)?;
    push_text(bytes, ",")
}

fn push_first_properties(
    alloc: Global,
    bytes: &mut Vec<u8>,
    lines: &[FileLine],
) -> Result<(), AllocError>
    ensures { IfOk result (λ _. bytes.new.items ≡ bytes.old.items ++ first_properties (map file_line_of lines.now)) }
{
    match lines {
        [] => Ok(()),
        [first, ..] => push_line_properties(alloc, bytes, first),
    }
}

fn push_properties(alloc: Global, bytes: &mut Vec<u8>, finding: &Finding) -> Result<(), AllocError>
    ensures { IfOk result (λ _. bytes.new.items ≡ bytes.old.items ++ finding_properties (finding_of finding.now)) }
{
    match finding {
        Finding::NoRequirement(line, _, column) => {
            push_line_properties(alloc, bytes, line)?;
            push_text(bytes, "col=")?;
            push_from_one(alloc, bytes, *column)?;
            push_text(bytes, ",")
        }
        Finding::Conflicting(_, lines, _) => push_first_properties(alloc, bytes, lines.as_slice()),
    }
}

fn push_finding_message(
    alloc: Global,
    bytes: &mut Vec<u8>,
    finding: &Finding,
) -> Result<(), AllocError>
    ensures { IfOk result (λ _. bytes.new.items ≡ bytes.old.items ++ flat_map message_byte (finding_message (finding_of finding.now))) }
{
    let mut message = Vec::new(alloc);
    push_message(alloc, &mut message, finding)?;
    push_message_bytes(bytes, message.as_slice())
}

fn push_command(alloc: Global, bytes: &mut Vec<u8>, finding: &Finding) -> Result<(), AllocError>
    ensures { IfOk result (λ _. bytes.new.items ≡ bytes.old.items ++ finding_command (finding_of finding.now)) }
{
    push_text(bytes, "::error ")?;
    push_properties(alloc, bytes, finding)?;
    push_text(bytes, "title=")?;
    push_text(bytes, finding.kind().code())?;
    push_text(bytes, "::")?;
    push_finding_message(alloc, bytes, finding)?;
    push_text(bytes, "\n")
}

fn push_commands(alloc: Global, bytes: &mut Vec<u8>, findings: &[Finding]) -> Result<(), AllocError>
    ensures { IfOk result (λ _. bytes.new.items ≡ bytes.old.items ++ flat_map finding_command (map finding_of findings.now)) }
{
    for finding in findings {
        push_command(alloc, bytes, finding)?;
    }
    Ok(())
}

impl Report {
    /// The findings as commands to GitHub Actions, a line each, with the position, the code and what `to_text` says, whose lines are
    /// escaped as one.
    ///
    /// Allocates.
    pub fn to_github(&self, alloc: Global) -> Result<Vec<u8>, AllocError>
        ensures { IfOk result (λ bytes. bytes.items ≡ report_commands (report_of self.now)) }
    {
        let mut bytes = Vec::new(alloc);
        push_commands(alloc, &mut bytes, self.findings.as_slice())?;
        Ok(bytes)
    }
}
