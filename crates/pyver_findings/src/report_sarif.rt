//! A report as a log of SARIF.
ghost use Rattle.std.specs.Prelude.{◌≡◌, ◌+◌, ◌++◌, IfOk, count_by, map};
ghost use Rattle.std.specs.Fmt.{decimal};
ghost use Rattle.std.specs.List.{flat_map};
ghost use Rattle.pyver_findings.specs.ReportTexts.{json_string, finding_message};
ghost use Rattle.pyver_findings.specs.SarifLogs.{begins_character, begins_pair, file_uri, finding_location, finding_result, finding_results, first_location, is_path_byte, all_rules, line_location, line_start, log_run, next_result, path_byte, report_log, rule, scheme, suppression, utf16_length};
ghost use Rattle.pyver_findings.specs.Views.{file_line_of, finding_of, report_of};

use crate::file_line::FileLine;
use crate::finding::{Finding, FindingKind};
use crate::json_string::push_json_string;
use crate::report::Report;
use crate::report_text::{push_message, push_number, push_text, start_of};
use cli_io::push_hex_digits;
use std::alloc::{AllocError, Global};

fn begins_character(byte: u8) -> bool
    ensures { result ≡ begins_character byte }
{
    byte < 128 || byte >= 192
}

fn begins_pair(byte: u8) -> bool
    ensures { result ≡ begins_pair byte }
{
    byte >= 240
}

fn count_characters(text: &[u8]) -> usize
    ensures { result ≡ count_by begins_character text.now }
{
    text.iter().filter(|byte| begins_character(**byte)).count()
}

fn count_pairs(text: &[u8]) -> usize
    ensures { result ≡ count_by begins_pair text.now }
{
    text.iter().filter(|byte| begins_pair(**byte)).count()
}

// The column behind the text, in code units of UTF-16 from 1.
fn push_column(alloc: Global, bytes: &mut Vec<u8>, text: &[u8]) -> Result<(), AllocError>
    ensures { IfOk result (λ _. bytes.new.items ≡ bytes.old.items ++ decimal (utf16_length text.now + 1)) }
{
    let units = count_characters(text) as u128 + count_pairs(text) as u128;
    push_text(bytes, (units + 1).to_string(alloc)?.as_str())
}

fn is_path_byte(byte: u8) -> bool
    ensures { result ≡ is_path_byte byte }
{
    byte.is_ascii_alphanumeric()
        || byte == b'-'
        || byte == b'.'
        || byte == b'_'
        || byte == b'~'
        || byte == b'/'
}

fn push_path_byte(bytes: &mut Vec<u8>, byte: u8) -> Result<(), AllocError>
    ensures { IfOk result (λ _. bytes.new.items ≡ bytes.old.items ++ path_byte byte) }
{
    if is_path_byte(byte) {
        bytes.push(byte)?;
        return Ok(());
    }
    bytes.push(b'%')?;
    push_hex_digits(bytes, byte)
}

fn push_path_bytes(bytes: &mut Vec<u8>, path: &[u8]) -> Result<(), AllocError>
    ensures { IfOk result (λ _. bytes.new.items ≡ bytes.old.items ++ flat_map path_byte path.now) }
{
    for byte in path {
        push_path_byte(bytes, *byte)?;
    }
    Ok(())
}

fn scheme(path: &[u8]) -> &'static str
    ensures { result.now ≡ scheme path.now }
{
    match path {
        [b'/', ..] => "file://",
        _ => "",
    }
}

fn push_uri(bytes: &mut Vec<u8>, path: &[u8]) -> Result<(), AllocError>
    ensures { IfOk result (λ _. bytes.new.items ≡ bytes.old.items ++ file_uri path.now) }
{
    push_text(bytes, scheme(path))?;
    push_path_bytes(bytes, path)
}

fn push_line_start(alloc: Global, bytes: &mut Vec<u8>, line: &FileLine) -> Result<(), AllocError>
    ensures { IfOk result (λ _. bytes.new.items ≡ bytes.old.items ++ line_start (file_line_of line.now)) }
{
    push_text(
        bytes,
        "{\"physicalLocation\":{\"artifactLocation\":{\"uri\":\"",
    )?;
    push_uri(bytes, line.file.as_slice())?;
    push_text(bytes, "\"},\"region\":{\"startLine\":")?;
    push_number(alloc, bytes, line.number)?;
    Ok(())
}

fn push_first_location(
    alloc: Global,
    bytes: &mut Vec<u8>,
    lines: &[FileLine],
) -> Result<(), AllocError>
    ensures { IfOk result (λ _. bytes.new.items ≡ bytes.old.items ++ first_location (map file_line_of lines.now)) }
{
    match lines {
        [] => Ok(()),
        [first, ..] => {
            push_line_start(alloc, bytes, first)?;
            push_text(bytes, "}}}")
        }
    }
}

fn push_line_location(
    alloc: Global,
    bytes: &mut Vec<u8>,
    line: &FileLine,
    column: usize,
) -> Result<(), AllocError>
    ensures { IfOk result (λ _. bytes.new.items ≡ bytes.old.items ++ line_location (file_line_of line.now) column) }
{
    push_line_start(alloc, bytes, line)?;
    push_text(bytes, ",\"startColumn\":")?;
    push_column(alloc, bytes, start_of(line.text.as_slice(), column))?;
    push_text(bytes, "}}}")?;
    Ok(())
}

fn push_location(alloc: Global, bytes: &mut Vec<u8>, finding: &Finding) -> Result<(), AllocError>
    ensures { IfOk result (λ _. bytes.new.items ≡ bytes.old.items ++ finding_location (finding_of finding.now)) }
{
    match finding {
        Finding::NoRequirement(line, _, column) => push_line_location(alloc, bytes, line, *column),
        Finding::Conflicting(_, lines, _) => push_first_location(alloc, bytes, lines.as_slice()),
    }
}

fn push_message_string(
    alloc: Global,
    bytes: &mut Vec<u8>,
    finding: &Finding,
) -> Result<(), AllocError>
    ensures { IfOk result (λ _. bytes.new.items ≡ bytes.old.items ++ json_string (finding_message (finding_of finding.now))) }
{
    let mut message = Vec::new(alloc);
    push_message(alloc, &mut message, finding)?;
    push_json_string(bytes, message.as_slice())
}

fn suppression(is_ignored: bool) -> &'static str
    ensures { result.now ≡ suppression is_ignored }
{
    if is_ignored {
        "{\"kind\":\"inSource\"}"
    } else {
        ""
    }
}

fn push_result(alloc: Global, bytes: &mut Vec<u8>, finding: &Finding) -> Result<(), AllocError>
    ensures { IfOk result (λ _. bytes.new.items ≡ bytes.old.items ++ finding_result (finding_of finding.now)) }
{
    push_text(bytes, "{\"ruleId\":\"")?;
    push_text(bytes, finding.kind().code())?;
    push_text(bytes, "\",\"level\":\"error\",\"message\":{\"text\":")?;
    push_message_string(alloc, bytes, finding)?;
    push_text(bytes, "},\"locations\":[")?;
    push_location(alloc, bytes, finding)?;
    push_text(bytes, "],\"suppressions\":[")?;
    push_text(bytes, suppression(finding.is_ignored()))?;
    push_text(bytes, "]}")?;
    Ok(())
}

fn push_next_result(alloc: Global, bytes: &mut Vec<u8>, finding: &Finding) -> Result<(), AllocError>
    ensures { IfOk result (λ _. bytes.new.items ≡ bytes.old.items ++ next_result (finding_of finding.now)) }
{
    push_text(bytes, ",")?;
    push_result(alloc, bytes, finding)
}

fn push_next_results(
    alloc: Global,
    bytes: &mut Vec<u8>,
    findings: &[Finding],
) -> Result<(), AllocError>
    ensures { IfOk result (λ _. bytes.new.items ≡ bytes.old.items ++ flat_map next_result (map finding_of findings.now)) }
{
    for finding in findings {
        push_next_result(alloc, bytes, finding)?;
    }
    Ok(())
}

fn push_results(alloc: Global, bytes: &mut Vec<u8>, findings: &[Finding]) -> Result<(), AllocError>
    ensures { IfOk result (λ _. bytes.new.items ≡ bytes.old.items ++ finding_results (map finding_of findings.now)) }
{
    match findings {
        [] => Ok(()),
        [first, rest @ ..] => {
            push_result(alloc, bytes, first)?;
            push_next_results(alloc, bytes, rest)
        }
    }
}

// The findings, and those that comments ignore.
fn push_all_results(
    alloc: Global,
    bytes: &mut Vec<u8>,
    findings: &[Finding],
    ignored: &[Finding],
) -> Result<(), AllocError>
    ensures { IfOk result (λ _. bytes.new.items ≡ bytes.old.items
        ++ finding_results (map finding_of findings.now ++ map finding_of ignored.now)) }
{
    match findings {
        [] => push_results(alloc, bytes, ignored),
        [_, ..] => {
            push_results(alloc, bytes, findings)?;
            push_next_results(alloc, bytes, ignored)
        }
    }
}

fn push_rule(bytes: &mut Vec<u8>, kind: FindingKind) -> Result<(), AllocError>
    ensures { IfOk result (λ _. bytes.new.items ≡ bytes.old.items ++ rule kind) }
{
    push_text(bytes, "{\"id\":\"")?;
    push_text(bytes, kind.code())?;
    push_text(bytes, "\",\"name\":\"")?;
    push_text(bytes, kind.word())?;
    push_text(bytes, "\",\"shortDescription\":{\"text\":\"")?;
    push_text(bytes, kind.summary())?;
    push_text(bytes, "\"}}")?;
    Ok(())
}

fn push_rules(bytes: &mut Vec<u8>) -> Result<(), AllocError>
    ensures { IfOk result (λ _. bytes.new.items ≡ bytes.old.items ++ all_rules) }
{
    push_rule(bytes, FindingKind::NoRequirement)?;
    push_text(bytes, ",")?;
    push_rule(bytes, FindingKind::NoVersion)?;
    push_text(bytes, ",")?;
    push_rule(bytes, FindingKind::PinOutside)?;
    push_text(bytes, ",")?;
    push_rule(bytes, FindingKind::TwoPins)?;
    Ok(())
}

fn push_log_run(alloc: Global, bytes: &mut Vec<u8>, report: &Report) -> Result<(), AllocError>
    ensures { IfOk result (λ _. bytes.new.items ≡ bytes.old.items ++ log_run (report_of report.now)) }
{
    push_text(
        bytes,
        "{\"tool\":{\"driver\":{\"name\":\"pyver\",\"rules\":[",
    )?;
    push_rules(bytes)?;
    push_text(bytes, "]}},\"columnKind\":\"utf16CodeUnits\",\"results\":[")?;
    push_all_results(
        alloc,
        bytes,
        report.findings.as_slice(),
        report.ignored.as_slice(),
    )?;
    push_text(bytes, "]}")?;
    Ok(())
}

impl Report {
    /// The findings as a log of SARIF 2.1.0, and a newline: its rules are the kinds by their codes, and each result has the code, what
    /// `to_text` says, and the position, whose column counts code units of UTF-16. A finding that a comment
    /// ignores has the suppression `inSource`. A file with an absolute path has an absolute URI.
    ///
    /// Allocates.
    pub fn to_sarif(&self, alloc: Global) -> Result<Vec<u8>, AllocError>
        ensures { IfOk result (λ bytes. bytes.items ≡ report_log (report_of self.now)) }
    {
        let mut bytes = Vec::new(alloc);
        push_text(&mut bytes, "{\"version\":\"2.1.0\",")?;
        push_text(
            &mut bytes,
            "\"$schema\":\"https://json.schemastore.org/sarif-2.1.0.json\",\"runs\":[",
        )?;
        push_log_run(alloc, &mut bytes, self)?;
        push_text(&mut bytes, "]}\n")?;
        Ok(bytes)
    }
}
