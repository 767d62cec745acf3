//! The command `check`: what is wrong in requirements files and documents of a project.
ghost use Rattle.std.specs.Prelude.{◌≡◌, ◌≤◌, ◌∷◌, ◌++◌, [], IfErr, IfOk, map, option_map, string_bytes, if◌then◌else◌};
ghost use Rattle.std.specs.List.{flat_map, list_any};
ghost use Rattle.pyver_commands.specs.AnswerViews.{outcome_of};
ghost use Rattle.pyver_tool.specs.TaskViews.{check_result_of};
ghost use Rattle.pyver_tool.specs.Checks.{Checks, ChecksGroup, ChecksGroups, FailsInCheck, FailsInGroup, FailsInGroups, are_several, check_outcome, check_status, none_checked, position_text, summary, together_note, unopened_text, with_report, word_groups};
ghost use Rattle.pyver_tool.specs.RequirementFiles.{unopened_file_of};
ghost use Rattle.pyver_tool.specs.Settings.{findings_text};
ghost use Rattle.pyver_commands.specs.Sources.{source_names};
ghost use Rattle.pyver_findings.specs.Reports.{spans_files};
ghost use Rattle.pyver_findings.specs.Views.{finding_of, position_of, report_of};

use crate::options::FileKind;
use crate::requirement_files::{UnopenedFile, read_files};
use crate::settings::OutputForm;
use cli_io::push_escaped;
use pyver_commands::{Answer, Files, RunFailure};
use pyver_documents::find_document_problems;
use pyver_findings::{Finding, Position, Report, find_problems, push_number, push_text};
use std::alloc::{AllocError, Global};
use std::io::Read;

// How files are checked, and what is written of them.
#[derive(Clone, Copy)]
pub(crate) struct CheckOptions {
    pub(crate) output: OutputForm,
    // Each file that a word names is checked by itself, with those that its lines name.
    pub(crate) each: bool,
    // No finding is written.
    pub(crate) quiet: bool,
    // The kind of files that have none by name.
    pub(crate) kind: FileKind,
    // The locks of projects are sought.
    pub(crate) seeks_locks: bool,
}

// What was found so far.
#[derive(Drop)]
pub(crate) struct CheckResult {
    report: Report,
    unopened: Vec<UnopenedFile>,
}

fn check_status(unopened: &[UnopenedFile], findings: &[Finding]) -> u8
    ensures is { result ≡ check_status (map unopened_file_of unopened.now) (map finding_of findings.now) }
    ensures low { result ≤ 2 }
{
    match (unopened, findings) {
        ([], []) => 0,
        ([], [_, ..]) => 1,
        ([_, ..], _) => 2,
    }
}

fn push_position(
    alloc: Global,
    bytes: &mut Vec<u8>,
    position: &Option<Position>,
) -> Result<(), AllocError>
    ensures { IfOk result (λ _. bytes.new.items ≡ bytes.old.items ++ position_text (option_map position_of position.now)) }
{
    let Some(position) = position else {
        return Ok(());
    };
    push_escaped(bytes, position.file.as_slice())?;
    push_text(bytes, ":")?;
    push_number(alloc, bytes, position.line)?;
    push_text(bytes, ":")?;
    push_number(alloc, bytes, position.column as u64)?;
    push_text(bytes, ": ")
}

fn push_unopened_message(
    alloc: Global,
    bytes: &mut Vec<u8>,
    file: &UnopenedFile,
) -> Result<(), AllocError>
    ensures { IfOk result (λ _. bytes.new.items ≡ bytes.old.items ++ unopened_text (unopened_file_of file.now)) }
{
    push_text(bytes, "pyver: ")?;
    push_position(alloc, bytes, &file.named.position)?;
    push_escaped(bytes, file.named.name.as_slice())?;
    push_text(bytes, ": ")?;
    push_text(bytes, file.failure.reason())?;
    push_text(bytes, "\n")
}

fn push_unopened_messages(
    alloc: Global,
    bytes: &mut Vec<u8>,
    unopened: &[UnopenedFile],
) -> Result<(), AllocError>
    ensures { IfOk result (λ _. bytes.new.items ≡ bytes.old.items ++ flat_map unopened_text (map unopened_file_of unopened.now)) }
{
    for file in unopened {
        push_unopened_message(alloc, bytes, file)?;
    }
    Ok(())
}

fn spans_files(findings: &[Finding]) -> bool
    ensures { result ≡ list_any (λ finding. spans_files (finding_of finding)) findings.now }
{
    findings.iter().any(|finding| finding.spans_files())
}

fn are_several(words: &[String]) -> bool
    ensures { result ≡ are_several (map string_bytes words.now) }
{
    matches!(words, [_, _, ..])
}

// That files are taken together, if that matters.
#[tactic(auto, using(pyver_requirements::proofs::Grouped::any_viewed))]
fn together_note(options: CheckOptions, words: &[String], findings: &[Finding]) -> &'static str
    ensures { result.now ≡ together_note options (map string_bytes words.now) (map finding_of findings.now) }
{
    if options.each {
        return "";
    }
    if !are_several(words) {
        return "";
    }
    if spans_files(findings) {
        "pyver: files are taken together; --each takes them one by one\n"
    } else {
        ""
    }
}

// How much was read, and how.
fn push_summary(
    alloc: Global,
    bytes: &mut Vec<u8>,
    options: CheckOptions,
    words: &[String],
    report: &Report,
) -> Result<(), AllocError>
    ensures { IfOk result (λ _. bytes.new.items ≡ bytes.old.items ++ summary options (map string_bytes words.now) (report_of report.now)) }
{
    if options.quiet {
        return Ok(());
    }
    push_text(
        bytes,
        together_note(options, words, report.findings.as_slice()),
    )?;
    bytes.extend_from_slice(report.summarize(alloc)?.as_slice())
}

// The findings in their form.
fn print_findings(
    alloc: Global,
    options: CheckOptions,
    report: &Report,
) -> Result<Vec<u8>, AllocError>
    ensures { IfOk result (λ output. output.items ≡ (if options.quiet then [] else findings_text options.output (report_of report.now))) }
{
    if options.quiet {
        return Ok(Vec::new(alloc));
    }
    match options.output {
        OutputForm::Text => report.to_text(alloc),
        OutputForm::Json => report.to_json(alloc),
        OutputForm::Github => report.to_github(alloc),
        OutputForm::Sarif => report.to_sarif(alloc),
    }
}

impl CheckResult {
    // Nothing yet.
    fn new(alloc: Global) -> CheckResult
        ensures { check_result_of result ≡ none_checked }
    {
        CheckResult {
            report: Report::empty(alloc),
            unopened: Vec::new(alloc),
        }
    }

    // One more report, and the files that were not opened for it.
    fn push(&mut self, report: Report, unopened: Vec<UnopenedFile>) -> Result<(), AllocError>
        ensures { IfOk result (λ _. check_result_of self.new ≡ with_report (map unopened_file_of unopened.items) (check_result_of self.old) (report_of report)) }
    {
        let mut unopened = unopened;
        self.report.append(report)?;
        self.unopened.append(&mut unopened)?;
        Ok(())
    }

    // Reads the files that the words name, those that their lines name and locks, and finds what is wrong in them.
    fn check_group<F: Files, R: Read>(
        &mut self,
        alloc: Global,
        options: CheckOptions,
        words: &[String],
        files: &mut F,
        input: &mut R,
    ) -> Result<(), RunFailure>
        ensures checked { IfOk result (λ _. ChecksGroup options (F.known files.old) (F.path files.old) R.remaining (source_names (map string_bytes words.now)) (check_result_of self.old) (check_result_of self.new) input.old input.new) }
        ensures stopped { IfErr result (FailsInGroup options (F.known files.old) (F.path files.old) R.remaining (source_names (map string_bytes words.now)) input.old input.new) }
        ensures kept { F.known files.new ≡ F.known files.old }
        ensures kept_paths { F.path files.new ≡ F.path files.old }
    {
        let read = read_files(
            alloc,
            options.kind,
            options.seeks_locks,
            words,
            files,
            input,
        )?;
        let files = read.requirements.as_slice();
        let documents = read.documents.as_slice();
        let mut report = find_problems(alloc, files)?;
        report.append(find_document_problems(alloc, documents)?)?;
        Ok(self.push(report.apply_comments(alloc)?, read.unopened)?)
    }

    // Reads the files that each word names, with those that their lines name and locks, and finds what is wrong in them, word by word.
    fn check_each<F: Files, R: Read>(
        &mut self,
        alloc: Global,
        options: CheckOptions,
        words: &[String],
        files: &mut F,
        input: &mut R,
    ) -> Result<(), RunFailure>
        ensures checked { IfOk result (λ _. ChecksGroups options (F.known files.old) (F.path files.old) R.remaining (map (λ word. word ∷ []) (map string_bytes words.now)) (check_result_of self.old) (check_result_of self.new) input.old input.new) }
        ensures stopped { IfErr result (FailsInGroups options (F.known files.old) (F.path files.old) R.remaining (map (λ word. word ∷ []) (map string_bytes words.now)) (check_result_of self.old) input.old input.new) }
        ensures kept { F.known files.new ≡ F.known files.old }
        ensures kept_paths { F.path files.new ≡ F.path files.old }
    {
        let mut rest = words;
        while let [_, later @ ..] = rest {
            self.check_group(alloc, options, &rest[..1], files, input)?;
            rest = later;
        }
        Ok(())
    }

    // Reads the files that the words name, and finds what is wrong in them, all together or word by word.
    fn check_words<F: Files, R: Read>(
        &mut self,
        alloc: Global,
        options: CheckOptions,
        words: &[String],
        files: &mut F,
        input: &mut R,
    ) -> Result<(), RunFailure>
        ensures checked { IfOk result (λ _. ChecksGroups options (F.known files.old) (F.path files.old) R.remaining (word_groups options.each (map string_bytes words.now)) (check_result_of self.old) (check_result_of self.new) input.old input.new) }
        ensures stopped { IfErr result (FailsInGroups options (F.known files.old) (F.path files.old) R.remaining (word_groups options.each (map string_bytes words.now)) (check_result_of self.old) input.old input.new) }
        ensures kept { F.known files.new ≡ F.known files.old }
    {
        if !options.each {
            return self.check_group(alloc, options, words, files, input);
        }
        match words {
            [] => self.check_group(alloc, options, words, files, input),
            [_, ..] => self.check_each(alloc, options, words, files, input),
        }
    }

    fn status(&self) -> u8
        ensures is { result ≡ check_status (check_result_of self.now).unopened (check_result_of self.now).report.findings }
        ensures low { result ≤ 2 }
    {
        check_status(self.unopened.as_slice(), self.report.findings.as_slice())
    }

    // The files that were not opened, and how much was read.
    fn print_errors(
        &self,
        alloc: Global,
        options: CheckOptions,
        words: &[String],
    ) -> Result<Vec<u8>, AllocError>
        ensures { IfOk result (λ errors. errors.items ≡ flat_map unopened_text (check_result_of self.now).unopened ++ summary options (map string_bytes words.now) (check_result_of self.now).report) }
    {
        let mut errors = Vec::new(alloc);
        push_unopened_messages(alloc, &mut errors, self.unopened.as_slice())?;
        push_summary(alloc, &mut errors, options, words, &self.report)?;
        Ok(errors)
    }

    // What is to be written.
    fn print(
        &self,
        alloc: Global,
        options: CheckOptions,
        words: &[String],
    ) -> Result<Answer, AllocError>
        ensures { IfOk result (λ a. outcome_of a ≡ check_outcome options (map string_bytes words.now) (check_result_of self.now)) }
    {
        Ok(Answer {
            output: print_findings(alloc, options, &self.report)?,
            errors: self.print_errors(alloc, options, words)?,
            status: self.status(),
        })
    }
}

// Reads the files that the words name, those that their lines name and locks, and returns what is to be written.
pub(crate) fn check_files<F: Files, R: Read>(
    alloc: Global,
    options: CheckOptions,
    words: &[String],
    files: &mut F,
    input: &mut R,
) -> Result<Answer, RunFailure>
    ensures finished { IfOk result (λ a. Checks (F.known files.old) (F.path files.old) R.remaining options (map string_bytes words.now) input.old input.new (outcome_of a)) }
    ensures stopped { IfErr result (FailsInCheck (F.known files.old) (F.path files.old) R.remaining options (map string_bytes words.now) input.old input.new) }
    ensures kept { F.known files.new ≡ F.known files.old }
{
    let mut found = CheckResult::new(alloc);
    found.check_words(alloc, options, words, files, input)?;
    Ok(found.print(alloc, options, words)?)
}
