//! What holds of findings, as the contract of a function that does nothing.
ghost use Rattle.pyver_findings.specs.ReportTexts.{JsonStringsDiffer};
ghost use Rattle.pyver_findings.specs.FindingLaws.{ConflictsHaveFindings, FindingsHold, InvalidLinesHaveFindings, LackedHashesHaveFindings, MeaningsOnce, ReportsOnce, SetsHaveFindings, StringsHaveGrammar, WrongConstraintsHaveFindings};

/// A line that is reported by itself is a line of the files and no requirement, for the reason and at the column that are
/// reported, or an editable or has extras and is of a file that a line names after `-c`, or lacks a pin or a hash that its file wants. Lines that are reported together are lines of the files, ask for one name and have no marker, or
/// markers that hold in the environment that is named; no version is allowed by all, and without any one of them some version is; and one or two of them name a version if that is reported.
pub fn findings_hold()
    ensures { FindingsHold }
{}

/// Each line that ought to be a requirement or an option of pip, and is neither, is reported, and in a file that a line names after `-c` each
/// editable, and each requirement with extras; and each requirement that lacks a pin or a hash that its file wants.
pub fn invalid_lines_have_findings()
    ensures line { InvalidLinesHaveFindings }
    ensures constraint { WrongConstraintsHaveFindings }
    ensures hash { LackedHashesHaveFindings }
{}

/// If no version is allowed by all lines of a name without a marker, some of these lines are reported together; if none is allowed by lines of a name
/// that ask in one environment, some that ask there are, or something is said to be undecided.
pub fn conflicts_have_findings()
    ensures unmarked { ConflictsHaveFindings }
    ensures environment { SetsHaveFindings }
{}

/// A line has at most one meaning, and files have at most one report in which nothing is undecided.
pub fn reports_once()
    ensures meaning { MeaningsOnce }
    ensures report { ReportsOnce }
{}

/// A string has the parts of a requirement if and only if the grammar of PEP 508 derives it.
pub fn strings_have_grammar()
    ensures { StringsHaveGrammar }
{}

/// Different bytes are different JSON strings.
#[tactic(auto, using(crate::proofs::StringReadings::strings_differ))]
pub fn json_strings_differ()
    ensures { JsonStringsDiffer }
{}
