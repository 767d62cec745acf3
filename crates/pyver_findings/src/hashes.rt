//! Lines that lack the hash or the version that pip wants of each requirement once one has a hash.
ghost use Rattle.std.specs.Prelude.{◌≡◌, ◌&&◌, ◌||◌, IfOk, List, bytes_eq, map, not, ℕ};
ghost use Rattle.std.specs.List.{flat_map, list_all, list_any};
ghost use Rattle.std.specs.Ordering.{eq_by_cmp};
ghost use Rattle.pep440_rs.specs.Specifiers.{spec_cmp};
ghost use Rattle.pyver_findings.specs.Hashes.{has_hash, is_known_name, has_pin, is_equality, is_hashed, is_hashing, is_pin, is_pip_option, lacking_of_line, lacking_by, lacks_hashes, may_be_hashed, may_have_hash, reads_hashes, says, waives_hashes, wants_hashes};
ghost use Rattle.pyver_findings.specs.Views.{AddsFindings, demand_of, file_line_of};
ghost use Rattle.pyver_requirements.specs.LineKinds.{line_kind_of};

use crate::constraints::{constraints_names, is_one_of, push_fault};
use crate::demand::Demand;
use crate::file_line::FileLine;
use crate::finding::Finding;
use pep440_rs::{Operator, VersionSpecifier};
use pyver_requirements::{LineKind, classify, has_option, has_plain_options};
use std::alloc::{AllocError, Global};
use std::collections::HashMap;

// ---- whether hashes are wanted

fn reads_hashes(kind: LineKind<'_>) -> bool
    ensures { result ≡ reads_hashes (line_kind_of kind.entry) }
{
    matches!(
        kind,
        LineKind::Requirement | LineKind::Location | LineKind::Variable
    )
}

fn is_pip_option(kind: LineKind<'_>) -> bool
    ensures { result ≡ is_pip_option (line_kind_of kind.entry) }
{
    matches!(kind, LineKind::PipOption)
}

pub(crate) fn has_hash(line: &FileLine) -> bool
    ensures { result ≡ has_hash (file_line_of line.now) }
{
    let text = line.text.as_slice();
    has_option(text, "--hash") && reads_hashes(classify(text))
}

// The line is of options, and has this one.
fn says(line: &FileLine, option: &str) -> bool
    ensures { result ≡ says option.now (file_line_of line.now) }
{
    let text = line.text.as_slice();
    has_option(text, option) && is_pip_option(classify(text))
}

fn wants_hashes(line: &FileLine) -> bool
    ensures { result ≡ wants_hashes (file_line_of line.now) }
{
    has_hash(line) || says(line, "--require-hashes")
}

fn waives_hashes(line: &FileLine) -> bool
    ensures { result ≡ waives_hashes (file_line_of line.now) }
{
    says(line, "--no-require-hashes")
}

fn want_hashes(lines: &[FileLine]) -> bool
    ensures { result ≡ list_any (λ l. wants_hashes (file_line_of l)) lines.now }
{
    lines.iter().any(|line| wants_hashes(line))
}

fn waive_hashes(lines: &[FileLine]) -> bool
    ensures { result ≡ list_any (λ l. waives_hashes (file_line_of l)) lines.now }
{
    lines.iter().any(|line| waives_hashes(line))
}

// ---- what a line lacks

fn is_equality(operator: Operator) -> bool
    ensures { result ≡ is_equality operator }
{
    matches!(
        operator,
        Operator::Equal | Operator::EqualStar | Operator::ExactEqual
    )
}

// Each member is this one.
fn are_repeated(members: &[VersionSpecifier], one: &VersionSpecifier) -> bool
    ensures { result ≡ list_all (λ m. eq_by_cmp spec_cmp m one.now) members.now }
{
    members.iter().all(|member| member == one)
}

// The list is a pin to pip.
fn is_pin(members: &[VersionSpecifier]) -> bool
    ensures { result ≡ is_pin members.now }
{
    match members.split_first() {
        Some((first, rest)) => is_equality(*first.operator()) && are_repeated(rest, first),
        None => false,
    }
}

fn may_have_hash(line: &FileLine) -> bool
    ensures { result ≡ may_have_hash (file_line_of line.now) }
{
    let text = line.text.as_slice();
    has_option(text, "--hash") || !has_plain_options(text)
}

// ---- names

// Adds the name if this holds.
fn insert_if<'a>(
    names: &mut HashMap<&'a [u8], ()>,
    name: &'a [u8],
    holds: bool,
) -> Result<(), AllocError>
    ensures { IfOk result (λ _. (q : List ℕ) → is_known_name names.new q ≡ (is_known_name names.old q || (bytes_eq q name.now && holds))) }
{
    if holds {
        names.insert(name, ())?;
    }
    Ok(())
}

// The line wants hashes, in a file that is none of these.
fn is_hashing(constraints: &[Vec<u8>], line: &FileLine) -> bool
    ensures { result ≡ (wants_hashes (file_line_of line.now)
        && not (list_any (bytes_eq (file_line_of line.now).file) (map (λ n. n.items) constraints.now))) }
{
    wants_hashes(line) && !is_one_of(constraints, line.file.as_slice())
}

// The names of files with a line that wants hashes, but for files of constraints.
fn hashed_files<'a>(
    alloc: Global,
    lines: &'a [FileLine],
) -> Result<HashMap<&'a [u8], ()>, AllocError>
    ensures { IfOk result (λ names. (q : List ℕ) → is_known_name names q ≡ is_hashed (map file_line_of lines.now) q) }
{
    let constraints = constraints_names(alloc, lines)?;
    let mut names: HashMap<&'a [u8], ()> = HashMap::new(alloc);
    for line in lines {
        let holds = is_hashing(constraints.as_slice(), line);
        insert_if(&mut names, line.file.as_slice(), holds)?;
    }
    Ok(names)
}

// The names with a line that is pinned, and those with a line that has a hash, or may have one.
#[derive(Drop)]
struct SecuredNames<'a> {
    pinned: HashMap<&'a [u8], ()>,
    hashed: HashMap<&'a [u8], ()>,
}

impl<'a> SecuredNames<'a> {
    fn new(alloc: Global, lines: &'a [Demand]) -> Result<SecuredNames<'a>, AllocError>
        ensures pinned { IfOk result (λ names. (q : List ℕ) → is_known_name names.pinned q ≡ has_pin (map demand_of lines.now) q) }
        ensures hashed { IfOk result (λ names. (q : List ℕ) → is_known_name names.hashed q ≡ may_be_hashed (map demand_of lines.now) q) }
    {
        let mut pinned: HashMap<&'a [u8], ()> = HashMap::new(alloc);
        let mut hashed: HashMap<&'a [u8], ()> = HashMap::new(alloc);
        for line in lines {
            let name = line.name.as_slice();
            insert_if(&mut pinned, name, is_pin(line.specifiers.as_slice()))?;
            insert_if(&mut hashed, name, may_have_hash(&line.line))?;
        }
        Ok(SecuredNames { pinned, hashed })
    }
}

// ---- all together

fn push_lacking(
    alloc: Global,
    findings: &mut Vec<Finding>,
    line: &FileLine,
    is_pinned: bool,
    is_hashed: bool,
) -> Result<(), AllocError>
    ensures { IfOk result (λ _. AddsFindings findings.old.items findings.new.items (lacking_of_line (file_line_of line.now) is_pinned is_hashed)) }
{
    if !is_pinned {
        let reason = "hashes are required, but no '==' pins a version";
        return push_fault(alloc, findings, line, reason, 0);
    }
    if !is_hashed {
        return push_fault(
            alloc,
            findings,
            line,
            "hashes are required, but there is none",
            0,
        );
    }
    Ok(())
}

fn is_known_name(names: &HashMap<&[u8], ()>, name: &[u8]) -> bool
    ensures { result ≡ is_known_name names.now name.now }
{
    names.contains_key(name)
}

// What the line lacks, if it is of one of these files.
fn push_lacking_of_line(
    alloc: Global,
    findings: &mut Vec<Finding>,
    files: &HashMap<&[u8], ()>,
    names: &SecuredNames<'_>,
    line: &Demand,
) -> Result<(), AllocError>
    ensures { IfOk result (λ _. AddsFindings findings.old.items findings.new.items
        (lacking_by (is_known_name files.now) (is_known_name names.now.pinned) (is_known_name names.now.hashed) (demand_of line.now))) }
{
    if !is_known_name(files, line.line.file.as_slice()) {
        return Ok(());
    }
    let pinned = is_known_name(&names.pinned, line.name.as_slice());
    let hashed = is_known_name(&names.hashed, line.name.as_slice());
    push_lacking(alloc, findings, &line.line, pinned, hashed)
}

// What the lines lack that are of these files.
fn push_lacking_of_lines(
    alloc: Global,
    findings: &mut Vec<Finding>,
    files: &HashMap<&[u8], ()>,
    names: &SecuredNames<'_>,
    lines: &[Demand],
) -> Result<(), AllocError>
    ensures { IfOk result (λ _. AddsFindings findings.old.items findings.new.items
        (flat_map (lacking_by (is_known_name files.now) (is_known_name names.now.pinned) (is_known_name names.now.hashed)) (map demand_of lines.now))) }
{
    for line in lines {
        push_lacking_of_line(alloc, findings, files, names, line)?;
    }
    Ok(())
}

// Adds what requirements lack in files in which a line wants hashes: a pin, or a hash.
pub(crate) fn push_hash_findings(
    alloc: Global,
    findings: &mut Vec<Finding>,
    lines: &[FileLine],
    demands: &[Demand],
) -> Result<(), AllocError>
    ensures { IfOk result (λ _. AddsFindings findings.old.items findings.new.items
        (lacks_hashes (map file_line_of lines.now) (map demand_of demands.now))) }
{
    if !want_hashes(lines) || waive_hashes(lines) {
        return Ok(());
    }
    let files = hashed_files(alloc, lines)?;
    let names = SecuredNames::new(alloc, demands)?;
    push_lacking_of_lines(alloc, findings, &files, &names, demands)
}
