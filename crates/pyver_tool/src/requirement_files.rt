//! The files that `check` reads: those that the words name, those that the lines of requirements files name, and locks.
ghost use Rattle.std.specs.Prelude.{◌≡◌, ◌⊎◌, ◌∷◌, ◌++◌, [], IfErr, IfOk, map, string_bytes};
ghost use Rattle.pyver_tool.specs.RequirementFiles.{FailsInFiles, FailsInNames, FailsInSearch, FailsInSearches, GainsFile, GainsUnopened, HasReads, IsSourcePath, ReadsFiles, ReadsNames, ReadsStep, SeeksFirst, SeeksInTurn, SeeksName, StepsOrFailsOpening, file_with, has_path, lock_searches, names_of_files, none_read, read_of, search_of, word_file};
ghost use Rattle.pyver_commands.specs.Sources.{is_input, source_names};
ghost use Rattle.pyver_findings.specs.Views.{named_file_of};

use crate::lock_search::{LockSearch, list_searches};
use crate::options::FileKind;
use pyver_commands::{Files, OpenFailure, RunFailure, is_input, read_by_name};
use pyver_documents::Document;
use pyver_findings::{NamedFile, SourceFile, push_named_files};
use std::alloc::{AllocError, Global};
use std::io::Read;
use std::str;

// Files that were read, by their kinds, and the names that were met.
#[derive(Drop)]
pub(crate) struct RequirementFiles {
    pub(crate) requirements: Vec<SourceFile>,
    pub(crate) documents: Vec<Document>,
    // The path of each of them.
    paths: Vec<String>,
    // First those of the words, and then those that the lines of each file name.
    names: Vec<NamedFile>,
    pub(crate) unopened: Vec<UnopenedFile>,
    read_count: u64,
}

// A file that was not opened.
#[derive(Drop)]
pub(crate) struct UnopenedFile {
    pub(crate) named: NamedFile,
    pub(crate) failure: OpenFailure,
}

fn push_word(alloc: Global, names: &mut Vec<NamedFile>, word: &[u8]) -> Result<(), AllocError>
    ensures { IfOk result (λ _. map named_file_of names.new.items ≡ map named_file_of names.old.items ++ word_file word.now ∷ []) }
{
    names.push(NamedFile {
        name: Vec::from_slice(alloc, word)?,
        position: None,
    })?;
    Ok(())
}

fn push_words(alloc: Global, names: &mut Vec<NamedFile>, words: &[String]) -> Result<(), AllocError>
    ensures { IfOk result (λ _. map named_file_of names.new.items ≡ map named_file_of names.old.items ++ map word_file (map string_bytes words.now)) }
{
    for word in words {
        push_word(alloc, names, word.as_bytes())?;
    }
    Ok(())
}

// The files that the words name, or standard input where there are none.
fn push_sources(
    alloc: Global,
    names: &mut Vec<NamedFile>,
    words: &[String],
) -> Result<(), AllocError>
    ensures { IfOk result (λ _. map named_file_of names.new.items ≡ map named_file_of names.old.items ++ map word_file (source_names (map string_bytes words.now))) }
{
    match words {
        [] => push_word(alloc, names, b"-"),
        [_, ..] => push_words(alloc, names, words),
    }
}

// The path of the source: of standard input its name.
fn source_path<F: Files>(alloc: Global, name: &str, files: &mut F) -> Result<String, AllocError>
    ensures path { IfOk result (λ path. IsSourcePath (is_input name.now) (F.path files.old name.now) name.now (string_bytes path)) }
    ensures kept { F.known files.new ≡ F.known files.old }
    ensures kept_paths { F.path files.new ≡ F.path files.old }
{
    if is_input(name) {
        name.to_string(alloc)
    } else {
        files.canonical_path(alloc, name)
    }
}

impl RequirementFiles {
    ghost use Rattle.pyver_tool.specs.SplitWords.{kind_by_name};
    ghost use Rattle.pyver_commands.specs.Sources.SourceTexts.{FailsInText};

    // Nothing was read yet.
    fn new(alloc: Global, names: Vec<NamedFile>) -> RequirementFiles
        ensures read { read_of result ≡ none_read }
        ensures names { names_of_files result ≡ map named_file_of names.items }
        ensures count { result.read_count ≡ 0 }
    {
        RequirementFiles {
            requirements: Vec::new(alloc),
            documents: Vec::new(alloc),
            paths: Vec::new(alloc),
            names,
            unopened: Vec::new(alloc),
            read_count: 0,
        }
    }

    // A source with the path was read.
    fn has_path(&self, path: &str) -> bool
        ensures { result ≡ has_path (read_of self.now) path.now }
    {
        for other in &self.paths {
            if path == other.as_str() {
                return true;
            }
        }
        false
    }

    // A file that was read, of this kind unless it has one by name.
    fn push_file(
        &mut self,
        alloc: Global,
        kind: FileKind,
        name: &str,
        path: String,
        text: Vec<u8>,
    ) -> Result<(), AllocError>
        ensures gains { IfOk result (λ _. GainsFile (kind_by_name kind name.now) self.old self.new (file_with name.now text.items) (string_bytes path)) }
        ensures count { IfOk result (λ _. self.new.read_count ≡ self.old.read_count) }
    {
        let kind = kind.by_name(name.as_bytes());
        let name = Vec::from_slice(alloc, name.as_bytes())?;
        let file = SourceFile { name, text };
        self.paths.push(path)?;
        match kind {
            FileKind::Requirements => {
                push_named_files(alloc, &mut self.names, &file)?;
                self.requirements.push(file)?;
            }
            FileKind::Document(kind) => self.documents.push(Document { kind, file })?,
        }
        Ok(())
    }

    // Reads the source with this name, unless it was read before, or returns why it is not opened.
    fn read_once<F: Files, R: Read>(
        &mut self,
        alloc: Global,
        kind: FileKind,
        name: &str,
        files: &mut F,
        input: &mut R,
    ) -> Result<Option<OpenFailure>, RunFailure>
        requires { HasReads self.old }
        ensures read { IfOk result (StepsOrFailsOpening kind (F.known files.old) (F.path files.old) R.remaining name.now self.old self.new input.old input.new) }
        ensures stopped { IfErr result (FailsInText (F.known files.old) R.remaining name.now input.old input.new) }
        ensures kept { F.known files.new ≡ F.known files.old }
        ensures kept_paths { F.path files.new ≡ F.path files.old }
    {
        let path = source_path(alloc, name, files)?;
        if self.has_path(path.as_str()) {
            return Ok(None);
        }
        match read_by_name(alloc, name, &mut self.read_count, files, input)? {
            Ok(text) => {
                self.push_file(alloc, kind, name, path, text)?;
                Ok(None)
            }
            Err(failure) => Ok(Some(failure)),
        }
    }

    // Reads the source with this name, unless it was read before, or returns why it is not opened; a name that is not UTF-8 is not.
    fn read_next<F: Files, R: Read>(
        &mut self,
        alloc: Global,
        kind: FileKind,
        name: &[u8],
        files: &mut F,
        input: &mut R,
    ) -> Result<Option<OpenFailure>, RunFailure>
        requires { HasReads self.old }
        ensures read { IfOk result (StepsOrFailsOpening kind (F.known files.old) (F.path files.old) R.remaining name.now self.old self.new input.old input.new) }
        ensures stopped { IfErr result (FailsInText (F.known files.old) R.remaining name.now input.old input.new) }
        ensures kept { F.known files.new ≡ F.known files.old }
        ensures kept_paths { F.path files.new ≡ F.path files.old }
    {
        match str::from_utf8(name) {
            Ok(name) => self.read_once(alloc, kind, name, files, input),
            Err(_) => Ok(Some(OpenFailure::Other)),
        }
    }

    // One more that was not opened.
    fn push_unopened_file(
        &mut self,
        named: NamedFile,
        failure: OpenFailure,
    ) -> Result<(), AllocError>
        ensures { IfOk result (λ _. GainsUnopened self.old self.new (named_file_of named) failure) }
    {
        self.unopened.push(UnopenedFile { named, failure })?;
        Ok(())
    }

    // Reads the source with this name, unless it was read before or is not opened.
    fn read_file<F: Files, R: Read>(
        &mut self,
        alloc: Global,
        kind: FileKind,
        named: NamedFile,
        files: &mut F,
        input: &mut R,
    ) -> Result<(), RunFailure>
        requires { HasReads self.old }
        ensures read { IfOk result (λ _. ReadsStep kind (F.known files.old) (F.path files.old) R.remaining (named_file_of named) self.old self.new input.old input.new) }
        ensures stopped { IfErr result (FailsInText (F.known files.old) R.remaining (named_file_of named).name input.old input.new) }
        ensures kept { F.known files.new ≡ F.known files.old }
        ensures kept_paths { F.path files.new ≡ F.path files.old }
    {
        match self.read_next(alloc, kind, named.name.as_slice(), files, input)? {
            None => Ok(()),
            Some(failure) => Ok(self.push_unopened_file(named, failure)?),
        }
    }

    // Reads the sources with the names in turn, and those that are named on the way.
    fn read_all<F: Files, R: Read>(
        &mut self,
        alloc: Global,
        kind: FileKind,
        files: &mut F,
        input: &mut R,
    ) -> Result<(), RunFailure>
        requires new { (read_of self.old ≡ none_read) × (self.old.read_count ≡ 0) }
        ensures read { IfOk result (λ _. ReadsNames kind (F.known files.old) (F.path files.old) R.remaining (names_of_files self.old) input.old input.new (read_of self.new)) }
        ensures reads { IfOk result (λ _. HasReads self.new) }
        ensures stopped { IfErr result (FailsInNames kind (F.known files.old) (F.path files.old) R.remaining (names_of_files self.old) input.old input.new) }
        ensures kept { F.known files.new ≡ F.known files.old }
        ensures kept_paths { F.path files.new ≡ F.path files.old }
    {
        let mut index = 0;
        let mut count = self.names.len();
        while index < count {
            let named = self.names[index].clone()?;
            self.read_file(alloc, kind, named, files, input)?;
            index += 1;
            count = self.names.len();
        }
        Ok(())
    }

    // Reads the file with this name, unless one with its path was read before or it is not opened, and returns whether it is there.
    fn seek_name<F: Files, R: Read>(
        &mut self,
        alloc: Global,
        kind: FileKind,
        name: &[u8],
        files: &mut F,
        input: &mut R,
    ) -> Result<bool, RunFailure>
        requires { HasReads self.old }
        ensures read { IfOk result (SeeksName kind (F.known files.old) (F.path files.old) R.remaining name.now self.old self.new input.old input.new) }
        ensures stopped { IfErr result (FailsInText (F.known files.old) R.remaining name.now input.old input.new) }
        ensures kept { F.known files.new ≡ F.known files.old }
        ensures kept_paths { F.path files.new ≡ F.path files.old }
    {
        match self.read_next(alloc, kind, name, files, input)? {
            None => Ok(true),
            Some(OpenFailure::NotFound) => Ok(false),
            Some(failure) => {
                let name = Vec::from_slice(alloc, name)?;
                let position = None;
                self.push_unopened_file(NamedFile { name, position }, failure)?;
                Ok(true)
            }
        }
    }

    // Reads the first of the files that is there.
    fn seek_first<F: Files, R: Read>(
        &mut self,
        alloc: Global,
        kind: FileKind,
        search: &LockSearch,
        files: &mut F,
        input: &mut R,
    ) -> Result<(), RunFailure>
        requires { HasReads self.old }
        ensures read { IfOk result (λ _. SeeksFirst kind (F.known files.old) (F.path files.old) R.remaining (search_of search.now) (read_of self.old) (read_of self.new) input.old input.new) }
        ensures reads { IfOk result (λ _. HasReads self.new) }
        ensures stopped { IfErr result (FailsInSearch kind (F.known files.old) (F.path files.old) R.remaining (search_of search.now) input.old input.new) }
        ensures kept { F.known files.new ≡ F.known files.old }
        ensures kept_paths { F.path files.new ≡ F.path files.old }
    {
        for name in &search.names {
            if self.seek_name(alloc, kind, name.as_slice(), files, input)? {
                return Ok(());
            }
        }
        Ok(())
    }

    // Reads the locks of the projects that were read.
    fn seek_locks<F: Files, R: Read>(
        &mut self,
        alloc: Global,
        kind: FileKind,
        files: &mut F,
        input: &mut R,
    ) -> Result<(), RunFailure>
        requires { HasReads self.old }
        ensures read { IfOk result (λ _. SeeksInTurn kind (F.known files.old) (F.path files.old) R.remaining (lock_searches (read_of self.old).documents) (read_of self.old) (read_of self.new) input.old input.new) }
        ensures stopped { IfErr result (λ why. ((why ≡ RunFailure.OutOfMemory) × (input.new ≡ input.old))
            ⊎ FailsInSearches kind (F.known files.old) (F.path files.old) R.remaining (lock_searches (read_of self.old).documents) (read_of self.old) input.old input.new why) }
        ensures kept { F.known files.new ≡ F.known files.old }
        ensures kept_paths { F.path files.new ≡ F.path files.old }
    {
        let searches = list_searches(alloc, self.documents.as_slice())?;
        for search in &searches {
            self.seek_first(alloc, kind, search, files, input)?;
        }
        Ok(())
    }
}

// Reads the files that the words name, then those that their lines name, and then locks, if they are sought, each once.
pub(crate) fn read_files<F: Files, R: Read>(
    alloc: Global,
    kind: FileKind,
    seeks_locks: bool,
    words: &[String],
    files: &mut F,
    input: &mut R,
) -> Result<RequirementFiles, RunFailure>
    ensures read { IfOk result (λ state. ReadsFiles kind (F.known files.old) (F.path files.old) R.remaining seeks_locks (source_names (map string_bytes words.now)) input.old input.new (read_of state)) }
    ensures stopped { IfErr result (FailsInFiles kind (F.known files.old) (F.path files.old) R.remaining seeks_locks (source_names (map string_bytes words.now)) input.old input.new) }
    ensures kept { F.known files.new ≡ F.known files.old }
    ensures kept_paths { F.path files.new ≡ F.path files.old }
{
    let mut names = Vec::new(alloc);
    push_sources(alloc, &mut names, words)?;
    let mut state = RequirementFiles::new(alloc, names);
    state.read_all(alloc, kind, files, input)?;
    if !seeks_locks {
        return Ok(state);
    }
    state.seek_locks(alloc, kind, files, input)?;
    Ok(state)
}
