//! Why something is left out.

/// Why a line is left out, or lines of one name under several markers.
#[derive(Clone, Copy, Debug, PartialEq, Eq)]
pub enum Cause {
    /// `-e` or `--editable`.
    Editable,
    /// Another option of pip.
    PipOption,
    /// A line with `${NAME}`.
    Variable,
    /// A path or an archive, or a URL without a name.
    Location,
    /// A name with a URL, or a URL of another file.
    Url,
    /// A requirement whose list of versions is not one of PEP 440, as `^1.0 || ^2.0` of Poetry.
    OtherSyntax,
    /// A table of a project that is known to hold requirements and is not read.
    OtherTable,
    /// Of some markers of one name it is not known whether they hold in one environment, or the name has more than 32, or too many sets.
    Undecided,
}
