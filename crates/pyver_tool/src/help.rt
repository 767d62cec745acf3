//! The help of the program and of its commands.
ghost use Rattle.std.specs.Prelude.{◌≡◌};
ghost use Rattle.pyver_tool.specs.Tasks.{help_text, help_words, usage};

// What help is about.
#[derive(Clone, Copy)]
pub(crate) enum Topic {
    Program,
    Compare,
    Match,
    Filter,
    Sort,
    Newest,
    Show,
    Bump,
    Range,
    Marker,
    Check,
}

const PROGRAM_USAGE: &str = "pyver COMMAND [WORD]..";

const COMPARE_USAGE: &str = "pyver compare A OP B";

const MATCH_USAGE: &str = "pyver match [-q] [--pre | --no-pre] SPECS V..";

const FILTER_USAGE: &str =
    "pyver filter [-v] [--pre | --no-pre] [-k N] [-d C] [--header] [--invalid HOW] SPECS [FILE..]";

const SORT_USAGE: &str =
    "pyver sort [-r] [-u] [-n K] [-k N] [-d C] [--header] [--invalid HOW] [FILE..]";

const NEWEST_USAGE: &str =
    "pyver newest [--pre | --no-pre] [-k N] [-d C] [--header] [--invalid HOW] SPECS [FILE..]";

const SHOW_USAGE: &str = "pyver show [--part PART | --json] V..";

const BUMP_USAGE: &str = "pyver bump [--to N] PART.. [V]";

const RANGE_USAGE: &str = "pyver range [--json] SPECS..";

const MARKER_USAGE: &str = "pyver marker [--any-system] MARKER [MARKER]";

const CHECK_USAGE: &str =
    "pyver check [-q] [--each] [--no-lock] [--format KIND] [--output FORM | --json] [FILE..]";

pub(crate) const VERSION_LINE: &str = "pyver 0.3.0\n";

const PROGRAM_HELP: &str = "usage: pyver COMMAND [WORD]..

Python versions and version specifiers (PEP 440) for people and for shell scripts.

commands:
  compare A OP B     compare two versions (exit status 0 or 1)
  match SPECS V..    test versions against specifiers
  filter SPECS       print the lines whose version the specifiers allow
  sort               sort lines by version
  newest SPECS       print the line with the newest version allowed
  show V..           print versions in normal form, or their parts
  bump PART.. [V]    raise parts of a version
  range SPECS..      print the range that all specifiers allow
  marker MARKER      print an environment in which the marker holds
  check              check requirements files, projects and locks

'pyver COMMAND --help' explains a command. '--version' prints the program's version.
The exit status is 0 for yes or done, 1 for no, 2 for a wrong use or an invalid version,
3 if out of memory and 4 if a read or a write failed.

examples:
  pyver compare 1.9 lt 1.10 && echo older
  pyver match '>=1.16,<2.0' 1.19
  git tag | pyver sort -n 3 --invalid skip
  git tag | pyver newest --invalid skip '<2.0'
  pyver bump minor 1.19
  pyver range '>=1,<2' '>=1.5'
  pyver marker 'python_version >= \"3.8\"' 'os_name == \"nt\"'
  pyver check requirements.txt
";

const COMPARE_HELP: &str = "usage: pyver compare A OP B

examples:
  pyver compare 1.9 lt 1.10 && echo older
  pyver compare 1.0 '==' v1.0.0

Prints nothing: the exit status is 0 if the comparison holds, and 1 if it does not.
OP is lt, le, eq, ne, ge or gt, or <, <=, ==, !=, >= or > in quotes. Local parts count.
";

const MATCH_HELP: &str = "usage: pyver match [-q] [--pre | --no-pre] SPECS V..

examples:
  pyver match '>=1.16,<2.0' 1.19 2.0
  pyver match -q --pre '>=2.0rc1' 2.0rc2 && echo allowed

Prints 'yes' or 'no', a tab and the version, a line for each. The exit status is 0 if all are
allowed, 1 if one is not, and 2 if one is not a version. '' allows any version.
Pre-releases and dev releases are left out, unless a specifier other than != has such a version.

options:
  -q, --quiet  print nothing
  --pre        allow pre-releases and dev releases too
  --no-pre     allow none of them
  --           end of options
";

const FILTER_HELP: &str =
    "usage: pyver filter [-v] [--pre | --no-pre] [-k N] [-d C] [--header] [--invalid HOW] SPECS [FILE..]

examples:
  pyver filter '>=1.0,<2.0,!=1.5.*' versions.txt more.txt
  git tag | pyver filter --pre --invalid skip ''
  pyver filter -d , -k 2 --header '>=1.0' < packages.csv

Prints the lines of the files whose version the specifiers allow, as they were written and as they
come. '-' and no file mean standard input. '' allows any version. Blank lines, a byte
order mark before the first line and carriage returns at line ends are dropped.
HOW is error, skip or keep. With error, the default, standard error names each invalid line by file
and number, the first 20 and then how many more there are, and the exit status is 2 at the end. skip
only counts them at the end, and keep says nothing; neither changes the status. filter stops at a
file that cannot be opened, and reads nothing if a file is also the output: the exit status is 2.
Pre-releases and dev releases are left out, unless a specifier other than != has such a version.
They are left out too if nothing else is allowed: that is not known before the last line.
Every byte C ends a field: quotes have no meaning.

options:
  -v, --invert-match  print the other lines, but no invalid ones
  --pre               allow pre-releases and dev releases too
  --no-pre            allow none of them
  -k, --field N       the version is field N, counted from 1, and not the whole line
  -d, --delimiter C   the byte between fields, an ASCII character; without -d a tab
  --header            the first line of a file is a header; print only the first one
  --invalid HOW       what to do with invalid lines
  --                  end of options
";

const SORT_HELP: &str =
    "usage: pyver sort [-r] [-u] [-n K] [-k N] [-d C] [--header] [--invalid HOW] [FILE..]

examples:
  pyver sort -r versions.txt more.txt
  git tag | pyver sort -u -n 3 --invalid skip
  pyver sort -d , -k 2 --header < packages.csv

Prints the lines of the files in the order of their versions, as they were written; lines of equal
versions, as 1.0 and v1.0.0, keep their order, with -r too. '-' and no file mean standard input.
Nothing is printed until all files end. Blank lines, a byte order mark before the first line and
carriage returns at line ends are dropped. HOW is error, skip or keep. With error, the default, an
invalid line stops all output: standard error names each one by file and number, the first 20 and
then how many more there are, and the exit status is 2. skip only says how many were left out. keep
prints them last, with -r too, in the order given; -n counts them, and -u keeps them all. If a file
cannot be opened, only that is reported, and the exit status is 2.
Every byte C ends a field: quotes have no meaning.

options:
  -r, --reverse      the newest first
  -u, --unique       print only the first of lines with equal versions
  -n, --last K       print only the last K lines, after the header
  -k, --field N      the version is field N, counted from 1, and not the whole line
  -d, --delimiter C  the byte between fields, an ASCII character; without -d a tab
  --header           the first line of a file is a header; print only the first one
  --invalid HOW      what to do with invalid lines
  --                 end of options
";

const NEWEST_HELP: &str =
    "usage: pyver newest [--pre | --no-pre] [-k N] [-d C] [--header] [--invalid HOW] SPECS [FILE..]

examples:
  pyver newest '<2.0' versions.txt more.txt
  git tag | pyver newest --invalid skip ''
  pyver newest -d , -k 2 --header --pre '>=1.0' < packages.csv

Prints the line with the newest version that the specifiers allow, as it was written, and the first
of lines with equal versions. '-' and no file mean standard input. '' allows any version. If none is
allowed, nothing is printed, and the exit status is 1. Blank lines, a byte order mark before the
first line and carriage returns at line ends are dropped. HOW is error, skip or keep. With error,
the default, an invalid line stops all output: standard error names each one by file and number, the
first 20 and then how many more there are, and the exit status is 2. skip only says how many were
left out, and keep says nothing. If a file cannot be opened, only that is reported, and the exit
status is 2.
Pre-releases and dev releases are left out, unless a specifier other than != has such a version, or
nothing else is allowed.
Every byte C ends a field: quotes have no meaning.

options:
  --pre              allow pre-releases and dev releases too
  --no-pre           allow none of them
  -k, --field N      the version is field N, counted from 1, and not the whole line
  -d, --delimiter C  the byte between fields, an ASCII character; without -d a tab
  --header           leave out the first line of each file
  --invalid HOW      what to do with invalid lines
  --                 end of options
";

const SHOW_HELP: &str = "usage: pyver show [--part PART | --json] V..

examples:
  pyver show v1.0-RC.1
  pyver show --part minor 1.19.2
  pyver show --json 1.0rc1 2.0+local.1

Prints the normal form of each version, or what the option asks for, a line for each. The exit
status is 0, or 2 if one is not a version: it is reported, and the others are printed.
PART is epoch, release, major, minor, micro, pre, post, dev, local, public or base. public is
all but the local part, base is epoch and release. The line of an absent pre, post, dev or
local is empty; an epoch, a minor or a micro that is not written is 0.

options:
  --part PART  print only this part
  --json       print all parts as a JSON object, numbers above 2^53 as strings
  --           end of options
";

const BUMP_HELP: &str = "usage: pyver bump [--to N] PART.. [V]

examples:
  pyver bump minor 1.2.3
  pyver bump minor alpha 1.2.3
  pyver bump --to 7 rc 2.0rc3
  git describe --tags --abbrev=0 | pyver bump patch

Prints the version with its parts raised, one after another. Without V, the version is the one line
of standard input that is not blank. The result must be greater: otherwise the reason is reported
and the exit status is 2. The local part is always dropped.
PART is major, minor, patch, stable, alpha, beta, rc, post or dev.
  major, minor, patch  raise a number of the release; those after it become 0, and the rest is dropped
  stable               the release that a pre-release or a dev release leads to: 1.0rc2 to 1.0
  alpha, beta, rc      the next pre-release of the kind, or the one that is still in development:
                       1.0a1.dev2 to 1.0a1; a version that is neither a pre-release nor a dev
                       release needs a part that names the next release before it
  post                 the next post-release, or the one that is still in development
  dev                  the next dev release, in the places of alpha

options:
  --to N  set the number of the last part
  --      end of options
";

const RANGE_HELP: &str = "usage: pyver range [--json] SPECS..

examples:
  pyver range '>=1,<2' '>=1.5'
  pyver range '>=1.16,!=1.18' '<2' '~=1.17'

Prints the versions that all lists allow, a line for each interval of their order: [1.0, 2.0.dev0)
begins with 1.0, and ends before the first developmental release of 2.0. An interval begins with (
above the post-releases of a version, which are written 1.0.post*, or just above a version with a
local part; it ends with ] after them. * is no bound: the set of '' is (*, *). Pre-releases and local
versions are not left out. Of equal versions, as 1.0 and 1.0.0, the shorter one is printed.
The exit status is 0, 1 if no version is in all lists, and 2 if one is not a list.

A list with ===, which compares how versions are written, allows at most one version, and that is
printed. If no version is in all lists, 'no version' is printed.

options:
  --json  print an array of intervals; without a version it is []
  --      end of options
";

const MARKER_HELP: &str = "usage: pyver marker [--any-system] MARKER [MARKER]

examples:
  pyver marker 'python_version >= \"3.8\" and python_version < \"3.8\"'
  pyver marker 'python_version >= \"3.8\"' 'sys_platform == \"win32\"'

Prints an environment in which the environment marker holds, or both do, as a marker: wherever the
variables are so, they hold. Otherwise 'always' is printed, if they hold in some environment and are
false in none, or 'nowhere', and the exit status is 1. If a word is no marker, or if nothing of this
could be shown, standard error says so, and the exit status is 2.
In an environment python_version is the first two numbers of python_full_version, and os_name,
sys_platform and platform_system are the names of one system; other variables are independent.

options:
  --any-system  os_name, sys_platform and platform_system are independent, too
  --            end of options
";

const CHECK_HELP: &str =
    "usage: pyver check [-q] [--each] [--no-lock] [--format KIND] [--output FORM | --json] [FILE..]

examples:
  pyver check requirements.txt
  pyver check lock.txt constraints.txt
  pyver check pyproject.toml
  git show HEAD:uv.lock | pyver check --no-lock --format uv pyproject.toml -
  pyver check --each */requirements.txt
  pip freeze | pyver check --json
  pyver check --output github requirements.txt

Prints what is wrong in requirements files: lines that are no requirements, lines that no version
satisfies together, and versions that one line names and another excludes. '-' and no file mean
standard input. Files that lines name after -r and -c are read too, each once; their paths are
relative to the file that names them. Lines count together where all their markers hold.
A file named pyproject.toml is read as a project, one named pylock.toml, pylock.NAME.toml, uv.lock,
poetry.lock or pdm.lock as a lock: malformed strings are reported, requirements that no version
satisfies together, and, for each lock that belongs to a project, versions that it excludes and names
the lock lacks. A lock belongs to the project in its folder, and uv.lock to the members that it names;
each but pylock.NAME.toml is sought there, and uv.lock in the folders above that the path names, too.
'uv lock --check', 'poetry check --lock' and 'pdm lock --check' tell whether a project was changed and
not locked again; 'pipenv verify' checks a Pipfile.
KIND is requirements, pyproject, pylock, uv, poetry or pdm. FORM is text, json, github or
sarif: github prints commands that GitHub Actions shows at the lines, sarif a log of SARIF 2.1.0.
Standard error says how much was read, and how much was left out: options of pip, editables, paths,
archives, URLs, and lines with a variable. The exit status is 0 if nothing is wrong, 1 if something
is, and 2 if a file cannot be opened; the other files are checked all the same.

options:
  -q, --quiet    print nothing; files that cannot be opened are named
  --each         check each file by itself, with those that its lines name
  --no-lock      seek no lock of a project
  --format KIND  the kind of files that have none by name
  --output FORM  the form in which what is wrong is printed; without it text
  --json         --output json: an array of objects
  --             end of options
";

// What the help says.
pub(crate) fn help(topic: Topic) -> &'static str
    ensures { result.now ≡ help_text topic }
{
    match topic {
        Topic::Program => PROGRAM_HELP,
        Topic::Compare => COMPARE_HELP,
        Topic::Match => MATCH_HELP,
        Topic::Filter => FILTER_HELP,
        Topic::Sort => SORT_HELP,
        Topic::Newest => NEWEST_HELP,
        Topic::Show => SHOW_HELP,
        Topic::Bump => BUMP_HELP,
        Topic::Range => RANGE_HELP,
        Topic::Marker => MARKER_HELP,
        Topic::Check => CHECK_HELP,
    }
}

// The words that print the help.
pub(crate) fn help_words(topic: Topic) -> &'static str
    ensures { result.now ≡ help_words topic }
{
    match topic {
        Topic::Program => "pyver --help",
        Topic::Compare => "pyver compare --help",
        Topic::Match => "pyver match --help",
        Topic::Filter => "pyver filter --help",
        Topic::Sort => "pyver sort --help",
        Topic::Newest => "pyver newest --help",
        Topic::Show => "pyver show --help",
        Topic::Bump => "pyver bump --help",
        Topic::Range => "pyver range --help",
        Topic::Marker => "pyver marker --help",
        Topic::Check => "pyver check --help",
    }
}

// The words that are to be given.
pub(crate) fn usage(topic: Topic) -> &'static str
    ensures { result.now ≡ usage topic }
{
    match topic {
        Topic::Program => PROGRAM_USAGE,
        Topic::Compare => COMPARE_USAGE,
        Topic::Match => MATCH_USAGE,
        Topic::Filter => FILTER_USAGE,
        Topic::Sort => SORT_USAGE,
        Topic::Newest => NEWEST_USAGE,
        Topic::Show => SHOW_USAGE,
        Topic::Bump => BUMP_USAGE,
        Topic::Range => RANGE_USAGE,
        Topic::Marker => MARKER_USAGE,
        Topic::Check => CHECK_USAGE,
    }
}
