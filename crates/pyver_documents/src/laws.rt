//! What holds of reports of documents, as the contract of a function that does nothing.
ghost use Rattle.pyver_documents.specs.DocumentLaws.{DocumentFindingsHold, NoFindingImpliesContained, NoFindingImpliesSatisfiable, DocumentReportsOnce};

/// What is reported by itself is a string of a project that is not what it is to be there, a group that is invalid, a package whose version
/// is none or is not that in the name of one of its files, a package whose name and marker another has, too, or a dependency on two, if the
/// format has one, a document that is not TOML in UTF-8, or a requirement whose name no package of some lock has, or which in some
/// environment no package meets that the lock does not leave out, or a lock that is for other Pythons than the project in its folder, or a requirement of a project that the lock in its folder does not have, or one that this has for the project, which does not have it.
/// Lines that are
/// reported together belong to a requirement, of a project or of a package in the same lock, and to packages of its name, none of whose
/// versions it contains, or to requirements of a project that hold together, have no version in common, and have one without any one of them.
///
/// Allocates nothing.
pub fn findings_hold()
    ensures { DocumentFindingsHold }
{}

/// Where nothing is reported, each requirement of a project without a marker and a URL, but of its build, contains a version of its
/// name in each lock that counts for it, does not leave its part out, and has one, unless the project overrides the name. Each requirement of a locked package that is read
/// and is in PEP 440's syntax contains a version of its name in the same lock, if there is one and no project overrides it; and in each environment that is known some package meets it that the lock does not
/// leave out, if there is a project, none has this name, and it is none of setuptools, distribute, pip and wheel.
/// Each file of a locked package from an index, in whose name a version is read, has one that `==` with the package's version matches.
/// No package has the name, the extras and the marker of another, if the format has markers, and no dependency of `uv.lock` is on two.
/// Where `uv.lock` names requirements of the project in its folder, each requirement of the project is among them, by name and list, and each of them is one of the project,
/// unless it has a source of its own, the project has no name, or its dependencies or extras are dynamic or in tables of other tools.
///
/// The requirements of a project that hold together, of one name and without a marker, have a version
/// in common: its dependencies, with what Poetry's tables ask for; these with an extra; a group with all that it includes, and with these if there is a table `tool.uv` or
/// `tool.poetry`; and what its build requires. If nothing is undecided, those that ask in an environment for which the project is have one, too.
///
/// Allocates nothing.
pub fn no_finding_means_agreement()
    ensures contained { NoFindingImpliesContained }
    ensures satisfiable { NoFindingImpliesSatisfiable }
{}

/// Documents that are TOML in UTF-8 have at most one report in which nothing is undecided.
///
/// Allocates nothing.
pub fn reports_once()
    ensures { DocumentReportsOnce }
{}
