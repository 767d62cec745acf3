//! What holds of compiled bytes, as contracts of functions that do nothing.
ghost use Rattle.std.specs.Prelude.{◌≡◌, ◌↔◌, ℕ, List};
ghost use Rattle.pep440_compiled.specs.Lists.{DenotesList, IsListForm};
ghost use Rattle.pep440_compiled.specs.Version.{DenotesVersion};
ghost use Rattle.pep440_version.specs.RoundTrip.{IsParsed};
ghost use Rattle.pep440_rs.specs.Specifiers.{Spec};
ghost use Rattle.pep440_version.specs.Grammar.{Derives};
ghost use Rattle.pep440_version.specs.Record.{Record};

/// Every version that a string parses to can be compiled.
pub fn parsed_versions_compile()
    ensures { (text : List ℕ) (r : Record) → Derives text r → IsParsed r }
{}

/// Bytes denote at most one version, and a version has one compiled form: so two have the same bytes exactly when they are
/// the same record.
pub fn versions_are_exact()
    ensures one { (bytes : List ℕ) (r q : Record) → DenotesVersion bytes r → DenotesVersion bytes q → r ≡ q }
    ensures same { (a b : List ℕ) (r q : Record) → DenotesVersion a r → DenotesVersion b q → (a ≡ b) ↔ (r ≡ q) }
{}

/// Bytes denote at most one list, and a list compiles to one form: so two compile to the same bytes exactly when their members are
/// the same, in the same order.
pub fn lists_are_exact()
    ensures one { (bytes : List ℕ) (l m : List Spec) → DenotesList bytes l → DenotesList bytes m → l ≡ m }
    ensures same { (a b : List ℕ) (l m : List Spec) → IsListForm a l → IsListForm b m → (a ≡ b) ↔ (l ≡ m) }
    ensures denoted { (bytes : List ℕ) (l : List Spec) → IsListForm bytes l → DenotesList bytes l }
{}
