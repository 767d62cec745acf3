//! What holds of requirements and of the newest candidate, as contracts of functions that do nothing.
ghost use Rattle.std.specs.Prelude.{◌≡◌, ◌⊎◌, ℕ, List, Option};
ghost use Rattle.pep440_pick.specs.Newest.{Newest};
ghost use Rattle.pep440_pick.specs.RequirementGrammar.{DerivesRequirement, Needed, RejectsRequirement, RequirementRejection};
ghost use Rattle.pep440_rs.specs.Specifiers.{Spec};
ghost use Rattle.pep440_version.specs.Record.{Record};

/// A string denotes at most one requirement.
pub fn means_one()
    ensures { (text : List ℕ) (n m : Needed) → DerivesRequirement text n → DerivesRequirement text m → n ≡ m }
{}

/// A string either denotes a requirement or is rejected with exactly one error, never both.
pub fn refused_once()
    ensures one { (text : List ℕ) (f g : RequirementRejection) → RejectsRequirement text f → RejectsRequirement text g → f ≡ g }
    ensures either { (text : List ℕ) → ((n : Needed) × DerivesRequirement text n) ⊎ ((f : RequirementRejection) × RejectsRequirement text f) }
    ensures derived { (text : List ℕ) (n : Needed) (f : RequirementRejection) → DerivesRequirement text n → RejectsRequirement text f → ⊥ }
{}

/// There is exactly one newest candidate, or there is none.
pub fn newest_once()
    ensures { (lists : List (List Spec)) (candidates : List Record) (a b : Option ℕ) → Newest lists candidates a
        → Newest lists candidates b → a ≡ b }
{}
