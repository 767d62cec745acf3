//! What holds of the literal rule and of sets, each as the contract of a function that does nothing.
ghost use Rattle.std.specs.Prelude.{◌≢◌};
ghost use Rattle.pep440_rs.specs.Denoted.{IsDenotable};
ghost use Rattle.pep440_rs.specs.Specifiers.{Spec};
ghost use Rattle.pep440_rs.specs.declared.specifier.operator.Operator.TheVariants.{ExactEqual};
ghost use Rattle.pep440_sets.specs.LiteralLaws.{AgreesElsewhere, IsWider, RangeAgreesLiterally};
ghost use Rattle.pep440_sets.specs.Sets.{HoldsMatches};

/// What a specifier contains, it matches literally; and but for two cases it matches nothing else literally.
pub fn literal_rule()
    ensures wider { IsWider }
    ensures elsewhere { AgreesElsewhere }
{}

/// The range of a specifier holds the versions without local part that match literally, unless it is `===` or `<` of a post-release that
/// has neither a pre-release nor a dev part.
pub fn ranges_agree()
    ensures { RangeAgreesLiterally }
{}

/// The set of a specifier with another operator than `===` holds exactly the versions that match literally.
pub fn sets_hold_matches()
    ensures { (s : Spec) → IsDenotable s → s.operator ≢ ExactEqual → HoldsMatches s }
{}
