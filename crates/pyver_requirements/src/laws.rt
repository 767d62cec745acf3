//! What holds of environment markers, as the contract of a function that does nothing.
ghost use Rattle.pyver_requirements.specs.MarkerReading.{MarkersAreRead, ReadMarkersAreDerived};
ghost use Rattle.pyver_requirements.specs.MarkerSteps.{ReadStepsAreDerived, StepsAreRead};

/// A text is read as a marker if and only if the grammar derives it, and then as the normal form of the marker that it denotes.
pub fn markers_have_grammar()
    ensures read { MarkersAreRead }
    ensures derived { ReadMarkersAreDerived }
{}

/// The steps of a string are read if and only if the grammar derives a marker from it, and then they are those of the marker that it denotes.
pub fn markers_have_steps()
    ensures read { StepsAreRead }
    ensures derived { ReadStepsAreDerived }
{}
