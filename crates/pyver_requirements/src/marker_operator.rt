//! Operators of environment markers.
ghost use Rattle.std.specs.Prelude.{◌≡◌, codes};
ghost use Rattle.pyver_requirements.specs.MarkerTerms.{mirrored, marker_operator_text};

/// An operator of an environment marker.
#[derive(Clone, Copy, PartialEq, Eq)]
pub enum MarkerOperator {
    Less,
    LessOrEqual,
    NotEqual,
    Equal,
    GreaterOrEqual,
    Greater,
    Compatible,
    Arbitrary,
    In,
    NotIn,
}

impl MarkerOperator {
    /// How the operator is written. Never allocates.
    pub fn text(self) -> &'static str
        ensures { result.now ≡ marker_operator_text self }
    {
        match self {
            MarkerOperator::Less => "<",
            MarkerOperator::LessOrEqual => "<=",
            MarkerOperator::NotEqual => "!=",
            MarkerOperator::Equal => "==",
            MarkerOperator::GreaterOrEqual => ">=",
            MarkerOperator::Greater => ">",
            MarkerOperator::Compatible => "~=",
            MarkerOperator::Arbitrary => "===",
            MarkerOperator::In => "in",
            MarkerOperator::NotIn => "not in",
        }
    }

    // The operator with both sides exchanged, if there is one.
    pub(crate) fn mirror(self) -> Option<MarkerOperator>
        ensures { result ≡ mirrored self }
    {
        match self {
            MarkerOperator::Less => Some(MarkerOperator::Greater),
            MarkerOperator::LessOrEqual => Some(MarkerOperator::GreaterOrEqual),
            MarkerOperator::NotEqual => Some(MarkerOperator::NotEqual),
            MarkerOperator::Equal => Some(MarkerOperator::Equal),
            MarkerOperator::GreaterOrEqual => Some(MarkerOperator::LessOrEqual),
            MarkerOperator::Greater => Some(MarkerOperator::Less),
            _ => None,
        }
    }
}
