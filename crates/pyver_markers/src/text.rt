//! Comparisons of strings.
ghost use Rattle.std.specs.Prelude.{◌≡◌};
ghost use Rattle.pyver_markers.specs.MarkerComparisons.{compare_strings, occurs};

use pyver_requirements::MarkerOperator;

// Whether the bytes stand in the string, side by side.
fn occurs(part: &[u8], text: &[u8]) -> bool
    ensures { result ≡ occurs part.now text.now }
{
    let mut rest = text;
    while let [_, later @ ..] = rest {
        if rest.starts_with(part) {
            return true;
        }
        rest = later;
    }
    part.is_empty()
}

pub(crate) fn compare_strings(left: &[u8], operator: MarkerOperator, right: &[u8]) -> Option<bool>
    ensures { result ≡ compare_strings left.now operator right.now }
{
    match operator {
        MarkerOperator::Less | MarkerOperator::Greater => Some(false),
        MarkerOperator::Equal | MarkerOperator::LessOrEqual | MarkerOperator::GreaterOrEqual => {
            Some(left == right)
        }
        MarkerOperator::NotEqual => Some(left != right),
        MarkerOperator::Compatible | MarkerOperator::Arbitrary => None,
        MarkerOperator::In => Some(occurs(left, right)),
        MarkerOperator::NotIn => Some(!occurs(left, right)),
    }
}
