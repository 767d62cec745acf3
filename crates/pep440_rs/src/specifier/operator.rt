//! The comparison operators: their numbers, order, hash and string form, and the parser.
ghost use Rattle.std.specs.Prelude.{◌≡◌, ◌≢◌, Some, Ok, IfOk, IfErr, IfNone, IfSome, refl};
ghost use Rattle.std.specs.Cmp.{partial_equiv_from_equiv};
ghost use Rattle.std.specs.Ordering.{as_partial_cmp, eq_by_cmp};
ghost use Rattle.pep440_rs.specs.Errors.{operator_kind_of, unknown_of};
ghost use Rattle.pep440_rs.specs.Operators.{Spells, negated, is_star, is_exclusion, has_lower_bound, allows_local, operator_rank, operator_cmp, feed_operator, operator_text};
ghost use Rattle.pep440_rs.specs.declared.specifier.operator.Operator.TheVariants.{Equal, ExactEqual};
ghost use Rattle.pep440_rs.specs.OperatorLaws.{operator_equiv, operator_po, operator_total, operators_feed_alike};

use crate::specifier::error::{OperatorErrorKind, OperatorParseError};
use std::alloc::Global;
use std::cmp::Ordering;
use std::fmt;
use std::hash::{Hash, Hasher};

/// A comparison operator (PEP 440, "Version specifiers"). They are ordered as they stand here.
#[derive(Clone, Copy, Debug)]
pub enum Operator {
    /// `==1.2`: this version; `1.2.0` too, and `1.2+local` too, since a local part counts only if the specifier has one
    /// ("Version matching").
    Equal,
    /// `==1.2.*`: every version of this epoch whose release begins with these numbers, pre-releases too ("Version matching").
    EqualStar,
    /// `===1.2`: the version that prints as this one, so not `1.2.0` ("Arbitrary equality").
    ExactEqual,
    /// `!=1.2`: what `==1.2` does not contain ("Version exclusion").
    NotEqual,
    /// `!=1.2.*`: what `==1.2.*` does not contain ("Version exclusion").
    NotEqualStar,
    /// `~=1.2.3`: at least this version, and its release begins with `1.2` ("Compatible release").
    TildeEqual,
    /// `<1.2`: below this version, and no pre-release of `1.2` itself ("Exclusive ordered comparison").
    LessThan,
    /// `<=1.2`: this version or below it, local parts aside ("Inclusive ordered comparison").
    LessThanEqual,
    /// `>1.2`: above this version, and no post-release or local version of `1.2` itself ("Exclusive ordered comparison").
    GreaterThan,
    /// `>=1.2`: this version or above it, local parts aside ("Inclusive ordered comparison").
    GreaterThanEqual,
}

impl Operator {
    /// The operator's position in the enum, from 0: what a hasher is fed. Compiled lists store it.
    pub fn number(self) -> u8
        ensures { result ≡ operator_rank self }
    {
        match self {
            Operator::Equal => 0,
            Operator::EqualStar => 1,
            Operator::ExactEqual => 2,
            Operator::NotEqual => 3,
            Operator::NotEqualStar => 4,
            Operator::TildeEqual => 5,
            Operator::LessThan => 6,
            Operator::LessThanEqual => 7,
            Operator::GreaterThan => 8,
            Operator::GreaterThanEqual => 9,
        }
    }

    /// The operator with this number, and `None` from 10 on.
    pub fn from_number(number: u8) -> Option<Operator>
        ensures some { IfSome result (λ o. operator_rank o ≡ number) }
        ensures none { IfNone result ((o : Operator) → operator_rank o ≡ number → ⊥) }
    {
        Some(match number {
            0 => Operator::Equal,
            1 => Operator::EqualStar,
            2 => Operator::ExactEqual,
            3 => Operator::NotEqual,
            4 => Operator::NotEqualStar,
            5 => Operator::TildeEqual,
            6 => Operator::LessThan,
            7 => Operator::LessThanEqual,
            8 => Operator::GreaterThan,
            9 => Operator::GreaterThanEqual,
            _ => return None,
        })
    }

    /// The operator of the opposite comparison; `~=` has none. Negating twice gives the operator back, but for
    /// `===`, which ends at `==`.
    pub fn negate(self) -> Option<Operator>
        ensures table { result ≡ negated self }
        ensures twice { self ≢ ExactEqual → IfSome result (λ o. negated o ≡ Some self) }
        ensures exact { self ≡ ExactEqual → IfSome result (λ o. negated o ≡ Some Equal) }
    {
        match self {
            Operator::Equal | Operator::ExactEqual => Some(Operator::NotEqual),
            Operator::EqualStar => Some(Operator::NotEqualStar),
            Operator::NotEqual => Some(Operator::Equal),
            Operator::NotEqualStar => Some(Operator::EqualStar),
            Operator::TildeEqual => None,
            Operator::LessThan => Some(Operator::GreaterThanEqual),
            Operator::LessThanEqual => Some(Operator::GreaterThan),
            Operator::GreaterThan => Some(Operator::LessThanEqual),
            Operator::GreaterThanEqual => Some(Operator::LessThan),
        }
    }

    /// Whether `.*` follows the version.
    pub fn is_star(self) -> bool
        ensures { result ≡ is_star self }
    {
        matches!(self, Operator::EqualStar | Operator::NotEqualStar)
    }

    /// Whether it is `!=`, with or without a star.
    pub fn is_exclusion(self) -> bool
        ensures { result ≡ is_exclusion self }
    {
        matches!(self, Operator::NotEqual | Operator::NotEqualStar)
    }

    // Whether a specifier with this operator holds nothing below some version.
    pub(crate) fn has_lower_bound(self) -> bool
        ensures { result ≡ has_lower_bound self }
    {
        match self {
            Operator::Equal
            | Operator::EqualStar
            | Operator::ExactEqual
            | Operator::TildeEqual
            | Operator::GreaterThan
            | Operator::GreaterThanEqual => true,
            Operator::NotEqual
            | Operator::NotEqualStar
            | Operator::LessThan
            | Operator::LessThanEqual => false,
        }
    }

    // Whether a version with a local part may follow.
    pub(crate) fn allows_local(self) -> bool
        ensures { result ≡ allows_local self }
    {
        matches!(
            self,
            Operator::Equal | Operator::ExactEqual | Operator::NotEqual
        )
    }

    // How the operator is written.
    pub(crate) fn as_str(self) -> &'static str
        ensures { result.now ≡ operator_text self }
    {
        match self {
            Operator::Equal | Operator::EqualStar => "==",
            Operator::ExactEqual => "===",
            Operator::NotEqual | Operator::NotEqualStar => "!=",
            Operator::TildeEqual => "~=",
            Operator::LessThan => "<",
            Operator::LessThanEqual => "<=",
            Operator::GreaterThan => ">",
            Operator::GreaterThanEqual => ">=",
        }
    }

    /// The operator that the string is: one of `~=`, `==`, `!=`, `<=`, `>=`, `<`, `>` and `===`, and never a star
    /// form. Any other string is rejected as `Unknown`.
    ///
    /// Allocates only for `Unknown`, and may then return `OutOfMemory` in its place.
    #[inline(always)]
    pub fn from_str(alloc: Global, text: &str) -> Result<Operator, OperatorParseError>
        // What is returned is written so.
        ensures found { IfOk result (λ o. Spells text.now o) }
        // What is written so is returned.
        ensures only { (o : Operator) → Spells text.now o → result ≡ Ok o }
        // The error names the string.
        ensures refused { IfErr result (λ e. IfSome (unknown_of (operator_kind_of e)) (λ got. got ≡ text.now)) }
    {
        match text {
            "==" => Ok(Operator::Equal),
            "===" => Ok(Operator::ExactEqual),
            "!=" => Ok(Operator::NotEqual),
            "~=" => Ok(Operator::TildeEqual),
            "<" => Ok(Operator::LessThan),
            "<=" => Ok(Operator::LessThanEqual),
            ">" => Ok(Operator::GreaterThan),
            ">=" => Ok(Operator::GreaterThanEqual),
            _ => Err(reject_unknown(alloc, text)),
        }
    }
}

// The error of a string that is no operator.
fn reject_unknown(alloc: Global, text: &str) -> OperatorParseError
    ensures { IfSome (unknown_of (operator_kind_of result)) (λ got. got ≡ text.now) }
{
    OperatorParseError::from(match String::from_str(alloc, text) {
        Ok(got) => OperatorErrorKind::Unknown { got },
        Err(_) => OperatorErrorKind::OutOfMemory,
    })
}

impl PartialEq for Operator {
    ghost eq = { eq_by_cmp operator_cmp };

    ghost laws = { partial_equiv_from_equiv operator_equiv };

    fn eq(&self, other: &Operator) -> bool {
        self.cmp(other) == Ordering::Equal
    }
}

impl Eq for Operator {
    ghost laws = { operator_equiv };
}

impl PartialOrd for Operator {
    ghost partial_cmp = { as_partial_cmp operator_cmp };

    ghost laws = { operator_po };

    fn partial_cmp(&self, other: &Operator) -> Option<Ordering> {
        Some(self.cmp(other))
    }
}

impl Ord for Operator {
    ghost cmp = { operator_cmp };

    ghost total = { operator_total };

    ghost matches_partial_cmp = { λ a b. refl };

    ghost matches_eq = { λ a b. refl };

    fn cmp(&self, other: &Operator) -> Ordering {
        self.number().cmp(&other.number())
    }
}

impl Hash for Operator {
    ghost hash_input = { feed_operator };

    ghost respects_eq = { operators_feed_alike };

    fn hash<H: Hasher>(&self, state: &mut H) {
        state.write_u64(u64::from(self.number()));
    }
}

impl fmt::Display for Operator {
    ghost output = { λ o. Some (operator_text o) };

    ghost styled_output = { λ o _. Some (operator_text o) };

    fn fmt<W: fmt::Write>(&self, f: &mut fmt::Formatter<W>) -> fmt::Result {
        f.write_str(self.as_str())
    }
}
