// The refusals of document 01's table, one case for each cause that a caller can tell apart.
#![tactic(auto)]

ghost use Rattle.std.specs.Prelude.{◌≡◌};
ghost use Rattle.refusal.specs.Number.{number_of};

use std::error::Error;
use std::fmt;

#[derive(Clone, Copy, Debug, PartialEq, Eq)]
pub enum Refusal {
    // 1: a shape breaks its limits.
    ShapeLimits,
    // 2: an attribute, bound, constant, divisor, tree, limit or count breaks its rule.
    Attribute,
    // 2: a dimension repeats, at the earlier and the later place.
    Repeat(usize, usize),
    // 3: a layout breaks its rule.
    LayoutRule,
    // 3: a station's list holds a layout twice: the station, the earlier and the later place.
    RepeatedLayout(usize, usize, usize),
    // 4: a padded size is above 2^40.
    PaddedSize,
    // 5: a point, element or offset is outside.
    Outside,
    // 6: a point, or a list of results, has the wrong length.
    WrongLength,
    // 7: a map passes a count limit.
    CountLimit,
    // 8: exact working passes +-2^62.
    WorkingLimit,
    // 9: a lent buffer is shorter than needed.
    ShortBuffer,
    // 10: no plan is admitted.
    NoPlan,
    // 12: no layout of the list makes the table.
    NoLayout,
}

// The number of a refusal in the table.
pub fn number(r: Refusal) -> u64
    ensures { result ≡ number_of r }
{
    match r {
        Refusal::ShapeLimits => 1,
        Refusal::Attribute | Refusal::Repeat(_, _) => 2,
        Refusal::LayoutRule | Refusal::RepeatedLayout(_, _, _) => 3,
        Refusal::PaddedSize => 4,
        Refusal::Outside => 5,
        Refusal::WrongLength => 6,
        Refusal::CountLimit => 7,
        Refusal::WorkingLimit => 8,
        Refusal::ShortBuffer => 9,
        Refusal::NoPlan => 10,
        Refusal::NoLayout => 12,
    }
}

// The number, and the places of what repeats.
impl fmt::Display for Refusal {
    fn fmt<W: fmt::Write>(&self, f: &mut fmt::Formatter<W>) -> fmt::Result {
        let number = number(*self);
        match self {
            Refusal::Repeat(earlier, later) => write!(f, "{number} at {earlier} {later}"),
            Refusal::RepeatedLayout(station, earlier, later) => {
                write!(f, "{number} at {station} {earlier} {later}")
            }
            _ => write!(f, "{number}"),
        }
    }
}

impl Error for Refusal {}
