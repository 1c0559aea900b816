// What a job, a row, a package or a quote can be refused for: each refusal of chapters 11, 15, 16 and 17, with its
// number.

#![tactic(auto)]

ghost use Rattle.std.specs.Prelude.{◌≡◌};
ghost use Rattle.refusals.specs.Refused.{number_of};

use std::fmt;

// In the order of the numbers. A variant is named after what is refused. Its number stands beside it, and is not its
// place among the variants: the page counts with gaps.
#[derive(Clone, Copy, Debug, PartialEq, Eq)]
pub enum Refusal {
    // [11.1]
    Mark = 1,
    Version = 2,
    Rank = 3,
    Dimension = 4,
    Points = 5,
    Rows = 6,
    Flags = 7,
    Length = 8,
    Number = 9,
    FirstRow = 10,
    Row = 11,
    Workspace = 12,
    // [11.4]
    Orbits = 13,
    Plane = 14,
    Bound = 15,
    Budget = 16,
    // [11.5]
    Room = 17,
    // [17.3]
    Package = 18,
    // [16.4]
    Tariff = 19,
    NotOfRank4 = 20,
    Entry = 21,
    // [11.1]
    Tolerance = 22,
    Rule = 25,
    // [15.1] [15.2]
    Cut = 26,
    Records = 27,
}

impl Refusal {
    // The number that the page gives it.
    pub fn number(self) -> u8
        ensures { result ≡ number_of self }
    {
        self as u8
    }
}

// Says the number.
impl fmt::Display for Refusal {
    fn fmt<W: fmt::Write>(&self, f: &mut fmt::Formatter<W>) -> fmt::Result {
        write!(f, "{}", self.number())
    }
}
