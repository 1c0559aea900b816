// What a call takes and gives besides its points, and the answer of rank 2 from the rows alone.

#![tactic(auto)]

ghost use Rattle.std.specs.Prelude.{◌≡◌, ℕ, ◌≤◌, ◌<◌, eqb};
ghost use Rattle.definitions.specs.Lists.{any_of};
ghost use Rattle.definitions.specs.Orbits.{Row, image};
ghost use Rattle.rows.specs.Rows.{rows_in};

use layout::Level;
use rows::Rows;
use space::Limits;

// What is alike at every depth: the tolerance, the limits on lengths and on entries, how many hyperplane orbits,
// possible facets and entries a call may have, and the rule of crowded lines. The rule is a number and no enum:
// public functions take any number, and a narrower type would ask more of their callers.
#[derive(Clone, Copy)]
pub struct Rules {
    pub tolerance: f64,
    pub limits: Limits,
    pub limit: Option<u32>,
    pub orbits: usize,
    pub facets: usize,
    pub entries: usize,
    pub rule: usize,
}

// What a call answers. At rank 2: whether some row swaps the ends. Above: where its answer stands in the workspace.
// Both with what is left of the budget. Both are answers, so that neither an Option nor a Result says it.
#[derive(Clone, Copy)]
pub enum Called {
    Ends(bool, u32),
    Left(Level, u32),
}

// Whether some row sends 0 to 1: all that a call of rank 2 asks.
pub fn swaps_ends(rows: Rows) -> bool
    ensures { (n : ℕ) → 0 < n → n ≤ 32
        → result ≡ any_of (λ (row : Row). eqb 1 (image row 0)) (rows_in n rows.entry.count rows.entry.bytes.now) }
{
    (0..rows.count).any(|i| rows.image(i, 0) == 1)
}
