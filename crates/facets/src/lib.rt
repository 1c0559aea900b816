// The facets of a call as the search reads them: their orbits, what each adds to each ridge orbit, and where they
// have shares of 1. Numbers in one workspace, whose areas the caller lays out. Here are these areas, and the verdict
// on a list from its totals.

#![tactic(auto)]

ghost use Rattle.std.specs.Prelude.{◌≡◌, ◌<◌, ◌==◌, length, ltb, position};
ghost use Rattle.definitions.specs.Lists.{any_of};
ghost use Rattle.definitions.specs.Search.{judge};
ghost use Rattle.facets.specs.Layout.{AreasFit, verdict, touched_part, ones_part, frames_part};

// The verdict on a list, the open case with its ridge orbit: three cases, which neither an Option nor a Result has.
#[derive(Clone, Copy)]
pub enum Verdict {
    Over,
    Open(u16),
    Closed,
}

// How many facets, ridge orbits and orbits there are, how many lists may be emitted, and where in the workspace each
// area begins.
#[derive(Clone, Copy)]
pub struct Areas {
    pub facets: usize,
    pub ridges: usize,
    pub orbits: usize,
    pub bound: usize,
    pub touched: usize,
    pub ones: usize,
    pub frames: usize,
    pub totals: usize,
    pub used: usize,
    pub lists: usize,
    pub end: usize,
}

// The areas that are read. An area that is written is a range of the workspace where it is written: of a method that
// hands out a part of a `&mut` slice the check proves no clause. What writes takes the workspace and the areas side
// by side, here and in the crates of the search: of a struct that held both and is lent to be written, each contract
// would have to say besides that the areas and the loan are as they were. That the areas fit is a clause of each, as
// it is of what reads beside them in the crates of the search: a struct of the workspace, the areas and that fact
// would be made anew for each call, since the search writes the workspace between two.
impl Areas {
    // What each facet adds, one list for each facet.
    pub fn touched(self, ws: &[u8]) -> &[u8]
        requires { AreasFit self (length ws.now) }
        ensures { result.now ≡ touched_part self ws.now }
    {
        &ws[self.touched..self.ones]
    }

    // The facets with shares of 1, one list for each ridge orbit.
    pub fn ones(self, ws: &[u8]) -> &[u8]
        requires { AreasFit self (length ws.now) }
        ensures { result.now ≡ ones_part self ws.now }
    {
        &ws[self.ones..self.frames]
    }

    // The frames of the path.
    pub fn frames(self, ws: &[u8]) -> &[u8]
        requires { AreasFit self (length ws.now) }
        ensures { result.now ≡ frames_part self ws.now }
    {
        &ws[self.frames..self.totals]
    }
}

// The lowest ridge orbit whose total is 1, if any is.
fn lowest(totals: &[u8]) -> Option<usize>
    ensures { result ≡ position (λ total. total == 1) totals.now }
{
    totals.iter().position(|total| *total == 1)
}

// The verdict from the totals and from whether one is above 2: then over, else open at the lowest total of 1, else
// closed. The scan ends at that total.
pub fn judge_totals(totals: &[u8], over: bool) -> Verdict
    requires { (length totals.now < 65536) × (over ≡ any_of (ltb 2) totals.now) }
    ensures { verdict result ≡ judge totals.now }
{
    if over {
        return Verdict::Over;
    }
    match lowest(totals) {
        Some(ridge) => Verdict::Open(ridge as u16),
        None => Verdict::Closed,
    }
}
