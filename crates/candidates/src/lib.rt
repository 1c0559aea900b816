// The facets that may join a list: all of them, or those with a share of 1 in a ridge orbit, in the order of their
// orbits. The first above a mark is found by halving, the last whose orbit is not in use by a walk downwards.

#![tactic(auto)]

ghost use Rattle.std.specs.Prelude.{◌≡◌, List, ◌≤◌, ◌<◌, length, get_or};
ghost use Rattle.definitions.specs.Search.{Table};
ghost use Rattle.facets.specs.Layout.{Inputs, KindIn};

use facets::Areas;
use words::Word;

// The candidates in a workspace: all facets, or the shares of 1 in a ridge orbit, which is one of the call's.
#[derive(Clone, Copy)]
pub struct Candidates<'a> {
    pub ws: &'a [u8],
    pub areas: Areas,
    pub kind: Option<usize>,
    pub ghost kind_in: { KindIn areas kind },
}

impl<'a> Candidates<'a> {
    ghost use Rattle.definitions.specs.Search.{Facet};
    ghost use Rattle.facets.specs.Layout.{Uses, numbers, used_part};
    ghost use Rattle.facets.specs.Frames.{candidates as candidatesOf, low_of};
    ghost use Rattle.candidates.specs.Latest.{last_free};

    // How many there are. What the bytes hold is a clause, here and in the other methods: it is asked of some table
    // and promised for each that the bytes hold, and a ghost field cannot say which.
    pub fn count(self) -> usize
        requires { (t : Table) × Inputs t self.areas self.ws.now }
        ensures { (t : Table) → Inputs t self.entry.areas self.entry.ws.now
            → result ≡ length (numbers t self.entry.kind) }
    {
        match self.kind {
            None => self.areas.facets,
            Some(ridge) => pool::list_length(self.areas.ones(self.ws), ridge) as usize,
        }
    }

    // The facet at a place among them.
    pub fn facet(self, i: usize) -> usize
        requires { (t : Table) × Inputs t self.areas self.ws.now × (i < length (numbers t self.kind)) }
        ensures { (t : Table) → Inputs t self.entry.areas self.entry.ws.now
            → result ≡ get_or (numbers t self.entry.kind) i 0 }
    {
        match self.kind {
            None => i,
            Some(ridge) => {
                let ones = self.areas.ones(self.ws);
                usize::from(pool::item::<u16>(ones, self.areas.ridges, ridge, i))
            }
        }
    }

    // The orbit of the facet at a place.
    fn orbit(self, i: usize) -> usize
        requires { (t : Table) × Inputs t self.areas self.ws.now × (i < length (numbers t self.kind)) }
        ensures { (t : Table) → Inputs t self.entry.areas self.entry.ws.now
            → result ≡ (get_or (candidatesOf t self.entry.kind) i (0, 0)).0 }
    {
        let x = self.facet(i);
        usize::from(u16::get(self.ws, 2 * x))
    }

    // The first place whose facet has an orbit above the mark. Candidates ascend by orbit.
    pub fn binary(self, mark: usize) -> usize
        requires { (t : Table) × Inputs t self.areas self.ws.now }
        ensures { (t : Table) → Inputs t self.entry.areas self.entry.ws.now → result ≡ low_of t mark self.entry.kind }
    {
        halving::first_not(self.count(), |i| self.orbit(i) <= mark)
    }

    // The last place from `low` to below `place` whose facet has an orbit that is not in use, if any.
    pub fn latest(self, low: usize, place: usize) -> Option<usize>
        requires { (t : Table)
            × Inputs t self.areas self.ws.now
            × (place ≤ length (numbers t self.kind))
            × (list : List Facet) × Uses self.areas list (used_part self.areas self.ws.now) }
        ensures { (t : Table) (list : List Facet) → Inputs t self.entry.areas self.entry.ws.now
            → Uses self.entry.areas list (used_part self.entry.areas self.entry.ws.now)
            → result ≡ last_free t list self.entry.kind low place }
    {
        (low..place)
            .rev()
            .find(|i| self.ws[self.areas.used + self.orbit(*i)] == 0)
    }
}
