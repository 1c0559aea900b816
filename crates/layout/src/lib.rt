// Where everything of a call lies in its own part of the workspace. What differs between ranks is how much there may be
// (`Capacities`); the places follow from that by one function for what is kept of inner calls and one for the tables
// behind it. specs/Capacities says that the areas of each rank fit its workspace, specs/Keeps what they hold. The
// orbits found stand first, eight bytes each. Behind them: the edges of each possible facet, the components of
// compounds, the orbit of each facet, and then what only the search's tables are made from: the ridges of each orbit,
// and the places of each facet.

#![tactic(auto)]

ghost use Rattle.std.specs.Prelude.{◌≡◌};
ghost use Rattle.layout.specs.Areas.{area_of};
ghost use Rattle.layout.specs.Capacities.{Bounded, capacities_of, kept_layout, table_layout};
ghost use Rattle.layout.specs.Capacities.{layout_for, table_layout_for};

use order::Area;
use pool::{MOST_FACETS, MOST_LISTS, MOST_ORBITS};

// The bytes of the orbits found: eight for each of as many as a call may have. The edges begin behind them.
pub const ORBITS_BYTES: usize = orbits::ORBITS_BYTES;

// The bytes that hold the orbit of each facet: two for each of as many facets as a call may have.
pub const OWNERS_BYTES: usize = 2 * MOST_FACETS;

// The bytes of the numbers of an area's lists in their order: two for each of as many lists as there may be.
pub const ORDER_BYTES: usize = 2 * MOST_LISTS;

// The bytes of these numbers and of the lists' labels behind them, four for each label.
pub const LISTED_BYTES: usize = ORDER_BYTES + 4 * MOST_LISTS;

// The bytes in front of the lists of a pool: three words, and the end of each list.
const ORBIT_LISTS: usize = 12 + 4 * MOST_ORBITS;

const FACET_LISTS: usize = 12 + 4 * MOST_FACETS;

// The bytes of the search's frames: one for each facet orbit that a list may have, and one below them.
const FRAMES_BYTES: usize = 16 * (MOST_ORBITS + 1);

// How much a call of a rank may keep and search: all in which ranks differ.
#[derive(Clone, Copy)]
pub struct Capacities {
    // The orbits of hyperplanes.
    pub orbits: usize,
    // The edges of a possible facet, or what stands for them, and the bytes of one.
    pub edges: usize,
    pub edge_bytes: usize,
    // The ridges of an orbit, which the places of its facets are among, and the bytes of a ridge with its inner count.
    pub ridges: usize,
    pub ridge_bytes: usize,
    // The ridge orbits of the call.
    pub ridge_orbits: usize,
}

// Where the areas begin, and how many orbits and facets are kept. What writes takes the workspace beside it: a struct
// that held both would have each contract say besides that the places and the loan are as they were, and so that the
// areas fit a workspace (`LayoutFits`) stays a clause of what writes. The areas are bytes of that workspace, since a
// caller lends all memory; each is cut by its two places where it is read or written.
#[derive(Clone, Copy)]
pub struct KeptLayout {
    pub orbits: usize,
    pub facets: usize,
    pub edges: usize,
    pub labels: usize,
    pub owners: usize,
    pub ridges: usize,
    pub places: usize,
    pub end: usize,
}

// Where what is made for a search lies, behind what is kept: the numbers of the ridges, orbit by orbit, and the shares
// of the facets, which serve only there; then the tables that the search reads, and what it works in. What writes
// takes the workspace beside it, as with `KeptLayout`.
#[derive(Clone, Copy)]
pub struct TableLayout {
    pub numbers: usize,
    pub shares: usize,
    pub touched: usize,
    pub ones: usize,
    pub frames: usize,
    pub totals: usize,
    pub lists: usize,
    pub end: usize,
}

// What a call leaves: the layout, a pool of `extent` bytes at `emitted` with the lists as the search emitted them,
// and an area with its entries' split lists. From `lists` on there are a pool of `bytes` bytes, whose list k is the
// emitted list k split, the numbers of its lists in the entries' order, and at `bytes` + 2,048 the entries' labels.
// Where nothing is split both pools are one. What writes takes the workspace beside it, as with `KeptLayout`.
#[derive(Clone, Copy)]
pub struct Level {
    pub layout: KeptLayout,
    pub emitted: usize,
    pub extent: usize,
    pub lists: usize,
    pub bytes: usize,
    pub count: usize,
}

impl Level {
    // The lists of the entries in their order, as the crate `order` reads them.
    pub fn area(self) -> Area
        ensures { result ≡ area_of self }
    {
        Area {
            most: MOST_LISTS,
            bytes: self.bytes,
            count: self.count,
        }
    }
}

// Rank 3: two of 20 points span a hyperplane, of which there are at most 190; its facet is one edge, with two ends.
// Rank 4: at most 256 hyperplanes, and a facet with at most the 190 edges that 20 points have, each of them a ridge.
// Told apart by the rank, a number that `faceting` lowers by one: what is chosen are numbers, no step, so that a
// closure would say no more.
pub fn capacities_of(rank: usize) -> Capacities
    ensures { result ≡ capacities_of rank }
{
    if rank == 3 {
        return Capacities {
            orbits: 190,
            edges: 1,
            edge_bytes: 2,
            ridges: 2,
            ridge_bytes: 4,
            ridge_orbits: 20,
        };
    }
    Capacities {
        orbits: MOST_ORBITS,
        edges: 190,
        edge_bytes: 2,
        ridges: 190,
        ridge_bytes: 4,
        ridge_orbits: 190,
    }
}

impl Capacities {
    // Where a call keeps what, with nothing kept yet.
    pub fn kept_layout(self) -> KeptLayout
        requires { Bounded self }
        ensures { result ≡ kept_layout self }
    {
        let labels = ORBITS_BYTES + (FACET_LISTS + self.edge_bytes * (MOST_FACETS * self.edges));
        let owners = labels + 4 * MOST_FACETS;
        let ridges = owners + OWNERS_BYTES;
        let places = ridges + (ORBIT_LISTS + self.ridge_bytes * (self.orbits * self.ridges));
        KeptLayout {
            orbits: 0,
            facets: 0,
            edges: ORBITS_BYTES,
            labels,
            owners,
            ridges,
            places,
            end: places + (FACET_LISTS + 2 * (MOST_FACETS * self.ridges)),
        }
    }

    // Where the tables and the search lie behind what is kept.
    pub fn table_layout(self) -> TableLayout
        requires { Bounded self }
        ensures { result ≡ table_layout self }
    {
        let numbers = self.kept_layout().end;
        let shares = numbers + (ORBIT_LISTS + 2 * (MOST_ORBITS * self.ridges));
        let touched = shares + (FACET_LISTS + 2 * (MOST_FACETS * self.ridges));
        let ones = touched + (FACET_LISTS + 2 * (MOST_FACETS * self.ridge_orbits));
        let frames = ones + (12 + 4 * self.ridge_orbits + 2 * (MOST_FACETS * self.ridges));
        let totals = frames + FRAMES_BYTES;
        let lists = totals + (MOST_ORBITS + self.ridge_orbits);
        TableLayout {
            numbers,
            shares,
            touched,
            ones,
            frames,
            totals,
            lists,
            end: lists + (12 + 4 * MOST_LISTS + 2 * (MOST_LISTS * self.orbits)),
        }
    }
}

// The layout for a call of a rank, with nothing kept yet.
pub fn layout_for(rank: usize) -> KeptLayout
    ensures { result ≡ layout_for rank }
{
    capacities_of(rank).kept_layout()
}

// The tables' layout for a call of a rank.
pub fn table_layout_for(rank: usize) -> TableLayout
    ensures { result ≡ table_layout_for rank }
{
    capacities_of(rank).table_layout()
}
