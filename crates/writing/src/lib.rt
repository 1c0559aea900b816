// The answer's words from what a call of rank 2 or 3 leaves in the workspace, and the parts that an answer has at
// every rank: counts, lists, compounds. Leans on the words of figures, marked edges, lists and possible facets.

#![tactic(auto)]

ghost use Rattle.std.specs.Prelude.{◌≡◌, List, ℕ, ◌+◌, ◌*◌, ◌-◌, ◌≤◌, ◌<◌, length, get_or, drop};
ghost use mathlib.Core.List.{◌∷◌, [], flat_map};
ghost use Rattle.laws.specs.Segments.{part};
ghost use Rattle.pool.specs.Pool.{Sound};
ghost use Rattle.words.specs.Wrote.{Writes};
ghost use Rattle.definitions.specs.Job.{counted, figure_words, entry_words, compound_words, answer_words};
ghost use Rattle.definitions.specs.Figures.{dyad, compounds_from};
ghost use Rattle.definitions.specs.Recursion.{vertex_ridge, swapped_ends, separate_ends};
ghost use Rattle.orbits.specs.Workspace.{orbits_in};
ghost use Rattle.labels.specs.Labels.{labels_in};
ghost use Rattle.rows.specs.Rows.{rows_in};
ghost use Rattle.words.specs.Words.{words};
ghost use Rattle.edge_marks.specs.Marks.{marks_of};
ghost use Rattle.layout.specs.Areas.{area_of};
ghost use Rattle.layout.specs.Keeps.{owners_part, edges_part};
ghost use Rattle.layout.specs.Leaves.{lists_left, both_left, order_left, emitted_pool};
ghost use Rattle.layout.specs.declared.Level.{Level};
ghost use Rattle.writing.specs.EdgesHeld.{ListsHeld, PartsHeld, EdgesHeld, parts_from, owners_in, edges_in, both_words};
ghost use Rattle.writing.specs.EdgesHeld.{figured, polygon_from, summary_from};
ghost use Rattle.writing.specs.Written.{WroteAnswer};
ghost use Rattle.entry_lists.specs.Counts.{count_words};

use edge_marks::Facets;
use entry_lists::FacetNames;
use layout::{Level, ORDER_BYTES};
use order::{Lists, Pool};
use pool::MOST_LISTS;
use possible_facets::{Edges, FacetFigure, Owners};
use rows::{EDGE_CODES, Rows};
use words::{Word, Writer};

// ---- what a call leaves

// A level, and the workspace that it lies in.
#[derive(Clone, Copy)]
pub struct Left<'a> {
    pub ws: &'a [u8],
    pub level: Level,
    pub ghost standing: { ListsHeld level ws.now },
}

impl<'a> Left<'a> {
    // The split lists of the entries, in their order.
    pub fn lists(self) -> Lists<'a>
        ensures { (result.bytes.now ≡ drop self.entry.level.lists self.entry.ws.now)
            × (result.area ≡ area_of self.entry.level) }
    {
        Lists {
            bytes: &self.ws[self.level.lists..],
            area: self.level.area(),
        }
    }

    // The pool of the split lists.
    fn split(self) -> Pool<'a>
        ensures { (result.bytes.now ≡ part self.entry.level.lists self.entry.level.bytes self.entry.ws.now)
            × (result.most ≡ 1024) }
    {
        let from = self.level.lists;
        Pool {
            bytes: &self.ws[from..from + self.level.bytes],
            most: MOST_LISTS,
        }
    }

    // The pool of the lists as the search emitted them.
    fn emitted(self) -> Pool<'a>
        ensures { (result.bytes.now ≡ emitted_pool self.entry.level self.entry.ws.now) × (result.most ≡ 1024) }
    {
        let from = self.level.emitted;
        Pool {
            bytes: &self.ws[from..from + self.level.extent],
            most: MOST_LISTS,
        }
    }

    // The number that both lists of entry k have in their pools.
    fn number(self, k: usize) -> usize
        requires { k < self.level.count }
        ensures { result ≡ get_or (order_left self.entry.level self.entry.ws.now) k 0 }
    {
        usize::from(u16::get(self.ws, self.level.lists + self.level.bytes + 2 * k))
    }

    // The orbit of each facet.
    fn owners(self) -> Owners<'a>
        ensures { (result.bytes.now ≡ owners_part self.entry.level.layout self.entry.ws.now)
            × (result.facets ≡ self.entry.level.layout.facets) }
    {
        let layout = self.level.layout;
        Owners {
            bytes: &self.ws[layout.owners..layout.ridges],
            facets: layout.facets,
        }
    }

    // The edges of each facet. `Sound` stays a clause: it does not follow from `ListsHeld`, which `Left` holds.
    fn edges(self) -> Pool<'a>
        requires { Sound 2 1024 (edges_part self.level.layout self.ws.now) }
        ensures { (result.bytes.now ≡ edges_part self.entry.level.layout self.entry.ws.now) × (result.most ≡ 1024) }
    {
        let layout = self.level.layout;
        Pool {
            bytes: &self.ws[layout.edges..layout.labels],
            most: MOST_LISTS,
        }
    }
}

// What a call left, and its rows, which carry the facets to their images.
#[derive(Clone, Copy)]
pub struct Carried<'a> {
    pub left: Left<'a>,
    pub rows: Rows<'a>,
    pub ghost standing: { EdgesHeld rows.count rows.bytes.now left.level left.ws.now },
}

impl<'a> Carried<'a> {
    // Both together. A function and no literal: they come of two loans, which a call takes as one, and where a
    // literal had to (tried in `answering`) the proof did not close.
    pub fn new(left: Left<'a>, rows: Rows<'a>) -> Self
        requires { EdgesHeld rows.count rows.bytes.now left.level left.ws.now }
        ensures { (result.left.level ≡ left.entry.level)
            × (result.left.ws.now ≡ left.entry.ws.now)
            × (result.rows.count ≡ rows.entry.count) × (result.rows.bytes.now ≡ rows.entry.bytes.now) }
    {
        Carried { left, rows }
    }

    // The facets, with the rows that carry them.
    pub fn facets(self) -> Facets<'a>
        ensures { (result.edges.bytes.now ≡ edges_part self.entry.left.level.layout self.entry.left.ws.now)
            × (result.rows.bytes.now ≡ self.entry.rows.bytes.now) × (result.rows.count ≡ self.entry.rows.count) }
    {
        Facets {
            edges: self.left.edges(),
            rows: self.rows,
        }
    }

    // The marks of the edges of entry k.
    pub fn entry_marks(self, k: usize) -> [bool; EDGE_CODES]
        requires { k < self.left.level.count }
        ensures { result
            ≡ marks_of (rows_in 32 self.entry.rows.count self.entry.rows.bytes.now)
            (edges_in self.entry.left.level self.entry.left.ws.now)
            (get_or (lists_left self.entry.left.level self.entry.left.ws.now) k []) }
    {
        edge_marks::mark_list(self.left.lists(), k, self.facets())
    }
}

// ---- the words of entries

// The two lists of entry k: split, and as the search emitted it.
pub fn write_entry_lists(w: &mut Writer, left: Left, names: FacetNames, k: usize)
    requires { (words 2 names.owners.bytes.now names.owners.facets ≡ owners_in left.level left.ws.now)
        × (k < left.level.count) }
    ensures { Writes w.old w.new (both_words (owners_in left.entry.level left.entry.ws.now)
        (get_or (both_left left.entry.level left.entry.ws.now) k ([], []))) }
{
    let number = left.number(k);
    let split = left.split();
    let emitted = left.emitted();
    names.write_list(w, split, number);
    names.write_list(w, emitted, number);
}

// The entries of a call as they are written: a figure of each, and its summary.
pub trait EntryFigure {
    // the level that the entries are of, and the workspace that it lies in
    ghost level: { Self → Level };

    ghost ws: { Self → List ℕ };

    // the words for an entry, from its split list
    ghost figure: { Self → List ℕ → List ℕ };

    ghost summary: { Self → List ℕ → List ℕ };

    // What the call left.
    fn left(&self) -> Left<'_>
        ensures { (result.level ≡ level self.now) × (result.ws.now ≡ ws self.now) };

    // The figure of entry k.
    fn write_figure(&self, w: &mut Writer, k: usize)
        requires { k < (level self.now).count }
        ensures { Writes w.old w.new (figure self.now (get_or (lists_left (level self.now) (ws self.now)) k [])) };

    // The summary of entry k.
    fn write_summary(&self, w: &mut Writer, k: usize)
        requires { k < (level self.now).count }
        ensures { Writes w.old w.new (summary self.now (get_or (lists_left (level self.now) (ws self.now)) k [])) };
}

// Entries of rank 3: polygons over n points, of all images of their facets' edges under the rows.
#[derive(Drop)]
pub struct Polygons<'a> {
    pub carried: Carried<'a>,
    pub n: usize,
    pub ghost small: { n ≤ 20 },
}

impl<'a> EntryFigure for Polygons<'a> {
    ghost level = { λ it. it.carried.left.level };

    ghost ws = { λ it. it.carried.left.ws.now };

    ghost figure = { λ it. polygon_from it.n (rows_in 32 it.carried.rows.count it.carried.rows.bytes.now)
        (edges_in it.carried.left.level it.carried.left.ws.now) };

    ghost summary = { λ it. summary_from it.n (rows_in 32 it.carried.rows.count it.carried.rows.bytes.now)
        (edges_in it.carried.left.level it.carried.left.ws.now) };

    fn left(&self) -> Left<'_> {
        self.carried.left
    }

    fn write_figure(&self, w: &mut Writer, k: usize) {
        let marks = self.carried.entry_marks(k);
        edge_marks::write_marked(w, self.n, &marks);
    }

    // The edges are the facets.
    fn write_summary(&self, w: &mut Writer, k: usize) {
        let marks = self.carried.entry_marks(k);
        let edges = edge_marks::count_marks(&marks);
        edge_marks::write_summary(w, &marks, self.n, edges, edges);
    }
}

// How many entries there are, and each: its split list, the list before splitting, and its figure.
pub fn write_entries<T: EntryFigure>(w: &mut Writer, figures: &T)
    ensures { Writes w.old w.new (counted (figured (owners_in (T.level figures.now) (T.ws figures.now))
        (T.figure figures.now)) (both_left (T.level figures.now) (T.ws figures.now))) }
{
    let left = figures.left();
    let owners = left.owners();
    let firsts = entry_lists::first_facets(owners);
    let names = FacetNames {
        owners,
        firsts: &firsts,
    };
    w.push(left.level.count as u32);
    for k in 0..left.level.count {
        write_entry_lists(w, left, names, k);
        figures.write_figure(w, k);
    }
}

// A summary of each entry.
pub fn write_summaries<T: EntryFigure>(w: &mut Writer, figures: &T)
    ensures { Writes w.old w.new
        (flat_map (T.summary figures.now) (lists_left (T.level figures.now) (T.ws figures.now))) }
{
    let left = figures.left();
    for k in 0..left.level.count {
        figures.write_summary(w, k);
    }
}

// ---- rank 3

// A call's budget, and what is left of it.
#[derive(Clone, Copy)]
pub struct Budget {
    pub whole: u32,
    pub rest: u32,
    pub ghost within: { rest ≤ whole },
}

impl Budget {
    // How many lists were examined.
    fn spent(self) -> u32
        ensures { result ≡ self.whole - self.rest }
    {
        self.whole - self.rest
    }
}

// What was examined of the budget, and the counts of the orbits.
pub fn write_front(w: &mut Writer, ws: &[u8], orbits: usize, budget: Budget)
    requires { (8 * orbits ≤ length ws.now) × (orbits < 4294967296) }
    ensures { Writes w.old w.new ((budget.whole - budget.rest) ∷ count_words (orbits_in ws.now orbits)) }
{
    w.push(budget.spent());
    entry_lists::write_counts(w, ws, orbits);
}

// The compounds among the entries.
pub fn write_labels(w: &mut Writer, left: Left)
    ensures { Writes w.old w.new (counted compound_words (compounds_from 0 (labels_in (left.entry.level.bytes + 2048)
        left.entry.level.count (drop left.entry.level.lists left.entry.ws.now)))) }
{
    let lists = &left.ws[left.level.lists..];
    entry_lists::write_compounds(w, lists, left.level.bytes + ORDER_BYTES, left.level.count);
}

// The parts of an answer, one behind the other: what was examined and the counts, the entries, the possible facets,
// the compounds, the summaries. `PartsHeld` stays a clause: this function alone asks it, of the entries of either
// rank.
pub fn write_parts<T: EntryFigure, F: FacetFigure>(
    w: &mut Writer,
    entries: &T,
    facets: &F,
    budget: Budget,
)
    requires { PartsHeld (T.level entries.now) (T.ws entries.now)
        × ((orbit : ℕ) → orbit < (T.level entries.now).layout.orbits → F.knows facets.now orbit) }
    ensures { Writes w.old w.new (parts_from (T.figure entries.now) (T.summary entries.now) (λ (orbit : ℕ).
        F.words (F.size facets.now orbit)) (T.level entries.now) (T.ws entries.now) budget.whole budget.rest) }
{
    let left = entries.left();
    let orbits = left.level.layout.orbits;
    write_front(w, left.ws, orbits, budget);
    write_entries(w, entries);
    possible_facets::write_possible(w, facets, left.owners(), orbits, left.edges());
    write_labels(w, left);
    write_summaries(w, entries);
}

// The answer of a call of rank 3 from what it leaves. `standing` (specs/Written) says that what it leaves is what
// `Carried` asks for.
pub fn write_answer(w: &mut Writer, carried: Carried, n: usize, budget: Budget)
    requires { n ≤ 20 }
    ensures { WroteAnswer n carried.entry.rows.count carried.entry.rows.bytes.now carried.entry.left.level
        carried.entry.left.ws.now budget.whole budget.rest w.old w.new }
{
    write_parts(w, &Polygons { carried, n }, &Edges, budget);
}

// ---- rank 2

// The figure of the one entry of rank 2: the segment.
fn write_segment(w: &mut Writer)
    ensures { Writes w.old w.new (figure_words dyad) }
{
    figure_words::write_edge_figure(w, 1);
}

// The summary of the segment: one edge, whose two ends are its facets.
fn write_segment_summary(w: &mut Writer)
    ensures { Writes w.old w.new (2 ∷ 1 ∷ 2 ∷ []) }
{
    let mut marks = [false; EDGE_CODES];
    marks[1] = true;
    let edges = edge_marks::count_marks(&marks);
    edge_marks::write_summary(w, &marks, 2, edges, 2);
}

// A ridge of rank 2: a vertex.
fn write_vertex(w: &mut Writer, v: u32)
    ensures { Writes w.old w.new (counted figure_words (vertex_ridge v ∷ [])) }
{
    w.push_three(1, 3, 0);
    w.push_three(1, 1, 0);
    w.push_three(1, 1, v);
}

// The one entry where the ends are of one orbit: its list, the same list before splitting, and the segment.
fn write_swapped_entry(w: &mut Writer)
    ensures { Writes w.old w.new (counted entry_words (swapped_ends 0).entries) }
{
    w.push_three(1, 1, 0);
    w.push_three(0, 1, 0);
    w.push(0);
    write_segment(w);
}

// The one entry where each end is an orbit.
fn write_separate_entry(w: &mut Writer)
    ensures { Writes w.old w.new (counted entry_words (separate_ends 0).entries) }
{
    w.push_three(1, 2, 0);
    w.push_three(0, 1, 0);
    w.push_three(2, 0, 0);
    w.push(1);
    w.push(0);
    write_segment(w);
}

// The answer where some row changes the two ends.
pub fn write_swapped(w: &mut Writer, budget: Budget)
    ensures { Writes w.old w.new (answer_words budget.whole (swapped_ends budget.rest)) }
{
    w.push_three(budget.spent(), 1, 2);
    write_swapped_entry(w);
    write_vertex(w, 0);
    w.push(0);
    write_segment_summary(w);
}

// The answer where none does.
pub fn write_separate(w: &mut Writer, budget: Budget)
    ensures { Writes w.old w.new (answer_words budget.whole (separate_ends budget.rest)) }
{
    w.push_three(budget.spent(), 2, 1);
    w.push(1);
    write_separate_entry(w);
    write_vertex(w, 0);
    write_vertex(w, 1);
    w.push(0);
    write_segment_summary(w);
}
