// The answer's words from what a call of rank 4 leaves in the workspace, and from the images of its facets in order.
// Leans on what is written at every rank.

#![tactic(auto)]

ghost use Rattle.std.specs.Prelude.{◌≡◌, ◌≤◌, ◌<◌, false, get_or, replicate};
ghost use mathlib.Core.List.{[]};
ghost use Rattle.words.specs.Words.{words};
ghost use Rattle.pool.specs.Pool.{count};
ghost use Rattle.rows.specs.Marks.{marked};
ghost use Rattle.words.specs.Wrote.{Writes};
ghost use Rattle.layout.specs.Leaves.{lists_left};
ghost use Rattle.facet_images.specs.Images.{IdsBelow};
ghost use Rattle.polyhedra.specs.Solids.{polyhedron_from, ImagesHeld, solid_from, solid_summary_from};
ghost use Rattle.polyhedra.specs.SolidWritten.{WroteSolidAnswer};

use edge_marks::Facets;
use facet_images::{Ids, NumberedFacets, Wanted};
use pool::MOST_FACETS;
use possible_facets::Polygons;
use rows::EDGE_CODES;
use words::Writer;
use writing::{Budget, Carried, EntryFigure, Left};

// ---- rank 4

// The polyhedron over n points with the marked edges and the chosen images. `IdsBelow` stays a clause: it speaks of
// the numbers and of the facets, two parameters.
fn write_polyhedron(
    w: &mut Writer,
    n: usize,
    marks: &[bool; EDGE_CODES],
    wanted: Wanted,
    facets: Facets,
)
    requires { (n < 4294967296)
        × (wanted.ids.count < 4294967296)
        × IdsBelow (count facets.edges.bytes.now) facets.rows.count (words 4 wanted.ids.bytes.now wanted.ids.count) }
    ensures { Writes w.old w.new (polyhedron_from n marks.now wanted.entry.inside.now
        (words 4 wanted.entry.ids.bytes.now wanted.entry.ids.count) facets.entry.edges.bytes.now
        facets.entry.rows.bytes.now) }
{
    let numbers = facet_images::edge_numbers(marks);
    let many = wanted.count_chosen();
    figure_words::write_head(w, 5, n);
    w.push(edge_marks::count_marks(marks) as u32);
    edge_marks::write_marks(w, marks);
    w.push(many as u32);
    let numbered = NumberedFacets {
        facets,
        numbers: &numbers,
    };
    numbered.write_images(w, wanted);
    figure_words::write_body(w, many);
}

// The facets of entry k.
pub fn entry_facets(left: Left, k: usize) -> [bool; MOST_FACETS]
    requires { k < left.level.count }
    ensures { result ≡ marked (replicate 1024 false) (get_or (lists_left left.entry.level left.entry.ws.now) k []) }
{
    facet_images::list_marks(left.lists(), k)
}

// What a call of rank 4 left, its rows, and the images of its facets in order.
#[derive(Clone, Copy)]
pub struct Imaged<'a> {
    pub carried: Carried<'a>,
    pub ids: Ids<'a>,
    pub ghost images: { ImagesHeld carried.rows.count carried.left.level carried.left.ws.now ids.bytes.now ids.count },
}

impl<'a> Imaged<'a> {
    // Both together. A function and no literal, as `Carried::new` is one.
    pub fn new(carried: Carried<'a>, ids: Ids<'a>) -> Self
        requires { ImagesHeld carried.rows.count carried.left.level carried.left.ws.now ids.bytes.now ids.count }
        ensures { (result.carried.left.level ≡ carried.entry.left.level)
            × (result.carried.left.ws.now ≡ carried.entry.left.ws.now)
            × (result.carried.rows.count ≡ carried.entry.rows.count)
            × (result.carried.rows.bytes.now ≡ carried.entry.rows.bytes.now)
            × (result.ids.bytes.now ≡ ids.entry.bytes.now) × (result.ids.count ≡ ids.entry.count) }
    {
        Imaged { carried, ids }
    }
}

// Entries of rank 4: polyhedra over n points, of all images of their facets under the rows.
#[derive(Drop)]
struct Solids<'a> {
    imaged: Imaged<'a>,
    n: usize,
    ghost small: { n ≤ 20 },
}

impl<'a> EntryFigure for Solids<'a> {
    ghost level = { λ it. it.imaged.carried.left.level };

    ghost ws = { λ it. it.imaged.carried.left.ws.now };

    ghost figure = { λ it.
        solid_from it.n it.imaged.carried.rows.count it.imaged.carried.rows.bytes.now it.imaged.carried.left.level
        it.imaged.carried.left.ws.now (words 4 it.imaged.ids.bytes.now it.imaged.ids.count) };

    ghost summary = { λ it. solid_summary_from it.n it.imaged.carried.rows.count it.imaged.carried.rows.bytes.now
        it.imaged.carried.left.level it.imaged.carried.left.ws.now
        (words 4 it.imaged.ids.bytes.now it.imaged.ids.count) };

    fn left(&self) -> Left<'_> {
        self.imaged.carried.left
    }

    fn write_figure(&self, w: &mut Writer, k: usize) {
        let carried = self.imaged.carried;
        let marks = carried.entry_marks(k);
        let inside = entry_facets(carried.left, k);
        let wanted = Wanted {
            ids: self.imaged.ids,
            inside: &inside,
        };
        write_polyhedron(w, self.n, &marks, wanted, carried.facets());
    }

    fn write_summary(&self, w: &mut Writer, k: usize) {
        let carried = self.imaged.carried;
        let marks = carried.entry_marks(k);
        let inside = entry_facets(carried.left, k);
        let lines = edge_marks::count_marks(&marks);
        let wanted = Wanted {
            ids: self.imaged.ids,
            inside: &inside,
        };
        let facets = wanted.count_chosen();
        edge_marks::write_summary(w, &marks, self.n, lines, facets);
    }
}

// The answer of a call of rank 4 from what it leaves and from its facets' images in order. `standing` (specs/Written)
// and `images_held` (specs/SolidWritten) say that these are what `Imaged` asks for.
pub fn write_solid_answer(w: &mut Writer, imaged: Imaged, n: usize, budget: Budget)
    requires { n ≤ 20 }
    ensures { WroteSolidAnswer n imaged.entry.carried.rows.count imaged.entry.carried.rows.bytes.now
        imaged.entry.carried.left.level imaged.entry.carried.left.ws.now
        (words 4 imaged.entry.ids.bytes.now imaged.entry.ids.count) budget.whole budget.rest w.old w.new }
{
    let facets = Polygons {
        ws: imaged.carried.left.ws,
        n,
    };
    writing::write_parts(w, &Solids { imaged, n }, &facets, budget);
}
