// The images of a call's facets in order: which of them an entry has, each once, and their words, an edge as its
// number among the entry's edges. Leans on marked edges.

#![tactic(auto)]

ghost use Rattle.std.specs.Prelude.{◌≡◌, ◌*◌, ◌/◌, ◌%◌, ◌≤◌, ◌<◌, false, cond, ◌&&◌, leb, length, get_or, replicate};
ghost use mathlib.Core.List.{[], flat_map};
ghost use Rattle.words.specs.Words.{words};
ghost use Rattle.pool.specs.Pool.{count};
ghost use Rattle.order.specs.Areas.{list_of};
ghost use Rattle.order.specs.Numbers.{ItemsBelow};
ghost use Rattle.rows.specs.Marks.{marked};
ghost use Rattle.words.specs.Wrote.{Writes};
ghost use Rattle.facet_images.specs.Images.{NumbersOf, NumbersBelow, image_marks, facet_words, id_words, IdsBelow};
ghost use Rattle.facet_images.specs.Images.{is_wanted, is_chosen, next_choice, chosen_from};
ghost use Rattle.facet_images.specs.declared.Choice.TheVariants.{Left};

use edge_marks::Facets;
use order::Lists;
use pool::MOST_FACETS;
use rows::{EDGE_CODES, ROW_BYTES, Rows};
use words::{Word, Writer};

// ---- the facets of a polyhedron

// The number of each marked edge: how many marks lie below it.
pub fn edge_numbers(marks: &[bool; EDGE_CODES]) -> [usize; EDGE_CODES]
    ensures { NumbersOf marks.now result }
{
    let mut numbers = [0; EDGE_CODES];
    let mut many = 0;
    for (code, marked) in marks.iter().enumerate() {
        numbers[code] = many;
        many += usize::from(*marked);
    }
    numbers
}

// The facets of the list at place k. `ItemsBelow` stays a clause: it speaks of that one list, and k is another
// parameter.
pub fn list_marks(lists: Lists, k: usize) -> [bool; MOST_FACETS]
    requires { (k < lists.area.count) × ItemsBelow 1024 (list_of lists.area lists.bytes.now k) }
    ensures { result ≡ marked (replicate 1024 false) (list_of lists.entry.area lists.entry.bytes.now k) }
{
    let mut marks = [false; MOST_FACETS];
    for x in lists.items(k) {
        marks[usize::from(x)] = true;
    }
    marks
}

// The edges of the image of facet x under a row.
pub fn image_marks(facets: Facets, x: usize, row: usize) -> [bool; EDGE_CODES]
    requires { (x < count facets.edges.bytes.now) × (row < facets.rows.count) }
    ensures { result ≡ image_marks facets.entry.edges.bytes.now facets.entry.rows.bytes.now x row }
{
    let rows = Rows {
        bytes: &facets.rows.bytes[ROW_BYTES * row..],
        count: 1,
    };
    let under = Facets {
        edges: facets.edges,
        rows,
    };
    let mut marks = [false; EDGE_CODES];
    edge_marks::mark_facet(under, x, &mut marks);
    marks
}

// ---- images in order

// The number of facet x's image under a row is x + ROW × row, and EQUAL more where the image equals the one before
// it.
pub const ROW: usize = 1024;

pub const EQUAL: usize = 131072;

// The images of all facets, as their numbers: `count` of four bytes. So packed the numbers lie in the bytes of the
// workspace, since there is no heap, and are taken apart where they are used. No struct of the three parts (facet,
// row, whether it equals the one before): the definitions, `next_choice` and `Ids::get` go by the number, and each
// reader asks one or two of the parts. The count stands beside the bytes, which are the workspace from the numbers
// on: who makes these knows the count, and bytes cut to length would give it by a division by four alone.
#[derive(Clone, Copy)]
pub struct Ids<'a> {
    pub bytes: &'a [u8],
    pub count: usize,
    pub ghost room: { 4 * count ≤ length bytes.now },
}

impl<'a> Ids<'a> {
    pub fn get(self, i: usize) -> usize
        requires { i < self.count }
        ensures { result ≡ get_or (words 4 self.entry.bytes.now self.entry.count) i 0 }
    {
        u32::get(self.bytes, 4 * i) as usize
    }
}

// What comes of an image, of all images of facets in order: three cases, which neither an Option nor a Result has.
#[derive(Clone, Copy, PartialEq, Eq)]
pub enum Choice {
    // It is not wanted.
    Left,

    // It is wanted, and the first of those that equal it.
    Chosen,

    // It equals one that was chosen before.
    Repeated,
}

impl Choice {
    pub fn is_chosen(self) -> bool
        ensures { result ≡ is_chosen self }
    {
        self == Choice::Chosen
    }
}

// Whether an image equals one that was chosen: it equals the one before it, of which that is known.
fn was_chosen(before: Choice, id: usize) -> bool
    ensures { result ≡ (leb 131072 id && is_wanted before) }
{
    EQUAL <= id && before != Choice::Left
}

// The images of all facets, and which facets have theirs written or counted: they travel together.
#[derive(Clone, Copy)]
pub struct Wanted<'a> {
    pub ids: Ids<'a>,
    pub inside: &'a [bool; MOST_FACETS],
}

impl<'a> Wanted<'a> {
    ghost use Rattle.facet_images.specs.Chosen.{chosen_left};

    // What comes of an image, from what came of the one before it.
    pub fn next_choice(self, before: Choice, id: usize) -> Choice
        ensures { result ≡ next_choice self.entry.inside.now before id }
    {
        if was_chosen(before, id) {
            return Choice::Repeated;
        }
        if self.inside[id % ROW] {
            Choice::Chosen
        } else {
            Choice::Left
        }
    }

    // The numbers of the chosen images, in order.
    pub fn chosen(self) -> Chosen<'a>
        ensures { chosen_left result
            ≡ chosen_from self.entry.inside.now Left (words 4 self.entry.ids.bytes.now self.entry.ids.count) }
    {
        Chosen {
            wanted: self,
            at: 0,
            before: Choice::Left,
        }
    }

    // How many images are chosen.
    pub fn count_chosen(self) -> usize
        ensures { (result ≡ length
            (chosen_from self.entry.inside.now Left (words 4 self.entry.ids.bytes.now self.entry.ids.count)))
            × (result ≤ self.entry.ids.count) }
    {
        self.chosen().count()
    }
}

// The numbers of the chosen images from place `at` on, and what came of the image before it.
#[derive(Clone, Copy)]
pub struct Chosen<'a> {
    wanted: Wanted<'a>,
    at: usize,
    before: Choice,
}

impl<'a> Iterator for Chosen<'a> {
    ghost use Rattle.std.specs.Iterator.{YieldsFirst, item_count};
    ghost use Rattle.facet_images.specs.Chosen.{chosen_left};

    type Item = usize;

    ghost next_gives = { YieldsFirst chosen_left };

    ghost remaining = { item_count chosen_left };

    // The images before it that are not chosen are passed.
    fn next(&mut self) -> Option<usize> {
        for i in self.at..self.wanted.ids.count {
            let id = self.wanted.ids.get(i);
            self.at = i + 1;
            self.before = self.wanted.next_choice(self.before, id);
            if self.before.is_chosen() {
                return Some(id);
            }
        }
        None
    }
}

// ---- the words of images

// The facets whose images are written, and the number of each edge of the figure that they are facets of.
#[derive(Clone, Copy)]
pub struct NumberedFacets<'a> {
    pub facets: Facets<'a>,
    pub numbers: &'a [usize; EDGE_CODES],
    pub ghost small: { NumbersBelow numbers.now },
}

impl<'a> NumberedFacets<'a> {
    // A facet: how many edges it has, and their numbers.
    fn write_facet(self, w: &mut Writer, image: &[bool; EDGE_CODES])
        ensures { Writes w.old w.new (facet_words image.now self.entry.numbers.now) }
    {
        w.push(edge_marks::count_marks(image) as u32);
        for (code, marked) in image.iter().enumerate() {
            if *marked {
                w.push(self.numbers[code] as u32);
            }
        }
    }

    // The chosen images, in order. `IdsBelow` stays a clause, and so it does where `entry_prices` and `polyhedra` ask
    // it: it speaks of the numbers and of the facets, two parameters, and a summary, which counts the chosen numbers,
    // asks for no `Facets`.
    pub fn write_images(self, w: &mut Writer, wanted: Wanted)
        requires { IdsBelow (count self.facets.edges.bytes.now) self.facets.rows.count
            (words 4 wanted.ids.bytes.now wanted.ids.count) }
        ensures { Writes w.old w.new (flat_map (id_words self.entry.facets.edges.bytes.now
            self.entry.facets.rows.bytes.now self.entry.numbers.now) (chosen_from wanted.entry.inside.now Left
            (words 4 wanted.entry.ids.bytes.now wanted.entry.ids.count))) }
    {
        for id in wanted.chosen() {
            let image = image_marks(self.facets, id % ROW, id % EQUAL / ROW);
            self.write_facet(w, &image);
        }
    }
}
