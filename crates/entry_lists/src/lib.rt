// The words of the counts of a call's orbits, of lists of its facets, and of the compounds among its entries. Leans
// on the words of figures.

#![tactic(auto)]

ghost use Rattle.std.specs.Prelude.{◌≡◌, ◌+◌, ◌*◌, ◌-◌, ◌/◌, ◌%◌, ◌≤◌, ◌<◌, length};
ghost use mathlib.Core.List.{flat_map};
ghost use Rattle.words.specs.Words.{words};
ghost use Rattle.words.specs.Wrote.{Writes};
ghost use Rattle.pool.specs.Pool.{count};
ghost use Rattle.definitions.specs.Job.{counted, compound_words};
ghost use Rattle.definitions.specs.Figures.{compound_at, compounds_from};
ghost use Rattle.orbits.specs.Workspace.{orbits_in};
ghost use Rattle.order.specs.Areas.{list_at};
ghost use Rattle.labels.specs.Labels.{label_of, labels_in};
ghost use Rattle.order.specs.Numbers.{ItemsBelow};
ghost use Rattle.possible_facets.specs.Facets.{item_words, list_words, OwnersBelow, Firsts};
ghost use Rattle.entry_lists.specs.Counts.{count_words};

use order::Pool;
use pool::MOST_ORBITS;
use possible_facets::Owners;
use words::{Word, Writer};

// ---- orbits and split lists

// How many orbits there are, and how many sets each has.
pub fn write_counts(w: &mut Writer, ws: &[u8], orbits: usize)
    requires { (8 * orbits ≤ length ws.now) × (orbits < 4294967296) }
    ensures { Writes w.old w.new (count_words (orbits_in ws.now orbits)) }
{
    w.push(orbits as u32);
    for i in 0..orbits {
        w.push(u32::get(ws, 8 * i + 4));
    }
}

// The number of the first facet of each orbit that has facets: the last facet comes first, so that the first one
// stays.
pub fn first_facets(owners: Owners) -> [usize; MOST_ORBITS]
    requires { OwnersBelow 256 (words 2 owners.bytes.now owners.facets) }
    ensures { Firsts (words 2 owners.entry.bytes.now owners.entry.facets) result }
{
    let mut firsts = [0; MOST_ORBITS];
    for x in (0..owners.facets).rev() {
        firsts[owners.orbit(x)] = x;
    }
    firsts
}

// What a facet's name in an answer comes from: the orbit of each facet, and the number of the first facet of each
// orbit.
#[derive(Clone, Copy)]
pub struct FacetNames<'a> {
    pub owners: Owners<'a>,
    pub firsts: &'a [usize; MOST_ORBITS],
    pub ghost few: { owners.facets < 4294967296 },
    pub ghost below: { OwnersBelow 256 (words 2 owners.bytes.now owners.facets) },
    pub ghost first: { Firsts (words 2 owners.bytes.now owners.facets) firsts.now },
}

impl<'a> FacetNames<'a> {
    // A facet of a list: its orbit, and its number in the orbit.
    fn write_item(self, w: &mut Writer, x: usize)
        requires { x < self.owners.facets }
        ensures { Writes w.old w.new (item_words (words 2 self.entry.owners.bytes.now self.entry.owners.facets) x) }
    {
        let orbit = self.owners.orbit(x);
        w.push(orbit as u32);
        w.push((x - self.firsts[orbit]) as u32);
    }

    // List k of a pool: its length, and its facets. `ItemsBelow` stays a clause: it speaks of that one list, and k is
    // another parameter.
    pub fn write_list(self, w: &mut Writer, lists: Pool, k: usize)
        requires { (k < count lists.bytes.now) × ItemsBelow self.owners.facets (list_at lists.most lists.bytes.now k) }
        ensures { Writes w.old w.new (list_words (words 2 self.entry.owners.bytes.now self.entry.owners.facets)
            (list_at lists.entry.most lists.entry.bytes.now k)) }
    {
        w.push(lists.length(k) as u32);
        for x in lists.items(k) {
            self.write_item(w, usize::from(x));
        }
    }
}

// ---- compounds

fn count_compounds(s: &[u8], at: usize, n: usize) -> usize
    requires { at + 4 * n ≤ length s.now }
    ensures { (result ≡ length (compounds_from 0 (labels_in at n s.now))) × (result ≤ n) }
{
    (0..n)
        .filter(|i| labels::components(u32::get(s, at + 4 * *i)).is_some())
        .count()
}

fn write_compound(w: &mut Writer, whole: usize, label: u32)
    requires { whole < 4294967296 }
    ensures { Writes w.old w.new (flat_map compound_words (compound_at whole (label_of label))) }
{
    if let Some((first, second)) = labels::components(label) {
        w.push_three(whole as u32, first, second);
    }
}

// How many compounds a table of n labels has, and each, ascending.
pub fn write_compounds(w: &mut Writer, s: &[u8], labels: usize, n: usize)
    requires { (labels + 4 * n ≤ length s.now) × (n < 4294967296) }
    ensures { Writes w.old w.new (counted compound_words (compounds_from 0 (labels_in labels n s.now))) }
{
    let many = count_compounds(s, labels, n);
    w.push(many as u32);
    for i in 0..n {
        write_compound(w, i, u32::get(s, labels + 4 * i));
    }
}
