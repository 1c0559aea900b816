// Which hyperplane orbits a package keeps: tallies added up orbit by orbit, then the orbits moved together whose
// key's tally is 2 or more. A key is the number of its set of global numbers, below 2 ^ 20. A mark is one number, 256
// · key + tally, in an ascending region, so that nothing is written over: a key's latest mark is its largest number.
// Each function equals a step of [17.4] to [17.6]. Leans on the sorted sets, the sets' images and the orbits.

#![tactic(auto)]

ghost use Rattle.std.specs.Prelude.{◌≡◌, [], map, ◌+◌, ◌*◌, ◌/◌, ◌≤◌, ◌<◌, length, get_or, take, drop, set};
ghost use Rattle.std.specs.Prelude.{None};
ghost use Rattle.definitions.specs.Orbits.{set_image};
ghost use Rattle.definitions.specs.Noble.{kept_by};
ghost use Rattle.laws.specs.Segments.{part, placed};
ghost use Rattle.laws.specs.Sets.{set_number, vertices_of};
ghost use Rattle.words.specs.Words.{words};
ghost use Rattle.sorted.specs.Ascending.{Ascending};
ghost use Rattle.sorted.specs.Gathering.{added};
ghost use Rattle.rows.specs.Rows.{rows_in, row_at};
ghost use Rattle.orbits.specs.Numbers.{image_numbers, orbit_of};
ghost use Rattle.orbits.specs.Workspace.{orbits_in, orbits_room};
ghost use Rattle.tallies.specs.Marks.{latest, mark_number, TalliesBelow};
ghost use Rattle.tallies.specs.Counts.{count_by, count_one, count_all, sum_by, none_counted, keep_pairs, most_weight};
ghost use Rattle.tallies.specs.Meaning.{GlobalsFit, PackageFits, package_in, images_in, sums_in, listed_in, ListFits};
ghost use Rattle.tallies.specs.Meaning.{WeightsFit};

use arrayvec::ArrayVec;
use orbits::ORBITS_BYTES;
use sets::{set_image, vertices_of};
use sorted::Sorted;
use stabilizers::Symmetries;
use words::Word;

// ---- marks

// As many tallies as there may be: no more than orbits.
const MOST_TALLIES: u32 = 256;

// The tally of a key's latest mark: the last number below the next key's, if it is one of this key's.
fn mark_of(marks: Sorted, key: u32) -> Option<usize>
    requires { key < 1048576 }
    ensures { result ≡ latest 256 (words 4 marks.entry.bytes.now marks.entry.count) key }
{
    let end = marks.first_from(MOST_TALLIES * (key + 1));
    if end == 0 {
        return None;
    }
    let last = u32::get(marks.bytes, 4 * (end - 1));
    if last / MOST_TALLIES == key {
        return Some((last % MOST_TALLIES) as usize);
    }
    None
}

// The marks of all images of a key with a tally, ascending.
fn gather_marks(full: Symmetries, key: u32, tally: u32) -> ArrayVec<u32, 120>
    requires { (full.rows.count ≤ 120) × (tally < 256) }
    ensures { result.items ≡ map (mark_number tally) (added []
        (image_numbers full.entry.n key (rows_in full.entry.n full.entry.rows.count full.entry.rows.bytes.now))) }
{
    let vertices = vertices_of(key, full.n);
    let mut new = ArrayVec::new();
    for i in 0..full.rows.count {
        let image = set_image(full.rows.bytes, i, &vertices);
        sorted::insert(&mut new, MOST_TALLIES * image + tally);
    }
    new
}

// ---- tallies

// The package of a full set [17.1]: the global numbers of a call's vertices, the full rows, which permute the points
// of the full set, and what each set of an orbit counts for.
#[derive(Clone, Copy)]
pub struct Package<'a> {
    pub globals: &'a [u8],
    pub full: Symmetries<'a>,
    pub count: u32,
}

// A tally: how many images its key has, and what it has added up to.
#[derive(Clone, Copy, Default)]
struct Tally {
    images: u64,
    sum: u64,
}

// How many marks there are, and the tallies in the order in which they were opened.
#[derive(Drop)]
struct Tallies {
    known: usize,
    tallies: ArrayVec<Tally, 256>,
}

impl Tallies {
    // An unmarked key opens a tally: its images are marked with it, and it begins with its part of the weight.
    fn open(&mut self, whole: Package, key: u32, weight: u64, marks: &mut [u8])
        requires { (0 < whole.full.rows.count)
            × (whole.full.rows.count ≤ 120) × ListFits self.old.known marks.old self.old.tallies.items }
        ensures { listed_in self.new.known marks.new self.new.tallies.items ≡ count_by None whole.entry.full.n
            (rows_in whole.entry.full.n whole.entry.full.rows.count whole.entry.full.rows.bytes.now)
            (listed_in self.old.known marks.old self.old.tallies.items) key weight }
    {
        let new = gather_marks(whole.full, key, self.tallies.len() as u32);
        let many = new.len();
        sorted::merge(marks, self.known, new.as_slice());
        self.known += many;
        self.tallies.push(Tally {
            images: many as u64,
            sum: weight / (many as u64),
        });
    }

    // A marked key adds its part of the weight to its tally.
    fn add_portion(&mut self, k: usize, weight: u64)
        requires { (k < length self.old.tallies.items)
            × (0 < get_or (images_in self.old.tallies.items) k 0)
            × (get_or (sums_in self.old.tallies.items) k 0 + weight ≤ 18446744073709551615) }
        ensures known { self.new.known ≡ self.old.known }
        ensures many { length self.new.tallies.items ≡ length self.old.tallies.items }
        ensures images { images_in self.new.tallies.items ≡ images_in self.old.tallies.items }
        ensures sums { sums_in self.new.tallies.items ≡ set (sums_in self.old.tallies.items) k
            (get_or (sums_in self.old.tallies.items) k 0 + weight / get_or (images_in self.old.tallies.items) k 0) }
    {
        let tally = &mut self.tallies.as_mut_slice()[k];
        tally.sum += weight / tally.images;
    }

    // One orbit more.
    fn add_orbit(&mut self, whole: Package, key: u32, weight: u64, marks: &mut [u8])
        requires { (0 < whole.full.rows.count)
            × (whole.full.rows.count ≤ 120)
            × ListFits self.old.known marks.old self.old.tallies.items
            × (key < 1048576) × (weight ≤ most_weight) }
        ensures { listed_in self.new.known marks.new self.new.tallies.items ≡ count_one whole.entry.full.n
            (rows_in whole.entry.full.n whole.entry.full.rows.count whole.entry.full.rows.bytes.now)
            (listed_in self.old.known marks.old self.old.tallies.items) key weight }
    {
        let marked = Sorted {
            bytes: marks,
            count: self.known,
        };
        match mark_of(marked, key) {
            Some(k) => self.add_portion(k, weight),
            None => self.open(whole, key, weight, marks),
        }
    }
}

// The key of a set: its global numbers, as a set's number.
fn key_of(whole: Package, n: usize, set: u32) -> u32
    requires { GlobalsFit n whole.full.n whole.globals.now }
    ensures { (result ≡ set_number (set_image (vertices_of n set) (row_at n 0 whole.entry.globals.now)))
        × (result < 1048576) }
{
    set_image(whole.globals, 0, &vertices_of(set, n))
}

// The tallies of all orbits, in order. The loops go by the number of an orbit, here and below: an iterator of the
// orbits would hold on to the workspace that the loop writes.
fn tally_orbits(whole: Package, n: usize, orbits: usize, ws: &mut [u8]) -> Tallies
    requires { PackageFits n whole × (orbits ≤ 256) × (orbits_room ≤ length ws.old) }
    ensures counted { listed_in result.known (drop 2048 ws.new) result.tallies.items
        ≡ count_all n (row_at n 0 whole.entry.globals.now) whole.entry.full.n
        (rows_in whole.entry.full.n whole.entry.full.rows.count whole.entry.full.rows.bytes.now) whole.entry.count
        none_counted (orbits_in ws.old orbits) }
    ensures front { take 2048 ws.new ≡ take 2048 ws.old }
    ensures light { WeightsFit whole.entry.count orbits ws.old }
{
    let mut tallies = Tallies {
        known: 0,
        tallies: ArrayVec::new(),
    };
    for i in 0..orbits {
        let key = key_of(whole, n, u32::get(ws, 8 * i));
        let weight = u64::from(whole.count) * u64::from(u32::get(ws, 8 * i + 4));
        tallies.add_orbit(whole, key, weight, &mut ws[ORBITS_BYTES..]);
    }
    tallies
}

// ---- kept orbits

// What the tally of a key has added up to; 0 where it has no mark.
fn sum_of(marks: Sorted, key: u32, tallies: &[Tally]) -> u64
    requires { (key < 1048576) × TalliesBelow (length tallies.now) (words 4 marks.bytes.now marks.count) }
    ensures { result ≡ sum_by (latest 256 (words 4 marks.entry.bytes.now marks.entry.count) key) (sums_in tallies.now) }
{
    match mark_of(marks, key) {
        Some(k) => tallies[k].sum,
        None => 0,
    }
}

// Orbit `from` is written at place `to` too.
fn move_orbit(ws: &mut [u8], from: usize, to: usize)
    requires { (8 * from + 8 ≤ length ws.old) × (to ≤ from) }
    ensures { ws.new ≡ placed (8 * to) 8 ws.old (part (8 * from) 8 ws.old) }
{
    ws.copy_within(8 * from..8 * from + 8, 8 * to);
}

// The orbits whose key's tally is 2 or more, moved together; returns how many there are. `Ascending` stays a clause:
// the function writes the workspace that it speaks of. Counted by hand: the count is the place of the next orbit that
// is written, and in the end the answer. No `filter`: it would hold on to the region that the loop writes.
fn move_together(whole: Package, n: usize, orbits: usize, tallies: &Tallies, ws: &mut [u8]) -> usize
    requires { GlobalsFit n whole.full.n whole.globals.now
        × (orbits ≤ 256)
        × (2048 + 4 * tallies.now.known ≤ length ws.old)
        × Ascending (words 4 (drop 2048 ws.old) tallies.now.known)
        × TalliesBelow (length tallies.now.tallies.items) (words 4 (drop 2048 ws.old) tallies.now.known) }
    ensures few { result ≤ orbits }
    ensures kept { orbits_in ws.new result
        ≡ keep_pairs n (row_at n 0 whole.entry.globals.now) (words 4 (drop 2048 ws.old) tallies.now.known)
        (sums_in tallies.now.tallies.items) (orbits_in ws.old orbits) }
{
    let mut kept = 0;
    for i in 0..orbits {
        let key = key_of(whole, n, u32::get(ws, 8 * i));
        let marks = Sorted {
            bytes: &ws[ORBITS_BYTES..],
            count: tallies.known,
        };
        if 2 <= sum_of(marks, key, tallies.tallies.as_slice()) {
            move_orbit(ws, i, kept);
            kept += 1;
        }
    }
    kept
}

// [17.6] The first `orbits` orbits of a workspace become those that the package keeps; returns how many there are.
// The workspace is that of `orbits`; the region of the sets seen holds the marks.
pub fn keep_orbits(whole: Package, n: usize, orbits: usize, ws: &mut [u8]) -> usize
    requires { PackageFits n whole × (orbits ≤ 256) × (orbits_room ≤ length ws.old) }
    ensures few { result ≤ orbits }
    ensures kept { map (orbit_of n) (orbits_in ws.new result)
        ≡ kept_by (package_in n whole.entry) (map (orbit_of n) (orbits_in ws.old orbits)) }
{
    let tallies = tally_orbits(whole, n, orbits, ws);
    move_together(whole, n, orbits, &tallies, ws)
}
