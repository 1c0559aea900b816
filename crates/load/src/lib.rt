// A job's fields, read from its bytes: counts, limits, and the places of what is longer; the plane, the points and
// the rows in the form that the calls want. Each function equals the definition's `read_job`, whatever the numbers
// are: which jobs are refused is told elsewhere. A `requires` here is that the bytes are there. A place in the bytes
// and a number of fields go side by side, here and where a job, a package or numbers in the workspace are read: the
// definitions read bytes so, and a slice would be cut with the same two numbers.

#![tactic(auto)]

ghost use Rattle.std.specs.Prelude.{◌≡◌, cond, ◌+◌, ◌-◌, ◌*◌, ◌≤◌, ◌<◌, leb, length, get_or};
ghost use Rattle.std.proofs.Math.Seq.{paste};
ghost use Rattle.definitions.specs.Job.{tolerance1, flag_set, present, number_at, float_at, floats_at, read_job};
ghost use Rattle.definitions.specs.Job.{plane_of};
ghost use Rattle.vectors.specs.Meaning.{five};
ghost use Rattle.space.specs.Meaning.{HoldsSubspace, HoldsPoints};
ghost use Rattle.load.specs.Places.{header_of, places_of, Counted, Exact};
ghost use Rattle.rows.specs.Rows.{rows_in, written_rows};
ghost use Rattle.load.specs.Meaning.{fields_of, read_once, rows_at};

use rows::ROW_BYTES;
use space::{Limits, Points, Subspace};
use words::Word;

// ---- the header

// The version, the counts, the last that of the rows, and the flags.
#[derive(Clone, Copy)]
pub struct Header {
    pub version: usize,
    pub rank: usize,
    pub d: usize,
    pub n: usize,
    pub count: usize,
    pub flags: usize,
}

pub fn header_of(job: &[u8]) -> Header
    requires { 11 ≤ length job.now }
    ensures { result ≡ header_of job.now }
{
    Header {
        version: usize::from(u16::get(job, 3)),
        rank: usize::from(job[5]),
        d: usize::from(job[6]),
        n: usize::from(job[7]),
        count: usize::from(u16::get(job, 8)),
        flags: usize::from(job[10]),
    }
}

// ---- where the fields stand

// The place of each field that the version or a flag can move, and the length of the whole job.
#[derive(Clone, Copy)]
pub struct Places {
    pub max: usize,
    pub limit: usize,
    pub tolerance: usize,
    pub rule: usize,
    pub budget: usize,
    pub offset: usize,
    pub basis: usize,
    pub points: usize,
    pub rows: usize,
    pub size: usize,
}

// Whether the flag of a weight, which is a power of two, is set.
fn has_flag(flags: usize, weight: usize) -> bool
    requires { 0 < weight }
    ensures { result ≡ flag_set flags weight }
{
    flags / weight % 2 == 1
}

// The bytes of a field: none where it is absent.
fn room(present: bool, bytes: usize) -> usize
    ensures { (result ≡ cond present bytes 0) × (result ≤ bytes) }
{
    if present { bytes } else { 0 }
}

pub fn places_of(h: Header) -> Places
    requires { Counted h }
    ensures { result ≡ places_of h }
{
    let max = 11 + room(has_flag(h.flags, 1), 8);
    let limit = max + room(has_flag(h.flags, 2), 8);
    let tolerance = limit + room(has_flag(h.flags, 4), 4);
    let rule = tolerance + room(2 <= h.version, 8);
    let budget = rule + room(3 <= h.version, 1);
    let offset = budget + 4;
    let vector = 8 * h.d;
    let basis = offset + vector;
    let points = basis + vector * (h.rank - 1);
    let rows = points + vector * h.n;
    Places {
        max,
        limit,
        tolerance,
        rule,
        budget,
        offset,
        basis,
        points,
        rows,
        size: rows + h.n * h.count,
    }
}

// ---- single fields

// A pattern of a NaN is read as the NaN, which every test of sizes refuses.
pub fn float_at(job: &[u8], at: usize) -> f64
    requires { at + 8 ≤ length job.now }
    ensures { result ≡ float_at job.now at }
{
    words::get_f64(job, at).unwrap_or(f64::NAN)
}

// ---- all fields

// The counts, the limits, the tolerance, the rule and the budget by value; the last four are the places in the job
// where offset, basis, points and rows begin.
#[derive(Clone, Copy)]
pub struct Fields {
    pub rank: usize,
    pub d: usize,
    pub n: usize,
    pub count: usize,
    pub limits: Limits,
    pub entries: Option<u32>,
    pub tolerance: f64,
    // 1 or 2 in a job that passes. A number and no enum of the two: a job's field holds any byte until it is tested,
    // and the public functions that take a rule (`orbits::find_orbits`) answer for every number, so that a narrower
    // type would ask more of their callers.
    pub rule: usize,
    pub budget: u32,
    pub offset: usize,
    pub basis: usize,
    pub points: usize,
    pub rows: usize,
}

// A version without a field for the tolerance has 1e-7, one without a field for the rule of crowded lines the rule 1.
// What the header and the places have is copied field by field: a `Fields` that held both would hand on flags and
// places that its readers never ask, and each of them would name one field more on the way.
pub fn fields_of(job: &[u8]) -> Fields
    requires { Exact job.now }
    ensures { result ≡ fields_of job.now }
{
    let h = header_of(job);
    let p = places_of(h);
    let tolerance = (2 <= h.version).then(|| float_at(job, p.tolerance));
    let rule = (3 <= h.version).then(|| usize::from(job[p.rule]));
    Fields {
        rank: h.rank,
        d: h.d,
        n: h.n,
        count: h.count,
        limits: Limits {
            shortest: has_flag(h.flags, 1).then(|| float_at(job, 11)),
            longest: has_flag(h.flags, 2).then(|| float_at(job, p.max)),
        },
        entries: has_flag(h.flags, 4).then(|| u32::get(job, p.limit)),
        tolerance: tolerance.unwrap_or(0.0000001),
        rule: rule.unwrap_or(1),
        budget: u32::get(job, p.budget),
        offset: p.offset,
        basis: p.basis,
        points: p.points,
        rows: p.rows,
    }
}

// ---- plane, points and rows

// d numbers from a place on.
fn vector_at(job: &[u8], at: usize, d: usize) -> [f64; 5]
    requires { (d ≤ 5) × (at + 8 * d ≤ length job.now) }
    ensures { result ≡ five (floats_at job.now at d) }
{
    let mut v = [0.0; 5];
    for i in 0..d {
        v[i] = float_at(job, at + 8 * i);
    }
    v
}

// The bytes of a row, from a place on. A loop of this crate's own: the library's `copy_from_slice` of a part whose
// length is not known is compiled to a call of `memmove`, and the archive for C is to need no other function from
// outside than `memcpy` and `memset`.
fn copy_row(region: &mut [u8], at: usize, row: &[u8])
    requires { at + length row.now ≤ length region.old }
    ensures { region.new ≡ paste region.old at row.now (length row.now) }
{
    for i in 0..row.len() {
        region[at + i] = row[i];
    }
}

// Rows of n bytes that stand one behind the other from a place on, copied to 32 bytes each.
pub fn copy_rows(bytes: &[u8], at: usize, n: usize, count: usize, region: &mut [u8])
    requires { (n ≤ 32) × (at + n * count ≤ length bytes.now) × (32 * count ≤ length region.old) }
    ensures rows { (rows_in n count region.new ≡ rows_at bytes.now at n count)
        × (length region.new ≡ length region.old) }
    ensures region { region.new ≡ written_rows (rows_at bytes.now at n count) 0 region.old }
{
    for i in 0..count {
        let from = at + n * i;
        let to = from + n;
        copy_row(region, ROW_BYTES * i, &bytes[from..to]);
    }
}

// A job of its exact length, and its fields: what the plane, the points and the rows are read from. Callers hand on
// the bytes and the fields side by side: that the job passed, which they ask, says more than this struct, and speaks
// of the length of the workspace too.
#[derive(Clone, Copy)]
pub struct Job<'a> {
    pub bytes: &'a [u8],
    pub fields: Fields,
    pub ghost exact: { Exact bytes.now },
    pub ghost read: { fields ≡ fields_of bytes.now } by { read_once fields bytes.now },
}

impl<'a> Job<'a> {
    pub fn plane(self) -> Subspace
        ensures { HoldsSubspace result (plane_of (read_job self.entry.bytes.now))
            × (result.d ≡ self.entry.fields.d) × (result.rank ≡ self.entry.fields.rank - 1) }
    {
        let offset = vector_at(self.bytes, self.fields.offset, self.fields.d);
        let mut plane = Subspace::new(offset, self.fields.d);
        for j in 0..self.fields.rank - 1 {
            plane.push(vector_at(
                self.bytes,
                self.fields.basis + 8 * self.fields.d * j,
                self.fields.d,
            ));
        }
        plane
    }

    pub fn points(self) -> Points
        ensures { HoldsPoints result self.entry.fields.d (read_job self.entry.bytes.now).points
            × (result.n ≡ self.entry.fields.n) }
    {
        let mut points = Points::new(self.fields.d);
        for i in 0..self.fields.n {
            points.push(vector_at(
                self.bytes,
                self.fields.points + 8 * self.fields.d * i,
                self.fields.d,
            ));
        }
        points
    }

    // Each row to a place of its own, 32 bytes apart, so that a row's number times a constant finds it. What stands
    // between the rows and behind them stays. It hands out no `Rows`: of a region that goes into the result no clause
    // can say what it ends as.
    pub fn load_rows(self, region: &mut [u8])
        requires { 32 * self.fields.count ≤ length region.old }
        ensures rows { (rows_in self.entry.fields.n self.entry.fields.count region.new
            ≡ (read_job self.entry.bytes.now).rows)
            × (length region.new ≡ length region.old) }
        ensures region { region.new ≡ written_rows (read_job self.entry.bytes.now).rows 0 region.old }
    {
        copy_rows(
            self.bytes,
            self.fields.rows,
            self.fields.n,
            self.fields.count,
            region,
        );
    }
}
