// A package's bytes [17.2]: whether they pass [17.3], and the full set that they tell of, loaded so that orbits can
// be tallied by it. Rows are tested as a job's are.

#![tactic(auto)]

ghost use Rattle.std.specs.Prelude.{◌≡◌, ℕ, ◌+◌, ◌≤◌, ◌<◌, T, length, get_or, drop};
ghost use Rattle.definitions.specs.Lists.{member_nat};
ghost use Rattle.definitions.specs.Noble.{read_package, package_counts, package_good};
ghost use Rattle.stabilizers.specs.Permutations.{Permutations};
ghost use Rattle.tallies.specs.Meaning.{PackageFits, package_in};
ghost use Rattle.packages.specs.Once.{once_below};
ghost use Rattle.packages.specs.Loaded.{LoadedFits, loaded_in};

use rows::Rows;
use stabilizers::Symmetries;
use tallies::Package;
use words::Word;

// ---- the test

// Whether the number at place i stands again behind it.
fn stands_again(globals: &[u8], i: usize) -> bool
    requires { i < length globals.now }
    ensures { result ≡ member_nat (get_or globals.now i 0) (drop (i + 1) globals.now) }
{
    globals[i + 1..].contains(&globals[i])
}

// Whether numbers are below g, and none stands twice.
fn globals_good(globals: &[u8], g: usize) -> bool
    ensures { result ≡ once_below g globals.now }
{
    (0..globals.len()).all(|i| usize::from(globals[i]) < g && !stands_again(globals, i))
}

// The numbers at the front are in their ranges, and the package has the length that they state.
fn counts_good(pack: &[u8], n: usize) -> bool
    requires { n ≤ 20 }
    ensures { result ≡ package_counts n pack.now }
{
    if pack.len() < 5 {
        return false;
    }
    let rows = usize::from(u16::get(pack, 0));
    let size = usize::from(pack[2]);
    let count = usize::from(u16::get(pack, 3));
    if !job::between(1, 120, rows) {
        return false;
    }
    if !job::between(2, 20, size) {
        return false;
    }
    if !job::between(1, 65535, count) {
        return false;
    }
    pack.len() == 5 + n + size * rows
}

// [17.3] whether a package passes, for a call with n vertices
pub fn package_good(pack: &[u8], n: usize) -> bool
    requires { n ≤ 20 }
    ensures { result ≡ package_good n pack.now }
{
    if !counts_good(pack, n) {
        return false;
    }
    let rows = usize::from(u16::get(pack, 0));
    let size = usize::from(pack[2]);
    if !globals_good(&pack[5..5 + n], size) {
        return false;
    }
    if !job::is_identity(pack, 5 + n, size) {
        return false;
    }
    job::rows_good(pack, 5 + n, size, rows)
}

// ---- loading

// What a package says of its full set in numbers: how many points it has, how many full rows there are, and what each
// set of an orbit counts for.
#[derive(Clone, Copy)]
pub struct FullSet {
    pub size: usize,
    pub rows: usize,
    pub count: u32,
}

impl FullSet {
    // The package of these numbers, whose global numbers and full rows lie in two regions.
    pub fn package<'a>(self, globals: &'a [u8], full: &'a [u8]) -> Package<'a>
        requires { Permutations self.size self.rows full.now }
        ensures fits { (n : ℕ) → LoadedFits n self globals.now full.now → PackageFits n result }
        ensures is { (n : ℕ) → package_in n result ≡ loaded_in n self globals.now full.now }
    {
        let rows = Rows {
            bytes: full,
            count: self.rows,
        };
        let full = Symmetries { rows, n: self.size };
        Package {
            globals,
            full,
            count: self.count,
        }
    }
}

// A package that passes: its global numbers and its full rows, 32 bytes to a row, are written to two regions, and the
// numbers that go with them are handed back. It hands out no `Package`: of a region that goes into the result no
// clause can say what it ends as. `FullSet::package` makes one of what is loaded.
pub fn load_package(pack: &[u8], n: usize, globals: &mut [u8], full: &mut [u8]) -> FullSet
    requires { (n ≤ 20) × T (package_good n pack.now) × (length globals.old ≡ 32) × (length full.old ≡ 3840) }
    ensures fits { LoadedFits n result globals.new full.new }
    ensures is { loaded_in n result globals.new full.new ≡ read_package n pack.now }
{
    let rows = usize::from(u16::get(pack, 0));
    let size = usize::from(pack[2]);
    let count = u32::from(u16::get(pack, 3));
    load::copy_rows(pack, 5, n, 1, globals);
    load::copy_rows(pack, 5 + n, size, rows, full);
    FullSet { size, rows, count }
}
