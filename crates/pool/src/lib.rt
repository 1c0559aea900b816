// Lists of any length in one region: closed lists one behind another, and one that is open at the end. `most` is how
// many lists the region has room for. A `k` beside a region is the number of a list in it, and no length; what a
// region counts stands in its first bytes, since a caller lends all memory, as bytes. Items are u16 or u32 numbers. A
// `requires` here is a bound on an index and nothing else; what a region holds follows by the laws of specs/Pool.

#![tactic(auto)]

ghost use Rattle.std.specs.Prelude.{◌≡◌, ◌+◌, ◌*◌, ◌≤◌, ◌<◌, length};
ghost use Rattle.definitions.specs.Job.{number_at};
ghost use Rattle.pool.specs.Pool.{count, used, start, base, emptied, pushed, ended, length_at, place_at};

use words::Word;

// ---- bounds

// As many orbits, possible facets and entries as a call may have. A pool of a call's orbits or facets has a list for
// each; the lists that the search emits are as many as entries.
pub const MOST_ORBITS: usize = 256;

pub const MOST_FACETS: usize = 1024;

pub const MOST_LISTS: usize = 1024;

// ---- lists

// No list, and an empty one open.
pub fn clear(s: &mut [u8])
    requires { 12 ≤ length s.old }
    ensures { s.new ≡ emptied s.old }
{
    u32::put(s, 0, 0);
    u32::put(s, 4, 0);
    u32::put(s, 8, 0);
}

// One item more in the open list.
pub fn push<T: Word>(s: &mut [u8], most: usize, v: T)
    requires { (base most + T.BYTES * (used s.old + 1) ≤ length s.old) × (used s.old + 1 < 4294967296) }
    ensures { s.new ≡ pushed T.BYTES most s.old (T.number v) }
{
    let used = u32::get(s, 4);
    T::put(s, 12 + 4 * most + T::BYTES * used as usize, v);
    u32::put(s, 4, used + 1);
}

// The open list is closed, and an empty one is open behind it.
pub fn end_list(s: &mut [u8])
    requires { (16 + 4 * count s.old ≤ length s.old) × (count s.old + 1 < 4294967296) }
    ensures { s.new ≡ ended s.old }
{
    let n = u32::get(s, 0);
    let used = u32::get(s, 4);
    u32::put(s, 12 + 4 * n as usize, used);
    u32::put(s, 0, n + 1);
}

// How many lists are closed.
pub fn lists(s: &[u8]) -> u32
    requires { 4 ≤ length s.now }
    ensures { result ≡ count s.now }
{
    u32::get(s, 0)
}

// The length of list k.
pub fn list_length(s: &[u8], k: usize) -> u32
    requires { 16 + 4 * k ≤ length s.now }
    ensures { result ≡ length_at s.now k }
{
    let a = u32::get(s, 8 + 4 * k);
    let b = u32::get(s, 12 + 4 * k);
    b.saturating_sub(a)
}

// Item i of list k.
pub fn item<T: Word>(s: &[u8], most: usize, k: usize, i: usize) -> T
    requires { (12 + 4 * k ≤ length s.now) × (place_at T.BYTES most s.now k i + T.BYTES ≤ length s.now) }
    ensures { T.number result ≡ number_at s.now (place_at T.BYTES most s.now k i) T.BYTES }
{
    let a = u32::get(s, 8 + 4 * k) as usize;
    T::get(s, 12 + 4 * most + T::BYTES * (a + i))
}
