// `label_irc` on sorted lists of numbered facets: which entries are made of two others; and its walk by itself, for
// `filter_irc`. Leans on the order of the lists.

#![tactic(auto)]

ghost use Rattle.std.specs.Prelude.{◌≡◌, length, get_or, drop};
ghost use Prim.Native.Nat.{◌+◌, ◌*◌, ◌≤◌, ◌<◌, compare};
ghost use lib.Seq.{sets};
ghost use Rattle.order.specs.Areas.{lists_of, list_of, Holding};
ghost use Rattle.definitions.specs.Figures.{first_above, labels_of};
ghost use Rattle.order.specs.Numbers.{AllAscending};
ghost use Rattle.labels.specs.Labels.{label_of, leaves, search_from, label_bytes};
ghost use Rattle.labels.specs.Walked.{items_found};

use order::{Area, Lists};
use words::{HIGH, Word};

// What is read behind the end of a list: a number above every item, since an item has two bytes.
const PAST: u32 = 65536;

// The item at place i of the list at place k, which has n items; behind its last item a number above every item: no
// Option, since one comparison then tells an item that is passed from a list that has ended.
pub fn next_at(lists: Lists, k: usize, n: usize, i: usize) -> u32
    requires { (k < lists.area.count) × (n ≡ length (list_of lists.area lists.bytes.now k)) }
    ensures { result ≡ get_or (list_of lists.entry.area lists.entry.bytes.now k) i 65536 }
{
    if n <= i {
        return PAST;
    }
    u32::from(lists.item(k, i))
}

// ---- the walk

// Whether the first item of the list at place b is above that of the list at place a.
pub fn starts_above(lists: Lists, b: usize, a: usize) -> bool
    requires { (b < lists.area.count) × (a < lists.area.count) }
    ensures { result ≡ first_above compare (list_of lists.entry.area lists.entry.bytes.now b)
        (list_of lists.entry.area lists.entry.bytes.now a) }
{
    if lists.length(b) == 0 {
        return false;
    }
    if lists.length(a) == 0 {
        return false;
    }
    lists.item(a, 0) < lists.item(b, 0)
}

// How many items of list b the walk through list a finds, one after another: all of them where it comes to the end of
// b [8.7]. `label_irc` has this walk inside its labelled loops, by the same laws. No `for`: the place in list a rises
// each turn, but the walk ends with list b.
pub fn items_found(lists: Lists, a: usize, b: usize) -> usize
    requires { (a < lists.area.count) × (b < lists.area.count) }
    ensures { result ≡ items_found (list_of lists.entry.area lists.entry.bytes.now a)
        (list_of lists.entry.area lists.entry.bytes.now b) }
{
    let m = lists.length(a);
    let n = lists.length(b);
    let mut i = 0;
    let mut j = 0;
    while j < n {
        let item = next_at(lists, a, m, i);
        let sought = u32::from(lists.item(b, j));
        if sought < item {
            return j;
        }
        if item == sought {
            j += 1;
        }
        i += 1;
    }
    j
}

// ---- labels

// The two lists whose union is the list with a label, or none: a label of four bytes holds the first in its lower
// half, the second in its upper one, and 0 where there are none. It is packed, since the labels lie in the bytes of
// the workspace that a caller lends, four for each list: no heap.
pub fn components(label: u32) -> Option<(u32, u32)>
    ensures { result ≡ label_of label }
{
    if label < HIGH {
        return None;
    }
    Some((label % HIGH, label / HIGH))
}

// ---- label_irc

// The place of the first list from place `from` on that does not begin below list a.
pub fn search_start(lists: Lists, a: usize, from: usize) -> usize
    requires { (a < lists.area.count) × (from ≤ lists.area.count) }
    ensures { result ≡ search_from (list_of lists.entry.area lists.entry.bytes.now a)
        (drop from (lists_of lists.entry.area lists.entry.bytes.now)) from }
{
    (from..lists.area.count)
        .find(|b| !starts_above(lists, a, *b))
        .unwrap_or(lists.area.count)
}

// Whether the list at place c is what the walk of list b through list a passes over or leaves. The place in list b is
// counted by hand: it moves on only where the two lists have the same item, and what stands there is looked at again
// where it does not.
fn is_left(lists: Lists, a: usize, b: usize, c: usize) -> bool
    requires { (a < lists.area.count) × (b < lists.area.count) × (c < lists.area.count) }
    ensures { result ≡ leaves (list_of lists.entry.area lists.entry.bytes.now a)
        (list_of lists.entry.area lists.entry.bytes.now b) (list_of lists.entry.area lists.entry.bytes.now c) }
{
    let m = lists.length(a);
    let n = lists.length(b);
    let l = lists.length(c);
    if n + l != m {
        return false;
    }
    let mut j = 0;
    for i in 0..m {
        let x = u32::from(lists.item(a, i));
        let y = next_at(lists, b, n, j);
        if y < x {
            return false;
        }
        if x < y {
            if next_at(lists, c, l, i - j) != x {
                return false;
            }
        } else {
            j += 1;
        }
    }
    true
}

// For each list the first shorter one found inside it, and with it the first later one that is left: a table of
// labels from place `at` on. The lists ascend: behind a list that begins above a's first item every list begins above
// it, so that the search may stop there; and a list that begins below it is found neither inside a nor inside a later
// list, so that no search looks at it again. An empty list, which stands first and is found inside every other,
// begins neither above nor below. That the lists ascend stays a clause: the function writes the workspace that it
// speaks of. The labelled loops, and the walk with its two places inside them, stay as they are: a form that was
// asked for (docs/DECISIONS.md, "Plain entries", "Language forms").
pub fn label_irc(ws: &mut [u8], area: Area, at: usize)
    requires { Holding area ws.old
        × AllAscending (lists_of area ws.old)
        × (area.count ≤ 65536)
        × (area.bytes + 2 * area.count ≤ at) × (at + 4 * area.count ≤ length ws.old) }
    ensures { ws.new ≡ sets ws.old at (label_bytes (labels_of compare (lists_of area ws.old))) }
{
    let mut start = 0;
    'a: for a in 0..area.count {
        u32::put(ws, at + 4 * a, 0);
        let lists = Lists { bytes: ws, area };
        let m = lists.length(a);
        start = search_start(lists, a, start);
        'subset: for b in start..area.count {
            if starts_above(lists, b, a) {
                break;
            }
            let n = lists.length(b);
            if m <= n {
                continue;
            }
            let mut i = 0;
            let mut j = 0;
            while j < n {
                let x = next_at(lists, a, m, i);
                let y = u32::from(lists.item(b, j));
                if y < x {
                    continue 'subset;
                }
                if x == y {
                    j += 1;
                }
                i += 1;
            }
            for c in b + 1..area.count {
                if is_left(lists, a, b, c) {
                    u32::put(ws, at + 4 * a, b as u32 + HIGH * c as u32);
                    continue 'a;
                }
            }
            continue 'a;
        }
    }
}
