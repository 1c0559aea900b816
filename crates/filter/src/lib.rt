// `filter_irc` on sorted lists of numbered facets: the entries in which no other is found. Leans on the walk of
// `label_irc`, and on the order of the lists.

#![tactic(auto)]

ghost use Rattle.std.specs.Prelude.{◌≡◌, length};
ghost use Prim.Native.Nat.{◌+◌, ◌≤◌, ◌<◌, compare};
ghost use lib.Seq.{sets};
ghost use Rattle.definitions.specs.Plain.{finds_other, filter_irc};
ghost use Rattle.words.specs.Runs.{run};
ghost use Rattle.order.specs.Areas.{lists_of, list_of};
ghost use Rattle.order.specs.Numbers.{AllAscending};
ghost use Rattle.labels.specs.Walked.{shared};
ghost use Rattle.filter.specs.Found.{Begun, Filters};
ghost use Rattle.filter.specs.Noted.{Noted};

use order::{Area, Lists};
use pool::MOST_LISTS;
use words::Word;

// ---- what each list has in common with the one before it

// How many items the lists at places k and k + 1 have in common, from the first on.
fn shared_items(lists: Lists, k: usize) -> usize
    requires { k + 1 < lists.area.count }
    ensures { result ≡ shared (list_of lists.entry.area lists.entry.bytes.now k)
        (list_of lists.entry.area lists.entry.bytes.now (k + 1)) }
{
    let m = lists.length(k);
    let n = lists.length(k + 1);
    (0..m)
        .find(|i| u32::from(lists.item(k, *i)) != labels::next_at(lists, k + 1, n, *i))
        .unwrap_or(m)
}

// For each list but the first, at its place, how many items it has in common with the one before it. Numbers of four
// bytes, and no `usize`: the notes lie on the stack.
fn note_shared(lists: Lists, notes: &mut [u32; MOST_LISTS])
    requires { lists.area.count ≤ 1024 }
    ensures { Noted (lists_of lists.entry.area lists.entry.bytes.now) lists.entry.area.count notes.new }
{
    for k in 1..lists.area.count {
        notes[k] = shared_items(lists, k - 1) as u32;
    }
}

// ---- filter_irc

// Whether some other list is found in the list at place a, none of those before the start being found there [18.2].
// The lists ascend: behind one that begins above list a every list begins above it, and none of them is found in it.
// A list that begins as the one before it does, up to and with the first item of that one that is not found, is not
// found either. That the lists ascend stays a clause: the workspace that it speaks of is written between two calls.
fn finds_other(lists: Lists, notes: &[u32; MOST_LISTS], a: usize, start: usize) -> bool
    requires { AllAscending (lists_of lists.area lists.bytes.now)
        × (a < lists.area.count)
        × Begun (lists_of lists.area lists.bytes.now) a start
        × (lists.area.count ≤ 1024)
        × Noted (lists_of lists.area lists.bytes.now) lists.area.count notes.now }
    ensures { result ≡ finds_other compare (lists_of lists.entry.area lists.entry.bytes.now) a }
{
    // how many items of the list before were found, once a walk was made
    let mut found = None;
    for b in start..lists.area.count {
        let alike = notes[b] as usize;
        if found.is_some_and(|items| items < alike) {
            continue;
        }
        if labels::starts_above(lists, b, a) {
            return false;
        }
        let items = labels::items_found(lists, a, b);
        if items == lists.length(b) && a != b {
            return true;
        }
        found = Some(items);
    }
    false
}

// The places of the lists in which no other is found, as `filter_irc` writes them. A list that begins below list a is
// found neither in it nor in a later list, so that no search looks at it again. How many are kept is counted by hand:
// each is written behind those kept before, and a chain that picks them would hold the workspace that is written.
fn filter_noted(ws: &mut [u8], notes: &[u32; MOST_LISTS], area: Area, at: usize) -> usize
    requires { Filters area at ws.old × Noted (lists_of area ws.old) area.count notes.now }
    ensures many { result ≡ length (filter_irc compare (lists_of area ws.old)) }
    ensures numbers { ws.new ≡ sets ws.old at (run 4 (filter_irc compare (lists_of area ws.old))) }
{
    let mut many = 0;
    let mut start = 0;
    for a in 0..area.count {
        let lists = Lists { bytes: ws, area };
        start = labels::search_start(lists, a, start);
        if !finds_other(lists, notes, a, start) {
            u32::put(ws, at + 4 * many, a as u32);
            many += 1;
        }
    }
    many
}

// The places of the lists in which no other is found, ascending, as u32 from place `at` on, and how many they are
// [18.2].
pub fn filter_irc(ws: &mut [u8], area: Area, at: usize) -> usize
    requires { Filters area at ws.old }
    ensures many { result ≡ length (filter_irc compare (lists_of area ws.old)) }
    ensures numbers { ws.new ≡ sets ws.old at (run 4 (filter_irc compare (lists_of area ws.old))) }
{
    let mut notes = [0; MOST_LISTS];
    note_shared(Lists { bytes: ws, area }, &mut notes);
    filter_noted(ws, &notes, area, at)
}
