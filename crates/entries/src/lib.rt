// From the lists that a call's search emitted to the entries that the call leaves: split, in order, labelled. The
// lists are pools of numbered facets behind what is kept.

#![tactic(auto)]

ghost use Rattle.std.specs.Prelude.{◌≡◌, ◌+◌, map};
ghost use Rattle.laws.specs.Segments.{part};
ghost use Rattle.pool.specs.Pool.{closed_lists};
ghost use Rattle.entries.specs.Listed.{many, labelled, Pool, ListsBehind, Listed};
ghost use Rattle.entries.specs.Split.{split_on, Splits};
ghost use Rattle.layout.specs.Capacities.{split_bytes};

use layout::{KeptLayout, Level, ORDER_BYTES, OWNERS_BYTES};
use order::Area;
use pool::{MOST_FACETS, MOST_LISTS};
use splitting::SplitLayout;

// ---- the order and the labels

// The lists of the pool in the first bytes are put in order behind it, and labelled behind their order; how many
// there are.
fn order_lists(s: &mut [u8], bytes: usize) -> usize
    requires { Pool bytes s.old }
    ensures { (result ≡ many bytes s.old) × (s.new ≡ labelled bytes s.old) }
{
    let count = pool::lists(&s[0..bytes]) as usize;
    let area = Area {
        most: MOST_LISTS,
        bytes,
        count,
    };
    order::sort_lists(s, MOST_LISTS, bytes);
    labels::label_irc(s, area, bytes + ORDER_BYTES);
    count
}

// The entries of a call whose emitted lists need no splitting: the pool from a place on, in order and labelled. It is
// the pool of the emitted lists as well.
pub fn sort_entries(ws: &mut [u8], layout: KeptLayout, at: usize, bytes: usize) -> Level
    requires { ListsBehind layout at bytes ws.old }
    ensures { Listed layout at at bytes at bytes (closed_lists 2 1024 (part at bytes ws.old))
        (closed_lists 2 1024 (part at bytes ws.old)) ws.old result ws.new }
{
    let count = order_lists(&mut ws[at..], bytes);
    Level {
        layout,
        emitted: at,
        extent: bytes,
        lists: at,
        bytes,
        count,
    }
}

// ---- splitting

// The bytes of a pool of as many lists as there may be entries, each of as many items as there may be facets.
const SPLIT_BYTES: usize = 12 + 4 * MOST_LISTS + 2 * (MOST_LISTS * MOST_FACETS);

// The steps that splitting one facet may take: twice as many as its parts, which are no more than pairs of 20 points.
const SPLIT_STEPS: usize = 380;

// The entries of a call whose facets may be compound: the emitted lists' pool is moved to the byte behind what is
// kept, the lists are split into a pool behind it, and these are put in order and labelled; the moved pool stays as
// it is. The table of components is the kept area of labels, so the part that splitting works in begins there.
pub fn split_entries(ws: &mut [u8], layout: KeptLayout, from: usize, bytes: usize) -> Level
    requires { Splits layout from bytes ws.old }
    ensures { Listed layout (layout.owners + 2048) (layout.owners + 2048) bytes (layout.owners + 2048 + bytes)
        split_bytes
        (closed_lists 2 1024 (part from bytes ws.old))
        (map (split_on layout ws.old) (closed_lists 2 1024 (part from bytes ws.old))) ws.old result ws.new }
{
    let at = layout.owners + OWNERS_BYTES;
    let to = at + bytes;
    let split_layout = SplitLayout {
        facets: layout.facets,
        from: at - layout.labels,
        to: at - layout.labels + bytes,
        most: MOST_LISTS,
        steps: SPLIT_STEPS,
    };
    ws.copy_within(from..from + bytes, at);
    splitting::split_lists(&mut ws[layout.labels..to + SPLIT_BYTES], split_layout);
    let sorted = sort_entries(ws, layout, to, SPLIT_BYTES);
    Level {
        emitted: at,
        extent: bytes,
        ..sorted
    }
}
