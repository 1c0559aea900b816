// The ridges of all orbits, numbered in their order, and the shares of the facets in their ridge orbits: two pools
// behind what a call keeps, which serve only for the tables of its search.

#![tactic(auto)]

ghost use Rattle.std.specs.Prelude.{◌≡◌, ◌∷◌, [], ◌≤◌, ◌<◌, length};
ghost use Rattle.definitions.specs.Lists.{Pair};
ghost use Rattle.pool.specs.Pool.{count, closed_lists};
ghost use Rattle.rows.specs.Rows.{rows_in};
ghost use Rattle.shapes.specs.Ridges.{KnownKeys, no_keys};
ghost use Rattle.layout.specs.Keeps.{ridges_part, places_part};
ghost use Rattle.shares.specs.Areas.{AreaEmpty, AreaGrown, Space, Made, flat, lists_to};
ghost use Rattle.shares.specs.Shares.{Orders, SourcesFit, sources_of, ridges_in, places_in, code_at, facet_codes};
ghost use Rattle.numbering.specs.RidgesMatch.{RidgesMatch};
ghost use Rattle.shares.specs.Ends.{Reads, ridges_at, numbered, all_numbered, AllNumbered};

use layout::{KeptLayout, ORBITS_BYTES, TableLayout};
use numbering::RidgeOrbits;
use pool::{MOST_FACETS, MOST_ORBITS};
use rows::Rows;
use words::{HIGH, Word};

// ---- the ridges of all orbits

// The numbers of one orbit's ridges are one list more. Two numbers are packed into one, here a ridge and its count,
// and below a ridge orbit and a share: a pool holds lists of numbers of one width, in bytes of the workspace that a
// caller lends, since there is no heap. The loops go by the number of an item, here and below: an iterator of the
// items would hold on to the workspace that the loop writes. `Reads` and `AreaEmpty` stay clauses, and so does
// `Space` below: each function writes the workspace that they speak of.
fn number_orbit(
    rows: Rows,
    layout: KeptLayout,
    tables: TableLayout,
    o: usize,
    opened: &mut RidgeOrbits,
    ws: &mut [u8],
)
    requires { Reads rows.count rows.bytes.now layout ws.old tables.numbers
        × (o < count (ridges_part layout ws.old))
        × AreaEmpty tables.numbers tables.shares 2 256 ws.old (length (ridges_at layout ws.old o)) 1
        × ((keys : KnownKeys Pair) × RidgesMatch opened.old keys
        × (length (numbered (rows_in 32 rows.count rows.bytes.now) keys (ridges_at layout ws.old o)).1.counts
        ≤ 190)) }
    ensures { (keys : KnownKeys Pair) → RidgesMatch opened.old keys → (length (numbered
        (rows_in 32 rows.entry.count rows.entry.bytes.now) keys (ridges_at layout ws.old o)).1.counts ≤ 190)
        → RidgesMatch opened.new
        (numbered (rows_in 32 rows.entry.count rows.entry.bytes.now) keys (ridges_at layout ws.old o)).1
        × AreaGrown tables.numbers tables.shares 2 256 ws.old ws.new
        ((numbered (rows_in 32 rows.entry.count rows.entry.bytes.now) keys (ridges_at layout ws.old o)).0 ∷ []) }
{
    let n = pool::list_length(&ws[layout.ridges..layout.places], o) as usize;
    for i in 0..n {
        let code = pool::item::<u32>(&ws[layout.ridges..layout.places], MOST_ORBITS, o, i);
        let number = opened.number(rows, (code % HIGH) as usize);
        pool::push(&mut ws[tables.numbers..tables.shares], MOST_ORBITS, number);
    }
    pool::end_list(&mut ws[tables.numbers..tables.shares]);
}

// The ridges of all orbits in order; returns the ridge orbits that they are in.
pub fn number_ridges(
    rows: Rows,
    layout: KeptLayout,
    tables: TableLayout,
    ws: &mut [u8],
) -> RidgeOrbits
    requires { Reads rows.count rows.bytes.now layout ws.old tables.numbers
        × (layout.orbits ≡ count (ridges_part layout ws.old))
        × Space tables.numbers tables.shares 2 256 (length ws.old)
        (length (flat (closed_lists 4 256 (ridges_part layout ws.old)))) layout.orbits
        × (length (all_numbered (rows_in 32 rows.count rows.bytes.now) (no_keys Pair)
        (closed_lists 4 256 (ridges_part layout ws.old))).1.counts ≤ 190) }
    ensures { AllNumbered rows.entry.count rows.entry.bytes.now tables.numbers tables.shares
        (closed_lists 4 256 (ridges_part layout ws.old)) ws.old ws.new result.counts.items }
{
    pool::clear(&mut ws[tables.numbers..tables.shares]);
    let mut opened = RidgeOrbits::new();
    for o in 0..layout.orbits {
        number_orbit(rows, layout, tables, o, &mut opened, ws);
    }
    opened
}

// ---- shares

// The code of the share of a place with inner orbit a, of a facet of orbit o: 4 × its ridge orbit + its share, which is
// floor(orbit count × inner count / ridge orbit count), and 3 where that is more. The orbits stand in the first 2,048
// bytes, eight bytes each, the count in the last four. A count of 0 gives a share of 0, as the definition's division
// does. It reads the workspace beside its places, and no struct holds both: `share_facet` writes the workspace in the
// same turn, so that it would make such a struct anew for each place. `Orders` and `SourcesFit` stay clauses, here and
// below: `share_facet` and `share_facets` write the workspace that both speak of.
fn share_code(
    ws: &[u8],
    layout: KeptLayout,
    tables: TableLayout,
    counts: &[u32],
    o: usize,
    a: usize,
) -> u16
    requires { Orders layout tables (length ws.now)
        × SourcesFit (sources_of layout tables ws.now) counts.now layout.facets
        × (o < count (ridges_part layout ws.now))
        × (a < length (ridges_in (sources_of layout tables ws.now) o)) }
    ensures { result ≡ code_at (sources_of layout tables ws.now) counts.now o a }
{
    let own = u32::get(&ws[0..ORBITS_BYTES], 8 * o + 4);
    let inner = pool::item::<u32>(&ws[layout.ridges..layout.places], MOST_ORBITS, o, a) / HIGH;
    let ridge = u32::from(pool::item::<u16>(&ws[tables.numbers..tables.shares], MOST_ORBITS, o, a));
    let all = counts[ridge as usize];
    if all == 0 {
        return (4 * ridge) as u16;
    }
    let share = own * inner / all;
    (4 * ridge + share.min(3)) as u16
}

// The shares of facet x, as one list more.
fn share_facet(ws: &mut [u8], layout: KeptLayout, tables: TableLayout, counts: &[u32], x: usize)
    requires { Orders layout tables (length ws.old)
        × SourcesFit (sources_of layout tables ws.old) counts.now layout.facets
        × (x < layout.facets)
        × AreaEmpty tables.shares tables.touched 2 1024 ws.old
        (length (places_in (sources_of layout tables ws.old) x)) 1 }
    ensures { AreaGrown tables.shares tables.touched 2 1024 ws.old ws.new
        (facet_codes (sources_of layout tables ws.old) counts.now x ∷ []) }
{
    let o = usize::from(u16::get(&ws[layout.owners..layout.ridges], 2 * x));
    let n = pool::list_length(&ws[layout.places..layout.end], x) as usize;
    for i in 0..n {
        let a = usize::from(pool::item::<u16>(&ws[layout.places..layout.end], MOST_FACETS, x, i));
        let code = share_code(ws, layout, tables, counts, o, a);
        pool::push(&mut ws[tables.shares..tables.touched], MOST_FACETS, code);
    }
    pool::end_list(&mut ws[tables.shares..tables.touched]);
}

// The shares of each facet.
pub fn share_facets(ws: &mut [u8], layout: KeptLayout, tables: TableLayout, counts: &[u32])
    requires { Orders layout tables (length ws.old)
        × SourcesFit (sources_of layout tables ws.old) counts.now layout.facets
        × Space tables.shares tables.touched 2 1024 (length ws.old)
        (length (flat (closed_lists 2 1024 (places_part layout ws.old)))) layout.facets }
    ensures { Made tables.shares tables.touched 2 1024 ws.old ws.new
        (lists_to (facet_codes (sources_of layout tables ws.old) counts.now) layout.facets) }
{
    pool::clear(&mut ws[tables.shares..tables.touched]);
    for x in 0..layout.facets {
        share_facet(ws, layout, tables, counts, x);
    }
}
