// The tables that a search reads, from the shares of the facets: what each facet adds to each ridge orbit, and for
// each ridge orbit the facets with shares of 1 in it. With the numbers and the shares below it, this is the way from
// what a call keeps to its search. Each function equals a definition of specs/ for any rows, with the identity among
// them or not.

#![tactic(auto)]

ghost use Rattle.std.specs.Prelude.{◌≡◌, List, ◌∷◌, [], ℕ, ◌+◌, ◌*◌, ◌≤◌, ◌<◌, min, length, get_or, take, drop};
ghost use Rattle.pool.specs.Pool.{count, closed_lists, Sound};
ghost use Rattle.rows.specs.Rows.{rows_in};
ghost use Rattle.shapes.specs.Kept.{Kept, kept_table};
ghost use Rattle.facets.specs.Layout.{Inputs};
ghost use Rattle.shares.specs.Areas.{AreaRoom, AreaEmpty, Joined, AreaGrown, Space, Made, flat, lists_to};
ghost use Rattle.ridges.specs.Codes.{PlacesCounted, many_in, last_in, touched_of, ones_in, ones_to, ones_of};
ghost use Rattle.ridges.specs.SharesLaid.{SharesLaid, shares_part, shares_in};
ghost use Rattle.ridges.specs.TableLayouts.{Given, areas_of};

use facets::Areas;
use layout::{KeptLayout, TableLayout};
use order::Pool;
use pool::{MOST_FACETS, MOST_LISTS};
use rows::Rows;

// ---- the tables of the search

// What the places of a facet say of a ridge orbit: how many of them are in it, and the share at the last of these.
#[derive(Clone, Copy)]
struct Counted {
    places: u32,
    last: u32,
}

// What the places of facet x say of the first ridge orbits. A share and its ridge orbit are packed into one number, as
// an amount and its ridge orbit are below: a pool holds lists of numbers of one width, in bytes of the workspace that a
// caller lends, since there is no heap. Counted by hand: one walk counts for all ridge orbits, and notes the last share
// of each; `filter(..).count()` would walk the list once for each of them.
fn count_places(shares: &[u8], x: usize, ridges: usize) -> [Counted; 190]
    requires { Sound 2 1024 shares.now × (x < count shares.now) × (ridges ≤ 190) }
    ensures { PlacesCounted ridges (get_or (closed_lists 2 1024 shares.now) x []) (many_in result) (last_in result) }
{
    let mut counted = [Counted { places: 0, last: 0 }; 190];
    let lists = Pool {
        bytes: shares,
        most: MOST_FACETS,
    };
    for share in lists.items(x) {
        let code = usize::from(share);
        let ridge = code / 4;
        if ridge < ridges {
            counted[ridge] = Counted {
                places: counted[ridge].places + 1,
                last: (code % 4) as u32,
            };
        }
    }
    counted
}

// What a facet adds to a ridge orbit [7.2], cut off at 3.
fn amount(last: u32, places: u32) -> usize
    ensures { result ≡ min (last * places) 3 }
{
    (last as usize * places as usize).min(3)
}

// What facet x adds, as one list more: 4 × ridge orbit + amount for each ridge orbit where it adds something. The
// loops go by the number of an item, here and below: an iterator of the items would hold on to the workspace that the
// loop writes. `SharesLaid` and `AreaEmpty` stay clauses, and so do `Space` and `Given` below: each function writes
// the workspace that they speak of.
fn touch_facet(ws: &mut [u8], tables: TableLayout, facets: usize, ridges: usize, x: usize)
    requires { SharesLaid tables ws.old
        × (x < count (shares_part tables ws.old))
        × (ridges ≤ 190)
        × AreaEmpty tables.touched tables.ones 2 facets ws.old ridges 1 }
    ensures { AreaGrown tables.touched tables.ones 2 facets ws.old ws.new
        (touched_of ridges (shares_in tables ws.old) x ∷ []) }
{
    let counted = count_places(&ws[tables.shares..tables.touched], x, ridges);
    for ridge in 0..ridges {
        let added = amount(counted[ridge].last, counted[ridge].places);
        if 0 < added {
            pool::push(
                &mut ws[tables.touched..tables.ones],
                facets,
                (4 * ridge + added) as u16,
            );
        }
    }
    pool::end_list(&mut ws[tables.touched..tables.ones]);
}

// What each facet adds. A facet's places are looked at once.
fn touch_facets(ws: &mut [u8], tables: TableLayout, facets: usize, ridges: usize)
    requires { SharesLaid tables ws.old
        × (facets ≡ count (shares_part tables ws.old))
        × (ridges ≤ 190)
        × Space tables.touched tables.ones 2 facets (length ws.old) (facets * ridges) facets }
    ensures { Made tables.touched tables.ones 2 facets ws.old ws.new
        (lists_to (touched_of ridges (shares_in tables ws.old)) facets) }
{
    pool::clear(&mut ws[tables.touched..tables.ones]);
    for x in 0..facets {
        touch_facet(ws, tables, facets, ridges, x);
    }
}

// Facet x joins the open list, once for each share of 1 that it has in a ridge orbit.
fn ones_of_facet(ws: &mut [u8], tables: TableLayout, ridges: usize, ridge: usize, x: usize)
    requires { SharesLaid tables ws.old
        × (x < count (shares_part tables ws.old))
        × (ridge < 65536)
        × AreaRoom tables.ones tables.frames 2 ridges ws.old
        (length (ones_in ridge x (get_or (shares_in tables ws.old) x []))) 1 }
    ensures { Joined tables.ones tables.frames 2 ridges ws.old ws.new
        (ones_in ridge x (get_or (shares_in tables ws.old) x [])) }
{
    let n = pool::list_length(&ws[tables.shares..tables.touched], x) as usize;
    for i in 0..n {
        let code = usize::from(pool::item::<u16>(
            &ws[tables.shares..tables.touched],
            MOST_FACETS,
            x,
            i,
        ));
        if 4 * ridge + 1 == code {
            pool::push(&mut ws[tables.ones..tables.frames], ridges, x as u16);
        }
    }
}

// The facets with shares of 1 in a ridge orbit, as one list more.
fn ones_of_ridge(ws: &mut [u8], tables: TableLayout, facets: usize, ridges: usize, ridge: usize)
    requires { SharesLaid tables ws.old
        × (facets ≡ count (shares_part tables ws.old))
        × (ridge < 65536)
        × AreaEmpty tables.ones tables.frames 2 ridges ws.old
        (length (ones_to ridge (shares_in tables ws.old) facets)) 1 }
    ensures { AreaGrown tables.ones tables.frames 2 ridges ws.old ws.new
        (ones_to ridge (shares_in tables ws.old) facets ∷ []) }
{
    for x in 0..facets {
        ones_of_facet(ws, tables, ridges, ridge, x);
    }
    pool::end_list(&mut ws[tables.ones..tables.frames]);
}

// For each ridge orbit the facets with shares of 1 in it. Every place is looked at once for each ridge orbit.
fn lay_ones(ws: &mut [u8], tables: TableLayout, facets: usize, ridges: usize)
    requires { SharesLaid tables ws.old
        × (facets ≡ count (shares_part tables ws.old))
        × (ridges ≤ 190)
        × Space tables.ones tables.frames 2 ridges (length ws.old) (length (flat (shares_in tables ws.old))) ridges }
    ensures { Made tables.ones tables.frames 2 ridges ws.old ws.new
        (lists_to (ones_of (shares_in tables ws.old) facets) ridges) }
{
    pool::clear(&mut ws[tables.ones..tables.frames]);
    for ridge in 0..ridges {
        ones_of_ridge(ws, tables, facets, ridges, ridge);
    }
}

// ---- the whole

// The areas of the search, counted from the owners.
fn areas_from(layout: KeptLayout, tables: TableLayout, known: usize) -> Areas
    requires { (layout.owners ≤ tables.touched)
        × (tables.touched ≤ tables.ones)
        × (tables.ones ≤ tables.frames)
        × (tables.frames ≤ tables.totals)
        × (tables.totals + known ≤ tables.lists) × (tables.lists ≤ tables.end) }
    ensures { result ≡ areas_of layout tables known }
{
    Areas {
        facets: layout.facets,
        ridges: known,
        orbits: layout.orbits,
        bound: MOST_LISTS,
        touched: tables.touched - layout.owners,
        ones: tables.ones - layout.owners,
        frames: tables.frames - layout.owners,
        totals: tables.totals - layout.owners,
        used: tables.totals - layout.owners + known,
        lists: tables.lists - layout.owners,
        end: tables.end - layout.owners,
    }
}

// The tables of the search, from what is kept, and where they lie: the search is called on the workspace from the
// owners on. What is kept stays as it is.
pub fn lay_tables(rows: Rows, layout: KeptLayout, tables: TableLayout, ws: &mut [u8]) -> Areas
    requires { (n : ℕ)
        × (most : ℕ)
        × (ridges : ℕ)
        × (kept : List Kept)
        × Given n most ridges rows.count rows.bytes.now kept layout tables ws.old }
    ensures { (result ≡ areas_of layout tables result.ridges)
        × ((n : ℕ) (most : ℕ) (ridges : ℕ) (kept : List Kept)
        → Given n most ridges rows.entry.count rows.entry.bytes.now kept layout tables ws.old
        → Inputs (kept_table (rows_in n rows.entry.count rows.entry.bytes.now) kept) result
        (drop layout.owners ws.new) × (take layout.end ws.new ≡ take layout.end ws.old)) }
{
    let opened = shares::number_ridges(rows, layout, tables, ws);
    let ridges = opened.counts.len();
    shares::share_facets(ws, layout, tables, opened.counts.as_slice());
    touch_facets(ws, tables, layout.facets, ridges);
    lay_ones(ws, tables, layout.facets, ridges);
    areas_from(layout, tables, ridges)
}
