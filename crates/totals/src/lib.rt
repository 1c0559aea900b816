// What the facets of a list add to the ridge orbits, counted when a facet joins and when it leaves, with the orbits
// in use.

#![tactic(auto)]

ghost use Rattle.std.specs.Prelude.{◌≡◌, ℕ, ◌≤◌, ◌<◌, get_or};
ghost use Rattle.definitions.specs.Search.{Table};
ghost use Rattle.facets.specs.Layout.{Inputs, totals_part, touched_part, codes, amount_in, lifted, with_facet};
ghost use Rattle.facets.specs.Layout.{without_facet};

use facets::Areas;
use words::Word;

// A facet joins the list: what it adds is counted, and its orbit is in use. Says whether it lifts a total above 2. A
// code is 4 × the ridge orbit + the amount: packed, since the lists of codes lie in bytes of the workspace that a
// caller lends (no heap), and taken apart here and below, where it is used. What the workspace holds is a clause,
// here and where a facet leaves: it speaks of some table, and a ghost field cannot say which; and the bytes are
// written. The codes are gone through by their numbers, in both: an iterator of them would hold the workspace, whose
// totals the loop writes. And each has a loop of its own: this one adds and tells, the other takes away, so that a
// walk for both would take a closure for the change, and its contract would have to say by the closure's calls what
// these two say in a line.
pub fn join(ws: &mut [u8], a: Areas, x: usize) -> bool
    requires { (t : Table)
        × Inputs t a ws.old
        × (x < a.facets)
        × ((ridge : ℕ) → ridge < a.ridges → get_or (totals_part a ws.old) ridge 0 ≤ 252) }
    ensures counts { ws.new ≡ with_facet a ws.old x }
    ensures lifts { result ≡ lifted (totals_part a ws.old) (codes a (touched_part a ws.old) x) }
{
    let n = pool::list_length(a.touched(ws), x) as usize;
    let mut over = false;
    for i in 0..n {
        let codes = a.touched(ws);
        let code = usize::from(pool::item::<u16>(codes, a.facets, x, i));
        let at = a.totals + code / 4;
        let sum = ws[at] + (code % 4) as u8;
        ws[at] = sum;
        over = over | (2 < sum);
    }
    let orbit = usize::from(u16::get(ws, 2 * x));
    ws[a.used + orbit] = 1;
    over
}

// A facet leaves the list.
pub fn leave(ws: &mut [u8], a: Areas, x: usize)
    requires { (t : Table)
        × Inputs t a ws.old
        × (x < a.facets)
        × ((ridge : ℕ) → ridge < a.ridges
        → amount_in ridge (codes a (touched_part a ws.old) x) ≤ get_or (totals_part a ws.old) ridge 0) }
    ensures { ws.new ≡ without_facet a ws.old x }
{
    let n = pool::list_length(a.touched(ws), x) as usize;
    for i in 0..n {
        let codes = a.touched(ws);
        let code = usize::from(pool::item::<u16>(codes, a.facets, x, i));
        let at = a.totals + code / 4;
        ws[at] = ws[at] - (code % 4) as u8;
    }
    let orbit = usize::from(u16::get(ws, 2 * x));
    ws[a.used + orbit] = 0;
}
