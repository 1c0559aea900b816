// Splitting: each compound facet of a list is replaced by its components, at its place, until none is compound.

#![tactic(auto)]

ghost use Rattle.std.specs.Prelude.{◌≡◌, ◌+◌, ◌*◌, ◌≤◌, ◌<◌, length, get_or, take};
ghost use mathlib.Core.List.{[], ◌∷◌, ◌++◌, map, flat_map};
ghost use Rattle.std.specs.Prelude.{None};
ghost use Rattle.pool.specs.Pool.{count, base, closed_lists, emptied, ended, Sound};
ghost use Rattle.order.specs.Areas.{list_at};
ghost use Rattle.labels.specs.Labels.{labels_in, Halves};
ghost use Rattle.splitting.specs.Splitting.{split_nats, push_all, fill_all, PoolRoom, PoolGrown, SplittingRoom};
ghost use Rattle.splitting.specs.Splitting.{facet_labels, pool_of, rest_of, parts_in};

use arrayvec::ArrayVec;
use order::Pool;
use pool::MOST_FACETS;
use words::Word;

// ---- splitting

// Where splitting finds what it reads and puts what it makes: a table of the components of `facets` facets at the
// start, the pool of lists from `from` to `to`, and the pool of split lists from `to` on. Both pools have room for
// `most` lists. `steps` bounds the steps of one facet. What splits takes the workspace and the layout side by side:
// of a struct that held both and is lent to be written, each contract would have to say besides that the layout and
// the loan are as they were.
#[derive(Clone, Copy)]
pub struct SplitLayout {
    pub facets: usize,
    pub from: usize,
    pub to: usize,
    pub most: usize,
    pub steps: usize,
}

impl SplitLayout {
    // The lists that are split. `Sound` stays a clause, as that they lie in the workspace does: the workspace is
    // written between two calls.
    fn lists<'a>(self, ws: &'a [u8]) -> Pool<'a>
        requires { (self.from ≤ self.to) × (self.to ≤ length ws.now) × Sound 2 self.most (pool_of self ws.now) }
        ensures { (result.bytes.now ≡ pool_of self ws.entry.now) × (result.most ≡ self.most) }
    {
        Pool {
            bytes: &ws[self.from..self.to],
            most: self.most,
        }
    }
}

// Facet a's components, or none; none too for a facet that the table does not have.
fn components(s: &[u8], facets: usize, a: usize) -> Option<(u32, u32)>
    requires { 4 * facets ≤ length s.now }
    ensures found { result ≡ get_or (labels_in 0 facets s.now) a None }
    ensures small { Halves result }
{
    if facets <= a {
        return None;
    }
    labels::components(u32::get(s, 4 * a))
}

// The parts of one facet join the open list. Its queue holds the facet, and two more for each step. No `for`: the
// queue grows while it is gone through, so that no number of turns is known before. The head of the queue and the
// steps left are counted by hand: a facet that is taken stays in the queue, where all behind it would move up
// otherwise, and each turn uses a step as long as one is left.
fn split_facet(ws: &mut [u8], layout: SplitLayout, facet: u16)
    requires { (4 * layout.facets ≤ layout.to)
        × (layout.to ≤ length ws.old)
        × (layout.steps < 512)
        × PoolRoom layout.most (rest_of layout ws.old)
        (length (split_nats layout.steps (facet_labels layout ws.old) (facet ∷ []))) }
    ensures ws_after { ws.new ≡ take layout.to ws.old ++ push_all layout.most (rest_of layout ws.old)
        (split_nats layout.steps (facet_labels layout ws.old) (facet ∷ [])) }
    ensures pool_grown { PoolGrown layout.most (rest_of layout ws.old) (rest_of layout ws.new)
        (length (split_nats layout.steps (facet_labels layout ws.old) (facet ∷ []))) 0 }
{
    let mut queue: ArrayVec<u16, MOST_FACETS> = ArrayVec::new();
    queue.push(facet);
    let mut head = 0;
    let mut left = layout.steps;
    while head < queue.len() {
        let a = queue.as_slice()[head];
        head += 1;
        let parts = if 0 < left {
            left -= 1;
            components(ws, layout.facets, usize::from(a))
        } else {
            None
        };
        match parts {
            None => pool::push(&mut ws[layout.to..], layout.most, a),
            Some((first, second)) => {
                queue.push(first as u16);
                queue.push(second as u16);
            }
        }
    }
}

// List k split, each facet at its own place, is one list more of the pool of split lists. The facets are gone through
// by their numbers, and below the lists: an iterator of them would hold the workspace, which each turn writes.
fn split_list(ws: &mut [u8], layout: SplitLayout, k: usize)
    requires { SplittingRoom layout ws.old
        × (k < count (pool_of layout ws.old))
        × PoolRoom layout.most (rest_of layout ws.old)
        (length (parts_in layout ws.old (list_at layout.most (pool_of layout ws.old) k)))
        × (count (rest_of layout ws.old) < layout.most) }
    ensures ws_after { ws.new ≡ take layout.to ws.old ++ ended (push_all layout.most (rest_of layout ws.old)
        (parts_in layout ws.old (list_at layout.most (pool_of layout ws.old) k))) }
    ensures pool_grown { PoolGrown layout.most (rest_of layout ws.old) (rest_of layout ws.new)
        (length (parts_in layout ws.old (list_at layout.most (pool_of layout ws.old) k))) 1 }
{
    let n = layout.lists(ws).length(k);
    for i in 0..n {
        let facet = layout.lists(ws).item(k, i);
        split_facet(ws, layout, facet);
    }
    pool::end_list(&mut ws[layout.to..]);
}

// Every list split: the pool of split lists is emptied and takes them in order.
pub fn split_lists(ws: &mut [u8], layout: SplitLayout)
    requires { SplittingRoom layout ws.old
        × (base layout.most
        + 2 * length (flat_map (parts_in layout ws.old) (closed_lists 2 layout.most (pool_of layout ws.old)))
        ≤ length (rest_of layout ws.old))
        × (length (flat_map (parts_in layout ws.old) (closed_lists 2 layout.most (pool_of layout ws.old)))
        < 4294967296) }
    ensures { ws.new ≡ take layout.to ws.old ++ fill_all layout.most (emptied (rest_of layout ws.old))
        (map (parts_in layout ws.old) (closed_lists 2 layout.most (pool_of layout ws.old))) }
{
    let lists = pool::lists(&ws[layout.from..layout.to]) as usize;
    pool::clear(&mut ws[layout.to..]);
    for k in 0..lists {
        split_list(ws, layout, k);
    }
}
