// What is done to the areas that a call keeps, at either rank: their pools are emptied before the call's loop, a
// facet's label and owner are written, and the layout counts one orbit more. The rest that is stored of an inner call
// is in `kept_edges` for rank 2, and in `kept_polygons` for rank 3. Leans on the layout and on pools.

#![tactic(auto)]

ghost use Rattle.std.specs.Prelude.{◌≡◌, [], ℕ, ◌+◌, ◌*◌, ◌≤◌, ◌<◌, length};
ghost use Rattle.words.specs.Words.{put};
ghost use Rattle.layout.specs.Keeps.{Keeps, Ridges, LayoutFits};
ghost use Rattle.keep.specs.AreasHold.{KeptWritten};
ghost use Rattle.keep.specs.Adding.{with_facets};

use layout::KeptLayout;
use words::Word;

// ---- a layout with nothing kept

// The pools are emptied; the orbits found, in front of them, stay. `LayoutFits` stays a clause, here and below: the
// workspace that it speaks of is written, and a struct that held it would have each contract say besides that the
// places and the loan are as they were.
pub fn clear_kept(ws: &mut [u8], layout: KeptLayout)
    requires { LayoutFits layout (length ws.old) }
    ensures within { KeptWritten layout ws.old ws.new }
    ensures keeps { (n : ℕ) → layout.orbits ≡ 0 → layout.facets ≡ 0
        → Keeps n layout [] ws.new × Ridges layout [] ws.new }
{
    pool::clear(&mut ws[layout.edges..layout.labels]);
    pool::clear(&mut ws[layout.ridges..layout.places]);
    pool::clear(&mut ws[layout.places..layout.end]);
}

// ---- what an orbit writes

// The label and the owner of facet x.
pub fn store_facet(ws: &mut [u8], layout: KeptLayout, x: usize, label: u32, owner: u16)
    requires { LayoutFits layout (length ws.old) × (x < 1024) }
    ensures { ws.new ≡ put 2 (put 4 ws.old (layout.labels + 4 * x) label) (layout.owners + 2 * x) owner }
{
    u32::put(ws, layout.labels + 4 * x, label);
    u16::put(ws, layout.owners + 2 * x, owner);
}

// The layout with one orbit more, of so many facets. The layout holds the counts, and the workspace what they count:
// a caller lends all memory, as bytes.
pub fn one_more(layout: KeptLayout, facets: usize) -> KeptLayout
    requires { (layout.orbits < 256) × (layout.facets + facets ≤ 1024) }
    ensures { result ≡ with_facets layout facets }
{
    KeptLayout {
        orbits: layout.orbits + 1,
        facets: layout.facets + facets,
        ..layout
    }
}
