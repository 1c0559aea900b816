// The frames of a search's path in bytes: for each depth the place of the facet that was taken among its candidates.
// The frames together stand for the lists put in and not yet examined, so that no such list waits in memory. What the
// steps of a search make of them stands in specs/. A frame has 16 bytes: the place (4 bytes), the lowest place (4),
// the mark (2), the kind (2), the facet taken (2). It is packed, since the frames lie in the bytes of the workspace
// that a caller lends: no heap. `k` is the number of a frame, no length of the bytes beside it; that frame k lies in
// them is a clause of each function, since k is another one at each call. No struct of the five fields is read and
// put whole. Who reads asks one to three of them: the facet taken alone, or the kind alone; the kind with the mark or
// the facet taken; the kind, the place and the lowest place. `put_frame` puts four, `take_place` two. To read a frame
// whole is to read what is not asked, in the loop of the search.

#![tactic(auto)]

ghost use Rattle.std.specs.Prelude.{◌≡◌, ◌+◌, ◌*◌, ◌≤◌, ◌<◌, length};
ghost use Rattle.facets.specs.Layout.{ridge_of, code_of};
ghost use Rattle.frames.specs.Paths.{place_at, low_at, mark_at, kind_at, taken_at, with_place, with_frame};

use words::Word;

// The place of the facet taken, or of the first that is not due any more.
#[tactic(auto, unfolding(crate::specs::Paths::place_at))]
pub fn place(frames: &[u8], k: usize) -> usize
    requires { 16 * k + 16 ≤ length frames.now }
    ensures { result ≡ place_at frames.now k }
{
    u32::get(frames, 16 * k) as usize
}

// The lowest place above the mark.
#[tactic(auto, unfolding(crate::specs::Paths::low_at))]
pub fn low(frames: &[u8], k: usize) -> usize
    requires { 16 * k + 16 ≤ length frames.now }
    ensures { result ≡ low_at frames.now k }
{
    u32::get(frames, 16 * k + 4) as usize
}

#[tactic(auto, unfolding(crate::specs::Paths::mark_at))]
pub fn mark(frames: &[u8], k: usize) -> u16
    requires { 16 * k + 16 ≤ length frames.now }
    ensures { result ≡ mark_at frames.now k }
{
    u16::get(frames, 16 * k + 8)
}

// The ridge orbit at which the list is open, if any.
pub fn kind(frames: &[u8], k: usize) -> Option<usize>
    requires { 16 * k + 16 ≤ length frames.now }
    ensures { result ≡ kind_at frames.now k }
{
    usize::from(u16::get(frames, 16 * k + 10)).checked_sub(1)
}

// The facet taken.
#[tactic(auto, unfolding(crate::specs::Paths::taken_at))]
pub fn taken(frames: &[u8], k: usize) -> u16
    requires { 16 * k + 16 ≤ length frames.now }
    ensures { result ≡ taken_at frames.now k }
{
    u16::get(frames, 16 * k + 12)
}

// The place and the facet taken, in the frame of a depth.
#[tactic(auto, unfolding(crate::specs::Paths::with_place))]
pub fn take_place(frames: &mut [u8], k: usize, place: u32, x: u16)
    requires { 16 * k + 16 ≤ length frames.old }
    ensures { frames.new ≡ with_place frames.old k place x }
{
    u32::put(frames, 16 * k, place);
    u16::put(frames, 16 * k + 12, x);
}

// A kind in bytes: 0, or one more than the ridge orbit.
fn code(kind: Option<usize>) -> u16
    requires { code_of kind < 65536 }
    ensures { result ≡ code_of kind }
{
    match kind {
        None => 0,
        Some(ridge) => (ridge + 1) as u16,
    }
}

// A frame that has taken no facet yet.
#[tactic(auto, unfolding(crate::specs::Paths::with_frame))]
pub fn put_frame(frames: &mut [u8], k: usize, place: u32, low: u32, mark: u16, kind: Option<usize>)
    requires room { 16 * k + 16 ≤ length frames.old }
    requires small { code_of kind < 65536 }
    ensures { frames.new ≡ with_frame frames.old k place low mark kind }
{
    u32::put(frames, 16 * k, place);
    u32::put(frames, 16 * k + 4, low);
    u16::put(frames, 16 * k + 8, mark);
    u16::put(frames, 16 * k + 10, code(kind));
}
