// The remembered states and those that wait, in the area: `BranchList` of sqlx-sqlite 0.9.0, src/connection/explain.rs, its `states` and its
// `visited_branch_state`.
#![tactic(auto)]

ghost use Rattle.std.specs.Prelude.{◌≡◌, Some};
ghost use Rattle.area.specs.Cells.{cells, Inside};
ghost use Rattle.intmap.specs.Map.{IsMap};
ghost use Rattle.branches.specs.Header.{shift, child, row_at, state_at, link_of, place_of};
ghost use Rattle.branches.specs.Hash.{mix, fold, hash_from, hash_of};
ghost use Rattle.branches.specs.Entries.{count_cells, next_bits, none};
ghost use Rattle.branches.specs.Lists.{Pushes, Loads};
ghost use Rattle.branches.specs.Search.{HasMap, Tests, Searches, SomeRemembering};
ghost use Rattle.branches.specs.Changes.{Pushable, Savable, Saves, Linkable, Connects, Latest, PopsAny, Loadable};

use area::Cell;
use intmap::IntMap;
use refusal::Refusal;
use state::MemoryState;

// Half a word.
const HALF: u64 = 4294967296;

// A third of a word, in whole bits: 2^21. A place is less, since an area has at most 1,048,576 cells.
const THIRD: u64 = 2097152;

// Where the remembered states begin, where they end, and the latest that waits, if one does.
#[derive(Clone, Copy)]
pub struct BranchList {
    pub first: usize,
    pub top: usize,
    pub last: Option<usize>,
}

// Where the current lineage's handled counts are, of how many rows, and how many cells a state may have.
#[derive(Clone, Copy)]
pub struct Layout {
    pub counts: usize,
    pub rows: usize,
    pub limit: usize,
}

impl Layout {
    // How many cells a lineage's counts take: sixteen counts a cell.
    fn count_cells(self) -> usize
        ensures { result ≡ count_cells self.rows }
    {
        self.rows.div_ceil(16)
    }
}

// The free link that would lead to a state that is not known: of the state at this place, if one is remembered, by the last digit of these bits.
#[derive(Clone, Copy)]
struct FreeLink {
    at: Option<usize>,
    bits: u64,
}

// A word goes into a hash.
fn mix(h: u64, x: u64) -> u64
    ensures { result ≡ mix h x }
{
    let s = std::num::wrapping_add_u64(h, x);
    s % HALF * 4294967291 + s / HALF
}

// A word goes into a hash, and the product of the sum's halves is added, so that the hash is no sum of words times powers.
fn fold(h: u64, x: u64) -> u64
    ensures { result ≡ fold h x }
{
    let s = std::num::wrapping_add_u64(h, x);
    std::num::wrapping_add_u64(s, s % HALF * (s / HALF))
}

// The hash of a state, by a start.
fn hash(area: &[u8], s: MemoryState, start: u64) -> u64
    requires { IsMap (cells area.now) s.map }
    ensures { result ≡ hash_from (cells area.now) s start }
{
    let mut h = mix(start, s.row);
    for at in s.map.base..s.map.base + s.map.used {
        let c = area::cell_at(area, at);
        h = mix(fold(h, c.head), c.payload);
    }
    h
}

// The row of the state at p.
pub fn row_at(area: &[u8], p: usize) -> u64
    requires { Inside area.now p 1 }
    ensures { result ≡ row_at (cells area.now) p }
{
    let c = area::cell_at(area, p);
    c.payload
}

// The state at p.
fn state_at(area: &[u8], p: usize) -> MemoryState
    requires { Inside area.now p 2 }
    ensures { result ≡ state_at (cells area.now) p }
{
    let c = area::cell_at(area, p + 1);
    let sizes = c.payload;
    let map = IntMap {
        base: p + 2,
        len: sizes % 65536,
        used: (sizes / 65536 % 65536) as usize,
    };
    MemoryState {
        row: row_at(area, p),
        map,
    }
}

// The word of a link in the area: the place that it leads to, or 0 where it leads nowhere.
fn link_of(place: Option<usize>) -> u64
    ensures { result ≡ link_of place }
{
    place.unwrap_or(0) as u64
}

// The place that a link of the area leads to.
fn place_of(link: u64) -> Option<usize>
    ensures { result ≡ place_of link }
{
    (link != 0).then_some(link as usize)
}

// At which bit of their word one of the three links begins: the one that the last digit of the bits, to the base 3, chooses.
fn shift(bits: u64) -> u64
    ensures { result ≡ shift bits }
{
    21 * (bits % 3)
}

// Where the link of the state at p leads, by the last digit of the bits.
fn child(area: &[u8], p: usize, bits: u64) -> Option<usize>
    requires { Inside area.now p 2 }
    ensures { result ≡ place_of (child (cells area.now) p bits) }
{
    let c = area::cell_at(area, p + 1);
    place_of((c.head >> shift(bits)) % THIRD)
}

// Whether the state at p is s, which has this hash.
fn is_at(area: &[u8], p: usize, s: MemoryState, h: u64) -> bool
    requires { HasMap area.now p × IsMap (cells area.now) s.map × (h ≡ hash_of (cells area.now) s) }
    ensures { Tests (cells area.now) s p result }
{
    let c = area::cell_at(area, p);
    if c.head != h {
        return false;
    }
    if c.payload != s.row {
        return false;
    }
    let map = s.map;
    let there = state_at(area, p);
    let other = there.map;
    map.eq(area, other)
}

// The bits that lead on from p for s, which has this hash and is not there: those without their last digit, or, where the state at p has the
// same hash, those of another.
fn next_bits(area: &[u8], p: usize, s: MemoryState, h: u64, bits: u64) -> u64
    requires { Inside area.now p 1 × IsMap (cells area.now) s.map × (h ≡ hash_of (cells area.now) s) }
    ensures { result ≡ next_bits (cells area.now) (hash_from (cells area.now) s) p bits }
{
    let c = area::cell_at(area, p);
    if c.head == h {
        return hash(area, s, p as u64 + 1);
    }
    bits / 3
}

// Copies a state with its counts to p, under its hash, with `next` behind it among those that wait.
fn save(area: &mut [u8], p: usize, s: MemoryState, h: u64, next: Option<usize>, layout: Layout)
    requires { Savable layout.rows (cells area.old) p s next layout.counts }
    ensures { Saves layout.rows area.old area.new p s h next layout.counts }
{
    let map = s.map;
    let len = map.len;
    let used = map.used;
    let row = s.row;
    map.copy_to(area, p + 2);
    area::move_cells(area, layout.counts, p + 2 + used, layout.count_cells());
    area::put_cell(
        area,
        p,
        Cell {
            head: h,
            payload: row,
        },
    );
    area::put_cell(
        area,
        p + 1,
        Cell {
            head: 0,
            payload: len + 65536 * (used as u64) + HALF * link_of(next),
        },
    );
}

// Makes a free link lead to q, where a state is remembered that has it.
fn link(area: &mut [u8], free: FreeLink, q: usize)
    requires { Linkable area.old free q }
    ensures { Connects area.old area.new free q }
{
    let Some(p) = free.at else {
        return;
    };
    let c = area::cell_at(area, p + 1);
    let to = q as u64;
    area::put_cell(
        area,
        p + 1,
        Cell {
            head: c.head + (to << shift(free.bits)),
            payload: c.payload,
        },
    );
}

// Copies the state at p to `base`, and its counts to where the current ones are.
pub fn load(area: &mut [u8], p: usize, base: usize, layout: Layout) -> MemoryState
    requires { Loadable layout.limit layout.rows (cells area.old) p base layout.counts }
    ensures { Loads layout.limit layout.rows base layout.counts p area.old area.new result }
{
    let s = state_at(area, p);
    let map = s.map.copy_to(area, base);
    let end = p + 2 + s.map.used;
    area::move_cells(area, end, layout.counts, layout.count_cells());
    MemoryState { row: s.row, map }
}

impl BranchList {
    // Looks for a state, which has this hash: where it is not known, the link that would lead to it.
    fn search(self, area: &[u8], s: MemoryState, h: u64) -> Option<FreeLink>
        requires { SomeRemembering area.now self × IsMap (cells area.now) s.map × (h ≡ hash_of (cells area.now) s) }
        ensures { Searches area.now self s result }
    {
        let top = self.top;
        let mut p = self.first;
        let mut bits = h;
        // A `while`: `successors` would take the next place before this one is tested, with one hash more where the state is known.
        while p < top {
            if is_at(area, p, s, h) {
                return None;
            }
            let Some(next) = child(area, p, bits) else {
                return Some(FreeLink { at: Some(p), bits });
            };
            bits = next_bits(area, p, s, h, bits);
            p = next;
        }
        Some(FreeLink { at: None, bits: h })
    }

    // Adds a state that is not known at the top, behind the link that is free.
    fn add(
        &mut self,
        area: &mut [u8],
        s: MemoryState,
        h: u64,
        free: FreeLink,
        layout: Layout,
    ) -> Result<(), Refusal>
        requires { Pushable layout.limit layout.rows layout.counts area.old self.old s × (h ≡ hash_of (cells area.old) s) × Searches area.old self.old s (Some free) }
        ensures { Pushes layout.limit layout.rows layout.counts area.old area.new self.old self.new s result }
    {
        let top = self.top;
        let end = top + 2 + s.map.used + layout.count_cells();
        if area.len() / 16 < end {
            return Err(Refusal::NoSpace);
        }
        save(area, top, s, h, self.last, layout);
        link(area, free, top);
        self.top = end;
        self.last = Some(top);
        Ok(())
    }

    // A branch: it is dropped where its state is known, else its state is kept with the current counts, and waits.
    pub fn push(&mut self, area: &mut [u8], s: MemoryState, layout: Layout) -> Result<(), Refusal>
        requires { Pushable layout.limit layout.rows layout.counts area.old self.old s }
        ensures { Pushes layout.limit layout.rows layout.counts area.old area.new self.old self.new s result }
    {
        let h = hash(area, s, 0);
        match self.search(area, s, h) {
            None => Ok(()),
            Some(free) => self.add(area, s, h, free, layout),
        }
    }

    // No states are remembered.
    pub fn new(first: usize) -> BranchList
        ensures { result ≡ none first }
    {
        BranchList {
            first,
            top: first,
            last: None,
        }
    }

    // The latest that waits is taken: its place, and it waits no more.
    pub fn pop(&mut self, area: &[u8]) -> Option<usize>
        requires { Latest area.now self.old }
        ensures { PopsAny area.now self.old self.new result }
    {
        let last = self.last?;
        let c = area::cell_at(area, last + 1);
        self.last = place_of(c.payload / HALF);
        Some(last)
    }
}
