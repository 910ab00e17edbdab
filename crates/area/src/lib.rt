// The area: a byte buffer that the caller lends, read and written as words, as cells of two words, and as counts of a byte.
#![tactic(auto)]

ghost use Rattle.std.specs.Prelude.{◌≡◌, [], ◌∷◌, ◌+◌, ◌≤◌, length, get_or, set, replicate};
ghost use Rattle.area.specs.Words.{number, eight, words, with_bytes, WordsNow};
ghost use Rattle.area.specs.Cells.{blank, cells, Inside, WordInside, CellsNow};
ghost use Rattle.area.specs.Moves.{moved};
ghost use Rattle.area.specs.Counts.{count, home, Raisable, Raised, HasCounts, CountsCleared};

// Two words, 16 bytes.
#[derive(Clone, Copy, Debug, PartialEq, Eq)]
pub struct Cell {
    pub head: u64,
    pub payload: u64,
}

// The word of the eight bytes from p on, in one load.
fn word_from(area: &[u8], p: usize) -> u64
    requires { p + 8 ≤ length area.now }
    ensures { result ≡ number (eight area.now p) }
{
    u64::from_le_bytes(area[p..p + 8].try_into().unwrap())
}

// Writes v to the eight bytes from p on, in one store.
fn put_from(area: &mut [u8], p: usize, v: u64)
    requires { p + 8 ≤ length area.old }
    ensures { area.new ≡ with_bytes area.old p 8 v }
{
    area[p..p + 8].copy_from_slice(&v.to_le_bytes());
}

// The word at i.
pub fn word_at(area: &[u8], i: usize) -> u64
    requires { WordInside area.now i }
    ensures { result ≡ get_or (words area.now) i 0 }
{
    word_from(area, i * 8)
}

// Makes v the word at i.
pub fn put_word(area: &mut [u8], i: usize, v: u64)
    requires { WordInside area.old i }
    ensures { WordsNow area.old area.new i v }
{
    put_from(area, i * 8, v);
}

// The cell at `at`.
pub fn cell_at(area: &[u8], at: usize) -> Cell
    requires { Inside area.now at 1 }
    ensures { result ≡ get_or (cells area.now) at blank }
{
    let i = at * 2;
    Cell {
        head: word_at(area, i),
        payload: word_at(area, i + 1),
    }
}

// Makes c the cell at `at`.
pub fn put_cell(area: &mut [u8], at: usize, c: Cell)
    requires { Inside area.old at 1 }
    ensures { CellsNow area.old area.new (set (cells area.old) at c) }
{
    let i = at * 2;
    put_word(area, i, c.head);
    put_word(area, i + 1, c.payload);
}

// Copies n cells down, the first first. A loop over cells, since `copy_within` copies an overlap of less than two cells' distance byte by byte.
fn move_down(area: &mut [u8], from: usize, to: usize, n: usize)
    requires { (to ≤ from) × Inside area.old from n }
    ensures { CellsNow area.old area.new (moved (cells area.old) from to n) }
{
    for i in 0..n {
        let c = cell_at(area, from + i);
        put_cell(area, to + i, c);
    }
}

// Copies n cells up, the last first. Not one with `move_down`: it would take the order as an iterator, and its contract would be longer than both.
fn move_up(area: &mut [u8], from: usize, to: usize, n: usize)
    requires { (from ≤ to) × Inside area.old to n }
    ensures { CellsNow area.old area.new (moved (cells area.old) from to n) }
{
    for i in (0..n).rev() {
        let c = cell_at(area, from + i);
        put_cell(area, to + i, c);
    }
}

// Copies n cells from `from` to `to`; the two may overlap.
pub fn move_cells(area: &mut [u8], from: usize, to: usize, n: usize)
    requires { Inside area.old from n × Inside area.old to n }
    ensures { CellsNow area.old area.new (moved (cells area.old) from to n) }
{
    if to == from {
        return;
    }
    if to < from {
        move_down(area, from, to, n);
    } else {
        move_up(area, from, to, n);
    }
}

// Sets every byte to 0.
pub fn clear(area: &mut [u8])
    ensures { area.new ≡ replicate (length area.old) 0 }
{
    area.fill(0);
}

// The count i of those that begin at the cell `from`.
pub fn count_at(area: &[u8], from: usize, i: usize) -> u8
    requires { Inside area.now (home from i) 1 }
    ensures { result ≡ count area.now from i }
{
    area[from * 16 + i]
}

// Makes the count i of those that begin at the cell `from` one more.
pub fn raise_count(area: &mut [u8], from: usize, i: usize)
    requires { Raisable area.old from i }
    ensures { Raised area.old area.new from i }
{
    let p = from * 16 + i;
    area[p] = area[p] + 1;
}

// Sets the first n counts of those that begin at the cell `from` to 0.
pub fn clear_counts(area: &mut [u8], from: usize, n: usize)
    requires { HasCounts area.old from n }
    ensures { CountsCleared area.old area.new from n }
{
    let p = from * 16;
    area[p..p + n].fill(0);
}
