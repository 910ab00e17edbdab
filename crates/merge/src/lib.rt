// The result rows counted so far, folded into one byte for each column. Translated from sqlx-sqlite 0.9.0, src/connection/explain.rs: the loop
// over `result_states`, a row at a time.
#![tactic(auto)]

ghost use Rattle.std.specs.Prelude.{◌≡◌, ◌+◌, ◌<◌, ◌≤◌, max, length, replicate, take};
ghost use Rattle.area.specs.Cells.{cells};
ghost use Rattle.intmap.specs.Pack.{key_of};
ghost use Rattle.intmap.specs.Runs.{AreColumns};
ghost use Rattle.intmap.specs.Entries.{entries};
ghost use Rattle.intmap.specs.Map.{levels, IsMap};
ghost use Rattle.merge.specs.Columns.{Merges};
ghost use Rattle.merge.specs.Entries.{cell_byte, merge_byte, merge_cell, merge_runs};

mod columns;

use area::Cell;
pub use columns::Columns;
use intmap::IntMap;
use state::Registers;

// The byte of a register, by its run's first cell. A column is a byte, since memory for 2,000 is cleared at each call.
#[tactic(auto, using(crate::proofs::ByteLaws::cell_single, crate::proofs::ByteLaws::cell_int, crate::proofs::ByteLaws::cell_record))]
fn cell_byte(c: Cell) -> u8
    ensures { result ≡ cell_byte c }
{
    match intmap::tag_of(c) {
        intmap::SINGLE => (intmap::kind_of(c) % 64 * 4 + intmap::nullable_of(c) % 4) as u8,
        intmap::INT => 5,
        _ => 0,
    }
}

// A column of a newer row, and what the older ones say.
#[tactic(auto, using(crate::proofs::ByteLaws::merge_older, crate::proofs::ByteLaws::merge_newer))]
fn merge_byte(new: u8, old: u8) -> u8
    ensures { result ≡ merge_byte new old }
{
    let kind = if new / 4 == 0 { old / 4 } else { new / 4 };
    kind * 4 + (new % 4).max(old % 4)
}

// Merges an entry into the column of its key; i is the key of the first column.
#[tactic(auto, using(crate::proofs::EntryLaws::cell_left, crate::proofs::EntryLaws::cell_set))]
fn merge_cell(columns: &mut [u8], i: u64, c: Cell)
    requires { key_of c < i + length columns.old }
    ensures { columns.new ≡ merge_cell i c columns.old }
{
    let key = intmap::key_of(c);
    if key < i {
        return;
    }
    let column = &mut columns[(key - i) as usize];
    *column = merge_byte(cell_byte(c), *column);
}

// Merges the `left` entries from `at` on, up to the first whose key is past the n columns.
fn merge_entries(columns: &mut [u8], area: &[u8], i: u64, n: u64, at: usize, left: u64)
    requires { AreColumns (cells area.now) levels left at × (i + n ≤ 131072) × (n ≤ length columns.old) }
    ensures { columns.new ≡ merge_runs i n (entries (cells area.now) levels left at) columns.old }
{
    let mut p = at;
    for _ in 0..left {
        let c = area::cell_at(area, p);
        if i + n <= intmap::key_of(c) {
            return;
        }
        merge_cell(columns, i, c);
        p += intmap::count(area, p, intmap::LEVELS);
    }
}

// Merges registers as a newer row into the columns, of which there are `width` so far, and answers how many there are then. An absent register
// says nothing, so only the entries that there are take time.
pub fn merge_row(
    columns: &mut [u8],
    width: usize,
    map: IntMap,
    area: &[u8],
    row: Registers,
) -> usize
    requires { IsMap (cells area.now) map × (row.count ≤ length columns.old) }
    ensures { Merges (cells area.now) map row columns.old columns.new width result }
{
    let first = intmap::class_key(intmap::Class::Registers, 0) + row.first;
    let (Ok(place) | Err(place)) = map.find(area, first);
    merge_entries(columns, area, first, row.count, place.at, place.left);
    width.max(row.count as usize)
}

impl<const N: usize> Columns<N> {
    // Those of no row.
    pub fn new() -> Columns<N>
        ensures width { result.width ≡ 0 }
        ensures bytes { result.bytes ≡ replicate N 0 }
    {
        Columns {
            bytes: [0; N],
            width: 0,
        }
    }

    // A byte for each.
    pub fn as_slice(&self) -> &[u8]
        ensures bytes { result.now ≡ take self.now.width self.now.bytes }
        ensures width { length result.now ≡ self.now.width }
    {
        &self.bytes[..self.width]
    }

    // Merges registers as a newer row.
    pub fn merge_row(&mut self, map: IntMap, area: &[u8], row: Registers)
        requires { IsMap (cells area.now) map × (row.count ≤ N) }
        ensures { Merges (cells area.now) map row self.old.bytes self.new.bytes self.old.width self.new.width }
    {
        let width = self.width;
        self.width = merge_row(&mut self.bytes, width, map, area, row);
    }
}
