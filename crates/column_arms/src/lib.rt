// The arms of `explain` that take what a cursor stands for: Column, RowData and SorterData. Translated from sqlx-sqlite 0.9.0,
// src/connection/explain.rs.
#![tactic(auto)]

ghost use Rattle.std.specs.Prelude.{◌≡◌, ℕ, ◌+◌, ◌<◌, ◌≤◌, true, false, ltb, length, get_or};
ghost use Rattle.model.specs.State.{Record, end, Column};
ghost use Rattle.model.specs.Access.{store_register};
ghost use Rattle.model.specs.Operation.{op_column, op_row_data};
ghost use Rattle.area.specs.Cells.{cells, blank};
ghost use Rattle.intmap.specs.Entries.{span};
ghost use Rattle.intmap.specs.Map.{levels, IsMap};
ghost use Rattle.intmap.specs.Pack.{tag_of};
ghost use Rattle.intmap.specs.Runs.{IsColumn};
ghost use Rattle.intmap.specs.Signed.{int_of};
ghost use Rattle.state.specs.Leads.{Leads};
ghost use Rattle.state.specs.Own.{InMap, OverwritesOwn};
ghost use Rattle.state.specs.Arms.{CursorArm};
ghost use Rattle.state.specs.Stores.{cells_in, IsHeld, IsCurrent, HasRun, Changes, Writes};
ghost use Rattle.column_arms.specs.Columns.{columns_in, counted, DirectAt, FindsColumn, store_column, LeadsWith};

use area::Cell;
use refusal::Refusal;
use rows::Row;
use state::Store;
use type_info::DataType;

// How many columns a cell says that it has behind it.
fn columns_in(c: Cell) -> u64
    ensures { result ≡ columns_in c }
{
    if intmap::tag_of(c) == intmap::RECORD {
        return c.payload;
    }
    0
}

// Whether the n cells at `at` are more than the columns that they say they have. Then no run that begins there is longer, however deep it is.
fn is_whole(area: &[u8], at: usize, n: usize) -> bool
    requires { (at + n ≤ length (cells area.now)) × (length (cells area.now) ≤ 1048576) × (0 < n) }
    ensures { result ≡ ltb (counted (span (cells area.now) at n)) n }
{
    let mut room = n as u64;
    for p in at..at + n {
        let k = columns_in(area::cell_at(area, p));
        if room <= k {
            return false;
        }
        room -= k;
    }
    true
}

// Whether the column of a key is at its distance from the head at `at`, which has n columns: where each has one cell, the one there that has the
// key is it.
fn is_direct(store: &Store, at: usize, n: u64, key: u64) -> bool
    requires { IsMap (cells_in store.now) store.now.map × InMap store.now.map at }
    ensures { result ≡ true → DirectAt (cells_in store.now) store.now.map at n key }
{
    if n <= key {
        return false;
    }
    if !store.is_flat(at, n) {
        return false;
    }
    let c = store.cell_at(at + 1 + key as usize);
    if intmap::tag_of(c) == intmap::RECORD {
        return false;
    }
    intmap::has_key(c, key)
}

// Looks for a key among the columns behind the head at `at`. The head's run is counted in LEVELS levels, so its columns in one fewer. In a state
// none goes deeper, and in other cells a record that may is refused.
fn find_column(store: &Store, at: usize, key: u64) -> Result<Option<usize>, Refusal>
    requires { IsColumn (cells_in store.now) levels at × (tag_of (get_or (cells_in store.now) at blank) ≡ 2) × IsMap (cells_in store.now) store.now.map × HasRun store.now at }
    ensures { FindsColumn (cells_in store.now) at key result }
{
    let head = store.cell_at(at);
    if is_direct(store, at, head.payload, key) {
        return Ok(Some(at + 1 + key as usize));
    }
    let Ok(place) = intmap::find_from(store.area, at + 1, head.payload, key, intmap::LEVELS - 1)
    else {
        return Ok(None);
    };
    let q = place.at;
    let c = store.cell_at(q);
    if intmap::tag_of(c) != intmap::RECORD {
        return Ok(Some(q));
    }
    let n = intmap::count(store.area, q, intmap::LEVELS - 1);
    if is_whole(store.area, q, n) {
        return Ok(Some(q));
    }
    Err(Refusal::TooDeep)
}

// Stores the cell c over register j's own, if neither is a record's. Says whether it was.
fn store_over(store: &mut Store, c: Cell, j: u64) -> bool
    requires { IsHeld store.old }
    ensures { (result ≡ true → tag_of c ≡ 2 → ⊥) × Writes (λ cs ds a. ((tag_of c ≡ 2 → ⊥) → OverwritesOwn cs ds a 0 j c result) × (result ≡ false → ds ≡ cs)) store.old store.new }
{
    if intmap::tag_of(c) == intmap::RECORD {
        return false;
    }
    store.overwrite_own(intmap::Class::Registers, j, c)
}

// Stores an empty record in register j. It has one cell, and where there is room for none, it is refused before it is written.
fn store_empty(store: &mut Store, j: u64) -> Result<(), Refusal>
    requires { IsCurrent store.old }
    ensures { Changes (λ limit cs ds a r. Leads limit cs ds a r (store_register limit (int_of j) (Column (Record end)))) store.old store.new result }
{
    intmap::judge_index(j)?;
    if store.limit == 0 {
        return Err(Refusal::TooManyCells);
    }
    let to = store.map.base + store.limit;
    store.put_cell(to, state::columns_head(0, None));
    store.store_run(intmap::Class::Registers, j, to)
}

// Stores column i of those behind the head at `at` in register j, or the default, if it is absent.
fn store_column(store: &mut Store, at: usize, i: u64, j: u64) -> Result<(), Refusal>
    requires { IsCurrent store.old × HasRun store.old at × (tag_of (get_or (cells_in store.old) at blank) ≡ 2) }
    ensures { Changes (λ limit cs ds a r. LeadsWith limit cs ds a at r (store_column limit (int_of i) (int_of j))) store.old store.new result }
{
    let k = intmap::judge_index(i)?;
    let Some(q) = find_column(store, at, k)? else {
        return store.store_single(j, DataType::Null, None);
    };
    let c = store.cell_at(q);
    if store_over(store, c, j) {
        return Ok(());
    }
    copy_arms::store_from(store, q, c, j)
}

// Column: register P3 becomes column P2 of cursor P1. P2 is looked at only where there are columns.
pub fn column(store: &mut Store, x: Row) -> Result<(), Refusal>
    requires { IsCurrent store.old }
    ensures { Changes (λ limit cs ds a r. (row : ℕ) → CursorArm limit cs ds a row x op_column r) store.old store.new result }
{
    let Some(at) = cursor_arms::columns_of(store, x.p1)? else {
        return store.store_single(x.p3, DataType::Null, None);
    };
    store_column(store, at, x.p2, x.p3)
}

// RowData, SorterData: register P2 becomes the record of cursor P1's columns, an empty one, if it has none.
pub fn row_data(store: &mut Store, x: Row) -> Result<(), Refusal>
    requires { IsCurrent store.old }
    ensures { Changes (λ limit cs ds a r. (row : ℕ) → CursorArm limit cs ds a row x op_row_data r) store.old store.new result }
{
    let Some(at) = cursor_arms::columns_of(store, x.p1)? else {
        return store_empty(store, x.p2);
    };
    let n = store.cell_at(at).payload;
    copy_arms::store_from(store, at, state::columns_head(n, None), x.p2)
}
