// The arms of `explain` that change what a cursor stands for: NullRow, Insert, IdxInsert and SorterInsert. Translated from sqlx-sqlite 0.9.0,
// src/connection/explain.rs.
#![tactic(auto)]

ghost use Rattle.std.specs.Prelude.{◌≡◌, length, ℕ, ◌+◌, ◌≤◌};
ghost use Rattle.model.specs.Operation.{op_null_row, op_insert};
ghost use Rattle.area.specs.Cells.{cells, Inside};
ghost use Rattle.intmap.specs.Runs.{size, sizes, AreColumns};
ghost use Rattle.intmap.specs.Signed.{int_of};
ghost use Rattle.encoding.specs.Heads.{single_nullable};
ghost use Rattle.state.specs.Leads.{Current, SomeCurrent, Leads};
ghost use Rattle.state.specs.Arms.{CursorArm};
ghost use Rattle.state.specs.Stores.{cells_in, IsCurrent, HasRun, Changes};
ghost use Rattle.table_arms.specs.Nulled.{NulledCell, AreNullable, Nulled};
ghost use Rattle.table_arms.specs.Inserted.{fill_table, StoresTable, InsertsRecord};

use area::Cell;
use cursor_arms::CursorDataType;
use refusal::Refusal;
use rows::Row;
use state::{Register, Store};
use type_info::DataType;

// How deep the records of a cursor's columns nest.
const DEPTH: usize = 8;

// A plain column's head, which may be null now. A record's stays as it is.
fn as_nullable(c: Cell) -> Cell
    ensures { result ≡ single_nullable 2 c }
{
    if intmap::tag_of(c) == intmap::SINGLE {
        return state::with_nullable(c, Some(true));
    }
    c
}

// The plain columns among the n columns from `from` on may be null now. Columns of records in them keep theirs.
fn null_columns(area: &mut [u8], from: usize, n: u64)
    requires { AreColumns (cells area.old) 8 n from }
    ensures { Nulled (cells area.old) (cells area.new) n from }
{
    let mut p = from;
    for _ in 0..n {
        let c = area::cell_at(area, p);
        let size = intmap::count_from(area, p, c, DEPTH);
        area::put_cell(area, p, as_nullable(c));
        p += size;
    }
}

// The column in the cell at p may be null now, if it is plain. One that may already is not written: a single test for most.
fn null_cell(area: &mut [u8], p: usize)
    requires { Inside area.old p 1 }
    ensures { NulledCell area.old area.new p }
{
    let c = area::cell_at(area, p);
    if state::nullable_in(c) == Some(true) {
        return;
    }
    area::put_cell(area, p, as_nullable(c));
}

// Some of the n cells from `from` on that may be null, before the first that may not: all but the last, if no other may not. They are tested in
// pairs, which costs half the turns.
fn nullable_cells(area: &[u8], from: usize, n: u64) -> u64
    requires { (from + n ≤ length (cells area.now)) × (length (cells area.now) ≤ 1048576) }
    ensures { (result ≤ n) × AreNullable (cells area.now) from result }
{
    for k in 0..n / 2 {
        let p = from + 2 * k as usize;
        if state::nullable_in(area::cell_at(area, p)) != Some(true) {
            return 2 * k;
        }
        if state::nullable_in(area::cell_at(area, p + 1)) != Some(true) {
            return 2 * k + 1;
        }
    }
    n / 2 * 2
}

// As `null_columns`, where each of the columns has one cell.
fn null_cells(area: &mut [u8], from: usize, n: u64)
    requires { AreColumns (cells area.old) 8 n from × (sizes (size (cells area.old) 8) n from ≡ n) }
    ensures { Nulled (cells area.old) (cells area.new) n from }
{
    let k = nullable_cells(area, from, n);
    for p in from + k as usize..from + n as usize {
        null_cell(area, p);
    }
}

// NullRow: every plain column of cursor P1 may be null.
pub fn null_row(store: &mut Store, x: Row) -> Result<(), Refusal>
    requires { SomeCurrent (cells_in store.old) store.old.map }
    ensures { Changes (λ _ cs ds a r. (limit row : ℕ) → Current limit cs a → CursorArm limit cs ds a row x op_null_row r) store.old store.new result }
{
    let Some(at) = cursor_arms::columns_of(store, x.p1)? else {
        return Ok(());
    };
    let c = store.cell_at(at);
    if store.is_flat(at, c.payload) {
        null_cells(store.area, at + 1, c.payload);
        return Ok(());
    }
    null_columns(store.area, at + 1, c.payload);
    Ok(())
}

// Stores the columns of the record at `at` of the map as the table that a row opened, which is not empty then. A store may move that record, so it
// goes to the room behind the map first.
fn store_behind(store: &mut Store, row: u64, at: usize) -> Result<(), Refusal>
    requires { IsCurrent store.old × HasRun store.old at × (row ≤ 65535) }
    ensures { Changes (λ limit cs ds a r. StoresTable limit cs ds a row at r) store.old store.new result }
{
    let map = store.map;
    let limit = store.limit;
    let n = cursor_arms::run_behind(store, at, Some(false));
    let key = intmap::class_key(intmap::Class::Tables, row);
    store.map = map.insert_run(store.area, key, map.base + limit, n, limit)?;
    Ok(())
}

// The same, at once where the table has as many columns, of one cell each.
fn store_table(store: &mut Store, row: u64, at: usize) -> Result<(), Refusal>
    requires { IsCurrent store.old × HasRun store.old at × (row ≤ 65535) }
    ensures { Changes (λ limit cs ds a r. StoresTable limit cs ds a row at r) store.old store.new result }
{
    let c = state::with_nullable(store.cell_at(at), Some(false));
    if store.over_entry(at, c, intmap::Class::Tables, row) {
        return Ok(());
    }
    store_behind(store, row, at)
}

// Insert of the record at `at` of the map: it replaces the table of cursor P1, if there is one.
fn insert_record(store: &mut Store, x: Row, at: usize) -> Result<(), Refusal>
    requires { IsCurrent store.old × HasRun store.old at }
    ensures { Changes (λ limit cs ds a r. InsertsRecord limit cs ds a x at r) store.old store.new result }
{
    let Some(p) = cursor_arms::read_cursor(store, x.p1)? else {
        return Ok(());
    };
    let CursorDataType::Normal(row) = p else {
        return Ok(());
    };
    let Some(_) = p.table(store) else {
        return Ok(());
    };
    store_table(store, row, at)
}

// Insert of a plain Null: the table of cursor P1, if there is one, is not empty.
fn insert_null(store: &mut Store, x: Row) -> Result<(), Refusal>
    requires { IsCurrent store.old }
    ensures { Changes (λ limit cs ds a r. Leads limit cs ds a r (fill_table (int_of x.p1))) store.old store.new result }
{
    let Some(p) = cursor_arms::read_cursor(store, x.p1)? else {
        return Ok(());
    };
    p.set_empty(store, Some(false));
    Ok(())
}

// Insert, IdxInsert, SorterInsert: what register P2 holds goes into the table of cursor P1, if it is a record or a plain Null.
pub fn insert(store: &mut Store, x: Row) -> Result<(), Refusal>
    requires { IsCurrent store.old }
    ensures { Changes (λ limit cs ds a r. (row : ℕ) → CursorArm limit cs ds a row x op_insert r) store.old store.new result }
{
    let Some(held) = store.read_register(x.p2)? else {
        return Ok(());
    };
    match held {
        Register::Record(at) => insert_record(store, x, at),
        Register::Single(DataType::Null, _) => insert_null(store, x),
        Register::Single(_, _) => Ok(()),
        Register::Int(_) => Ok(()),
    }
}
