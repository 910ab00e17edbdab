// Cursors in the state by value, and the arms of `explain` that open one on what is there already, or say that a table may be empty:
// OpenPseudo, OpenDup and Delete.
// Translated from sqlx-sqlite 0.9.0, src/connection/explain.rs.
#![tactic(auto)]

ghost use Rattle.std.specs.Prelude.{◌≡◌, ℕ, ◌+◌, ◌<◌, ◌≤◌, length};
ghost use Rattle.model.specs.State.{Normal, Pseudo};
ghost use Rattle.model.specs.Access.{store_cursor};
ghost use Rattle.model.specs.Cursor.{set_empty};
ghost use Rattle.model.specs.CursorArms.{empty_after_delete, after_delete};
ghost use Rattle.model.specs.Operation.{op_open_pseudo, op_open_dup, op_delete};
ghost use Rattle.area.specs.Cells.{cells};
ghost use Rattle.intmap.specs.Pack.{with_nullable};
ghost use Rattle.intmap.specs.Signed.{int_of};
ghost use Rattle.encoding.specs.Encode.{nullable_code};
ghost use Rattle.encoding.specs.Decode.{nullable_in};
ghost use Rattle.rows.specs.Parts.{Operand};
ghost use Rattle.state.specs.Leads.{Held, Current, SomeCurrent, Leads};
ghost use Rattle.state.specs.Arms.{CursorArm};
ghost use Rattle.state.specs.Stores.{cells_in, IsHeld, IsCurrent, HasRun, Changes, Writes};
ghost use Rattle.cursor_arms.specs.Cursors.{cursor_in, cell_of, RowWithin, ReadsCursor};
ghost use Rattle.cursor_arms.specs.Behind.{RunBehind};
ghost use Rattle.cursor_arms.specs.StandsFor.{head_slot, empty_in, SlotWithin, FindsTable, FindsColumns, FindsCursor, TellsEmpty, CursorTableChanged};

use area::Cell;
use intmap::IntMap;
use refusal::Refusal;
use rows::Row;
use state::Store;

// What a cursor is. One on a table is told by the row that opened it, a pseudo cursor by its register's word.
#[derive(Clone, Copy)]
pub enum CursorDataType {
    Normal(u64),
    Pseudo(u64),
}

// What a cursor's cell says. A row's number has 16 bits, and taking no more makes it one in any cell.
fn cursor_in(c: Cell) -> CursorDataType
    ensures { result ≡ cursor_in c }
{
    if intmap::tag_of(c) == intmap::NORMAL {
        return CursorDataType::Normal(c.payload % 65536);
    }
    CursorDataType::Pseudo(c.payload)
}

// Reads cursor i of a map, if it is there. This and the readers below whose names end in `_in` stand over a `Store` too, as a call of these: who is
// lent the area for reading has no `Store`.
pub fn read_cursor_in(map: IntMap, area: &[u8], i: u64) -> Result<Option<CursorDataType>, Refusal>
    requires { Held (cells area.now) map }
    ensures { ReadsCursor (cells area.now) map i result }
{
    match state::get(map, area, intmap::Class::Cursors, i)? {
        None => Ok(None),
        Some(at) => Ok(Some(cursor_in(area::cell_at(area, at)))),
    }
}

// Reads cursor i, if it is there.
pub fn read_cursor(store: &Store, i: u64) -> Result<Option<CursorDataType>, Refusal>
    requires { IsHeld store.now }
    ensures { ReadsCursor (cells_in store.now) store.now.map i result }
{
    read_cursor_in(store.map, store.area, i)
}

// A place, if a record's or table's head is there. A table's always is in a state, and asking makes it one in any cells.
fn head_at(area: &[u8], x: Option<usize>) -> Option<usize>
    requires { SlotWithin (cells area.now) x × (length (cells area.now) ≤ 1048576) }
    ensures { result ≡ head_slot (cells area.now) x }
{
    let at = x?;
    (intmap::tag_of(area::cell_at(area, at)) == intmap::RECORD).then_some(at)
}

// The emptiness that the table's head at a place says. Where there is no table, the cursor is empty.
fn empty_at(area: &[u8], x: Option<usize>) -> Option<bool>
    requires { SlotWithin (cells area.now) x × (length (cells area.now) ≤ 1048576) }
    ensures { result ≡ empty_in (cells area.now) x }
{
    match x {
        None => Some(true),
        Some(at) => state::nullable_in(area::cell_at(area, at)),
    }
}

// A table's head after a row was deleted: a table that had rows might be empty now.
fn after_delete(head: Cell) -> Cell
    ensures { result ≡ with_nullable (nullable_code (empty_after_delete (nullable_in head))) head }
{
    let empty = match state::nullable_in(head) {
        Some(true) => Some(true),
        _ => None,
    };
    state::with_nullable(head, empty)
}

impl CursorDataType {
    // The cell that it is stored as.
    fn cell(self) -> Cell
        ensures { result ≡ cell_of self }
    {
        match self {
            CursorDataType::Normal(payload) => {
                let head = intmap::NORMAL;
                Cell { head, payload }
            }
            CursorDataType::Pseudo(payload) => {
                let head = intmap::PSEUDO;
                Cell { head, payload }
            }
        }
    }

    // Where the head of its table is in a map, if it has one.
    pub fn table_in(self, map: IntMap, area: &[u8]) -> Option<usize>
        requires { Held (cells area.now) map × RowWithin self }
        ensures { FindsTable (cells area.now) map self result }
    {
        match self {
            CursorDataType::Normal(row) => state::entry_at(map, area, intmap::Class::Tables, row),
            CursorDataType::Pseudo(_) => None,
        }
    }

    // The same in a state's map.
    pub fn table(self, store: &Store) -> Option<usize>
        requires { IsHeld store.now × RowWithin self }
        ensures { FindsTable (cells_in store.now) store.now.map self result }
    {
        self.table_in(store.map, store.area)
    }

    // Where the head of its columns is in a map, a table's or that of a register's record, if it has columns.
    pub fn columns_in(self, map: IntMap, area: &[u8]) -> Result<Option<usize>, Refusal>
        requires { Held (cells area.now) map × RowWithin self }
        ensures { FindsColumns (cells area.now) map self result }
    {
        match self {
            CursorDataType::Normal(row) => {
                Ok(head_at(area, state::entry_at(map, area, intmap::Class::Tables, row)))
            }
            CursorDataType::Pseudo(i) => {
                let at = state::get(map, area, intmap::Class::Registers, i)?;
                Ok(head_at(area, at))
            }
        }
    }

    // The same in a state's map.
    pub fn columns(self, store: &Store) -> Result<Option<usize>, Refusal>
        requires { IsHeld store.now × RowWithin self }
        ensures { FindsColumns (cells_in store.now) store.now.map self result }
    {
        self.columns_in(store.map, store.area)
    }

    // Whether it is empty by a map, if that is known. Pseudo cursors have exactly one row.
    pub fn is_empty_in(self, map: IntMap, area: &[u8]) -> Option<bool>
        requires { Held (cells area.now) map × RowWithin self }
        ensures { TellsEmpty (cells area.now) map self result }
    {
        match self {
            CursorDataType::Normal(row) => {
                empty_at(area, state::entry_at(map, area, intmap::Class::Tables, row))
            }
            CursorDataType::Pseudo(_) => Some(false),
        }
    }

    // The same by a state's map.
    pub fn is_empty(self, store: &Store) -> Option<bool>
        requires { IsHeld store.now × RowWithin self }
        ensures { TellsEmpty (cells_in store.now) store.now.map self result }
    {
        self.is_empty_in(store.map, store.area)
    }

    // Sets whether its table is empty, if it has one. `delete` looks alike: one function for both would take a closure, and be no shorter.
    pub fn set_empty(self, store: &mut Store, empty: Option<bool>)
        requires { IsHeld store.old × RowWithin self }
        ensures { Writes (λ cs ds a. CursorTableChanged (set_empty empty) cs ds a self) store.old store.new }
    {
        let Some(at) = self.table(store) else {
            return;
        };
        let c = state::with_nullable(store.cell_at(at), empty);
        store.put_cell(at, c);
    }

    // Deletes a row of its table, if it has one.
    fn delete(self, store: &mut Store)
        requires { IsHeld store.old × RowWithin self }
        ensures { Writes (λ cs ds a. CursorTableChanged after_delete cs ds a self) store.old store.new }
    {
        let Some(at) = self.table(store) else {
            return;
        };
        let c = after_delete(store.cell_at(at));
        store.put_cell(at, c);
    }
}

// Where the head of cursor i's columns is, if it is there and has columns.
pub fn columns_of(store: &Store, i: u64) -> Result<Option<usize>, Refusal>
    requires { IsHeld store.now }
    ensures { FindsCursor (cells_in store.now) store.now.map i result }
{
    match read_cursor(store, i)? {
        None => Ok(None),
        Some(p) => p.columns(store),
    }
}

// Stores a cursor that reads the record in a register, whose number is an operand's word. It is no one function with the next, since a cursor that
// was read, which may hold a larger number, meets neither contract.
pub fn store_pseudo(store: &mut Store, i: u64, register: u64) -> Result<(), Refusal>
    requires { IsCurrent store.old × Operand register }
    ensures { Changes (λ limit cs ds a r. Leads limit cs ds a r (store_cursor limit (int_of i) (Pseudo (int_of register)))) store.old store.new result }
{
    let c = CursorDataType::Pseudo(register).cell();
    store.store_cell(intmap::Class::Cursors, i, c)
}

// Stores a cursor on the table that this row opened.
pub fn store_normal(store: &mut Store, i: u64, row: u64) -> Result<(), Refusal>
    requires { IsCurrent store.old × (row ≤ 65535) }
    ensures { Changes (λ limit cs ds a r. Leads limit cs ds a r (store_cursor limit (int_of i) (Normal row))) store.old store.new result }
{
    let c = CursorDataType::Normal(row).cell();
    store.store_cell(intmap::Class::Cursors, i, c)
}

// Copies the run of the entry at `at` to the room behind the map, with another nullable in its head, and gives how many cells it has. A store
// may move that entry, so what is stored of it is taken from there.
pub fn run_behind(store: &mut Store, at: usize, nullable: Option<bool>) -> usize
    requires { IsCurrent store.old × HasRun store.old at }
    ensures { Writes (λ cs ds a. RunBehind store.old.limit cs ds a at nullable result) store.old store.new }
{
    let to = store.map.base + store.limit;
    let n = intmap::copy_run(store.area, at, to, intmap::LEVELS);
    let c = state::with_nullable(store.cell_at(to), nullable);
    store.put_cell(to, c);
    n
}

// OpenPseudo: cursor P1 reads register P2.
pub fn open_pseudo(store: &mut Store, x: Row) -> Result<(), Refusal>
    requires { IsCurrent store.old }
    ensures { Changes (λ limit cs ds a r. (row : ℕ) → CursorArm limit cs ds a row x op_open_pseudo r) store.old store.new result }
{
    store_pseudo(store, x.p1, x.p2)
}

// OpenDup: cursor P1 becomes what cursor P2 is, if there is one.
pub fn open_dup(store: &mut Store, x: Row) -> Result<(), Refusal>
    requires { IsCurrent store.old }
    ensures { Changes (λ limit cs ds a r. (row : ℕ) → CursorArm limit cs ds a row x op_open_dup r) store.old store.new result }
{
    let Some(p) = read_cursor(store, x.p2)? else {
        return Ok(());
    };
    store.store_cell(intmap::Class::Cursors, x.p1, p.cell())
}

// Delete: the table of cursor P1 might be empty now.
pub fn delete(store: &mut Store, x: Row) -> Result<(), Refusal>
    requires { SomeCurrent (cells_in store.old) store.old.map }
    ensures { Changes (λ _ cs ds a r. (limit row : ℕ) → Current limit cs a → CursorArm limit cs ds a row x op_delete r) store.old store.new result }
{
    let Some(p) = read_cursor(store, x.p1)? else {
        return Ok(());
    };
    p.delete(store);
    Ok(())
}
