// One row of the walk: the `match` of `explain` in sqlx-sqlite 0.9.0, src/connection/explain.rs.
#![tactic(auto)]

ghost use Rattle.std.specs.Prelude.{◌≡◌, Bool, true, false, List, ℕ, ◌+◌, ◌-◌, ◌<◌, ◌≤◌};
ghost use Rattle.area.specs.Cells.{cells, Inside};
ghost use Rattle.opcode.specs.Opcode.{number};
ghost use Rattle.opcode.specs.declared.Operation.TheVariants.{Jump, ResultRow};
ghost use Rattle.rows.specs.Rows.{parts};
ghost use Rattle.rows.specs.Judged.{SomeRows};
ghost use Rattle.jump_arms.specs.Arms.{Ready, ReadyStore, at, step_after};
ghost use Rattle.state.specs.Stores.{cells_in, IsCurrent, SameStore, LeavesStore, stored_in};
ghost use Rattle.explain.specs.Handles.{state_of, row_on, Handles};
ghost use Rattle.explain.specs.Numbers.{NumberArm, as_handling};
ghost use Rattle.explain.specs.Narrow.{is_falling, as_step, alone, Falls, is_branching, repeats, Branches};

use intmap::IntMap;
use opcode::Operation;
use refusal::Refusal;
use root_block::Blocks;
use rows::{Row, Rows};
use state::{MemoryState, Registers, Store, Ways};

// What handling a row gives: at most one branch, the state that goes on, and whether it counts as a repeat; three branches and the state that
// goes on; or a result row, its branch and the registers that are its columns.
#[derive(Clone, Copy)]
pub enum Handling {
    Ways(Ways, bool),
    Three(MemoryState, MemoryState, MemoryState, MemoryState),
    Result(MemoryState, Registers),
}

fn as_handling(step: Result<Ways, Refusal>, repeat: bool) -> Result<Handling, Refusal>
    ensures { result ≡ as_handling repeat step }
{
    Ok(Handling::Ways(step?, repeat))
}

// What follows an arm that falls through: `program_i += 1`.
fn falls_through(store: &Store, x: Result<(), Refusal>, row: u64) -> Result<MemoryState, Refusal>
    requires { row < 9223372036854777856 }
    ensures { as_step result ≡ step_after (row + 1) (stored_in store.now x) }
{
    x?;
    Ok(store.at(row + 1))
}

// The arms that name the next row themselves, but Jump.
fn jump(store: &mut Store, row: u64, x: Row, rows: Rows) -> Result<Ways, Refusal>
    requires { Ready store.old.limit (cells_in store.old) (at row store.old.map) × SomeRows (cells_in store.old) rows.from rows.count × (1 ≤ number x.op) × (number x.op ≤ 14) × (x.op ≡ Jump → ⊥) }
    ensures { LeavesStore store.old store.new result × ((blocks : List ℕ) → NumberArm store.old.limit rows.from rows.count (cells_in store.old) (cells_in store.new) blocks (at row store.old.map) x x.op result) }
{
    match x.op {
        Operation::Goto => jump_arms::goto(store.at(row), x),
        Operation::Gosub => jump_arms::gosub(store, row, x),
        Operation::Branch => jump_arms::branch(store.at(row), x),
        Operation::IsNull => jump_arms::is_null(store, row, x),
        Operation::NotNull => jump_arms::not_null(store, row, x),
        Operation::MustBeInt => jump_arms::must_be_int(store.at(row), x),
        Operation::If => jump_arms::if_(store, row, x),
        Operation::Rewind => rewind_arm::rewind(store, row, x),
        Operation::InitCoroutine => jump_arms::init_coroutine(store, row, x),
        Operation::EndCoroutine => coroutine_arms::end_coroutine(store, row, x, rows),
        Operation::Return => jump_arms::return_(store, row, x),
        Operation::Yield => coroutine_arms::yield_(store, row, x, rows),
        _ => jump_arms::halt(store.at(row), x),
    }
}

// The arms that write registers.
fn register(store: &mut Store, x: Row) -> Result<(), Refusal>
    requires { IsCurrent store.old × (16 ≤ number x.op) × (number x.op ≤ 32) }
    ensures { LeavesStore store.old store.new result × ((from n row : ℕ) (blocks : List ℕ) → NumberArm store.old.limit from n (cells_in store.old) (cells_in store.new) blocks (at row store.old.map) x x.op (step_after (row + 1) (stored_in store.new result))) }
{
    match x.op {
        Operation::MakeRecord => record_arms::make_record(store, x),
        Operation::Variable => register_arms::variable(store, x),
        Operation::HaltIfNull => register_arms::halt_if_null(store, x),
        Operation::Function => register_arms::function(store, x),
        Operation::AggStep => register_arms::agg_step(store, x),
        Operation::AggFinal => register_arms::agg_final(store, x),
        Operation::Cast => register_arms::cast(store, x),
        Operation::CopyOne => copy_arms::scopy(store, x),
        Operation::Copy => copy_arms::copy(store, x),
        Operation::Move => copy_arms::move_(store, x),
        Operation::Integer => register_arms::integer(store, x),
        Operation::Null => register_arms::null(store, x),
        Operation::Arithmetic => register_arms::arithmetic(store, x),
        _ => register_arms::constant(store, x, opcode::opcode_to_type(x.op)),
    }
}

// The arms that use a cursor.
fn cursor(store: &mut Store, word: u64, blocks: Blocks<'_>, x: Row) -> Result<(), Refusal>
    requires { Ready store.old.limit (cells_in store.old) (at word store.old.map) × (store.old.limit ≤ 65535) × (33 ≤ number x.op) × (number x.op ≤ 41) }
    ensures { LeavesStore store.old store.new result × ((from n : ℕ) → NumberArm store.old.limit from n (cells_in store.old) (cells_in store.new) blocks.entry.bytes.now (at word store.old.map) x x.op (step_after (word + 1) (stored_in store.new result))) }
{
    let row = word - intmap::ZERO;
    match x.op {
        Operation::Column => column_arms::column(store, x),
        Operation::RowData => column_arms::row_data(store, x),
        Operation::Insert => table_arms::insert(store, x),
        Operation::Delete => cursor_arms::delete(store, x),
        Operation::OpenPseudo => cursor_arms::open_pseudo(store, x),
        Operation::OpenDup => cursor_arms::open_dup(store, x),
        Operation::OpenRead => read_arm::open_read(store, blocks, row, x),
        Operation::OpenEphemeral => open_arms::open_ephemeral(store, row, x),
        _ => table_arms::null_row(store, x),
    }
}

// Jump: branches at P1, P2 and P3, and the state goes on.
fn jump_three(store: &Store, row: u64, x: Row) -> Result<Handling, Refusal>
    requires { Ready store.now.limit (cells_in store.now) (at row store.now.map) × (x.op ≡ Jump) }
    ensures { (from n : ℕ) (blocks : List ℕ) (again : Bool) → Handles store.now.limit from n (cells_in store.now) (cells_in store.now) blocks (at row store.now.map) (parts x) again result }
{
    Ok(Handling::Three(
        store.at(x.p1),
        store.at(x.p2),
        store.at(x.p3),
        store.at(row + 1),
    ))
}

// ResultRow
fn result_row(store: &Store, row: u64, x: Row) -> Result<Handling, Refusal>
    requires { Ready store.now.limit (cells_in store.now) (at row store.now.map) × (x.op ≡ ResultRow) }
    ensures { (from n : ℕ) (blocks : List ℕ) (again : Bool) → Handles store.now.limit from n (cells_in store.now) (cells_in store.now) blocks (at row store.now.map) (parts x) again result }
{
    let columns = result_arm::result_row(x)?;
    Ok(Handling::Result(store.at(row + 1), columns))
}

// Whether the row of an operation falls through: it has no arm, or its arm writes registers or uses a cursor.
pub fn is_falling(operation: Operation) -> bool
    ensures { result ≡ is_falling operation }
{
    operation == Operation::Other
        || Operation::IfPos < operation && operation < Operation::ResultRow
}

// Whether it names the next row itself, with at most one branch.
pub fn is_branching(operation: Operation) -> bool
    ensures { result ≡ is_branching operation }
{
    Operation::Other < operation && operation < Operation::Jump
        || Operation::Jump < operation && operation < Operation::MakeRecord
}

// A row that falls through. By ranges of the operations' order: a match on the operation makes a table here, which is slower than the few comparisons.
fn fall(store: &mut Store, row: u64, blocks: Blocks<'_>, x: Row) -> Result<(), Refusal>
    requires { ReadyStore store.old row × (store.old.limit ≤ 65535) × (is_falling x.op ≡ true) }
    ensures { SameStore store.old store.new × ((from n : ℕ) → NumberArm store.old.limit from n (cells_in store.old) (cells_in store.new) blocks.entry.bytes.now (at row store.old.map) x x.op (step_after (row + 1) (stored_in store.new result))) }
{
    if x.op == Operation::Other {
        return Ok(());
    }
    if x.op < Operation::Column {
        return register(store, x);
    }
    cursor(store, row, blocks, x)
}

// The state that goes on, with no branch and no repeat.
fn alone(x: Result<MemoryState, Refusal>) -> Result<Handling, Refusal>
    ensures { result ≡ alone x }
{
    let ways = Ways {
        branch: None,
        stays: Some(x?),
    };
    Ok(Handling::Ways(ways, false))
}

// The row of the listing that the state stands on.
fn row_of(store: &Store, rows: Rows, row: u64) -> Row
    requires { Inside store.now.area.now (rows.from + (row - 9223372036854775808)) 1 × (9223372036854775808 ≤ row) }
    ensures { parts result ≡ row_on (cells_in store.now) rows.from row }
{
    rows.row_at(store.area, (row - intmap::ZERO) as usize)
}

// Handles that row, which falls through.
fn fall_row(
    store: &mut Store,
    row: u64,
    blocks: Blocks<'_>,
    rows: Rows,
) -> Result<MemoryState, Refusal>
    requires { ReadyStore store.old row × SomeRows (cells_in store.old) rows.from rows.count × (row < 9223372036854775808 + rows.count) × (store.old.limit ≤ 65535) × (is_falling (row_on (cells_in store.old) rows.from row).op ≡ true) }
    ensures { SameStore store.old store.new × Falls store.old.limit rows.from rows.count (cells_in store.old) (cells_in store.new) blocks.entry.bytes.now (at row store.old.map) (row_on (cells_in store.old) rows.from row) result }
{
    let x = row_of(store, rows, row);
    let stored = fall(store, row, blocks, x);
    falls_through(store, stored, row)
}

// Handles that row, which names the next row itself; `again` where its lineage has handled it before.
fn branch_row(store: &mut Store, row: u64, again: bool, rows: Rows) -> Result<Ways, Refusal>
    requires { ReadyStore store.old row × SomeRows (cells_in store.old) rows.from rows.count × (row < 9223372036854775808 + rows.count) × (is_branching (row_on (cells_in store.old) rows.from row).op ≡ true) }
    ensures { SameStore store.old store.new × Branches store.old.limit rows.from rows.count (cells_in store.old) (cells_in store.new) (at row store.old.map) (row_on (cells_in store.old) rows.from row) again result }
{
    let x = row_of(store, rows, row);
    if x.op < Operation::IfPos {
        return jump(store, row, x, rows);
    }
    ifpos_arm::if_pos(store, row, x, again)
}

// Handles that row, which is a Jump or a ResultRow. The catalogue is for the contract alone.
fn wide_row(
    store: &mut Store,
    row: u64,
    blocks: Blocks<'_>,
    again: bool,
    rows: Rows,
) -> Result<Handling, Refusal>
    requires { ReadyStore store.old row × SomeRows (cells_in store.old) rows.from rows.count × (row < 9223372036854775808 + rows.count) × (is_falling (row_on (cells_in store.old) rows.from row).op ≡ false) × (is_branching (row_on (cells_in store.old) rows.from row).op ≡ false) }
    ensures { SameStore store.old store.new × Handles store.old.limit rows.from rows.count (cells_in store.old) (cells_in store.new) blocks.entry.bytes.now (at row store.old.map) (row_on (cells_in store.old) rows.from row) again result }
{
    let x = row_of(store, rows, row);
    if x.op == Operation::Jump {
        return jump_three(store, row, x);
    }
    result_row(store, row, x)
}

// Handles a row that falls through. The state on row `at`, its map and the rows are given in words: a struct that is handed over is written in words
// and read back in pairs. What `handle` gives is large, and would be written and read for each row; most rows give one state.
#[inline(never)]
pub fn handle_falling(
    at: u64,
    base: usize,
    len: u64,
    used: usize,
    area: &mut [u8],
    blocks: Blocks<'_>,
    from: usize,
    n: usize,
    limit: usize,
) -> Result<MemoryState, Refusal>
    requires { Ready limit (cells area.old) (state_of at base len used) × SomeRows (cells area.old) from n × (at < 9223372036854775808 + n) × (limit ≤ 65535) × (is_falling (row_on (cells area.old) from at).op ≡ true) }
    ensures { Falls limit from n (cells area.old) (cells area.new) blocks.entry.bytes.now (state_of at base len used) (row_on (cells area.old) from at) result }
{
    let map = IntMap { base, len, used };
    let mut store = Store { map, area, limit };
    fall_row(&mut store, at, blocks, Rows { from, count: n })
}

// Handles a row that names the next row itself, with at most one branch.
#[inline(never)]
pub fn handle_branching(
    at: u64,
    base: usize,
    len: u64,
    used: usize,
    area: &mut [u8],
    again: bool,
    from: usize,
    n: usize,
    limit: usize,
) -> Result<Ways, Refusal>
    requires { Ready limit (cells area.old) (state_of at base len used) × SomeRows (cells area.old) from n × (at < 9223372036854775808 + n) × (is_branching (row_on (cells area.old) from at).op ≡ true) }
    ensures { Branches limit from n (cells area.old) (cells area.new) (state_of at base len used) (row_on (cells area.old) from at) again result }
{
    let map = IntMap { base, len, used };
    let mut store = Store { map, area, limit };
    branch_row(&mut store, at, again, Rows { from, count: n })
}

// Whether a handling counts as a repeat: only IfPos does.
pub fn repeats(operation: Operation, again: bool) -> bool
    ensures { result ≡ repeats operation again }
{
    operation == Operation::IfPos && again
}

// Handles the row that a state stands on; `again` where its lineage has handled it before. An operation without an arm does nothing. Inside the walk's
// turn it would make the turn a call of its own, with all its registers, also for the rows that are handled in place.
#[inline(never)]
pub fn handle(
    at: u64,
    base: usize,
    len: u64,
    used: usize,
    area: &mut [u8],
    blocks: Blocks<'_>,
    again: bool,
    from: usize,
    n: usize,
    limit: usize,
) -> Result<Handling, Refusal>
    requires { Ready limit (cells area.old) (state_of at base len used) × SomeRows (cells area.old) from n × (at < 9223372036854775808 + n) × (limit ≤ 65535) }
    ensures { Handles limit from n (cells area.old) (cells area.new) blocks.entry.bytes.now (state_of at base len used) (row_on (cells area.old) from at) again result }
{
    let rows = Rows { from, count: n };
    let x = rows.row_at(area, (at - intmap::ZERO) as usize);
    if is_falling(x.op) {
        return alone(handle_falling(at, base, len, used, area, blocks, from, n, limit));
    }
    if is_branching(x.op) {
        let step = handle_branching(at, base, len, used, area, again, from, n, limit);
        return as_handling(step, repeats(x.op, again));
    }
    let map = IntMap { base, len, used };
    let mut store = Store { map, area, limit };
    wide_row(&mut store, at, blocks, again, rows)
}
