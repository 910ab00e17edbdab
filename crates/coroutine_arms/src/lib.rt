// The arms of `explain` that look at another row of the listing: sqlx-sqlite 0.9.0, src/connection/explain.rs.
#![tactic(auto)]

ghost use Rattle.model.specs.Operation.{op_end_coroutine, op_yield};
ghost use Rattle.rows.specs.Judged.{SomeRows};
ghost use Rattle.state.specs.Stores.{cells_in, LeavesStore};
ghost use Rattle.jump_arms.specs.Arms.{ReadyStore, at};
ghost use Rattle.coroutine_arms.specs.Arms.{RowsInside, Targets, Follows, RowsArm};

use opcode::Operation;
use refusal::Refusal;
use rows::{Row, Rows};
use state::{Store, Ways};

// Where the Yield row goes that the word w names. A word below the first row's or past the last's names no row.
fn yield_target(store: &Store, rows: Rows, w: u64) -> Option<u64>
    requires { RowsInside (cells_in store.now) rows.from rows.count }
    ensures { Targets (cells_in store.now) rows.from rows.count w result }
{
    if w < intmap::ZERO {
        return None;
    }
    let k = (w - intmap::ZERO) as usize;
    if rows.count <= k {
        return None;
    }
    let x = rows.row_at(store.area, k);
    match x.op {
        Operation::Yield => Some(x.p2),
        _ => None,
    }
}

// EndCoroutine
pub fn end_coroutine(store: &mut Store, row: u64, x: Row, rows: Rows) -> Result<Ways, Refusal>
    requires { ReadyStore store.old row × SomeRows (cells_in store.old) rows.from rows.count }
    ensures { LeavesStore store.old store.new result × RowsArm store.old.limit (cells_in store.old) (cells_in store.new) (at row store.old.map) x rows.from rows.count op_end_coroutine result }
{
    let Some(w) = jump_arms::known_int(store, x.p1)? else {
        return Ok(Ways::default());
    };
    let Some(target) = yield_target(store, rows, w) else {
        return Ok(Ways::default());
    };
    jump_arms::remove_register(store, x.p1)?;
    Ok(jump_arms::go_on(store, target))
}

// Where a Yield goes whose register says w: to that row, or past it if it is a Yield too.
fn row_after_yield(store: &Store, rows: Rows, w: u64) -> u64
    requires { RowsInside (cells_in store.now) rows.from rows.count }
    ensures { Follows (cells_in store.now) rows.from rows.count w result }
{
    match yield_target(store, rows, w) {
        None => w,
        Some(_) => jump_arms::row_after(w),
    }
}

// Yield. The store refuses nothing that the read did not, since the register has a number already.
pub fn yield_(store: &mut Store, row: u64, x: Row, rows: Rows) -> Result<Ways, Refusal>
    requires { ReadyStore store.old row × SomeRows (cells_in store.old) rows.from rows.count }
    ensures { LeavesStore store.old store.new result × RowsArm store.old.limit (cells_in store.old) (cells_in store.new) (at row store.old.map) x rows.from rows.count op_yield result }
{
    let Some(w) = jump_arms::known_int(store, x.p1)? else {
        return Ok(Ways::default());
    };
    let to = row_after_yield(store, rows, w);
    store.store_int(x.p1, row)?;
    Ok(jump_arms::go_on(store, to))
}
