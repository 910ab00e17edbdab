// The arm of Rewind, Last, Sort and SorterSort, which branch where a cursor may be empty. Translated from sqlx-sqlite 0.9.0,
// src/connection/explain.rs.
#![tactic(auto)]

ghost use Rattle.std.specs.Prelude.{◌≤◌};
ghost use Rattle.model.specs.Operation.{op_rewind};
ghost use Rattle.state.specs.Stores.{cells_in, LeavesStore};
ghost use Rattle.state.specs.Steps.{JumpArm};
ghost use Rattle.jump_arms.specs.Arms.{at, ReadyStore};
ghost use Rattle.rewind_arm.specs.Rewinds.{RewindsTable};

use cursor_arms::CursorDataType;
use refusal::Refusal;
use rows::Row;
use state::{Store, Ways};

// The arm on the table that a row opened. Where it is not known whether the table is empty, the state that goes on keeps it so, and the
// branch, in which it is empty, is built in the room behind the map.
fn rewind_table(store: &mut Store, row: u64, x: Row, opened: u64) -> Result<Ways, Refusal>
    requires { ReadyStore store.old row × (opened ≤ 65535) }
    ensures { LeavesStore store.old store.new result × RewindsTable store.old.limit (cells_in store.old) (cells_in store.new) (at row store.old.map) x opened result }
{
    let p = CursorDataType::Normal(opened);
    match p.is_empty(store) {
        Some(false) => Ok(jump_arms::go_on(store, row + 1)),
        Some(true) => Ok(jump_arms::branch_at(store, x.p2)),
        None => jump_arms::both_ways(
            store,
            row,
            x.p2,
            |s| {
                p.set_empty(s, Some(true));
                Ok(())
            },
            |_| Ok(()),
        ),
    }
}

// Rewind, Last, Sort, SorterSort. A pseudo cursor is never empty.
pub fn rewind(store: &mut Store, row: u64, x: Row) -> Result<Ways, Refusal>
    requires { ReadyStore store.old row }
    ensures { LeavesStore store.old store.new result × JumpArm store.old.limit (cells_in store.old) (cells_in store.new) (at row store.old.map) x op_rewind result }
{
    if x.p2 == intmap::ZERO {
        return Ok(jump_arms::go_on(store, row + 1));
    }
    match cursor_arms::read_cursor(store, x.p1)? {
        None => Ok(Ways::default()),
        Some(CursorDataType::Normal(opened)) => rewind_table(store, row, x, opened),
        Some(CursorDataType::Pseudo(_)) => Ok(jump_arms::go_on(store, row + 1)),
    }
}
