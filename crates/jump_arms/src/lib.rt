// The arms of `explain` that name the next row, add a branch or end the branch: sqlx-sqlite 0.9.0, src/connection/explain.rs.
#![tactic(auto)]

ghost use Rattle.std.specs.Prelude.{◌≡◌, not, ◌<◌, get_or, None, Some};
ghost use Rattle.std.specs.Fn.{FnOnceTakesAtMut, FnOnceReturnsAtMut};
ghost use Rattle.model.specs.Operation.{op_goto, op_gosub, op_branch, op_must_be_int, op_is_null, op_not_null, op_if, op_init_coroutine, op_return, op_halt};
ghost use Rattle.model.specs.Equality.{is_zero_int};
ghost use Rattle.model.specs.Access.{remove_register, store_register, update_register};
ghost use Rattle.model.specs.JumpArms.{store_if, to_default};
ghost use Rattle.model.specs.State.{Column, Single, to_not_null};
ghost use Rattle.area.specs.Cells.{cells};
ghost use Rattle.intmap.specs.Map.{HasRoom};
ghost use Rattle.intmap.specs.Signed.{int_of};
ghost use Rattle.rows.specs.Parts.{Operand};
ghost use Rattle.state.specs.Leads.{Held, Leads};
ghost use Rattle.state.specs.Steps.{JumpArm};
ghost use Rattle.state.specs.Stores.{cells_in, IsHeld, IsCurrent, LeavesStore, Changes};
ghost use Rattle.jump_arms.specs.Both.{HeldWithRoom, StaysWithin, BothWays};
ghost use Rattle.jump_arms.specs.Arms.{ReadyStore, StateArm, InitTo, RowAfter, at, on_at, branch_at, both_at, Knows, Puts, BothArm, IfArm, Asks, changed};

use intmap::IntMap;
use refusal::Refusal;
use rows::Row;
use state::{MemoryState, Register, Store, Ways};
use type_info::DataType;

// The word of 1.
const ONE: u64 = 9223372036854775809;

// Goto
pub fn goto(s: MemoryState, x: Row) -> Result<Ways, Refusal>
    ensures { StateArm s x op_goto result }
{
    Ok(goes_on(MemoryState { row: x.p2, ..s }))
}

// Halt
pub fn halt(s: MemoryState, x: Row) -> Result<Ways, Refusal>
    ensures { StateArm s x op_halt result }
{
    Ok(Ways::default())
}

// The operations that may go to P2 or to the next row
pub fn branch(s: MemoryState, x: Row) -> Result<Ways, Refusal>
    requires { s.row < 9223372036854777856 }
    ensures { StateArm s x op_branch result }
{
    Ok(both(
        MemoryState { row: x.p2, ..s },
        MemoryState {
            row: s.row + 1,
            ..s
        },
    ))
}

// MustBeInt
pub fn must_be_int(s: MemoryState, x: Row) -> Result<Ways, Refusal>
    requires { s.row < 9223372036854777856 }
    ensures { StateArm s x op_must_be_int result }
{
    let next = MemoryState {
        row: s.row + 1,
        ..s
    };
    if x.p2 == intmap::ZERO {
        return Ok(goes_on(next));
    }
    Ok(both(MemoryState { row: x.p2, ..s }, next))
}

// A state goes on, and there is no branch. This and the next two say of values what `go_on`, `branch_and_go` and `branch_at` say of a store's map.
pub fn goes_on(stays: MemoryState) -> Ways
    ensures { result ≡ on_at stays.row stays.map }
{
    Ways {
        branch: None,
        stays: Some(stays),
    }
}

// A branch, and a state that goes on.
pub fn both(branch: MemoryState, stays: MemoryState) -> Ways
    ensures { result ≡ both_at branch stays.row stays.map }
{
    Ways {
        branch: Some(branch),
        ..goes_on(stays)
    }
}

// A branch, and nothing goes on.
pub fn branches(branch: MemoryState) -> Ways
    ensures { result ≡ branch_at branch.row branch.map }
{
    Ways {
        branch: Some(branch),
        stays: None,
    }
}

// The state goes on at a row.
pub fn go_on(store: &Store, row: u64) -> Ways
    ensures { result ≡ on_at row store.now.map }
{
    goes_on(store.at(row))
}

// Gosub
pub fn gosub(store: &mut Store, row: u64, x: Row) -> Result<Ways, Refusal>
    requires { ReadyStore store.old row }
    ensures { LeavesStore store.old store.new result × JumpArm store.old.limit (cells_in store.old) (cells_in store.new) (at row store.old.map) x op_gosub result }
{
    store.store_int(x.p1, row)?;
    Ok(go_on(store, x.p2))
}

// Where InitCoroutine goes: 0 in P2 stands for the next row.
pub fn init_coroutine_to(row: u64, p2: u64) -> u64
    requires { row < 9223372036854777856 }
    ensures { InitTo row p2 result }
{
    if p2 == intmap::ZERO {
        return row + 1;
    }
    p2
}

// InitCoroutine
pub fn init_coroutine(store: &mut Store, row: u64, x: Row) -> Result<Ways, Refusal>
    requires { ReadyStore store.old row }
    ensures { LeavesStore store.old store.new result × JumpArm store.old.limit (cells_in store.old) (cells_in store.new) (at row store.old.map) x op_init_coroutine result }
{
    let to = init_coroutine_to(row, x.p2);
    store.store_int(x.p1, x.p3)?;
    Ok(go_on(store, to))
}

// The number that register i is known to hold, if it is. This stands beside `known_int` for who is lent the area for reading alone, and so has no
// `Store`.
pub fn known_int_in(map: IntMap, area: &[u8], i: u64) -> Result<Option<u64>, Refusal>
    requires { Held (cells area.now) map }
    ensures { Knows (cells area.now) map i result }
{
    match state::read_register(map, area, i)? {
        None => Ok(None),
        Some(Register::Single(_, _)) => Ok(None),
        Some(Register::Record(_)) => Ok(None),
        Some(Register::Int(w)) => Ok(Some(w)),
    }
}

// The same of a store.
pub fn known_int(store: &Store, i: u64) -> Result<Option<u64>, Refusal>
    requires { IsHeld store.now }
    ensures { Knows (cells_in store.now) store.now.map i result }
{
    known_int_in(store.map, store.area, i)
}

// The row after one that a register told. No known number is the last word, which stays as it is.
pub fn row_after(w: u64) -> u64
    ensures { RowAfter w result }
{
    w.saturating_add(1)
}

// Removes register i.
pub fn remove_register(store: &mut Store, i: u64) -> Result<(), Refusal>
    requires { IsCurrent store.old }
    ensures { Changes (λ limit cs ds a r. Leads limit cs ds a r (remove_register (int_of i))) store.old store.new result }
{
    let map = store.map;
    store.map = map.remove_at(store.area, intmap::Class::Registers, i)?;
    Ok(())
}

// Return
pub fn return_(store: &mut Store, row: u64, x: Row) -> Result<Ways, Refusal>
    requires { ReadyStore store.old row }
    ensures { LeavesStore store.old store.new result × JumpArm store.old.limit (cells_in store.old) (cells_in store.new) (at row store.old.map) x op_return result }
{
    let Some(w) = known_int(store, x.p1)? else {
        if x.p3 == ONE {
            return Ok(go_on(store, row + 1));
        }
        return Ok(Ways::default());
    };
    let after = row_after(w);
    remove_register(store, x.p1)?;
    Ok(go_on(store, after))
}

// A branch at a row, and nothing goes on.
pub fn branch_at(store: &Store, row: u64) -> Ways
    ensures { result ≡ branch_at row store.now.map }
{
    branches(store.at(row))
}

// Where there is a branch: the state goes on at a row.
pub fn branch_and_go(branch: MemoryState, store: &Store, row: u64) -> Ways
    ensures { result ≡ both_at branch row store.now.map }
{
    both(branch, store.at(row))
}

// Both ways: a branch at row p2 after the first change, and the next row after the second. The branch is another state, so it is built in the room
// behind the map, and its change is judged first.
pub fn both_ways<
    F: FnOnce(&mut Store) -> Result<(), Refusal>,
    G: FnOnce(&mut Store) -> Result<(), Refusal>,
>(store: &mut Store, row: u64, p2: u64, first: F, second: G) -> Result<Ways, Refusal>
    requires ready { ReadyStore store.old row }
    requires first { (t : _) → HeldWithRoom t → FnOnceTakesAtMut F.FnOnce first t }
    requires within { (t : _) (q : _) (u : _) → HeldWithRoom t → FnOnceReturnsAtMut F.FnOnce first t q u → StaysWithin t u }
    requires second { (t : _) → HeldWithRoom t → FnOnceTakesAtMut G.FnOnce second t }
    ensures { BothWays (λ t q u. FnOnceReturnsAtMut F.FnOnce first t q u) (λ t q u. FnOnceReturnsAtMut G.FnOnce second t q u) store.old store.new row p2 result }
{
    let map = store.map;
    store.map = map.copy_to(store.area, map.base + store.limit);
    let changed = first(store);
    let branch = store.at(p2);
    store.map = map;
    changed?;
    second(store)?;
    Ok(branch_and_go(branch, store, row + 1))
}

// Stores a number in register P1, where P3 is 0.
fn store_if(store: &mut Store, x: Row, value: u64) -> Result<(), Refusal>
    requires { HasRoom (cells_in store.old) store.old.limit store.old.map × Operand value }
    ensures { Changes (λ limit cs ds a r. Puts limit cs ds a r (store_if (is_zero_int (int_of x.p3)) limit (int_of x.p1) (int_of value))) store.old store.new result }
{
    if x.p3 == intmap::ZERO {
        return store.store_plain(intmap::Class::Registers, x.p1, state::int(value));
    }
    Ok(())
}

// If, where the number w is known: 0 goes on, another branches.
fn if_known(store: &mut Store, row: u64, x: Row, w: u64) -> Result<Ways, Refusal>
    requires { ReadyStore store.old row }
    ensures { LeavesStore store.old store.new result × IfArm store.old.limit (cells_in store.old) (cells_in store.new) (at row store.old.map) x (Some (int_of w)) result }
{
    if w == intmap::ZERO {
        store_if(store, x, intmap::ZERO)?;
        return Ok(go_on(store, row + 1));
    }
    store_if(store, x, ONE)?;
    Ok(branch_at(store, x.p2))
}

// If, where no number is known: both ways.
fn if_both(store: &mut Store, row: u64, x: Row) -> Result<Ways, Refusal>
    requires { ReadyStore store.old row }
    ensures { LeavesStore store.old store.new result × IfArm store.old.limit (cells_in store.old) (cells_in store.new) (at row store.old.map) x None result }
{
    let branch = |s: &mut Store| store_if(s, x, ONE);
    let stays = |s: &mut Store| store_if(s, x, intmap::ZERO);
    both_ways(store, row, x.p2, branch, stays)
}

// If
pub fn if_(store: &mut Store, row: u64, x: Row) -> Result<Ways, Refusal>
    requires { ReadyStore store.old row }
    ensures { LeavesStore store.old store.new result × JumpArm store.old.limit (cells_in store.old) (cells_in store.new) (at row store.old.map) x op_if result }
{
    match known_int(store, x.p1)? {
        None => if_both(store, row, x),
        Some(w) => if_known(store, row, x, w),
    }
}

// What IsNull and NotNull ask of a register: whether it may be null, and whether its kind is not Null.
#[derive(Clone, Copy)]
pub struct Asked {
    pub null: bool,
    pub kind: bool,
}

// Asks register i.
fn ask(store: &Store, i: u64) -> Result<Asked, Refusal>
    requires { IsHeld store.now }
    ensures { Asks (cells_in store.now) store.now.map i result }
{
    match store.read_register(i)? {
        None => Ok(Asked {
            null: false,
            kind: false,
        }),
        Some(Register::Single(d, nullable)) => Ok(Asked {
            null: nullable != Some(false),
            kind: !matches!(d, DataType::Null),
        }),
        Some(Register::Record(_)) => Ok(Asked {
            null: true,
            kind: false,
        }),
        Some(Register::Int(_)) => Ok(Asked {
            null: false,
            kind: true,
        }),
    }
}

// Stores a plain column in register i, within the map's room alone.
pub fn put_single(
    store: &mut Store,
    i: u64,
    d: DataType,
    nullable: Option<bool>,
) -> Result<(), Refusal>
    requires { HasRoom (cells_in store.old) store.old.limit store.old.map × IsHeld store.old }
    ensures { Changes (λ limit cs ds a r. Puts limit cs ds a r (store_register limit (int_of i) (Column (Single d nullable)))) store.old store.new result }
{
    store.store_plain(intmap::Class::Registers, i, state::single(d, nullable))
}

// Register i at its default, if it is there. The store refuses nothing that the read did not, since a plain column is never larger.
fn put_default(store: &mut Store, i: u64) -> Result<(), Refusal>
    requires { HasRoom (cells_in store.old) store.old.limit store.old.map × IsHeld store.old }
    ensures { Changes (λ limit cs ds a r. Puts limit cs ds a r (update_register (int_of i) to_default)) store.old store.new result }
{
    match store.read_register(i)? {
        None => Ok(()),
        Some(_) => put_single(store, i, DataType::Null, None),
    }
}

// Register i never null, if it is a plain column; another stays as it is. `halt_if_null` of register_arms has the same match, but stores by
// `store_single`, which may write behind the map's room: where both ways are taken, the other state stands there.
fn put_never(store: &mut Store, i: u64) -> Result<(), Refusal>
    requires { HasRoom (cells_in store.old) store.old.limit store.old.map × IsHeld store.old }
    ensures { Changes (λ limit cs ds a r. Puts limit cs ds a r (update_register (int_of i) to_not_null)) store.old store.new result }
{
    match store.read_register(i)? {
        None => Ok(()),
        Some(Register::Single(d, _)) => put_single(store, i, d, Some(false)),
        Some(Register::Record(_)) => Ok(()),
        Some(Register::Int(_)) => Ok(()),
    }
}

// Register i at its default if it is null, else never null.
fn put_changed(store: &mut Store, i: u64, null: bool) -> Result<(), Refusal>
    requires { HasRoom (cells_in store.old) store.old.limit store.old.map × IsHeld store.old }
    ensures { Changes (λ limit cs ds a r. Puts limit cs ds a r (update_register (int_of i) (changed null))) store.old store.new result }
{
    if null {
        return put_default(store, i);
    }
    put_never(store, i)
}

// IsNull and NotNull where both ways are taken. `null` says whether the register is null at the branch.
fn change_both(store: &mut Store, row: u64, x: Row, null: bool) -> Result<Ways, Refusal>
    requires { ReadyStore store.old row }
    ensures { LeavesStore store.old store.new result × BothArm store.old.limit (cells_in store.old) (cells_in store.new) (at row store.old.map) x (update_register (int_of x.p1) (changed null)) (update_register (int_of x.p1) (changed (not null))) result }
{
    let branch = |s: &mut Store| put_changed(s, x.p1, null);
    let stays = |s: &mut Store| put_changed(s, x.p1, !null);
    both_ways(store, row, x.p2, branch, stays)
}

// IsNull
pub fn is_null(store: &mut Store, row: u64, x: Row) -> Result<Ways, Refusal>
    requires { ReadyStore store.old row }
    ensures { LeavesStore store.old store.new result × JumpArm store.old.limit (cells_in store.old) (cells_in store.new) (at row store.old.map) x op_is_null result }
{
    let ends = Ways::default();
    let asked = ask(store, x.p1)?;
    if asked.null {
        return change_both(store, row, x, true);
    }
    Ok(ends)
}

// NotNull
pub fn not_null(store: &mut Store, row: u64, x: Row) -> Result<Ways, Refusal>
    requires { ReadyStore store.old row }
    ensures { LeavesStore store.old store.new result × JumpArm store.old.limit (cells_in store.old) (cells_in store.new) (at row store.old.map) x op_not_null result }
{
    let asked = ask(store, x.p1)?;
    if asked.null {
        if asked.kind {
            return change_both(store, row, x, false);
        }
        put_default(store, x.p1)?;
        return Ok(go_on(store, row + 1));
    }
    if asked.kind {
        put_never(store, x.p1)?;
        return Ok(branch_at(store, x.p2));
    }
    Ok(Ways::default())
}
