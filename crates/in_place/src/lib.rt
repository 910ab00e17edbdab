// Rows whose arm writes over cells where they stand, and offers no branch: the arms of `explain` once more, in words and with few tests. What is
// not done so is left to `explain::handle`. Translated from sqlx-sqlite 0.9.0, src/connection/explain.rs.
#![tactic(auto)]

ghost use Rattle.std.specs.Prelude.{◌≡◌, ℕ, ◌+◌, ◌<◌, ◌≤◌};
ghost use Rattle.model.specs.RegisterArms.{copy_to};
ghost use Rattle.model.specs.Operation.{op_arithmetic, op_halt_if_null, op_null, op_copy, op_column};
ghost use Rattle.area.specs.Cells.{cells};
ghost use Rattle.intmap.specs.Signed.{int_of};
ghost use Rattle.rows.specs.Parts.{Operand};
ghost use Rattle.state.specs.Own.{HeldAmong, LeadsNear};
ghost use Rattle.in_place.specs.InPlace.{ArmNear, RegisterNear, TableNear, ColumnNear, CursorNear, ReadyAt, WithinListing, JumpNear, HandlesNear};

use opcode::Operation;
use state::Register;
use type_info::DataType;

// Register j becomes what register i holds.
fn copy(area: &mut [u8], base: usize, end: usize, i: u64, j: u64) -> bool
    requires { HeldAmong (cells area.old) base end }
    ensures { LeadsNear (cells area.old) (cells area.new) base end (λ limit. copy_to limit (int_of i) (int_of j) (λ v. v)) result }
{
    let Some(p) = state::register_near(area, base, end, i) else {
        return false;
    };
    let c = area::cell_at(area, p);
    if intmap::tag_of(c) == intmap::RECORD {
        return false;
    }
    state::write_near(area, base, end, j, c.head, c.payload)
}

// Copy, where it copies one register.
fn copy_one(area: &mut [u8], base: usize, end: usize, i: u64, j: u64, k: u64) -> bool
    requires { HeldAmong (cells area.old) base end }
    ensures { ArmNear (cells area.old) (cells area.new) base end i j k op_copy result }
{
    if k != intmap::ZERO {
        return false;
    }
    copy(area, base, end, i, j)
}

// The operations on two operands.
fn arithmetic(area: &mut [u8], base: usize, end: usize, i: u64, j: u64, k: u64) -> bool
    requires { HeldAmong (cells area.old) base end }
    ensures { ArmNear (cells area.old) (cells area.new) base end i j k op_arithmetic result }
{
    let Some(p) = state::register_near(area, base, end, i) else {
        return false;
    };
    let Some(q) = state::register_near(area, base, end, j) else {
        return false;
    };
    let a = state::register_in(area::cell_at(area, p), p);
    let b = state::register_in(area::cell_at(area, q), q);
    let d = register_arms::first_datatype(
        register_arms::map_to_datatype(Some(a)),
        register_arms::map_to_datatype(Some(b)),
    );
    state::single_near(
        area,
        base,
        end,
        k,
        d,
        register_arms::operands_nullable(Some(a), Some(b)),
    )
}

// HaltIfNull
fn halt_if_null(area: &mut [u8], base: usize, end: usize, k: u64) -> bool
    requires { HeldAmong (cells area.old) base end }
    ensures { (i j : ℕ) → ArmNear (cells area.old) (cells area.new) base end i j k op_halt_if_null result }
{
    let Some(p) = state::register_near(area, base, end, k) else {
        return false;
    };
    let v = state::register_in(area::cell_at(area, p), p);
    match v {
        Register::Single(d, _) => state::single_near(area, base, end, k, d, Some(false)),
        Register::Record(_) => true,
        Register::Int(_) => true,
    }
}

// Null, where it writes one register.
fn null(area: &mut [u8], base: usize, end: usize, j: u64, k: u64) -> bool
    requires { HeldAmong (cells area.old) base end }
    ensures { (i : ℕ) → ArmNear (cells area.old) (cells area.new) base end i j k op_null result }
{
    if j < k {
        return false;
    }
    state::single_near(area, base, end, j, DataType::Null, Some(true))
}

// The arms that write registers, by P1, P2 and P3.
fn register(area: &mut [u8], base: usize, end: usize, op: Operation, i: u64, j: u64, k: u64) -> bool
    requires { HeldAmong (cells area.old) base end × Operand i }
    ensures { RegisterNear (cells area.old) (cells area.new) base end op i j k result }
{
    match op {
        Operation::Variable => {
            state::single_near(area, base, end, j, DataType::Null, Some(true))
        }
        Operation::HaltIfNull => halt_if_null(area, base, end, k),
        Operation::CopyOne => copy(area, base, end, i, j),
        Operation::Copy => copy_one(area, base, end, i, j, k),
        Operation::Integer => state::int_near(area, base, end, j, i),
        Operation::Null => null(area, base, end, j, k),
        Operation::Arithmetic => arithmetic(area, base, end, i, j, k),
        Operation::ConstantInteger
        | Operation::ConstantFloat
        | Operation::ConstantText
        | Operation::ConstantBlob => {
            state::single_near(area, base, end, j, opcode::opcode_to_type(op), Some(false))
        }
        _ => false,
    }
}

// Where the head of the table is that cursor i is on, if both are among the last entries.
fn table(area: &[u8], base: usize, end: usize, i: u64) -> Option<usize>
    requires { HeldAmong (cells area.now) base end }
    ensures { TableNear (cells area.now) base end i result }
{
    let k = intmap::judge_index(i).ok()?;
    let p = state::last_near(area, base, end, intmap::Class::Cursors, k)?;
    let c = area::cell_at(area, p);
    if intmap::tag_of(c) != intmap::NORMAL {
        return None;
    }
    let q = state::last_near(area, base, end, intmap::Class::Tables, c.payload % 65536)?;
    if intmap::tag_of(area::cell_at(area, q)) != intmap::RECORD {
        return None;
    }
    Some(q)
}

// Stores the column of a key, in a table of columns of one cell each whose head is at p, over register j's own cell.
fn column_at(area: &mut [u8], base: usize, end: usize, p: usize, key: u64, j: u64) -> bool
    requires { HeldAmong (cells area.old) base end × (base ≤ p) × (p < end) × (key ≤ 65535) }
    ensures { ColumnNear (cells area.old) (cells area.new) base end p key j result }
{
    let head = area::cell_at(area, p);
    if head.payload <= key {
        return false;
    }
    if !state::flat_before(area, end, p, head.payload) {
        return false;
    }
    let c = area::cell_at(area, p + 1 + key as usize);
    if intmap::tag_of(c) == intmap::RECORD {
        return false;
    }
    if !intmap::has_key(c, key) {
        return false;
    }
    state::write_near(area, base, end, j, c.head, c.payload)
}

// Column, of a cursor on a table. Where register P3 is not there, it is given up at once.
fn column(area: &mut [u8], base: usize, end: usize, i: u64, j: u64, k: u64) -> bool
    requires { HeldAmong (cells area.old) base end }
    ensures { CursorNear (cells area.old) (cells area.new) base end i j k op_column result }
{
    let Ok(key) = intmap::judge_index(j) else {
        return false;
    };
    if state::register_near(area, base, end, k).is_none() {
        return false;
    }
    let Some(p) = table(area, base, end, i) else {
        return false;
    };
    column_at(area, base, end, p, key, k)
}

// A row, if it is one of the listing's.
fn listed(row: u64, n: usize) -> Option<u64>
    ensures { WithinListing row n result }
{
    if row < intmap::ZERO {
        return None;
    }
    (row - intmap::ZERO < n as u64).then_some(row)
}

// The arms that name the next row, by P1, P2 and P3: where they go, if they are met.
fn jump(
    area: &mut [u8],
    at: u64,
    base: usize,
    end: usize,
    op: Operation,
    i: u64,
    j: u64,
    k: u64,
    n: usize,
) -> Option<u64>
    requires { ReadyAt (cells area.old) at base end op i j k }
    ensures { JumpNear (cells area.old) (cells area.new) at base end op i j k n result }
{
    match op {
        Operation::Goto => listed(j, n),
        Operation::Gosub => {
            let next = listed(j, n)?;
            state::int_near(area, base, end, i, at).then_some(next)
        }
        Operation::InitCoroutine => {
            let next = listed(jump_arms::init_coroutine_to(at, j), n)?;
            state::int_near(area, base, end, i, k).then_some(next)
        }
        _ => None,
    }
}

// Handles the row of this operation and these operands, at the state that stands on `at` and whose map is from `base` on and before `end`: the row of
// the listing's n that it goes on to, if it is handled so. The map is as it was.
pub fn next_row(
    area: &mut [u8],
    at: u64,
    base: usize,
    end: usize,
    op: Operation,
    i: u64,
    j: u64,
    k: u64,
    n: usize,
) -> Option<u64>
    requires { ReadyAt (cells area.old) at base end op i j k }
    ensures { HandlesNear (cells area.old) (cells area.new) at base end op i j k n result }
{
    // By ranges of their order: a match on the operation makes a table here, which is slower than the few comparisons.
    if op == Operation::Other {
        return listed(at + 1, n);
    }
    if op < Operation::IfPos {
        return jump(area, at, base, end, op, i, j, k, n);
    }
    let next = listed(at + 1, n)?;
    if op < Operation::Column {
        return register(area, base, end, op, i, j, k).then_some(next);
    }
    if op != Operation::Column {
        return None;
    }
    column(area, base, end, i, j, k).then_some(next)
}
