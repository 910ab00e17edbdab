// The arms of `explain` that write registers, each on the state's map in the area.
// Translated from sqlx-sqlite 0.9.0, src/connection/explain.rs: OP_INTEGER, the constants, OP_VARIABLE, OP_FUNCTION, the operations on
// two operands, OP_AGG_STEP, OP_AGG_FINAL, OP_NULL, OP_CAST and OP_HALT_IF_NULL, with `map_to_datatype` and `map_to_nullable`.
#![tactic(auto)]

ghost use Rattle.std.specs.Prelude.{◌≡◌, ◌+◌, ◌%◌, ◌<◌, ◌≤◌, get_or, None, Some};
ghost use Rattle.model.specs.Functions.{by_p2, is_nullable, sum_datatype};
ghost use Rattle.model.specs.RegisterArms.{summed, from_other_row, copy_to, null_many};
ghost use Rattle.model.specs.State.{first_datatype, either_nullable};
ghost use Rattle.model.specs.Operation.{op_integer, op_constant, op_variable, op_function, op_arithmetic, op_agg_step, op_agg_final, op_null, op_cast, op_halt_if_null};
ghost use Rattle.area.specs.Cells.{cells};
ghost use Rattle.intmap.specs.Signed.{int_of};
ghost use Rattle.state.specs.Leads.{Current, Leads};
ghost use Rattle.state.specs.Arms.{RegisterArm};
ghost use Rattle.state.specs.Stores.{IsCurrent, Changes, Writes};
ghost use Rattle.register_arms.specs.Nulls.{NullsRun};
ghost use Rattle.register_arms.specs.Values.{IsDatatype, IsNullable, AreNullable, Makes};

use intmap::{Class, IntMap};
use opcode::{Aggregate, FunctionValue};
use refusal::Refusal;
use rows::Row;
use state::{Register, Store};
use type_info::DataType;

// Integer: the number P1 in register P2.
pub fn integer(store: &mut Store, x: Row) -> Result<(), Refusal>
    requires { IsCurrent store.old }
    ensures { Changes (λ limit cs ds a r. RegisterArm limit cs ds a x op_integer r) store.old store.new result }
{
    store.store_int(x.p2, x.p1)
}

// The operations that store a value of a known kind in register P2.
pub fn constant(store: &mut Store, x: Row, d: DataType) -> Result<(), Refusal>
    requires { IsCurrent store.old }
    ensures { Changes (λ limit cs ds a r. RegisterArm limit cs ds a x (op_constant d) r) store.old store.new result }
{
    store.store_single(x.p2, d, Some(false))
}

// Variable: a parameter may be null, and its kind is not known.
pub fn variable(store: &mut Store, x: Row) -> Result<(), Refusal>
    requires { IsCurrent store.old }
    ensures { Changes (λ limit cs ds a r. RegisterArm limit cs ds a x op_variable r) store.old store.new result }
{
    store.store_single(x.p2, DataType::Null, Some(true))
}

// Without arguments, where P2 is 0, the value is never null.
fn nullable_by(p2: u64) -> Option<bool>
    ensures { result ≡ Some (is_nullable by_p2 (int_of p2)) }
{
    Some(p2 != intmap::ZERO)
}

// Function: the value of a built-in function in register P3; an unknown function changes nothing.
pub fn function(store: &mut Store, x: Row) -> Result<(), Refusal>
    requires { IsCurrent store.old }
    ensures { Changes (λ limit cs ds a r. RegisterArm limit cs ds a x op_function r) store.old store.new result }
{
    let p4 = x.read_p4().ok_or(Refusal::NotUtf8)?;
    let Some(value) = p4.function else {
        return Ok(());
    };
    match value {
        FunctionValue::Rowid => { store.store_single(x.p3, DataType::Integer, Some(false)) }
        FunctionValue::Text => { store.store_single(x.p3, DataType::Text, nullable_by(x.p2)) }
        FunctionValue::Days => { store.store_single(x.p3, DataType::Float, nullable_by(x.p2)) }
        FunctionValue::Seconds => { store.store_single(x.p3, DataType::Integer, nullable_by(x.p2)) }
    }
}

// The kind of what a register holds: nothing and a record have none, and a known number is an integer.
pub fn map_to_datatype(r: Option<Register>) -> DataType
    ensures { IsDatatype r result }
{
    let Some(held) = r else {
        return DataType::Null;
    };
    match held {
        Register::Single(d, _) => d,
        Register::Record(_) => DataType::Null,
        Register::Int(_) => DataType::Integer,
    }
}

// Whether what a register holds is nullable: of nothing and of a record that is not known, and a known number is not null.
pub fn map_to_nullable(r: Option<Register>) -> Option<bool>
    ensures { IsNullable r result }
{
    match r? {
        Register::Single(_, nullable) => nullable,
        Register::Record(_) => None,
        Register::Int(_) => Some(false),
    }
}

// The first of two kinds, unless it is Null.
pub fn first_datatype(a: DataType, b: DataType) -> DataType
    ensures { result ≡ first_datatype a b }
{
    match a {
        DataType::Null => b,
        _ => a,
    }
}

// Nullable if one is; what is not known says nothing, and is the least.
fn either_nullable(a: Option<bool>, b: Option<bool>) -> Option<bool>
    ensures { result ≡ either_nullable a b }
{
    a.max(b)
}

// Two operands: where one is absent, nothing is known of the other.
pub fn operands_nullable(a: Option<Register>, b: Option<Register>) -> Option<bool>
    ensures { AreNullable a b result }
{
    if a.is_none() {
        return None;
    }
    if b.is_none() {
        return None;
    }
    either_nullable(map_to_nullable(a), map_to_nullable(b))
}

// The operations on two operands: the kind of the first, unless it is Null, in register P3.
pub fn arithmetic(store: &mut Store, x: Row) -> Result<(), Refusal>
    requires { IsCurrent store.old }
    ensures { Changes (λ limit cs ds a r. RegisterArm limit cs ds a x op_arithmetic r) store.old store.new result }
{
    let a = store.read_register(x.p1)?;
    let b = store.read_register(x.p2)?;
    let d = first_datatype(map_to_datatype(a), map_to_datatype(b));
    store.store_single(x.p3, d, operands_nullable(a, b))
}

// The kind of a sum.
fn sum_datatype(d: DataType) -> DataType
    ensures { result ≡ sum_datatype d }
{
    match d {
        DataType::Null => DataType::Float,
        DataType::Integer => DataType::Integer,
        DataType::Float => DataType::Float,
        DataType::Text => DataType::Float,
        DataType::Blob => DataType::Float,
        DataType::Numeric => DataType::Float,
        DataType::Bool => DataType::Integer,
        DataType::Int4 => DataType::Integer,
        DataType::Date => DataType::Float,
        DataType::Time => DataType::Float,
        DataType::Datetime => DataType::Float,
    }
}

// What `f` makes of what register `from` holds, as a plain column in register `to`, if there is something.
fn copy_to<F: FnOnce(Register) -> (DataType, Option<bool>)>(
    store: &mut Store,
    from: u64,
    to: u64,
    f: F,
) -> Result<(), Refusal>
    requires { IsCurrent store.old × F.IsAlwaysCallable f }
    ensures { (g : _) → Makes (F.post f) g → Changes (λ limit cs ds a r. Leads limit cs ds a r (copy_to limit (int_of from) (int_of to) g)) store.old store.new result }
{
    let Some(held) = store.read_register(from)? else {
        return Ok(());
    };
    let (d, nullable) = f(held);
    store.store_single(to, d, nullable)
}

// The sum of register `from` in register `to`, if there is an operand.
fn sum(store: &mut Store, from: u64, to: u64) -> Result<(), Refusal>
    requires { IsCurrent store.old }
    ensures { Changes (λ limit cs ds a r. Leads limit cs ds a r (copy_to limit (int_of from) (int_of to) summed)) store.old store.new result }
{
    let summed = |held: Register| {
        let d = sum_datatype(map_to_datatype(Some(held)));
        (d, map_to_nullable(Some(held)))
    };
    copy_to(store, from, to, summed)
}

// The kind of register `from` in register `to`: another row's value is null where there is no such row.
fn other_row(store: &mut Store, from: u64, to: u64) -> Result<(), Refusal>
    requires { IsCurrent store.old }
    ensures { Changes (λ limit cs ds a r. Leads limit cs ds a r (copy_to limit (int_of from) (int_of to) from_other_row)) store.old store.new result }
{
    let nullable = |held: Register| (map_to_datatype(Some(held)), Some(true));
    copy_to(store, from, to, nullable)
}

// AggStep and AggValue: what the aggregate gives in register P3. An operand may be a record.
pub fn agg_step(store: &mut Store, x: Row) -> Result<(), Refusal>
    requires { IsCurrent store.old }
    ensures { Changes (λ limit cs ds a r. RegisterArm limit cs ds a x op_agg_step r) store.old store.new result }
{
    let p4 = x.read_p4().ok_or(Refusal::NotUtf8)?;
    match p4.aggregate {
        Aggregate::Integer => { store.store_single(x.p3, DataType::Integer, Some(false)) }
        Aggregate::Real => { store.store_single(x.p3, DataType::Float, Some(false)) }
        Aggregate::Sum => sum(store, x.p2, x.p3),
        Aggregate::OtherRow => other_row(store, x.p2, x.p3),
        Aggregate::Operand => copy_arms::copy_register(store, x.p2, x.p3),
    }
}

// AggFinal: an integer goes to register P1, a real to register P3; a sum and an operand stay as they are.
pub fn agg_final(store: &mut Store, x: Row) -> Result<(), Refusal>
    requires { IsCurrent store.old }
    ensures { Changes (λ limit cs ds a r. RegisterArm limit cs ds a x op_agg_final r) store.old store.new result }
{
    let p4 = x.read_p4().ok_or(Refusal::NotUtf8)?;
    match p4.aggregate {
        Aggregate::Integer => { store.store_single(x.p1, DataType::Integer, Some(false)) }
        Aggregate::Real => { store.store_single(x.p3, DataType::Float, Some(false)) }
        Aggregate::OtherRow => other_row(store, x.p2, x.p3),
        Aggregate::Sum | Aggregate::Operand => Ok(()),
    }
}

// Null in the registers from `from` on where they stand side by side as plain cells from p on, at most n. Gives how many. Over the words of the map:
// read of the store at each turn they were never faster, and slower by the place of the code. `from` and n here and below are no `Registers`: those
// are judged at once, and these one by one, since the ones before an index that is refused are made null.
fn null_run(map: IntMap, area: &mut [u8], p: usize, from: u64, n: u64, limit: usize) -> u64
    requires { Current limit (cells area.old) map × (map.base ≤ p) × (p ≤ map.base + map.used) × (from + n < 18446744073709551616) }
    ensures { NullsRun limit (cells area.old) (cells area.new) map from n result }
{
    let c = state::single(DataType::Null, Some(true));
    for done in 0..n {
        if !state::overwrite(map, area, p + done as usize, from + done, c) {
            return done;
        }
    }
    n
}

// The same from where the first of them is, if it is there.
fn null_first(store: &mut Store, from: u64, n: u64) -> u64
    requires { IsCurrent store.old × (from + n < 18446744073709551616) }
    ensures { Writes (λ cs ds a. NullsRun store.old.limit cs ds a from n result) store.old store.new }
{
    let Ok(Some(p)) = store.get(Class::Registers, from) else {
        return 0;
    };
    null_run(store.map, store.area, p, from, n, store.limit)
}

// Null in n registers from `from` on, first those that stand side by side; a refusal ends it. Each turn leaves one more register of the range
// present, which is at least a cell, so that the turns are at most one more than the limit, however many n are.
fn null_many(store: &mut Store, from: u64, n: u64) -> Result<(), Refusal>
    requires { IsCurrent store.old × (from + n < 18446744073709551616) }
    ensures { Changes (λ limit cs ds a r. Leads limit cs ds a r (null_many limit n (int_of from))) store.old store.new result }
{
    let map = store.map;
    let first = null_first(store, from, n);
    for i in from + first..from + n {
        if let Err(refusal) = store.store_single(i, DataType::Null, Some(true)) {
            store.map = map;
            return Err(refusal);
        }
    }
    Ok(())
}

// Null: null in the registers from P2 to P3, or in P2 alone.
pub fn null(store: &mut Store, x: Row) -> Result<(), Refusal>
    requires { IsCurrent store.old }
    ensures { Changes (λ limit cs ds a r. RegisterArm limit cs ds a x op_null r) store.old store.new result }
{
    if x.p2 < x.p3 {
        return null_many(store, x.p2, x.p3 - x.p2 + 1);
    }
    null_many(store, x.p2, 1)
}

// The low byte of the number that the word stands for: the offset is a multiple of 256.
fn low_byte(w: u64) -> u8
    ensures { result ≡ w % 256 }
{
    (w % 256) as u8
}

// Cast: the kind of the affinity in P2's low byte in register P1, if something is there; whether it is null stays.
pub fn cast(store: &mut Store, x: Row) -> Result<(), Refusal>
    requires { IsCurrent store.old }
    ensures { Changes (λ limit cs ds a r. RegisterArm limit cs ds a x op_cast r) store.old store.new result }
{
    let d = opcode::affinity_to_type(low_byte(x.p2));
    let cast = |held: Register| (d, map_to_nullable(Some(held)));
    copy_to(store, x.p1, x.p1, cast)
}

// HaltIfNull: behind it a plain column in register P3 is not null; what else is there stays.
pub fn halt_if_null(store: &mut Store, x: Row) -> Result<(), Refusal>
    requires { IsCurrent store.old }
    ensures { Changes (λ limit cs ds a r. RegisterArm limit cs ds a x op_halt_if_null r) store.old store.new result }
{
    match store.read_register(x.p3)? {
        None => Ok(()),
        Some(Register::Single(d, _)) => { store.store_single(x.p3, d, Some(false)) }
        Some(Register::Record(_)) => Ok(()),
        Some(Register::Int(_)) => Ok(()),
    }
}
