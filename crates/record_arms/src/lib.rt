// Registers one after the other as columns, and the arm of `explain` that makes a record of them, OP_MAKE_RECORD. Translated from sqlx-sqlite
// 0.9.0, src/connection/explain.rs. No number of registers, however large, makes more turns than there are entries and cells in a state.
#![tactic(auto)]

ghost use Rattle.std.specs.Prelude.{◌≡◌, true, ℕ, ◌+◌, ◌<◌, ◌≤◌, length, get_or};
ghost use Rattle.model.specs.Operation.{op_make_record};
ghost use Rattle.area.specs.Cells.{blank, cells};
ghost use Rattle.intmap.specs.Map.{levels, runs_at, IsMap};
ghost use Rattle.intmap.specs.Pack.{class_key};
ghost use Rattle.intmap.specs.Runs.{IsColumn};
ghost use Rattle.intmap.specs.Signed.{int_of};
ghost use Rattle.encoding.specs.Heads.{as_column};
ghost use Rattle.state.specs.Leads.{Leads};
ghost use Rattle.state.specs.Arms.{RegisterArm};
ghost use Rattle.state.specs.Stores.{cells_in, IsHeld, IsCurrent, Changes, Writes};
ghost use Rattle.record_arms.specs.Records.{JudgesRange, deep_at, any_deep, Flat, Puttable, PutsColumn, PutsColumns, BuildsRecord, record_from};
ghost use Rattle.record_arms.specs.Over.{TellsSideBySide, Apart, PutsRegisters, PutsRecord, RecordOver};

use area::Cell;
use intmap::IntMap;
use refusal::Refusal;
use rows::Row;
use state::{Registers, Store};
use type_info::DataType;

// Where a column goes, and the entries that its register is looked for among: `left` of them from `at` on.
#[derive(Clone, Copy)]
struct Progress {
    to: usize,
    at: usize,
    left: u64,
}

// Judges the indexes of n registers from i on, in their order. Where none is read, none is judged.
pub fn judge_range(i: u64, n: u64) -> Result<Registers, Refusal>
    ensures { JudgesRange i n result }
{
    if n == 0 {
        return Ok(Registers { first: 0, count: 0 });
    }
    let first = intmap::judge_index(i)?;
    if 65536 - first < n {
        return Err(Refusal::IndexTooLarge);
    }
    Ok(Registers { first, count: n })
}

// Whether the entry at `at`, of which c is the first cell, has a key from `first` on, and a record in it would nest too deep within another.
fn is_deep(area: &[u8], at: usize, c: Cell, first: u64) -> bool
    requires { IsColumn (cells area.now) levels at × (c ≡ get_or (cells area.now) at blank) }
    ensures { result ≡ deep_at (cells area.now) first at }
{
    if intmap::tag_of(c) != intmap::RECORD {
        return false;
    }
    let k = intmap::key_of(c);
    if k < first {
        return false;
    }
    7 < intmap::depth_of(area, at, intmap::LEVELS)
}

// Whether a record of the entries with keys from `first` on and below `end` nests too deep. Those from `end` on are not looked at.
fn any_deep(store: &Store, first: u64, end: u64) -> bool
    requires { IsMap (cells_in store.now) store.now.map }
    ensures { result ≡ any_deep (cells_in store.now) first end store.now.map.len store.now.map.base }
{
    let mut at = store.map.base;
    for _passed in 0..store.map.len {
        let c = store.cell_at(at);
        let k = intmap::key_of(c);
        if end <= k {
            return false;
        }
        if is_deep(store.area, at, c, first) {
            return true;
        }
        at += intmap::count_from(store.area, at, c, intmap::LEVELS);
    }
    false
}

// Whether a record of these registers nests too deep.
fn too_deep(store: &Store, registers: Registers) -> bool
    requires { IsMap (cells_in store.now) store.now.map }
    ensures { result ≡ any_deep (cells_in store.now) (class_key 0 registers.first) (class_key 0 (registers.first + registers.count)) store.now.map.len store.now.map.base }
{
    let first = intmap::class_key(intmap::Class::Registers, 0) + registers.first;
    any_deep(store, first, first + registers.count)
}

// A register's head as that of a column: a known number is an Integer that is never null.
fn map_to_columntype(c: Cell) -> Cell
    ensures { result ≡ as_column c }
{
    if intmap::tag_of(c) == intmap::INT {
        return state::single(DataType::Integer, Some(false));
    }
    c
}

// Puts the column of register k under a key, unless it would end behind `end`. An absent register's is the default. The answer is where the next
// column goes, with the entries that its register is among.
fn put_column(area: &mut [u8], from: Progress, k: u64, key: u64, end: usize) -> Option<Progress>
    requires { Puttable (cells area.old) from.at from.left k from.to end × (k ≤ 65535) × (key ≤ 65535) }
    ensures { PutsColumn (cells area.old) (cells area.new) from.at from.left k key from.to end result }
{
    let its = intmap::class_key(intmap::Class::Registers, k);
    let to = from.to;
    match intmap::find_from(area, from.at, from.left, its, intmap::LEVELS) {
        Ok(place) => {
            let p = place.at;
            let c = area::cell_at(area, p);
            let n = intmap::count_from(area, p, c, intmap::LEVELS);
            if end < to + n {
                return None;
            }
            area::move_cells(area, p, to, n);
            let x = map_to_columntype(c);
            area::put_cell(area, to, intmap::with_key(x, key));
            Some(Progress {
                to: to + n,
                at: p + n,
                left: place.left - 1,
            })
        }
        Err(place) => {
            if end <= to {
                return None;
            }
            let c = state::single(DataType::Null, None);
            area::put_cell(area, to, intmap::with_key(c, key));
            Some(Progress {
                to: to + 1,
                at: place.at,
                left: place.left,
            })
        }
    }
}

// Puts the columns of the registers at `low`, one after the other, unless they would end behind `end`. Entries are passed once. Over the map and the
// area: it reads two words of the map, once, and a loop like it, `carry_cells` of copy_arms, was slower over a `Store`; here that is not tried.
fn put_columns(
    map: IntMap,
    area: &mut [u8],
    registers: Registers,
    low: usize,
    end: usize,
) -> Option<usize>
    requires { IsMap (cells area.old) map × (map.base + map.used ≤ low) × (low ≤ end) × (end ≤ length (cells area.old)) × ((k : ℕ) → registers.first ≤ k → k < registers.first + registers.count → Flat k (runs_at (cells area.old) map)) }
    ensures { PutsColumns (cells area.old) (cells area.new) (runs_at (cells area.old) map) registers.first registers.count low end result }
{
    let mut from = Progress {
        to: low,
        at: map.base,
        left: map.len,
    };
    for k in 0..registers.count {
        from = put_column(area, from, registers.first + k, k, end)?;
    }
    Some(from.to)
}

// Builds the record of the registers at the beginning of the room behind the map, unless it takes more than `limit` cells.
fn build_record(store: &mut Store, registers: Registers) -> Option<usize>
    requires { IsCurrent store.old × (0 < store.old.limit) × ((k : ℕ) → registers.first ≤ k → k < registers.first + registers.count → Flat k (runs_at (cells_in store.old) store.old.map)) }
    ensures { Writes (λ cs ds a. BuildsRecord cs ds a registers.first registers.count store.old.limit result) store.old store.new }
{
    let map = store.map;
    let p = map.base + store.limit;
    let end = p + store.limit;
    let _ = put_columns(map, store.area, registers, p + 1, end)?;
    store.put_cell(p, state::columns_head(registers.count, None));
    Some(p)
}

// Whether the cells from p on, before `end`, are the registers, and none is a record's.
fn side_by_side(area: &[u8], end: usize, p: usize, registers: Registers) -> bool
    requires { (p ≤ end) × (end ≤ length (cells area.now)) × (length (cells area.now) ≤ 1048576) }
    ensures { TellsSideBySide (cells area.now) end p registers.first registers.count result }
{
    if ((end - p) as u64) < registers.count {
        return false;
    }
    for d in 0..registers.count {
        let c = area::cell_at(area, p + d as usize);
        if !intmap::has_key(
            c,
            intmap::class_key(intmap::Class::Registers, registers.first + d),
        ) {
            return false;
        }
        if intmap::tag_of(c) == intmap::RECORD {
            return false;
        }
    }
    true
}

// Puts the n registers from p on as columns over the cells from q on, which are others, under the keys 0 to n - 1.
fn put_over(area: &mut [u8], p: usize, q: usize, n: u64)
    requires { (p + n ≤ length (cells area.old)) × (q + n ≤ length (cells area.old)) × (length (cells area.old) ≤ 1048576) × Apart p q n }
    ensures { PutsRegisters (cells area.old) (cells area.new) p q n }
{
    for d in 0..n {
        let c = map_to_columntype(area::cell_at(area, p + d as usize));
        area::put_cell(area, q + d as usize, intmap::with_key(c, d));
    }
}

// Whether the n cells from p on and those from q on have none in common.
fn are_apart(p: usize, q: usize, n: u64) -> bool
    requires { (p ≤ 1048576) × (q ≤ 1048576) × (n ≤ 65536) }
    ensures { result ≡ true → Apart p q n }
{
    if p + n as usize <= q {
        return true;
    }
    q + n as usize <= p
}

// Puts the record of the registers, the first of which is at p, over the record at q, if that has as many columns, of one cell each, and the
// registers stand side by side. Says whether it did.
fn put_record(area: &mut [u8], end: usize, p: usize, q: usize, registers: Registers) -> bool
    requires { (p ≤ end) × (end ≤ length (cells area.old)) × IsColumn (cells area.old) levels q }
    ensures { PutsRecord (cells area.old) (cells area.new) end p q registers.first registers.count result }
{
    let n = registers.count;
    let d = area::cell_at(area, q);
    if intmap::tag_of(d) != intmap::RECORD {
        return false;
    }
    if d.payload != n {
        return false;
    }
    if !intmap::are_plain(area, q + 1, n) {
        return false;
    }
    if !side_by_side(area, end, p, registers) {
        return false;
    }
    if !are_apart(p, q + 1, n) {
        return false;
    }
    put_over(area, p, q + 1, n);
    let head = state::columns_head(n, None);
    area::put_cell(area, q, intmap::with_key(head, intmap::key_of(d)));
    true
}

// Puts the record of the registers over the one in register i, if that can be done where they stand. Says whether it did.
fn record_over(store: &mut Store, registers: Registers, i: u64) -> bool
    requires { IsHeld store.old }
    ensures { Writes (λ cs ds a. RecordOver cs ds a registers.first registers.count i result) store.old store.new }
{
    if registers.count == 0 {
        return false;
    }
    let Ok(k) = intmap::judge_index(i) else {
        return false;
    };
    let Some(q) = store.entry_at(intmap::Class::Registers, k) else {
        return false;
    };
    let Some(p) = store.entry_at(intmap::Class::Registers, registers.first) else {
        return false;
    };
    let end = store.map.base + store.map.used;
    put_record(store.area, end, p, q, registers)
}

// Stores the record of the registers in register i. Depth is judged before anything is built, and so are more than `limit` columns.
fn store_behind(store: &mut Store, registers: Registers, i: u64) -> Result<(), Refusal>
    requires { IsCurrent store.old }
    ensures { Changes (λ limit cs ds a r. Leads limit cs ds a r (record_from limit registers.count registers.first (int_of i))) store.old store.new result }
{
    let _ = intmap::judge_index(i)?;
    if too_deep(store, registers) {
        return Err(Refusal::TooDeep);
    }
    if store.limit as u64 <= registers.count {
        return Err(Refusal::TooManyCells);
    }
    let p = build_record(store, registers).ok_or(Refusal::TooManyCells)?;
    store.store_run(intmap::Class::Registers, i, p)
}

// The same, at once where it can be put over another.
fn store_record(store: &mut Store, registers: Registers, i: u64) -> Result<(), Refusal>
    requires { IsCurrent store.old }
    ensures { Changes (λ limit cs ds a r. Leads limit cs ds a r (record_from limit registers.count registers.first (int_of i))) store.old store.new result }
{
    if record_over(store, registers, i) {
        return Ok(());
    }
    store_behind(store, registers, i)
}

// MakeRecord: register P3 becomes the record of P2 registers from P1 on.
pub fn make_record(store: &mut Store, x: Row) -> Result<(), Refusal>
    requires { IsCurrent store.old }
    ensures { Changes (λ limit cs ds a r. RegisterArm limit cs ds a x op_make_record r) store.old store.new result }
{
    if x.p2 < intmap::ZERO {
        return Err(Refusal::Negative);
    }
    let registers = judge_range(x.p1, x.p2 - intmap::ZERO)?;
    store_record(store, registers, x.p3)
}
