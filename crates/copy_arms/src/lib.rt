// The arms of `explain` that copy or move registers. Translated from sqlx-sqlite 0.9.0, src/connection/explain.rs: OP_SCOPY, OP_INT_COPY,
// OP_NOT, OP_COPY, OP_MOVE.
#![tactic(auto)]

ghost use Rattle.std.specs.Prelude.{◌≡◌, true, ◌+◌, ◌-◌, ◌<◌, ◌≤◌, get_or};
ghost use Rattle.model.specs.RegisterArms.{copy_to};
ghost use Rattle.model.specs.Operation.{op_copy_one, op_copy, op_move};
ghost use Rattle.area.specs.Cells.{blank, cells};
ghost use Rattle.intmap.specs.Map.{IsMap};
ghost use Rattle.intmap.specs.Pack.{tag_of};
ghost use Rattle.intmap.specs.Signed.{offset, int_of};
ghost use Rattle.state.specs.Leads.{Leads};
ghost use Rattle.state.specs.Arms.{RegisterArm};
ghost use Rattle.state.specs.Stores.{cells_in, IsHeld, IsCurrent, HasRun, Changes, Writes};
ghost use Rattle.copy_arms.specs.Copies.{StoresFrom, carry_one, carry_many};
ghost use Rattle.copy_arms.specs.Gaps.{Next, Gap};
ghost use Rattle.copy_arms.specs.InPlace.{Alone, FoundAt, Leading, CarriesCell, CarriesRun};

use area::Cell;
use intmap::IntMap;
use refusal::Refusal;
use rows::Row;
use state::Store;
use type_info::DataType;

// Stores the run at `at` of the map in register j, with c for its head. A cell alone is stored as it is. A store may move a longer run, so that
// goes to the room behind the map first.
fn store_behind(store: &mut Store, at: usize, c: Cell, j: u64) -> Result<(), Refusal>
    requires { IsCurrent store.old × HasRun store.old at × (tag_of c ≡ tag_of (get_or (cells_in store.old) at blank)) × (c.payload ≡ (get_or (cells_in store.old) at blank).payload) }
    ensures { Changes (λ limit cs ds a r. StoresFrom limit cs ds a at c j r) store.old store.new result }
{
    if intmap::tag_of(c) != intmap::RECORD {
        return store.store_cell(intmap::Class::Registers, j, c);
    }
    let to = store.map.base + store.limit;
    let n = store.count(at);
    store.move_cells(at, to, n);
    store.put_cell(to, c);
    store.store_run(intmap::Class::Registers, j, to)
}

// The same, at once where both are records of as many columns, of one cell each.
pub fn store_from(store: &mut Store, at: usize, c: Cell, j: u64) -> Result<(), Refusal>
    requires { IsCurrent store.old × HasRun store.old at × (tag_of c ≡ tag_of (get_or (cells_in store.old) at blank)) × (c.payload ≡ (get_or (cells_in store.old) at blank).payload) }
    ensures { Changes (λ limit cs ds a r. StoresFrom limit cs ds a at c j r) store.old store.new result }
{
    if store.over_register(at, c, j) {
        return Ok(());
    }
    store_behind(store, at, c, j)
}

// Stores what register i holds, if there is something, in register j; then null in register i, if it moves. Here and below `moves` is the
// parameter of the definition's turn, `carry_one`: an enum would name the same two again. Null is written by the store here, and over words in
// `carry_cell`, so that one closure would not do for both.
fn carry_register(store: &mut Store, i: u64, j: u64, moves: bool) -> Result<(), Refusal>
    requires { IsCurrent store.old }
    ensures { Changes (λ limit cs ds a r. Leads limit cs ds a r (carry_one limit moves (int_of i) (int_of j))) store.old store.new result }
{
    let Some(at) = store.get(intmap::Class::Registers, i)? else {
        return Ok(());
    };
    let c = store.cell_at(at);
    let map = store.map;
    store_from(store, at, c, j)?;
    if !moves {
        return Ok(());
    }
    if let Err(refusal) = store.store_single(i, DataType::Null, Some(true)) {
        store.map = map;
        return Err(refusal);
    }
    Ok(())
}

// Stores what register i holds, if there is something, in register j.
pub fn copy_register(store: &mut Store, i: u64, j: u64) -> Result<(), Refusal>
    requires { IsCurrent store.old }
    ensures { Changes (λ limit cs ds a r. Leads limit cs ds a r (copy_to limit (int_of i) (int_of j) (λ v. v))) store.old store.new result }
{
    carry_register(store, i, j, false)
}

// SCopy, IntCopy, Not: r[P2] = r[P1].
pub fn scopy(store: &mut Store, x: Row) -> Result<(), Refusal>
    requires { IsCurrent store.old }
    ensures { Changes (λ limit cs ds a r. RegisterArm limit cs ds a x op_copy_one r) store.old store.new result }
{
    copy_register(store, x.p1, x.p2)
}

// The first register from k on that the map has, or 65,536 if it has none: then all from k on are absent, and no Option says that better. The keys
// of registers are those from 65,536 on and below 131,072.
fn next_register(store: &Store, k: u64) -> u64
    requires { IsMap (cells_in store.now) store.now.map × (k ≤ 65535) }
    ensures { Next (cells_in store.now) store.now.map k result }
{
    let (Ok(place) | Err(place)) = store.find(intmap::class_key(intmap::Class::Registers, k));
    if place.left == 0 {
        return 65536;
    }
    let key = intmap::key_of(store.cell_at(place.at));
    if 131071 < key {
        return 65536;
    }
    key - 65536
}

// How many of n registers from i on are absent before the first that is present or whose read is refused.
fn absent(store: &Store, i: u64, n: u64) -> u64
    requires { IsMap (cells_in store.now) store.now.map }
    ensures { Gap (cells_in store.now) store.now.map i n result }
{
    if n == 0 {
        return 0;
    }
    let Ok(k) = intmap::judge_index(i) else {
        return 0;
    };
    n.min(next_register(store, k) - k)
}

// Whether the cell at `at` is register k, and no record.
fn is_alone(map: IntMap, area: &[u8], at: usize, k: u64) -> bool
    requires { IsMap (cells area.now) map }
    ensures { result ≡ true → Alone (cells area.now) map at k }
{
    if map.base + map.used <= at {
        return false;
    }
    if 65535 < k {
        return false;
    }
    let c = area::cell_at(area, at);
    if intmap::key_of(c) != intmap::class_key(intmap::Class::Registers, k) {
        return false;
    }
    intmap::tag_of(c) != intmap::RECORD
}

// Carries register k, the cell at p, to register l, the cell at q, which keeps its key.
fn carry_cell(map: IntMap, area: &mut [u8], p: usize, q: usize, k: u64, l: u64, moves: bool)
    requires { IsMap (cells area.old) map × Alone (cells area.old) map p k × FoundAt (cells area.old) map p k × Alone (cells area.old) map q l × FoundAt (cells area.old) map q l }
    ensures { CarriesCell (cells area.old) (cells area.new) map moves k l }
{
    let c = area::cell_at(area, p);
    area::put_cell(
        area,
        q,
        intmap::with_key(c, intmap::class_key(intmap::Class::Registers, l)),
    );
    if !moves {
        return;
    }
    let null = state::single(DataType::Null, Some(true));
    area::put_cell(
        area,
        p,
        intmap::with_key(null, intmap::class_key(intmap::Class::Registers, k)),
    );
}

// Carries registers from k on, which begin at p, to those from l on, which begin at q, as long as each is one cell where the one before it ends, and
// at most n. Gives how many. Over the words of the map, since it is slower where each turn reads them of the store.
fn carry_cells(
    map: IntMap,
    area: &mut [u8],
    p: usize,
    q: usize,
    k: u64,
    l: u64,
    n: u64,
    moves: bool,
) -> u64
    requires { IsMap (cells area.old) map × Leading (cells area.old) map p k × Leading (cells area.old) map q l × (k ≤ 65535) × (l ≤ 65535) }
    ensures { CarriesRun (cells area.old) (cells area.new) map moves (offset + k) (offset + l) n result }
{
    for done in 0..n {
        let at = p + done as usize;
        let to = q + done as usize;
        if !is_alone(map, area, at, k + done) {
            return done;
        }
        if !is_alone(map, area, to, l + done) {
            return done;
        }
        carry_cell(map, area, at, to, k + done, l + done, moves);
    }
    n
}

// Carries registers from i on to those from j on where they stand, as long as each is there and one cell, and at most n. Gives how many. The two
// searches are all, however many it carries. `i`, `j` and `n` are other ones at each turn, so that a struct of them is no plainer.
fn carry_run(store: &mut Store, i: u64, j: u64, n: u64, moves: bool) -> u64
    requires { IsHeld store.old }
    ensures { Writes (λ cs ds a. CarriesRun cs ds a moves i j n result) store.old store.new }
{
    let Ok(k) = intmap::judge_index(i) else {
        return 0;
    };
    let Ok(l) = intmap::judge_index(j) else {
        return 0;
    };
    let Some(q) = store.entry_at(intmap::Class::Registers, l) else {
        return 0;
    };
    let Some(p) = store.entry_at(intmap::Class::Registers, k) else {
        return 0;
    };
    carry_cells(store.map, store.area, p, q, k, l, n, moves)
}

// Carries n registers from i on to those from j on, in their order: in a turn those that can be where they stand, and one by a store. Then it goes on
// to the next that is present, and that one stays present, or to the first index above 65,535, which is refused: the turns are at most two more
// than the entries that the limit allows.
fn carry_many(store: &mut Store, i: u64, j: u64, n: u64, moves: bool) -> Result<(), Refusal>
    requires { IsCurrent store.old × (i + n < 18446744073709551616) × (j + n < 18446744073709551616) }
    ensures { Changes (λ limit cs ds a r. Leads limit cs ds a r (carry_many limit moves n (int_of i) (int_of j))) store.old store.new result }
{
    let map = store.map;
    let mut done = 0;
    // Not a range: a turn carries as many as it can.
    while done < n {
        done += carry_run(store, i + done, j + done, n - done, moves);
        if done == n {
            return Ok(());
        }
        if let Err(refusal) = carry_register(store, i + done, j + done, moves) {
            store.map = map;
            return Err(refusal);
        }
        done += 1 + absent(store, i + done + 1, n - done - 1);
    }
    Ok(())
}

// Copy: P3 + 1 registers from P1 on to those from P2 on, none if P3 is negative.
pub fn copy(store: &mut Store, x: Row) -> Result<(), Refusal>
    requires { IsCurrent store.old }
    ensures { Changes (λ limit cs ds a r. RegisterArm limit cs ds a x op_copy r) store.old store.new result }
{
    let n = (x.p3 + 1).saturating_sub(intmap::ZERO);
    carry_many(store, x.p1, x.p2, n, false)
}

// Move: P3 registers from P1 on to those from P2 on, none if P3 is negative.
pub fn move_(store: &mut Store, x: Row) -> Result<(), Refusal>
    requires { IsCurrent store.old }
    ensures { Changes (λ limit cs ds a r. RegisterArm limit cs ds a x op_move r) store.old store.new result }
{
    let n = x.p3.saturating_sub(intmap::ZERO);
    carry_many(store, x.p1, x.p2, n, true)
}
