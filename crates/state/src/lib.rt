// Accesses to the state in the area by value: a register read, and values of one cell stored.
#![tactic(auto)]

ghost use Rattle.std.specs.Prelude.{◌≡◌, true, false, ◌+◌, ◌<◌, ◌≤◌, length, None};
ghost use Rattle.model.specs.State.{Column, Single, Int, datatype_code};
ghost use Rattle.model.specs.Access.{store_register};
ghost use Rattle.area.specs.Cells.{cell, cells, Inside};
ghost use Rattle.intmap.specs.Find.{seek};
ghost use Rattle.intmap.specs.Map.{levels, IsMap, HasRoom};
ghost use Rattle.intmap.specs.Pack.{tag_of, with_nullable, class_number, class_key};
ghost use Rattle.intmap.specs.Signed.{int_of};
ghost use Rattle.encoding.specs.Encode.{nullable_code, single, int, columns_head};
ghost use Rattle.encoding.specs.Decode.{datatype_in, nullable_in};
ghost use Rattle.rows.specs.Parts.{Operand};
ghost use Rattle.state.specs.Leads.{Held, Current, Leads};
ghost use Rattle.state.specs.Own.{is_at, HeldAmong, Guesses, FlatSize, Reaches, EntryBelow, Belongs, Locates, PutsPlain, OverwritesOwn, StoresCell, WritesNear, LeadsNear, GetsNear, EntryNear, FlatBefore, Overwrites, entry_slot, InMap, is_flat, FindsIndex};
ghost use Rattle.state.specs.Over.{IsHead, OverEntry, OverRegister};
ghost use Rattle.state.specs.Reads.{register_in, Reads};

mod registers;
mod store;

use area::Cell;
use intmap::{Class, IntMap, Place};
use refusal::Refusal;
pub use registers::Registers;
pub use store::Store;
use type_info::DataType;

// A state: the map of its registers, cursors and tables, and the next row, where 2^63 stands for row 0. The map first: the machine reads it
// back as it was written.
#[derive(Clone, Copy)]
pub struct MemoryState {
    pub map: IntMap,
    pub row: u64,
}

// The ways that a row offers: a branch, and the state that goes on. None by default.
#[derive(Clone, Copy, Default)]
pub struct Ways {
    pub branch: Option<MemoryState>,
    pub stays: Option<MemoryState>,
}

// The code of `nullable` in a head: of a column whether it may be null, of a table whether it is empty. Either may be unknown.
pub fn nullable_code(nullable: Option<bool>) -> u64
    ensures { result ≡ nullable_code nullable }
{
    match nullable {
        None => 0,
        Some(false) => 1,
        Some(true) => 2,
    }
}

// What a head says of it.
pub fn nullable_in(head: Cell) -> Option<bool>
    ensures { result ≡ nullable_in head }
{
    match intmap::nullable_of(head) {
        1 => Some(false),
        2 => Some(true),
        _ => None,
    }
}

// The cell with another nullable.
pub fn with_nullable(c: Cell, nullable: Option<bool>) -> Cell
    ensures { result ≡ with_nullable (nullable_code nullable) c }
{
    intmap::with_nullable(c, nullable_code(nullable))
}

// The kind that a head says.
fn datatype_in(head: Cell) -> DataType
    ensures { result ≡ datatype_in head }
{
    DataType::try_from(intmap::kind_of(head)).unwrap_or(DataType::Null)
}

// A plain column's cell, under key 0.
pub fn single(d: DataType, nullable: Option<bool>) -> Cell
    ensures { result ≡ single (datatype_code d) (nullable_code nullable) 0 }
{
    Cell {
        head: intmap::pack(intmap::SINGLE, d.code(), nullable_code(nullable), 0),
        payload: 0,
    }
}

// A known number's cell, under key 0: `value` is an operand's word.
pub fn int(value: u64) -> Cell
    ensures { result ≡ int value 0 }
{
    Cell {
        head: intmap::INT,
        payload: value,
    }
}

// The head of n columns, a record's or a table's, under key 0. Of a table, nullable says whether it is empty.
pub fn columns_head(n: u64, nullable: Option<bool>) -> Cell
    ensures { result ≡ columns_head n (nullable_code nullable) 0 }
{
    Cell {
        head: intmap::pack(intmap::RECORD, 0, nullable_code(nullable), 0),
        payload: n,
    }
}

// Where the head of the entry is whose cell at `at` has key k, if that is a record's column and none before it is absent or a record; `base`, if
// that is outside. No Option: both callers look at the first entry then.
fn head_before(base: usize, at: usize, k: u64) -> usize
    requires { (base ≤ at) × (at ≤ 1048576) }
    ensures { (base ≤ result) × (result ≤ at) }
{
    if k < (at - base) as u64 {
        return at - 1 - k as usize;
    }
    base
}

// Whether a cell begins an entry that has more than n cells.
fn reaches(c: Cell, n: usize) -> bool
    ensures { result ≡ true → Reaches c n }
{
    intmap::begins(c) && n < flat_size(c)
}

// The last cell from `low` to `at` that begins an entry, or `low`: at once, where the head that the cell tells reaches this far.
fn entry_below(area: &[u8], base: usize, low: usize, at: usize) -> usize
    requires { HeldAmong (cells area.now) base (at + 1) × (base ≤ low) × (low ≤ at) }
    ensures { EntryBelow (cells area.now) low at result }
{
    let c = area::cell_at(area, at);
    if intmap::begins(c) {
        return at;
    }
    let head = head_before(base, at, intmap::key_of(c));
    if reaches(area::cell_at(area, head), at - head) {
        return head.max(low);
    }
    for p in (low..at).rev() {
        if intmap::begins(area::cell_at(area, p)) {
            return p;
        }
    }
    low
}

// Whether p is before `end` and the cell there has the key.
fn is_at(area: &[u8], end: usize, p: usize, key: u64) -> bool
    requires { (end ≤ length (cells area.now)) × (length (cells area.now) ≤ 1048576) × (key < 1099511627776) }
    ensures { result ≡ is_at (cells area.now) end key p }
{
    p < end && intmap::has_key(area::cell_at(area, p), key)
}

// How many cells the entry that begins with c has, if each column of a record has one.
fn flat_size(c: Cell) -> usize
    ensures { FlatSize c result }
{
    if intmap::tag_of(c) == intmap::RECORD {
        if c.payload < 65536 {
            return 1 + c.payload as usize;
        }
    }
    1
}

// Looks for a key at its distance from the first entry of a map, whose cells are from `base` on and before `end`: it is there, if the entries of all
// keys between are, of one cell each. These take the map's two ends, not the map: what they promise is of every map with these ends, whatever its
// number of entries, and a map goes in memory, not in registers.
fn near_first(area: &[u8], base: usize, end: usize, key: u64) -> Option<usize>
    requires { HeldAmong (cells area.now) base end × (key < 1099511627776) }
    ensures { Guesses (cells area.now) base end key result }
{
    if end <= base {
        return None;
    }
    let k = intmap::key_of(area::cell_at(area, base));
    if key < k {
        return None;
    }
    if ((end - base) as u64) <= key - k {
        return None;
    }
    let p = base + (key - k) as usize;
    is_at(area, end, p, key).then_some(p)
}

// How many of the last entries are tried for a cursor or table.
const LAST: usize = 24;

// Where the entry begins that the cell at `at` belongs to, if the cell tells that.
fn head_near(area: &[u8], base: usize, at: usize) -> usize
    requires { (base ≤ at) × (at < length (cells area.now)) × (length (cells area.now) ≤ 1048576) }
    ensures { (base ≤ result) × (result ≤ at) }
{
    let c = area::cell_at(area, at);
    if intmap::begins(c) {
        return at;
    }
    head_before(base, at, intmap::key_of(c))
}

// Looks for a key among the last entries, whose keys fall from the last on.
fn near_last(area: &[u8], base: usize, end: usize, key: u64) -> Option<usize>
    requires { HeldAmong (cells area.now) base end × (key < 1099511627776) }
    ensures { Guesses (cells area.now) base end key result }
{
    let mut high = end;
    for _ in 0..LAST {
        if high <= base {
            return None;
        }
        let p = head_near(area, base, high - 1);
        let k = intmap::key_of(area::cell_at(area, p));
        if k == key {
            return Some(p);
        }
        if k < key {
            return None;
        }
        high = p;
    }
    None
}

// From this key on entries are cursors and tables.
const LATER: u64 = 131072;

// How many cells below a guess are tried: as many registers may be absent before it.
const GAP: usize = 8;

// Looks for a key in the cells below p, down to an entry with a lower one.
fn near_below(area: &[u8], base: usize, end: usize, p: usize, key: u64) -> Option<usize>
    requires { HeldAmong (cells area.now) base end × (base ≤ p) × (p ≤ end) }
    ensures { Guesses (cells area.now) base end key result }
{
    let mut q = p;
    // As many turns each time: over a range of the cells it is slower.
    for _ in 0..GAP {
        if q <= base {
            return None;
        }
        q -= 1;
        let c = area::cell_at(area, q);
        let k = intmap::key_of(c);
        if k == key {
            return Some(q);
        }
        if k < key {
            if intmap::begins(c) {
                return None;
            }
        }
    }
    None
}

// Below which cell a key may stand: behind the one at its distance from the entry that the cell at p belongs to, if the key is above, else below p.
fn top_near(area: &[u8], base: usize, end: usize, p: usize, key: u64) -> usize
    requires { HeldAmong (cells area.now) base end × (base ≤ p) × (p < end) }
    ensures { (base ≤ result) × (result ≤ end) }
{
    let at = head_near(area, base, p);
    let c = area::cell_at(area, at);
    let k = intmap::key_of(c);
    if key <= k {
        return p;
    }
    let q = ahead(at, c, k, key);
    if end <= q {
        return end;
    }
    q + 1
}

// Looks for a register's key near its distance from the first entry, from where a record before it, or a register that is absent, has moved it.
// Always inlined, as `near` needs it.
#[inline(always)]
fn near_moved(area: &[u8], base: usize, end: usize, key: u64) -> Option<usize>
    requires { HeldAmong (cells area.now) base end }
    ensures { Guesses (cells area.now) base end key result }
{
    if end <= base {
        return None;
    }
    let k = intmap::key_of(area::cell_at(area, base));
    if key < k {
        return None;
    }
    if ((end - base) as u64) <= key - k {
        return near_below(area, base, end, end, key);
    }
    let p = base + (key - k) as usize;
    near_below(area, base, end, top_near(area, base, end, p, key), key)
}

// Where a key is found with few tests, if it is: registers stand close, and cursors and tables are the last entries. It calls nothing that the
// compiler leaves a call, so that a search costs no copies of what it is given.
fn near(area: &[u8], base: usize, end: usize, key: u64) -> Option<usize>
    requires { HeldAmong (cells area.now) base end × (key < 1099511627776) }
    ensures { Guesses (cells area.now) base end key result }
{
    if LATER <= key {
        return near_last(area, base, end, key);
    }
    if let Some(p) = near_first(area, base, end, key) {
        return Some(p);
    }
    near_moved(area, base, end, key)
}

// How many cells a search tests where it guesses, before it goes by halves.
const TRIES: usize = 8;

// Which cell to test of those from `low` on and before `high`: the one that is guessed, or the nearest to it; after so many tries the middle.
fn probe(low: usize, high: usize, guess: usize, tried: usize) -> usize
    requires { low < high }
    ensures { (low ≤ result) × (result < high) }
{
    if TRIES <= tried {
        return low + (high - low) / 2;
    }
    guess.clamp(low, high - 1)
}

// Where a key above k stands, if the entries of all keys between are behind the one at p, which begins with c and has key k, of one cell each.
fn ahead(p: usize, c: Cell, k: u64, key: u64) -> usize
    requires { (p ≤ 1048576) × (k < key) }
    ensures { p < result }
{
    if 65536 <= key - k {
        return p + 65536;
    }
    p + flat_size(c) - 1 + (key - k) as usize
}

// How many tries are passed over, so that only the first is a guess: a table that a row opens is behind all, and a cursor, which is before the
// tables, is no distance from a register.
fn passed(key: u64) -> usize
    ensures { (key < 131072 → result ≡ 0) × (131072 ≤ key → result ≡ 7) }
{
    if key < LATER {
        return 0;
    }
    TRIES - 1
}

// Where a search begins: a register's at the first entry, a cursor's or table's at the last.
fn begins_at(base: usize, end: usize, key: u64) -> usize
    ensures { (key < 131072 → result ≡ base) × (131072 ≤ key → result ≡ end) }
{
    if key < LATER {
        return base;
    }
    end
}

// Where a key is or belongs. It guesses by the distance from an entry with a lower key, and where that leads too far, tries the one before.
fn place(area: &[u8], base: usize, end: usize, key: u64) -> usize
    requires { HeldAmong (cells area.now) base end × (65536 ≤ key) }
    ensures { Belongs (cells area.now) base end key result }
{
    let mut low = base;
    let mut high = end;
    let mut guess = begins_at(base, end, key);
    let mut tried = passed(key);
    // Both ends close in, each by as much as a turn finds: no range, and no search of the library's, goes so.
    while low < high {
        let mid = probe(low, high, guess, tried);
        tried += 1;
        let p = entry_below(area, base, low, mid);
        let c = area::cell_at(area, p);
        let k = intmap::key_of(c);
        if k == key {
            return p;
        }
        if k < key {
            low = mid + 1;
            guess = ahead(p, c, k, key);
        } else {
            high = p;
        }
    }
    high
}

// Where a key is, or else where it belongs.
fn far(area: &[u8], base: usize, end: usize, key: u64) -> Result<usize, usize>
    requires { HeldAmong (cells area.now) base end × (65536 ≤ key) × (key < 1099511627776) }
    ensures { Locates (cells area.now) base end key result }
{
    let p = place(area, base, end, key);
    if is_at(area, end, p, key) {
        return Ok(p);
    }
    Err(p)
}

// The same, with few tests where they find it.
fn locate(area: &[u8], base: usize, end: usize, key: u64) -> Result<usize, usize>
    requires { HeldAmong (cells area.now) base end × (65536 ≤ key) × (key < 1099511627776) }
    ensures { Locates (cells area.now) base end key result }
{
    if let Some(p) = near(area, base, end, key) {
        return Ok(p);
    }
    far(area, base, end, key)
}

// Whether the n cells behind `at` are followed by an entry or by `end`, which is the map's.
pub fn flat_before(area: &[u8], end: usize, at: usize, n: u64) -> bool
    requires { (at < end) × (end ≤ length (cells area.now)) × (length (cells area.now) ≤ 1048576) }
    ensures { FlatBefore (cells area.now) end at n result }
{
    if ((end - at) as u64) <= n {
        return false;
    }
    let next = at + 1 + n as usize;
    if next == end {
        return true;
    }
    intmap::begins(area::cell_at(area, next))
}

// The same, of a map. This and the readers below are methods of `Store` too, each a call of these: who is lent the area for reading has no `Store`.
pub fn is_flat(map: IntMap, area: &[u8], at: usize, n: u64) -> bool
    requires { IsMap (cells area.now) map × InMap map at }
    ensures { result ≡ is_flat (cells area.now) map at n }
{
    flat_before(area, map.base + map.used, at, n)
}

// Where the entry of a place in a class is: at once, or by a search of all entries.
pub fn entry_at(map: IntMap, area: &[u8], class: Class, k: u64) -> Option<usize>
    requires { Held (cells area.now) map × (k ≤ 65535) }
    ensures { result ≡ entry_slot (cells area.now) map (class_number class) k }
{
    let key = intmap::class_key(class, k);
    locate(area, map.base, map.base + map.used, key).ok()
}

// Where a place in a class is or belongs: at the map's end, if its key is above all, or by a search of all entries.
pub fn place_of(map: IntMap, area: &[u8], class: Class, k: u64) -> Result<Place, Place>
    requires { Held (cells area.now) map × (k ≤ 65535) }
    ensures { result ≡ seek (cells area.now) levels (class_key (class_number class) k) map.len map.base }
{
    let key = intmap::class_key(class, k);
    let end = map.base + map.used;
    if place(area, map.base, end, key) == end {
        return Err(Place { at: end, left: 0 });
    }
    map.find(area, key)
}

// Where the entry of index i in a class is.
pub fn get(map: IntMap, area: &[u8], class: Class, i: u64) -> Result<Option<usize>, Refusal>
    requires { Held (cells area.now) map }
    ensures { FindsIndex (cells area.now) map (class_number class) i result }
{
    let k = intmap::judge_index(i)?;
    Ok(entry_at(map, area, class, k))
}

// Writes c under a key over the cell at p, if that is no record's. Says whether it was.
fn put_plain(area: &mut [u8], p: usize, key: u64, c: Cell) -> bool
    requires { Inside area.old p 1 × (key < 1099511627776) }
    ensures { PutsPlain (cells area.old) (cells area.new) p key c result }
{
    if intmap::tag_of(area::cell_at(area, p)) == intmap::RECORD {
        return false;
    }
    area::put_cell(area, p, intmap::with_key(c, key));
    true
}

// Writes c over the cell of index i in a class, if there is one and it is no record's. Says whether it was.
pub fn overwrite_own(map: IntMap, area: &mut [u8], class: Class, i: u64, c: Cell) -> bool
    requires { Held (cells area.old) map × (tag_of c ≡ 2 → ⊥) }
    ensures { OverwritesOwn (cells area.old) (cells area.new) map (class_number class) i c result }
{
    let Ok(k) = intmap::judge_index(i) else {
        return false;
    };
    let key = intmap::class_key(class, k);
    let Ok(p) = locate(area, map.base, map.base + map.used, key) else {
        return false;
    };
    put_plain(area, p, key, c)
}

// Puts the record at `at` of the map, with c for its head, over the one of place k in a class, if both have as many columns, of one cell each. Says
// whether it did: then the map is as it was.
pub fn over_entry(map: IntMap, area: &mut [u8], at: usize, c: Cell, class: Class, k: u64) -> bool
    requires { Held (cells area.old) map × IsHead (cells area.old) at c × (k ≤ 65535) }
    ensures { OverEntry (cells area.old) (cells area.new) map at c (class_number class) k result }
{
    match entry_at(map, area, class, k) {
        None => false,
        Some(p) => intmap::copy_over(area, at, p, c),
    }
}

// The same over the record in register i.
pub fn over_register(map: IntMap, area: &mut [u8], at: usize, c: Cell, i: u64) -> bool
    requires { Held (cells area.old) map × IsHead (cells area.old) at c }
    ensures { OverRegister (cells area.old) (cells area.new) map at c i result }
{
    if intmap::tag_of(c) != intmap::RECORD {
        return false;
    }
    let Ok(k) = intmap::judge_index(i) else {
        return false;
    };
    over_entry(map, area, at, c, Class::Registers, k)
}

// Stores a cell that is no record's under index i of a class: over its own cell, or where that belongs, or in the place of a record.
pub fn store_cell(
    map: IntMap,
    area: &mut [u8],
    class: Class,
    i: u64,
    c: Cell,
    limit: usize,
) -> Result<IntMap, Refusal>
    requires { HasRoom (cells area.old) limit map × Held (cells area.old) map × (tag_of c ≡ 2 → ⊥) }
    ensures { StoresCell limit (cells area.old) (cells area.new) map (class_number class) i c result }
{
    let k = intmap::judge_index(i)?;
    let key = intmap::class_key(class, k);
    match locate(area, map.base, map.base + map.used, key) {
        Err(p) => map.insert_new(area, p, intmap::with_key(c, key), limit),
        Ok(p) => {
            if put_plain(area, p, key, c) {
                return Ok(map);
            }
            map.store_cell(area, class, i, c, limit)
        }
    }
}

// Writes c over the cell at p, if that is register i's own and no record's. Says whether it was. This, `overwrite_own` and the two below judge the
// index, take its key, find the place and put. They differ in how it is found, and promise three different things of it. A function over the place
// that was found would save two lines of each and need as many for its own clauses; one over the search would need clauses for what a closure finds.
pub fn overwrite(map: IntMap, area: &mut [u8], p: usize, i: u64, c: Cell) -> bool
    requires { Held (cells area.old) map × (map.base ≤ p) × (tag_of c ≡ 2 → ⊥) }
    ensures { Overwrites (cells area.old) (cells area.new) map p i c result }
{
    let Ok(k) = intmap::judge_index(i) else {
        return false;
    };
    let key = intmap::class_key(Class::Registers, k);
    if !is_at(area, map.base + map.used, p, key) {
        return false;
    }
    put_plain(area, p, key, c)
}

// Writes a cell over register i's own, if that is found at its distance from the first entry and is no record's. Says whether it was. It takes and
// gives words alone, and most stores are done by it.
pub fn write_near(area: &mut [u8], base: usize, end: usize, i: u64, head: u64, payload: u64) -> bool
    requires { HeldAmong (cells area.old) base end × (tag_of (cell head payload) ≡ 2 → ⊥) }
    ensures { WritesNear (cells area.old) (cells area.new) base end i (cell head payload) result }
{
    let Ok(k) = intmap::judge_index(i) else {
        return false;
    };
    let key = intmap::class_key(Class::Registers, k);
    let Some(p) = near_first(area, base, end, key) else {
        return false;
    };
    put_plain(area, p, key, Cell { head, payload })
}

// The same where a record before it, or a register that is absent, has moved the cell. It stays a call: where `write_near` looked so far, Column and
// Integer got a tenth dearer.
#[inline(never)]
fn write_moved(area: &mut [u8], base: usize, end: usize, i: u64, head: u64, payload: u64) -> bool
    requires { HeldAmong (cells area.old) base end × (tag_of (cell head payload) ≡ 2 → ⊥) }
    ensures { WritesNear (cells area.old) (cells area.new) base end i (cell head payload) result }
{
    let Ok(k) = intmap::judge_index(i) else {
        return false;
    };
    let key = intmap::class_key(Class::Registers, k);
    let Some(p) = near_moved(area, base, end, key) else {
        return false;
    };
    put_plain(area, p, key, Cell { head, payload })
}

// Where the entry of place k in a class is, if it is one of the last.
pub fn last_near(area: &[u8], base: usize, end: usize, class: Class, k: u64) -> Option<usize>
    requires { HeldAmong (cells area.now) base end × (k ≤ 65535) }
    ensures { EntryNear (cells area.now) base end (class_number class) k result }
{
    near_last(area, base, end, intmap::class_key(class, k))
}

// Where register i's cell is, if that is at its distance from the first entry.
pub fn register_near(area: &[u8], base: usize, end: usize, i: u64) -> Option<usize>
    requires { HeldAmong (cells area.now) base end }
    ensures { GetsNear (cells area.now) base end i result }
{
    let k = intmap::judge_index(i).ok()?;
    near_first(area, base, end, intmap::class_key(Class::Registers, k))
}

// Stores a plain column over register i's own cell, as `write_near` does.
pub fn single_near(
    area: &mut [u8],
    base: usize,
    end: usize,
    i: u64,
    d: DataType,
    nullable: Option<bool>,
) -> bool
    requires { HeldAmong (cells area.old) base end }
    ensures { LeadsNear (cells area.old) (cells area.new) base end (λ limit. store_register limit (int_of i) (Column (Single d nullable))) result }
{
    let c = single(d, nullable);
    write_near(area, base, end, i, c.head, c.payload)
}

// Stores a known number, as an operand's word, over register i's own cell, also where that has been moved: Gosub and InitCoroutine keep one behind a
// record.
pub fn int_near(area: &mut [u8], base: usize, end: usize, i: u64, value: u64) -> bool
    requires { HeldAmong (cells area.old) base end × Operand value }
    ensures { LeadsNear (cells area.old) (cells area.new) base end (λ limit. store_register limit (int_of i) (Int (int_of value))) result }
{
    if write_near(area, base, end, i, intmap::INT, value) {
        return true;
    }
    write_moved(area, base, end, i, intmap::INT, value)
}

// Stores a cell that is no record's in register i.
fn store_register(
    map: IntMap,
    area: &mut [u8],
    i: u64,
    c: Cell,
    limit: usize,
) -> Result<IntMap, Refusal>
    requires { HasRoom (cells area.old) limit map × Held (cells area.old) map × (tag_of c ≡ 2 → ⊥) }
    ensures { StoresCell limit (cells area.old) (cells area.new) map 0 i c result }
{
    let end = map.base + map.used;
    if write_near(area, map.base, end, i, c.head, c.payload) {
        return Ok(map);
    }
    store_cell(map, area, Class::Registers, i, c, limit)
}

// Stores a plain column in register i.
pub fn store_single(
    map: IntMap,
    area: &mut [u8],
    i: u64,
    d: DataType,
    nullable: Option<bool>,
    limit: usize,
) -> Result<IntMap, Refusal>
    requires { Current limit (cells area.old) map }
    ensures { Leads limit (cells area.old) (cells area.new) map result (store_register limit (int_of i) (Column (Single d nullable))) }
{
    store_register(map, area, i, single(d, nullable), limit)
}

// Stores a known number, as an operand's word, in register i.
pub fn store_int(
    map: IntMap,
    area: &mut [u8],
    i: u64,
    value: u64,
    limit: usize,
) -> Result<IntMap, Refusal>
    requires { Current limit (cells area.old) map × Operand value }
    ensures { Leads limit (cells area.old) (cells area.new) map result (store_register limit (int_of i) (Int (int_of value))) }
{
    store_register(map, area, i, int(value), limit)
}

// What a register holds. A plain column is told by its kind and nullable, a record by the place of its run, a known number by its word.
#[derive(Clone, Copy)]
pub enum Register {
    Single(DataType, Option<bool>),
    Record(usize),
    Int(u64),
}

// What the first cell of a register's run says.
pub fn register_in(c: Cell, at: usize) -> Register
    ensures { result ≡ register_in c at }
{
    let tag = intmap::tag_of(c);
    if tag == intmap::SINGLE {
        return Register::Single(datatype_in(c), nullable_in(c));
    }
    if tag == intmap::RECORD {
        return Register::Record(at);
    }
    Register::Int(c.payload)
}

// Reads register i, if it is there.
pub fn read_register(map: IntMap, area: &[u8], i: u64) -> Result<Option<Register>, Refusal>
    requires { Held (cells area.now) map }
    ensures { Reads (cells area.now) map i result }
{
    match get(map, area, Class::Registers, i)? {
        None => Ok(None),
        Some(at) => Ok(Some(register_in(area::cell_at(area, at), at))),
    }
}
