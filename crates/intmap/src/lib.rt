// Maps in the area: columns as runs of cells, and entries by key.
#![tactic(auto)]

ghost use Rattle.std.specs.Prelude.{Ok, ◌≡◌, ◌+◌, ◌<◌, ◌≤◌, eqb, leb, length, get_or, [], ◌∷◌};
ghost use Rattle.area.specs.Cells.{blank, cells};
ghost use Rattle.intmap.specs.Pack.{Parts, head, tag_of, kind_of, nullable_of, key_of, with_key, with_nullable, class_number, class_key};
ghost use Rattle.intmap.specs.Runs.{size, sizes, IsColumn, AreColumns, eq_column, eq_columns, Copyable, Copied};
ghost use Rattle.intmap.specs.Depth.{nesting};
ghost use Rattle.intmap.specs.Find.{seek};
ghost use Rattle.intmap.specs.Map.{levels, empty, IsMap, HasRoom, SameCells, Compares, CopiedMap};
ghost use Rattle.intmap.specs.Store.{RoomMade, IsFound, Opens, Inserts, NewAt, RunAbove, Removes, Stores, RemovesAt};
ghost use Rattle.intmap.specs.Get.{Judges, Gets};
ghost use Rattle.intmap.specs.Change.{rekey, Writable, FromElem};
ghost use Rattle.intmap.specs.Entries.{span};
ghost use Rattle.intmap.specs.Over.{ArePlain, CopiesOver};

use area::Cell;
use refusal::Refusal;

// The tags of cells. Numbers, where an operation, a byte of a cell too, is an enum: that is matched on, but nearly each use of a tag compares it with
// one. An enum would read the same there, with a variant more, since lent cells may have any byte, and as many laws that lead back to the number.
pub const SINGLE: u64 = 1;

pub const RECORD: u64 = 2;

pub const INT: u64 = 3;

pub const NORMAL: u64 = 4;

pub const PSEUDO: u64 = 5;

// The three maps of a state, which stand in one: each index has a key by its class.
#[derive(Clone, Copy, Debug, PartialEq, Eq)]
pub enum Class {
    Registers,
    Cursors,
    Tables,
}

// The word that stands for 0.
pub const ZERO: u64 = 9223372036854775808;

// A head of four parts. Numbers, since they are parts of a word: `state` makes them of a kind and an `Option<bool>`.
pub fn pack(tag: u64, kind: u64, nullable: u64, key: u64) -> u64
    requires { Parts tag kind nullable key }
    ensures { result ≡ head tag kind nullable key }
{
    tag + 256 * kind + 65536 * nullable + 16777216 * key
}

// Which kind of entry or column a cell begins.
pub fn tag_of(c: Cell) -> u64
    ensures { result ≡ tag_of c }
{
    c.head % 256
}

// The kind that a cell names: a number, since it is a part of a word. `state::datatype_in` makes a kind of it.
pub fn kind_of(c: Cell) -> u64
    ensures { result ≡ kind_of c }
{
    c.head / 256 % 256
}

// Whether it is nullable, or a table empty: a number, as the kind is. `state::nullable_in` makes an option of it.
pub fn nullable_of(c: Cell) -> u64
    ensures { result ≡ nullable_of c }
{
    c.head / 65536 % 256
}

// The key that it stands under.
pub fn key_of(c: Cell) -> u64
    ensures { result ≡ key_of c }
{
    c.head / 16777216
}

// Whether it stands under this key. The head is compared whole, since it is loaded in pieces where a part of it is asked for.
pub fn has_key(c: Cell, key: u64) -> bool
    requires { key < 1099511627776 }
    ensures { result ≡ eqb (key_of c) key }
{
    let low = 16777216 * key;
    low <= c.head && c.head - low < 16777216
}

// Whether its key is an entry's: the columns inside a record or table have lower ones.
pub fn begins(c: Cell) -> bool
    ensures { result ≡ leb 65536 (key_of c) }
{
    1099511627776 <= c.head
}

// The cell under another key, of 40 bits. No type has that bound: keys are added to and compared, and it would be made and taken apart at each use.
pub fn with_key(c: Cell, key: u64) -> Cell
    requires { key < 1099511627776 }
    ensures { result ≡ with_key key c }
{
    Cell {
        head: c.head % 16777216 + 16777216 * key,
        payload: c.payload,
    }
}

// The cell with another nullable: a number, as a head has it. `state::with_nullable` takes an option.
pub fn with_nullable(c: Cell, nullable: u64) -> Cell
    requires { nullable < 256 }
    ensures { result ≡ with_nullable nullable c }
{
    Cell {
        head: c.head % 65536 + 65536 * nullable + c.head / 16777216 * 16777216,
        payload: c.payload,
    }
}

// How many cells the column at `at` takes, where records nest at most `depth` deep.
pub fn count(area: &[u8], at: usize, depth: usize) -> usize
    requires { IsColumn (cells area.now) depth at }
    ensures { result ≡ size (cells area.now) depth at }
{
    if depth == 0 {
        return 1;
    }
    let c = area::cell_at(area, at);
    let tag = c.head % 256;
    if tag != RECORD {
        return 1;
    }
    let mut k: usize = 1;
    for _ in 0..c.payload {
        let x = area::cell_at(area, at + k);
        if x.head % 256 == RECORD {
            k += count(area, at + k, depth - 1);
        } else {
            k += 1;
        }
    }
    k
}

// The same, where the column's first cell is c: most are alone, and cost no call.
pub fn count_from(area: &[u8], at: usize, c: Cell, depth: usize) -> usize
    requires { IsColumn (cells area.now) depth at × (c ≡ get_or (cells area.now) at blank) }
    ensures { result ≡ size (cells area.now) depth at }
{
    let tag = c.head % 256;
    if tag != RECORD {
        return 1;
    }
    if c.payload == 0 {
        return 1;
    }
    count(area, at, depth)
}

// Whether the columns at a and b are the same, keys too. By hand, since they are cells of the lent area and no values that could derive it.
#[cycle(column_eq_record_eq)]
pub fn column_eq(area: &[u8], a: usize, b: usize, depth: usize) -> bool
    requires { IsColumn (cells area.now) depth a × IsColumn (cells area.now) depth b }
    ensures { result ≡ eq_column (cells area.now) depth a b }
{
    let x = area::cell_at(area, a);
    let y = area::cell_at(area, b);
    if x.head != y.head {
        return false;
    }
    if x.payload != y.payload {
        return false;
    }
    if depth == 0 {
        return true;
    }
    let tag = x.head % 256;
    if tag != RECORD {
        return true;
    }
    record_eq(area, a + 1, b + 1, x.payload, depth - 1)
}

// Whether the n columns from a on are the same as those from b on.
#[cycle(column_eq_record_eq)]
pub fn record_eq(area: &[u8], a: usize, b: usize, n: u64, depth: usize) -> bool
    requires { AreColumns (cells area.now) depth n a × AreColumns (cells area.now) depth n b }
    ensures { result ≡ eq_columns (cells area.now) depth n a b }
{
    let mut k: usize = 0;
    for _ in 0..n {
        if !column_eq(area, a + k, b + k, depth) {
            return false;
        }
        k += count(area, a + k, depth);
    }
    true
}

// Whether the n cells from a on are the same as those from b on, whatever they stand for.
fn same_cells(area: &[u8], a: usize, b: usize, n: usize) -> bool
    requires { (a + n ≤ length (cells area.now)) × (b + n ≤ length (cells area.now)) × (length (cells area.now) ≤ 1048576) }
    ensures { SameCells (cells area.now) a b n result }
{
    (0..n).all(|k| area::cell_at(area, a + k) == area::cell_at(area, b + k))
}

// Copies the column at `from` to `to`, which is above it, and gives how many cells it has.
#[cycle(copy_run_copy_runs)]
pub fn copy_run(area: &mut [u8], from: usize, to: usize, depth: usize) -> usize
    requires { Copyable (cells area.old) from to (size (cells area.old) depth from) }
    ensures { Copied (cells area.old) (cells area.new) from to (size (cells area.old) depth from) result }
{
    let c = area::cell_at(area, from);
    area::put_cell(area, to, c);
    if depth == 0 {
        return 1;
    }
    let tag = c.head % 256;
    if tag != RECORD {
        return 1;
    }
    1 + copy_runs(area, from + 1, to + 1, c.payload, depth - 1)
}

// Copies the n columns from `from` on to `to`, which is above them, and gives how many cells they have.
#[cycle(copy_run_copy_runs)]
pub fn copy_runs(area: &mut [u8], from: usize, to: usize, n: u64, depth: usize) -> usize
    requires { Copyable (cells area.old) from to (sizes (size (cells area.old) depth) n from) }
    ensures { Copied (cells area.old) (cells area.new) from to (sizes (size (cells area.old) depth) n from) result }
{
    let mut k: usize = 0;
    for _ in 0..n {
        let c = area::cell_at(area, from + k);
        if c.head % 256 == RECORD {
            k += copy_run(area, from + k, to + k, depth);
        } else {
            area::put_cell(area, to + k, c);
            k += 1;
        }
    }
    k
}

// Whether none of the n cells from `at` on is a record's.
pub fn are_plain(area: &[u8], at: usize, n: u64) -> bool
    requires { (at + n ≤ length (cells area.now)) × (length (cells area.now) ≤ 1048576) }
    ensures { ArePlain (cells area.now) at n result }
{
    (0..n).all(|k| tag_of(area::cell_at(area, at + k as usize)) != RECORD)
}

// Puts c, the head of the record at `from`, and its columns over the record at `to`, if both have as many columns, of one cell each. The run there
// keeps its key. Says whether it did.
pub fn copy_over(area: &mut [u8], from: usize, to: usize, c: Cell) -> bool
    requires { IsColumn (cells area.old) levels from × IsColumn (cells area.old) levels to × (tag_of c ≡ tag_of (get_or (cells area.old) from blank)) × (c.payload ≡ (get_or (cells area.old) from blank).payload) }
    ensures { CopiesOver (cells area.old) (cells area.new) from to c result }
{
    if tag_of(c) != RECORD {
        return false;
    }
    let d = area::cell_at(area, to);
    if tag_of(d) != RECORD {
        return false;
    }
    if d.payload != c.payload {
        return false;
    }
    if !are_plain(area, from + 1, c.payload) {
        return false;
    }
    if !are_plain(area, to + 1, c.payload) {
        return false;
    }
    area::move_cells(area, from + 1, to + 1, c.payload as usize);
    area::put_cell(area, to, with_key(c, key_of(d)));
    true
}

// How deep records nest in the column at `at`.
#[cycle(depth_from_depth_of)]
pub fn depth_of(area: &[u8], at: usize, depth: usize) -> usize
    requires { IsColumn (cells area.now) depth at }
    ensures { result ≡ nesting (cells area.now) depth at }
{
    if depth == 0 {
        return 0;
    }
    let c = area::cell_at(area, at);
    let tag = c.head % 256;
    if tag != RECORD {
        return 0;
    }
    let mut k = 1;
    let mut best: usize = 0;
    for _ in 0..c.payload {
        let x = area::cell_at(area, at + k);
        best = best.max(depth_from(area, at + k, x, depth - 1));
        k += count_from(area, at + k, x, depth - 1);
    }
    best + 1
}

// The same, where the column's first cell is c.
#[cycle(depth_from_depth_of)]
fn depth_from(area: &[u8], at: usize, c: Cell, depth: usize) -> usize
    requires { IsColumn (cells area.now) depth at × (c ≡ get_or (cells area.now) at blank) }
    ensures { result ≡ nesting (cells area.now) depth at }
{
    let tag = c.head % 256;
    if tag != RECORD {
        return 0;
    }
    depth_of(area, at, depth)
}

// Writes n cells from `at` on that are the same but for their keys, 0 to n - 1.
pub fn from_elem(area: &mut [u8], at: usize, c: Cell, n: usize)
    requires { Writable (cells area.old) at n }
    ensures { FromElem (cells area.old) (cells area.new) at c n }
{
    for k in 0..n {
        area::put_cell(area, at + k, with_key(c, k as u64));
    }
}

// How deep the records of a map's entries nest: eight levels, and a table's own.
pub const LEVELS: usize = 9;

// A map: where its entries begin, how many they are, and how many cells they take. They are runs in the order of their keys.
#[derive(Clone, Copy)]
pub struct IntMap {
    pub base: usize,
    pub len: u64,
    pub used: usize,
}

// Where an entry's key is or belongs, and how many entries stand from there on.
#[derive(Clone, Copy)]
pub struct Place {
    pub at: usize,
    pub left: u64,
}

// Judges a map index, of which 2^63 stands for 0.
pub fn judge_index(i: u64) -> Result<u64, Refusal>
    ensures { Judges i result }
{
    if i < ZERO {
        return Err(Refusal::Negative);
    }
    let k = i - ZERO;
    if 65535 < k {
        return Err(Refusal::IndexTooLarge);
    }
    Ok(k)
}

// The key of an index in its class.
pub fn class_key(class: Class, index: u64) -> u64
    requires { index ≤ 65535 }
    ensures { result ≡ class_key (class_number class) index }
{
    class as u64 * 65536 + 65536 + index
}

// Looks for a key among the n columns from `at` on, where records nest at most `depth` deep. Where there is none, the place is where it belongs.
pub fn find_from(area: &[u8], at: usize, n: u64, key: u64, depth: usize) -> Result<Place, Place>
    requires { AreColumns (cells area.now) depth n at }
    ensures { result ≡ seek (cells area.now) depth key n at }
{
    let mut p = at;
    for passed in 0..n {
        let c = area::cell_at(area, p);
        let k = c.head / 16777216;
        if key <= k {
            let place = Place {
                at: p,
                left: n - passed,
            };
            return if k == key { Ok(place) } else { Err(place) };
        }
        p += count_from(area, p, c, depth);
    }
    Err(Place { at: p, left: 0 })
}

impl IntMap {
    // A map with no entries, at a place.
    pub fn new(base: usize) -> IntMap
        ensures { result ≡ empty base }
    {
        IntMap {
            base,
            len: 0,
            used: 0,
        }
    }

    // Looks for a key among the entries.
    pub fn find(self, area: &[u8], key: u64) -> Result<Place, Place>
        requires { IsMap (cells area.now) self }
        ensures { result ≡ seek (cells area.now) levels key self.len self.base }
    {
        find_from(area, self.base, self.len, key, LEVELS)
    }

    // Makes room for n cells in the place of the `old` cells at `at`, with `len` entries then, unless that makes more than `limit` cells.
    fn make_room(
        self,
        area: &mut [u8],
        at: usize,
        old: usize,
        n: usize,
        len: u64,
        limit: usize,
    ) -> Result<IntMap, Refusal>
        requires { HasRoom (cells area.old) limit self × (self.base ≤ at) × (at + old ≤ self.base + self.used) × (n ≤ 1048576) }
        ensures { RoomMade (cells area.old) (cells area.new) limit self at old n len result }
    {
        let base = self.base;
        let before = self.used;
        let used = before - old + n;
        if limit < used {
            return Err(Refusal::TooManyCells);
        }
        area::move_cells(area, at + old, at + n, base + before - at - old);
        Ok(IntMap { base, len, used })
    }

    // Makes room for an entry of n cells where a search led, in the place of the one that is there, unless that makes more than `limit` cells.
    fn room_at(
        self,
        area: &mut [u8],
        found: Result<Place, Place>,
        n: usize,
        limit: usize,
    ) -> Result<IntMap, Refusal>
        requires { HasRoom (cells area.old) limit self × (n ≤ 1048576) × IsFound (cells area.old) self found }
        ensures { Opens (cells area.old) (cells area.new) limit self found n result }
    {
        match found {
            Ok(place) => {
                let c = area::cell_at(area, place.at);
                let old = count_from(area, place.at, c, LEVELS);
                self.make_room(area, place.at, old, n, self.len, limit)
            }
            Err(place) => self.make_room(area, place.at, 0, n, self.len + 1, limit),
        }
    }

    // Puts a cell that is no record in the place of the entry that a search for its key found.
    fn replace(
        self,
        area: &mut [u8],
        place: Place,
        c: Cell,
        limit: usize,
    ) -> Result<IntMap, Refusal>
        requires { HasRoom (cells area.old) limit self × (tag_of c ≡ 2 → ⊥) × (Ok place ≡ seek (cells area.old) levels (key_of c) self.len self.base) }
        ensures { Inserts (cells area.old) (cells area.new) limit self (c ∷ []) result }
    {
        let map = self.room_at(area, Ok(place), 1, limit)?;
        area::put_cell(area, place.at, c);
        Ok(map)
    }

    // Puts a cell that is no record under its key, where a search for that led and found none.
    pub fn insert_new(
        self,
        area: &mut [u8],
        at: usize,
        c: Cell,
        limit: usize,
    ) -> Result<IntMap, Refusal>
        requires { HasRoom (cells area.old) limit self × (tag_of c ≡ 2 → ⊥) × NewAt (cells area.old) self (key_of c) at }
        ensures { Inserts (cells area.old) (cells area.new) limit self (c ∷ []) result }
    {
        if limit <= self.used {
            return Err(Refusal::TooManyCells);
        }
        area::move_cells(area, at, at + 1, self.base + self.used - at);
        area::put_cell(area, at, c);
        Ok(IntMap {
            base: self.base,
            len: self.len + 1,
            used: self.used + 1,
        })
    }

    // Puts a cell that is no record under its key: where there is none, or in the place of another, without a call that takes or gives a struct.
    pub fn insert_cell(self, area: &mut [u8], c: Cell, limit: usize) -> Result<IntMap, Refusal>
        requires { HasRoom (cells area.old) limit self × (tag_of c ≡ 2 → ⊥) }
        ensures { Inserts (cells area.old) (cells area.new) limit self (c ∷ []) result }
    {
        match self.find(area, key_of(c)) {
            Ok(place) => {
                if tag_of(area::cell_at(area, place.at)) == RECORD {
                    return self.replace(area, place, c, limit);
                }
                area::put_cell(area, place.at, c);
                Ok(self)
            }
            Err(place) => self.insert_new(area, place.at, c, limit),
        }
    }

    // Puts the run of n cells at `from`, above the map's room, under a key, where a search for it led. The run there keeps its own key.
    pub fn insert_run_at(
        self,
        area: &mut [u8],
        found: Result<Place, Place>,
        key: u64,
        from: usize,
        n: usize,
        limit: usize,
    ) -> Result<IntMap, Refusal>
        requires { HasRoom (cells area.old) limit self × RunAbove (cells area.old) limit self from n × (key < 1099511627776) × (found ≡ seek (cells area.old) levels key self.len self.base) }
        ensures { Inserts (cells area.old) (cells area.new) limit self (rekey key (span (cells area.old) from n)) result }
    {
        let c = area::cell_at(area, from);
        let map = self.room_at(area, found, n, limit)?;
        let (Ok(place) | Err(place)) = found;
        area::move_cells(area, from, place.at, n);
        area::put_cell(area, place.at, with_key(c, key));
        Ok(map)
    }

    // The same after a search.
    pub fn insert_run(
        self,
        area: &mut [u8],
        key: u64,
        from: usize,
        n: usize,
        limit: usize,
    ) -> Result<IntMap, Refusal>
        requires { HasRoom (cells area.old) limit self × RunAbove (cells area.old) limit self from n × (key < 1099511627776) }
        ensures { Inserts (cells area.old) (cells area.new) limit self (rekey key (span (cells area.old) from n)) result }
    {
        let found = self.find(area, key);
        self.insert_run_at(area, found, key, from, n, limit)
    }

    // Puts such a run under a key behind all entries, whose keys are lower.
    pub fn append_run(
        self,
        area: &mut [u8],
        key: u64,
        from: usize,
        n: usize,
        limit: usize,
    ) -> Result<IntMap, Refusal>
        requires { HasRoom (cells area.old) limit self × RunAbove (cells area.old) limit self from n × (key < 1099511627776) × NewAt (cells area.old) self key (self.base + self.used) }
        ensures { Inserts (cells area.old) (cells area.new) limit self (rekey key (span (cells area.old) from n)) result }
    {
        if limit < self.used + n {
            return Err(Refusal::TooManyCells);
        }
        let end = self.base + self.used;
        let c = area::cell_at(area, from);
        area::move_cells(area, from, end, n);
        area::put_cell(area, end, with_key(c, key));
        Ok(IntMap {
            base: self.base,
            len: self.len + 1,
            used: self.used + n,
        })
    }

    // Takes the entry with a key out.
    pub fn remove(self, area: &mut [u8], key: u64) -> IntMap
        requires { IsMap (cells area.old) self }
        ensures { Removes (cells area.old) (cells area.new) self key result }
    {
        let Ok(place) = self.find(area, key) else {
            return self;
        };
        let at = place.at;
        let c = area::cell_at(area, at);
        let old = count_from(area, at, c, LEVELS);
        area::move_cells(area, at + old, at, self.base + self.used - at - old);
        IntMap {
            base: self.base,
            len: self.len - 1,
            used: self.used - old,
        }
    }

    // Stores a cell that is no record under index i of a class.
    pub fn store_cell(
        self,
        area: &mut [u8],
        class: Class,
        i: u64,
        c: Cell,
        limit: usize,
    ) -> Result<IntMap, Refusal>
        requires { HasRoom (cells area.old) limit self × (tag_of c ≡ 2 → ⊥) }
        ensures { Stores (cells area.old) (cells area.new) limit self (class_number class) i 0 (c ∷ []) result }
    {
        let k = judge_index(i)?;
        self.insert_cell(area, with_key(c, class_key(class, k)), limit)
    }

    // Stores the run at `from`, above the map's room, under index i of a class. Its depth is judged before its cells.
    pub fn store_run(
        self,
        area: &mut [u8],
        class: Class,
        i: u64,
        from: usize,
        limit: usize,
    ) -> Result<IntMap, Refusal>
        requires { HasRoom (cells area.old) limit self × RunAbove (cells area.old) limit self from (size (cells area.old) levels from) }
        ensures { Stores (cells area.old) (cells area.new) limit self (class_number class) i (nesting (cells area.old) levels from) (span (cells area.old) from (size (cells area.old) levels from)) result }
    {
        let k = judge_index(i)?;
        if 8 < depth_of(area, from, LEVELS) {
            return Err(Refusal::TooDeep);
        }
        let n = count(area, from, LEVELS);
        self.insert_run(area, class_key(class, k), from, n, limit)
    }

    // Takes the entry of index i in a class out.
    pub fn remove_at(self, area: &mut [u8], class: Class, i: u64) -> Result<IntMap, Refusal>
        requires { IsMap (cells area.old) self }
        ensures { RemovesAt (cells area.old) (cells area.new) self (class_number class) i result }
    {
        let k = judge_index(i)?;
        Ok(self.remove(area, class_key(class, k)))
    }

    // Whether two maps have the same entries. States that are compared are nearly always the same, and then all their cells are.
    pub fn eq(self, area: &[u8], other: IntMap) -> bool
        requires { IsMap (cells area.now) self × IsMap (cells area.now) other }
        ensures { Compares (cells area.now) self other result }
    {
        if self.len != other.len {
            return false;
        }
        if self.used == other.used {
            if same_cells(area, self.base, other.base, self.used) {
                return true;
            }
        }
        record_eq(area, self.base, other.base, self.len, LEVELS)
    }

    // Where the entry of index i in a class is.
    pub fn get(self, area: &[u8], class: Class, i: u64) -> Result<Option<usize>, Refusal>
        requires { IsMap (cells area.now) self }
        ensures { Gets (cells area.now) self (class_number class) i result }
    {
        let k = judge_index(i)?;
        match self.find(area, class_key(class, k)) {
            Ok(place) => Ok(Some(place.at)),
            Err(_) => Ok(None),
        }
    }

    // Copies the entries to another place, which may overlap.
    pub fn copy_to(self, area: &mut [u8], to: usize) -> IntMap
        requires { IsMap (cells area.old) self × (to + self.used ≤ length (cells area.old)) }
        ensures { CopiedMap (cells area.old) (cells area.new) self to result }
    {
        area::move_cells(area, self.base, to, self.used);
        IntMap {
            base: to,
            len: self.len,
            used: self.used,
        }
    }
}
