// The arm of `explain` that opens a cursor on a table of the catalogue: OP_OPEN_READ, OP_OPEN_WRITE. Translated from sqlx-sqlite 0.9.0,
// src/connection/explain.rs. The table's columns, which the Rust takes from its map, are gathered from the blocks of the page (see root_block), in
// the room behind the map.
#![tactic(auto)]

ghost use Rattle.std.specs.Prelude.{◌≡◌, ◌&&◌, ◌+◌, ◌≤◌, pos, length};
ghost use Rattle.model.specs.Equality.{eq_int};
ghost use Rattle.area.specs.Cells.{cells};
ghost use Rattle.intmap.specs.Signed.{int_of};
ghost use Rattle.state.specs.Stores.{IsCurrent, Changes};
ghost use Rattle.read_arm.specs.Gathers.{block_for, at_page, at_database, Gathers, ReadsTable};

use area::Cell;
use intmap::IntMap;
use refusal::Refusal;
use root_block::Blocks;
use rows::Row;
use state::Store;

// Whether a record's database and page are the row's.
fn is_for(db: u64, page: u64, x: Row) -> bool
    requires { (db ≤ 1) × (page ≤ 2147483647) }
    ensures { result ≡ (eq_int (pos db) (int_of x.p3) && eq_int (pos page) (int_of x.p2)) }
{
    if intmap::ZERO + db != x.p3 {
        return false;
    }
    intmap::ZERO + page == x.p2
}

// Whether the record in a cell is one for the row.
fn is_block_for(c: Cell, x: Row) -> bool
    ensures { result ≡ block_for c x }
{
    let payload = c.payload;
    let db = payload / root_block::PAGES % 2;
    let page = payload % root_block::PAGES;
    is_for(db, page, x)
}

// Gathers the columns of the row's database and page from `base` on, in at most `limit` cells: a later record takes the place of an earlier one
// for the same column. All keys in the map are below `bound`, so a column that is not goes behind all with no search: most records come in the
// order of their columns.
fn columns_at(
    area: &mut [u8],
    blocks: Blocks<'_>,
    base: usize,
    x: Row,
    limit: usize,
) -> Result<IntMap, Refusal>
    requires { (base + limit ≤ length (cells area.old)) × (length (cells area.old) ≤ 1048576) }
    ensures { Gathers limit (cells area.old) (cells area.new) base blocks.entry.bytes.now (at_page x) result }
{
    let mut m = IntMap::new(base);
    let mut bound: u64 = 0;
    let mut link = blocks.first_link(x.p2);
    // A `while let`: an iterator of the links, as `catalogue::Records` is one of records, would have to carry in a ghost field that each leads to a
    // cell and further on, for this one loop.
    while let Some(at) = link {
        let c = blocks.record_at(at);
        link = root_block::next_link(c);
        if !is_block_for(c, x) {
            continue;
        }
        let column = Cell {
            head: c.head % root_block::COLUMN,
            payload: 0,
        };
        let key = intmap::key_of(column);
        if bound <= key {
            m = m.insert_new(area, m.base + m.used, column, limit)?;
            bound = key + 1;
            continue;
        }
        m = m.insert_cell(area, column, limit)?;
    }
    Ok(m)
}

// The same, and none if P3 is no database.
fn opened_columns(
    area: &mut [u8],
    blocks: Blocks<'_>,
    base: usize,
    x: Row,
    limit: usize,
) -> Result<IntMap, Refusal>
    requires { (base + limit ≤ length (cells area.old)) × (length (cells area.old) ≤ 1048576) }
    ensures { Gathers limit (cells area.old) (cells area.new) base blocks.entry.bytes.now (at_database x) result }
{
    if x.p3 < intmap::ZERO {
        return Ok(IntMap::new(base));
    }
    if intmap::ZERO + 1 < x.p3 {
        return Ok(IntMap::new(base));
    }
    columns_at(area, blocks, base, x, limit)
}

// OpenRead, OpenWrite: cursor P1 on the table of page P2 in database P3. It is not known whether it is empty.
pub fn open_read(store: &mut Store, blocks: Blocks<'_>, row: u64, x: Row) -> Result<(), Refusal>
    requires { IsCurrent store.old × (row ≤ 65535) × (store.old.limit ≤ 65535) }
    ensures { Changes (λ limit cs ds a r. ReadsTable limit cs ds a blocks.entry.bytes.now row x r) store.old store.new result }
{
    let limit = store.limit;
    if limit == 0 {
        return Err(Refusal::TooManyCells);
    }
    let from = store.map.base + limit;
    let m = opened_columns(store.area, blocks, from + 1, x, limit - 1)?;
    store.put_cell(from, state::columns_head(m.len, None));
    open_arms::open_table(store, row, x.p1, from, 1 + m.used)
}
