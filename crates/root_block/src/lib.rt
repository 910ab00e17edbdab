// The columns of the catalogue's tables: `root_block_columns` of sqlx-sqlite 0.9.0, src/connection/explain.rs. The Rust gathers them in a map by
// database and page; here the records become cells of a buffer that the caller lends, linked by their pages.
#![tactic(auto)]

ghost use Rattle.std.specs.Prelude.{◌≡◌, not, ◌%◌, ◌<◌, ◌≤◌, length, get_or, Some};
ghost use Rattle.area.specs.Cells.{blank, cells, Inside, CellsNow};
ghost use Rattle.catalogue.specs.Records.{record_of};
ghost use Rattle.root_block.specs.Blocks.{next_of, first_of, leads_to};
ghost use Rattle.root_block.specs.Build.{Indexable, Indexed, IsColumn, Unlinked, Stand, linked, linked_all};

mod blocks;

use area::Cell;
pub use blocks::Blocks;
use catalogue::{Record, Records};
use type_info::DataType;

// A payload is a page, and PAGES times its database, and LINK times the link to the bucket's next record.
pub const PAGES: u64 = 2147483648;

// See PAGES.
pub const LINK: u64 = 4294967296;

// A head is a column's head, and COLUMN times the link to a bucket's first record.
pub const COLUMN: u64 = 1099511627776;

// The cell of a record's column, under its number.
fn column_of(r: Record) -> Cell
    requires { r.col ≤ 65535 }
    ensures { IsColumn r.entry result }
{
    let d = DataType::from_str(r.declared);
    intmap::with_key(state::single(d, Some(!r.notnull)), r.col)
}

// The cell of a record, with no links.
fn block_of(r: Record) -> Cell
    requires { (r.db ≤ 1) × (r.page ≤ 2147483647) × (r.col ≤ 65535) }
    ensures { Unlinked result (record_of r.entry) }
{
    let c = column_of(r);
    Cell {
        head: c.head,
        payload: r.page + PAGES * r.db,
    }
}

// Writes the catalogue's records into the first cells, and says how many they are.
fn read_records(catalogue: &[u8], blocks: &mut [u8]) -> usize
    requires { Indexable catalogue.now blocks.old }
    ensures { Stand catalogue.now blocks.old blocks.new result }
{
    let mut n: usize = 0;
    for record in Records::new(catalogue) {
        // Never so: what is asked rules out a record that is ill-formed.
        let Ok(r) = record else {
            return n;
        };
        area::put_cell(blocks, n, block_of(r));
        n += 1;
    }
    n
}

// The bucket of a page's word.
fn bucket(blocks: &[u8], page: u64) -> usize
    requires { 0 < length (cells blocks.now) }
    ensures { result ≡ page % length (cells blocks.now) }
{
    (page % ((blocks.len() / 16) as u64)) as usize
}

// The link to the first record in the bucket of a page's word, of blocks that may be in the making. The word itself, 0 for none, since it is
// stored again as it is.
pub fn first_link(blocks: &[u8], page: u64) -> usize
    requires { (0 < length (cells blocks.now)) × (length (cells blocks.now) ≤ 1048576) }
    ensures { (result ≡ first_of (get_or (cells blocks.now) (page % length (cells blocks.now)) blank)) × (result < 16777216) }
{
    let c = area::cell_at(blocks, bucket(blocks, page));
    (c.head / COLUMN) as usize
}

// Where a link leads, if it leads to a record.
fn leads_to(link: usize) -> Option<usize>
    ensures { result ≡ leads_to link }
{
    (link != 0).then_some(link)
}

// The link of a record's cell to the next of its bucket, if there is one.
pub fn next_link(c: Cell) -> Option<usize>
    ensures { result ≡ leads_to (next_of c) }
{
    leads_to((c.payload / LINK) as usize)
}

// Links the record in cell i before those of its bucket.
fn link_record(blocks: &mut [u8], i: usize)
    requires { Inside blocks.old i 1 }
    ensures { CellsNow blocks.old blocks.new (linked (cells blocks.old) i) }
{
    let c = area::cell_at(blocks, i);
    let page = intmap::ZERO + c.payload % PAGES;
    let first = first_link(blocks, page) as u64;
    area::put_cell(
        blocks,
        i,
        Cell {
            head: c.head,
            payload: c.payload % LINK + LINK * first,
        },
    );
    let b = bucket(blocks, page);
    let d = area::cell_at(blocks, b);
    area::put_cell(
        blocks,
        b,
        Cell {
            head: d.head % COLUMN + COLUMN * (i as u64 + 1),
            payload: d.payload,
        },
    );
}

// Links the records of the first n cells, the last first, so that each bucket has its own in the catalogue's order.
fn link_records(blocks: &mut [u8], n: usize)
    requires { Inside blocks.old 0 n }
    ensures { CellsNow blocks.old blocks.new (linked_all (cells blocks.old) n) }
{
    for i in (0..n).rev() {
        link_record(blocks, i);
    }
}

// Makes the blocks of the catalogue.
pub fn root_block_columns(catalogue: &[u8], blocks: &mut [u8])
    requires { Indexable catalogue.now blocks.old }
    ensures { Indexed catalogue.now blocks.old blocks.new }
{
    let n = read_records(catalogue, blocks);
    link_records(blocks, n);
}
