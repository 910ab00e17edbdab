// The listing's rows in the area, a cell each: the walk reads a row from its cell, and never looks at the listing again.
#![tactic(auto)]

ghost use Rattle.std.specs.Prelude.{◌≡◌, ◌+◌, get_or, set};
ghost use Rattle.area.specs.Cells.{blank, cells, Inside, CellsNow};
ghost use Rattle.rows.specs.Parts.{Operand};
ghost use Rattle.rows.specs.Rows.{parts, function_number, p4_number, p4_at, cell_of, row_in};
ghost use Rattle.rows.specs.Judged.{listed, Judged};

mod row;

use area::Cell;
use opcode::{Aggregate, FunctionValue, Operation, P4};
pub use row::Row;

impl Row {
    // What P4 says, if it is UTF-8.
    pub fn read_p4(self) -> Option<P4>
        ensures { result ≡ p4_at self.p4 }
    {
        unpack_p4(self.p4)
    }
}

// Where rows are in the area, and how many: a cell each, from `from` on.
#[derive(Clone, Copy)]
pub struct Rows {
    pub from: usize,
    pub count: usize,
}

impl Rows {
    // Row i of them.
    pub fn row_at(self, area: &[u8], i: usize) -> Row
        requires { Inside area.now (self.from + i) 1 }
        ensures { parts result ≡ row_in (get_or (cells area.now) (self.from + i) blank) }
    {
        unpack_row(area::cell_at(area, self.from + i))
    }
}

// The word of −2^31, the least operand.
const LEAST: u64 = 9223372034707292160;

// Judges a row by its operation's name and its P4.
pub fn judge(name: &[u8], p1: u64, p2: u64, p3: u64, p4: &[u8]) -> Row
    requires { Operand p1 × Operand p2 × Operand p3 }
    ensures { Judged (listed name.now p1 p2 p3 p4.now) result }
{
    Row {
        op: opcode::opcode(name),
        p4: pack_p4(opcode::judge(p4)),
        p1,
        p2,
        p3,
    }
}

// A function's number, 0 for none: a byte of the row's cell.
fn pack_function(f: Option<FunctionValue>) -> u64
    ensures { result ≡ function_number f }
{
    f.map_or(0, |value| value as u64)
}

// A P4 as three bytes: 1 if it is UTF-8, the function's number, and the aggregate's.
fn pack_p4(p4: Option<P4>) -> u64
    ensures { result ≡ p4_number p4 }
{
    match p4 {
        None => 0,
        Some(x) => 1 + 256 * pack_function(x.function) + 65536 * x.aggregate as u64,
    }
}

fn unpack_p4(n: u64) -> Option<P4>
    ensures { result ≡ p4_at n }
{
    if n % 256 != 1 {
        return None;
    }
    Some(P4 {
        function: FunctionValue::try_from(n / 256 % 256).ok(),
        aggregate: Aggregate::from(n / 65536 % 256),
    })
}

// The row in one cell: an operand takes 32 bits, the operation a byte, and P4 three.
pub fn pack_row(r: Row) -> Cell
    ensures { result ≡ cell_of (parts r) }
{
    Cell {
        head: r.op as u64 + 256 * r.p4 + 4294967296 * (r.p1 - LEAST),
        payload: (r.p2 - LEAST) + 4294967296 * (r.p3 - LEAST),
    }
}

// The row that a cell has.
pub fn unpack_row(c: Cell) -> Row
    ensures { parts result ≡ row_in c }
{
    Row {
        op: Operation::from((c.head % 256) as u8),
        p4: c.head / 256 % 16777216,
        p1: c.head / 4294967296 + LEAST,
        p2: c.payload % 4294967296 + LEAST,
        p3: c.payload / 4294967296 + LEAST,
    }
}

// Makes r row i of those that begin at the cell `from`.
pub fn put_row(area: &mut [u8], from: usize, i: usize, r: Row)
    requires { Inside area.old (from + i) 1 }
    ensures { CellsNow area.old area.new (set (cells area.old) (from + i) (cell_of (parts r))) }
{
    area::put_cell(area, from + i, pack_row(r));
}
