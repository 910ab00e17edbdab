// A row of the listing. It has a file of its own, since a struct with a ghost field imports what its file imports, and rows/specs names it.

ghost use Rattle.rows.specs.Parts.{Fits};

use opcode::Operation;

// A row whose operation and P4 were judged. P4 stands as in a cell, since most arms never read it; an operand p, a signed number of 32 bits,
// stands as p + 2^63.
#[derive(Clone, Copy, Debug, PartialEq, Eq)]
pub struct Row {
    pub op: Operation,
    pub p4: u64,
    pub p1: u64,
    pub p2: u64,
    pub p3: u64,
    pub ghost fits: { Fits p4 p1 p2 p3 },
}
