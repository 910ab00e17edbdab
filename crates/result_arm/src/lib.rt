// The arm of `explain` for ResultRow, OP_RESULT_ROW, as far as it is judged: which registers make the row. Translated from sqlx-sqlite 0.9.0,
// src/connection/explain.rs.
#![tactic(auto)]

ghost use Rattle.result_arm.specs.Results.{JudgesRow};

use refusal::Refusal;
use rows::Row;
use state::Registers;

// How many columns a result row may have.
pub const WIDEST: u64 = 2000;

// ResultRow: the columns of the row are the P2 registers from P1 on, none if P2 is negative. Its width is judged before they are read.
#[tactic(auto, using(crate::proofs::ResultLaws::row_wide))]
pub fn result_row(x: Row) -> Result<Registers, Refusal>
    ensures { JudgesRow x result }
{
    let count = x.p2.saturating_sub(intmap::ZERO);
    if WIDEST < count {
        return Err(Refusal::TooWide);
    }
    record_arms::judge_range(x.p1, count)
}
