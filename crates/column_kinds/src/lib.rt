// The call: what each result column of a listing is, and whether it may be blank.
#![tactic(auto)]

ghost use Rattle.std.specs.Prelude.{◌≡◌, ◌≤◌, replicate};
ghost use Rattle.column_kinds.specs.Calls.{Calls, Describes};
ghost use Rattle.column_kinds.specs.Inner.{serves, RowRoom, Prepared, WalksRows, Writable, WritesWalk, MayWalk, Catalogued, AnswersRows, CallsInner};
ghost use Rattle.root_block.specs.Build.{Indexable};

use branches::BranchList;
use counters::Counters;
use intmap::IntMap;
use merge::Columns;
use refusal::Refusal;
use root_block::Blocks;
use state::MemoryState;
use walk::{Program, Walk};

// The limit of cells, and the units that a walk has.
const LIMIT: usize = 512;

const GAS: u64 = 100000;

// Whether an area of so many bytes serves so many rows.
fn serves(bytes: usize, rows: usize) -> bool
    requires { rows ≤ 2048 }
    ensures { result ≡ serves bytes rows }
{
    16 * (2 * LIMIT + 2 * rows) <= bytes && bytes <= 16777216
}

// How many rows an area of so many bytes has room for; none if it is larger than may be lent.
fn row_room(bytes: usize) -> usize
    ensures { RowRoom bytes result }
{
    if 16777216 < bytes {
        return 0;
    }
    let cells = bytes / 16;
    if cells < 2 * LIMIT {
        return 0;
    }
    (cells - 2 * LIMIT) / 2
}

// The walk over n rows that are in the area, from the fresh start to its end: all its units are its budget, so that it does not pause.
fn walk_rows(
    area: &mut [u8],
    columns: &mut Columns<2000>,
    blocks: Blocks<'_>,
    n: usize,
) -> Result<Walk, Refusal>
    requires { Prepared blocks.bytes.now area.old columns.old n }
    ensures { WalksRows blocks.entry.bytes.now area.old area.new columns.new n result }
{
    let mut w = Walk {
        gas: GAS,
        counts: Counters::default(),
        branches: BranchList::new(LIMIT + LIMIT + n + n),
    };
    if n == 0 {
        return Ok(w);
    }
    let map = IntMap::new(0);
    let s = MemoryState {
        row: intmap::ZERO,
        map,
    };
    let p = Program {
        limit: LIMIT,
        size: n,
    };
    w.run(s, area, columns, blocks, p, GAS)?;
    Ok(w)
}

// The answer of a walk that was answered, or the refusal.
fn write_walk(
    answer: &mut [u8],
    columns: &Columns<2000>,
    x: Result<Walk, Refusal>,
) -> Result<usize, Refusal>
    requires { Writable x }
    ensures { WritesWalk columns.now x answer.old answer.new result }
{
    let w = x?;
    answer::write_answer(answer, columns.as_slice(), &w.counts)
}

// The walk over n rows that are in the area, and its answer. The catalogue's columns are made blocks of N bytes first.
fn answer_rows<const N: usize>(
    catalogue: &[u8],
    work: &mut [u8],
    answer: &mut [u8],
    n: usize,
) -> Result<usize, Refusal>
    requires { MayWalk work.old n × Indexable catalogue.now (replicate N 0) }
    ensures { AnswersRows catalogue.now work.old work.new answer.old answer.new n result }
{
    area::clear_counts(work, 2 * LIMIT + n, n);
    let mut bytes = [0u8; N];
    root_block::root_block_columns(catalogue, &mut bytes);
    let blocks = Blocks { bytes: &bytes };
    let mut columns = Columns::new();
    let x = walk_rows(work, &mut columns, blocks, n);
    write_walk(answer, &columns, x)
}

// The same, with as many blocks as so many records may take: clearing those for the most would be the larger part of a short call.
fn answer_with(
    catalogue: &[u8],
    records: usize,
    work: &mut [u8],
    answer: &mut [u8],
    n: usize,
) -> Result<usize, Refusal>
    requires { MayWalk work.old n × Catalogued catalogue.now records }
    ensures { AnswersRows catalogue.now work.old work.new answer.old answer.new n result }
{
    match records {
        0..=16 => answer_rows::<256>(catalogue, work, answer, n),
        17..=256 => answer_rows::<4096>(catalogue, work, answer, n),
        _ => answer_rows::<65536>(catalogue, work, answer, n),
    }
}

// The refusals in their order, and then the walk. The rows are laid down in the area while they are read, as far as there is room.
fn call(
    listing: &[u8],
    catalogue: &[u8],
    area: &mut [u8],
    answer: &mut [u8],
) -> Result<usize, Refusal>
    ensures { CallsInner listing.now catalogue.now area.old area.new answer.old answer.new result }
{
    let room = row_room(area.len());
    let rows = listing::read_listing(listing, area, 2 * LIMIT, room)?;
    let records = catalogue::count_records(catalogue)?;
    if serves(area.len(), rows) {
        return answer_with(catalogue, records, area, answer, rows);
    }
    Err(Refusal::AreaSize)
}

// Writes what the columns of a listing are into `answer`, and says how long that is, or why the call is refused: the call for Rattle. The area is
// zero afterwards.
pub fn describe_columns(
    listing: &[u8],
    catalogue: &[u8],
    area: &mut [u8],
    answer: &mut [u8],
) -> Result<usize, Refusal>
    ensures { Describes listing.now catalogue.now area.old area.new answer.old answer.new result }
{
    let answered = call(listing, catalogue, area, answer);
    area::clear(area);
    answered
}

// The same in one number, which C takes: 0 or that of a refusal, × 4,294,967,296, + length.
pub fn column_kinds(listing: &[u8], catalogue: &[u8], area: &mut [u8], answer: &mut [u8]) -> u64
    ensures { Calls listing.now catalogue.now area.old area.new answer.old answer.new result }
{
    match describe_columns(listing, catalogue, area, answer) {
        Err(refusal) => refusal.number() * 4294967296,
        Ok(length) => length as u64,
    }
}
