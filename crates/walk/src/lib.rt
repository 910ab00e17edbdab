// The walk over a listing: `explain` of sqlx-sqlite 0.9.0, src/connection/explain.rs.
#![tactic(auto)]

ghost use Rattle.std.specs.Prelude.{◌≡◌, ◌+◌, ◌<◌, ◌^◌, Some};
ghost use Rattle.area.specs.Cells.{cells};
ghost use Rattle.jump_arms.specs.Arms.{Ready};
ghost use Rattle.in_place.specs.InPlace.{HandlesNear};
ghost use Rattle.branches.specs.Header.{link_of};
ghost use Rattle.explain.specs.Handles.{row_on};
ghost use Rattle.walk.specs.Walks.{in_listing, rows_from, first_from, layout_of};
ghost use Rattle.walk.specs.Loop.{MayTurn, TurnsOn, Walking, Takes, TakesUp, GoesOn, Holding, Turning, Offering, AddsBranch, MayOffer, AddsWay, note_repeated, FollowsWays, AddsThree, FollowsThree, Resulting, FollowsResult, MayFollow, Follows, charge_one, Standing, Turns, Closes, ClosesCurrent, Running, Runs, KeptIfRefused};

use branches::{BranchList, Layout};
use counters::Counters;
use explain::Handling;
use merge::Columns;
use opcode::Operation;
use refusal::Refusal;
use root_block::Blocks;
use rows::{Row, Rows};
use state::{MemoryState, Registers, Ways};

// The listing's rows, so many, behind the rooms of two states of at most `limit` cells.
#[derive(Clone, Copy)]
pub struct Program {
    pub limit: usize,
    pub size: usize,
}

// A walk between rows: the units left, the four counts, and the branches. The program is no field of it: the contract of each method would have
// to say that it stays.
#[derive(Clone, Copy)]
pub struct Walk {
    pub gas: u64,
    pub counts: Counters,
    pub branches: BranchList,
}

impl Program {
    // Where the current lineage's counts are: behind the rows.
    fn layout(self) -> Layout
        requires { first_from self < 2 ^ 64 }
        ensures { result ≡ layout_of self }
    {
        Layout {
            counts: self.limit + self.limit + self.size,
            rows: self.size,
            limit: self.limit,
        }
    }
}

// Whether a row's word is that of a row of the listing.
fn in_listing(row: u64, p: Program) -> bool
    ensures { result ≡ in_listing row p }
{
    intmap::ZERO <= row && row - intmap::ZERO < p.size as u64
}

// Where the state goes on to, if the row is handled in place.
fn next_in_place(s: MemoryState, area: &mut [u8], x: Row, p: Program) -> Option<u64>
    requires { Ready p.limit (cells area.old) s }
    ensures { HandlesNear (cells area.old) (cells area.new) s.row s.map.base (s.map.base + s.map.used) x.op x.p1 x.p2 x.p3 p.size result }
{
    let m = s.map;
    let end = m.base + m.used;
    in_place::next_row(area, s.row, m.base, end, x.op, x.p1, x.p2, x.p3, p.size)
}

impl Walk {
    // A branch at a state is dropped or remembered.
    fn add_branch(&mut self, area: &mut [u8], p: Program, s: MemoryState) -> Result<(), Refusal>
        requires { Holding p area.old self.old × Offering p area.old self.old s }
        ensures { AddsBranch p area.old area.new self.old self.new s result }
    {
        self.branches.push(area, s, p.layout())
    }

    // At most one branch.
    fn add_way(
        &mut self,
        area: &mut [u8],
        p: Program,
        branch: &Option<MemoryState>,
    ) -> Result<(), Refusal>
        requires { Holding p area.old self.old × MayOffer p area.old self.old branch.now }
        ensures { AddsWay p area.old area.new self.old self.new branch.now result }
    {
        match branch {
            None => Ok(()),
            Some(s) => self.add_branch(area, p, *s),
        }
    }

    // Three branches in their order.
    fn add_three(
        &mut self,
        area: &mut [u8],
        p: Program,
        a: MemoryState,
        b: MemoryState,
        c: MemoryState,
    ) -> Result<(), Refusal>
        requires { Holding p area.old self.old × Offering p area.old self.old a × Offering p area.old self.old b × Offering p area.old self.old c }
        ensures { AddsThree p area.old area.new self.old self.new a b c result }
    {
        self.add_branch(area, p, a)?;
        self.add_branch(area, p, b)?;
        self.add_branch(area, p, c)
    }

    // The latest branch that waits and stands on a row: its place, and it waits no more. Those that wait outside the listing end.
    fn take(&mut self, area: &[u8], p: Program) -> Option<usize>
        requires { Walking p area.now self.old }
        ensures { Takes p area.now self.old self.new result }
    {
        // A `while let`: the area alone tells how many wait, so that no range counts them.
        while let Some(at) = self.branches.pop(area) {
            if in_listing(branches::row_at(area, at), p) {
                return Some(at);
            }
        }
        None
    }

    // That branch is current: its state, or none where no lineage is left.
    fn take_up(&mut self, area: &mut [u8], p: Program) -> Option<MemoryState>
        requires { Walking p area.old self.old }
        ensures { TakesUp p area.old area.new self.old self.new result }
    {
        let at = self.take(area, p)?;
        Some(branches::load(area, at, 0, p.layout()))
    }

    // The state is current, if it stands on a row, or else what waits is taken up.
    fn go_on(&mut self, area: &mut [u8], p: Program, s: &MemoryState) -> Option<MemoryState>
        requires { Walking p area.old self.old }
        ensures { GoesOn p area.old area.new self.old self.new (Some s.now) result }
    {
        if in_listing(s.row, p) {
            return Some(*s);
        }
        self.take_up(area, p)
    }

    // The state that goes on, if one does.
    fn go_on_way(
        &mut self,
        area: &mut [u8],
        p: Program,
        stays: &Option<MemoryState>,
    ) -> Option<MemoryState>
        requires { Walking p area.old self.old }
        ensures { GoesOn p area.old area.new self.old self.new stays.now result }
    {
        match stays {
            None => self.take_up(area, p),
            Some(s) => self.go_on(area, p, s),
        }
    }

    // One repeat more, where a handling counts as one.
    fn note_repeat(&mut self, repeat: bool)
        requires { self.old.counts.repeats < 4294967296 }
        ensures { self.new ≡ note_repeated self.old repeat }
    {
        if repeat {
            self.counts.note_repeat();
        }
    }

    // At most one branch is offered, and then the state that goes on is current.
    #[inline(always)]
    fn follow_ways(
        &mut self,
        area: &mut [u8],
        p: Program,
        ways: &Ways,
        repeat: bool,
    ) -> Result<Option<MemoryState>, Refusal>
        requires { Turning p area.old self.old × MayOffer p area.old self.old ways.now.branch }
        ensures { FollowsWays p area.old area.new self.old self.new ways.now.branch ways.now.stays repeat result }
    {
        self.add_way(area, p, &ways.branch)?;
        self.note_repeat(repeat);
        Ok(self.go_on_way(area, p, &ways.stays))
    }

    // Three branches are offered, and then the state that goes on is current.
    fn follow_three(
        &mut self,
        area: &mut [u8],
        p: Program,
        a: MemoryState,
        b: MemoryState,
        c: MemoryState,
        stays: MemoryState,
    ) -> Result<Option<MemoryState>, Refusal>
        requires { Turning p area.old self.old × Offering p area.old self.old a × Offering p area.old self.old b × Offering p area.old self.old c }
        ensures { FollowsThree p area.old area.new self.old self.new a b c stays result }
    {
        self.add_three(area, p, a, b, c)?;
        Ok(self.go_on(area, p, &stays))
    }

    // A result row is merged into the columns, its branch is offered, and the next that waits is current.
    fn follow_result(
        &mut self,
        area: &mut [u8],
        columns: &mut Columns<2000>,
        p: Program,
        branch: MemoryState,
        row: Registers,
    ) -> Result<Option<MemoryState>, Refusal>
        requires { Turning p area.old self.old × Resulting p area.old columns.old self.old branch row }
        ensures { FollowsResult p area.old area.new columns.old columns.new self.old self.new branch row result }
    {
        columns.merge_row(branch.map, area, row);
        self.add_branch(area, p, branch)?;
        Ok(self.take_up(area, p))
    }

    // What follows the handling of a row: the state that is current then, or none where no lineage is left.
    fn follow(
        &mut self,
        area: &mut [u8],
        columns: &mut Columns<2000>,
        p: Program,
        h: &Handling,
    ) -> Result<Option<MemoryState>, Refusal>
        requires { Turning p area.old self.old × MayFollow p area.old columns.old self.old h.now }
        ensures { Follows p area.old area.new columns.old columns.new self.old self.new h.now result }
    {
        match h {
            Handling::Ways(ways, repeat) => self.follow_ways(area, p, ways, *repeat),
            Handling::Three(a, b, c, s) => self.follow_three(area, p, *a, *b, *c, *s),
            Handling::Result(b, row) => self.follow_result(area, columns, p, *b, *row),
        }
    }

    // One of the units is charged.
    fn charge(&mut self)
        requires { (0 < self.old.gas) × (self.old.counts.charged < 4294967295) }
        ensures { self.new ≡ charge_one self.old }
    {
        self.gas -= 1;
        self.counts.charge();
    }

    // A turn of the walk: the row that the current lineage is on is charged; a lineage that has handled it three times is closed, else it is
    // handled. Gives the state that is current then, or none where no lineage is left.
    // The three buffers are passed one by one: of the functions called here and above all but two take the area alone, so that a struct of them would
    // only be taken apart again.
    fn take_turn(
        &mut self,
        s: MemoryState,
        area: &mut [u8],
        columns: &mut Columns<2000>,
        blocks: Blocks<'_>,
        p: Program,
    ) -> Result<Option<MemoryState>, Refusal>
        requires { Standing p blocks.bytes.now area.old columns.old self.old s }
        ensures { Turns p blocks.entry.bytes.now area.old area.new columns.old columns.new self.old self.new s result }
    {
        self.charge();
        let k = (s.row - intmap::ZERO) as usize;
        let rows = Rows {
            from: p.limit + p.limit,
            count: p.size,
        };
        let counts = rows.from + rows.count;
        let handled = area::count_at(area, counts, k);
        if 3 <= handled {
            self.counts.loop_stop();
            return Ok(self.take_up(area, p));
        }
        area::raise_count(area, counts, k);
        let x = rows.row_at(area, k);
        if let Some(row) = next_in_place(s, area, x, p) {
            return Ok(Some(MemoryState { map: s.map, row }));
        }
        self.handle_row(s, area, columns, blocks, p, x.op, handled)
    }

    // The rest of a turn where the row is not handled in place: it is handled as far as its operation can give, and followed. What is given is read
    // where it lies: copied, it would be read in pairs of words that were just written one by one.
    #[inline(always)]
    fn handle_row(
        &mut self,
        s: MemoryState,
        area: &mut [u8],
        columns: &mut Columns<2000>,
        blocks: Blocks<'_>,
        p: Program,
        operation: Operation,
        handled: u8,
    ) -> Result<Option<MemoryState>, Refusal>
        requires { MayTurn p blocks.bytes.now area.old columns.old self.old s handled × (operation ≡ (row_on (cells area.old) (rows_from p) s.row).op) }
        ensures { TurnsOn p blocks.entry.bytes.now area.old area.new columns.old columns.new self.old self.new s handled result }
    {
        let m = s.map;
        let from = p.limit + p.limit;
        let n = p.size;
        if explain::is_falling(operation) {
            let fallen = explain::handle_falling(
                s.row, m.base, m.len, m.used, area, blocks, from, n, p.limit,
            );
            return match &fallen {
                Ok(next) => Ok(self.go_on(area, p, next)),
                Err(refusal) => Err(*refusal),
            };
        }
        let again = 0 < handled;
        if explain::is_branching(operation) {
            let step = explain::handle_branching(
                s.row, m.base, m.len, m.used, area, again, from, n, p.limit,
            );
            return match &step {
                Ok(ways) => self.follow_ways(area, p, ways, explain::repeats(operation, again)),
                Err(refusal) => Err(*refusal),
            };
        }
        let given = explain::handle(
            s.row, m.base, m.len, m.used, area, blocks, again, from, n, p.limit,
        );
        match &given {
            Ok(h) => self.follow(area, columns, p, h),
            Err(refusal) => Err(*refusal),
        }
    }

    // With no unit left, each branch that waits on a row is closed.
    fn close_all(&mut self, area: &[u8], p: Program)
        requires { Walking p area.now self.old × (self.old.counts.gasstops + link_of self.old.branches.last < 4294967295) }
        ensures { Closes p area.now self.old self.new }
    {
        // A `while let`, as in `take`.
        while let Some(_at) = self.take(area, p) {
            self.counts.gas_stop();
        }
    }

    // With no unit left, the current lineage is closed, and then each that waits on a row.
    fn close(&mut self, area: &[u8], p: Program)
        requires { Walking p area.now self.old × (self.old.counts.gasstops + link_of self.old.branches.last < 4294967294) }
        ensures { ClosesCurrent p area.now self.old self.new }
    {
        self.counts.gas_stop();
        self.close_all(area, p);
    }

    // The walk goes on until it ends, or until so many rows are charged: then it gives the state that is current.
    fn run_turns(
        &mut self,
        s: MemoryState,
        area: &mut [u8],
        columns: &mut Columns<2000>,
        blocks: Blocks<'_>,
        p: Program,
        budget: u64,
    ) -> Result<Option<MemoryState>, Refusal>
        requires { Running p blocks.bytes.now area.old columns.old self.old s }
        ensures { Runs p blocks.entry.bytes.now area.old area.new columns.old columns.new self.old self.new s budget result }
    {
        let mut current = s;
        for _turn in 0..budget.min(self.gas) {
            match self.take_turn(current, area, columns, blocks, p)? {
                None => return Ok(None),
                Some(next) => current = next,
            }
        }
        if self.gas == 0 {
            self.close(area, p);
            return Ok(None);
        }
        Ok(Some(current))
    }

    // The same. A walk that is refused is as it was.
    pub fn run(
        &mut self,
        s: MemoryState,
        area: &mut [u8],
        columns: &mut Columns<2000>,
        blocks: Blocks<'_>,
        p: Program,
        budget: u64,
    ) -> Result<Option<MemoryState>, Refusal>
        requires { Running p blocks.bytes.now area.old columns.old self.old s }
        ensures { Runs p blocks.entry.bytes.now area.old area.new columns.old columns.new self.old self.new s budget result × KeptIfRefused self.old self.new result }
    {
        let entered = *self;
        let ended = self.run_turns(s, area, columns, blocks, p, budget);
        if ended.is_err() {
            *self = entered;
        }
        ended
    }
}
