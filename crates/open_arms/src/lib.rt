// The arms of `explain` that open a cursor on a table of their own: a table from its run, for those whose columns stand there, and OpenEphemeral,
// OpenAutoindex, SorterOpen. Translated from sqlx-sqlite 0.9.0, src/connection/explain.rs.
#![tactic(auto)]

ghost use Rattle.std.specs.Prelude.{◌+◌, ◌<◌, ◌≤◌};
ghost use Rattle.model.specs.Operation.{op_open_ephemeral};
ghost use Rattle.area.specs.Cells.{cells, Inside};
ghost use Rattle.intmap.specs.Pack.{class_key};
ghost use Rattle.intmap.specs.Entries.{span};
ghost use Rattle.intmap.specs.Change.{rekey};
ghost use Rattle.intmap.specs.Store.{Inserts, RunAbove};
ghost use Rattle.state.specs.Arms.{CursorArm};
ghost use Rattle.state.specs.Stores.{cells_in, IsCurrent, Changes};
ghost use Rattle.open_arms.specs.Tables.{IsTable, OpensTable, PutsTable};

use refusal::Refusal;
use rows::Row;
use state::Store;
use type_info::DataType;

// Stores the run of n cells at `from`, behind the map, as the row's table. Behind all entries, where it belongs if it is new, nothing moves.
fn insert_table(store: &mut Store, row: u64, from: usize, n: usize) -> Result<(), Refusal>
    requires { IsCurrent store.old × (row ≤ 65535) × RunAbove (cells_in store.old) store.old.limit store.old.map from n }
    ensures { Changes (λ limit cs ds a r. Inserts cs ds limit a (rekey (class_key 2 row) (span cs from n)) r) store.old store.new result }
{
    let key = intmap::class_key(intmap::Class::Tables, row);
    let found = store.place_of(intmap::Class::Tables, row);
    let (Ok(place) | Err(place)) = found;
    if place.left == 0 {
        store.map = store.map.append_run(store.area, key, from, n, store.limit)?;
        return Ok(());
    }
    store.map = store
        .map
        .insert_run_at(store.area, found, key, from, n, store.limit)?;
    Ok(())
}

// Stores the table whose run of n cells stands at `from`, behind the map, under the row's number, and then cursor i on it.
pub fn open_table(store: &mut Store, row: u64, i: u64, from: usize, n: usize) -> Result<(), Refusal>
    requires { IsCurrent store.old × (row ≤ 65535) × RunAbove (cells_in store.old) store.old.limit store.old.map from n × IsTable store.old.limit (cells_in store.old) from n }
    ensures { Changes (λ limit cs ds a r. OpensTable limit cs ds a row i from n r) store.old store.new result }
{
    let map = store.map;
    insert_table(store, row, from, n)?;
    if let Err(refusal) = cursor_arms::store_normal(store, i, row) {
        store.map = map;
        return Err(refusal);
    }
    Ok(())
}

// Puts the run of an empty table of n columns that may be null at p.
fn put_table(area: &mut [u8], p: usize, n: usize)
    requires { Inside area.old p (1 + n) }
    ensures { PutsTable (cells area.old) (cells area.new) p n }
{
    area::put_cell(area, p, state::columns_head(n as u64, Some(true)));
    let c = state::single(DataType::Null, Some(true));
    intmap::from_elem(area, p + 1, c, n);
}

// OpenEphemeral, OpenAutoindex, SorterOpen: cursor P1 on an empty table of P2 columns. More columns than the limit are refused before any is written.
pub fn open_ephemeral(store: &mut Store, row: u64, x: Row) -> Result<(), Refusal>
    requires { IsCurrent store.old × (row ≤ 65535) × (store.old.limit ≤ 65536) }
    ensures { Changes (λ limit cs ds a r. CursorArm limit cs ds a row x op_open_ephemeral r) store.old store.new result }
{
    if x.p2 < intmap::ZERO {
        return Err(Refusal::Negative);
    }
    let n = (x.p2 - intmap::ZERO) as usize;
    if store.limit <= n {
        return Err(Refusal::TooManyCells);
    }
    let from = store.map.base + store.limit;
    put_table(store.area, from, n);
    open_table(store, row, x.p1, from, 1 + n)
}
