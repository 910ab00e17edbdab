// The arm IfPos of `explain`, the one that asks whether its row is handled again: sqlx-sqlite 0.9.0, src/connection/explain.rs.
#![tactic(auto)]

ghost use Rattle.model.specs.IfPosArm.{is_positive};
ghost use Rattle.std.specs.Prelude.{true};
ghost use Rattle.intmap.specs.Map.{HasRoom};
ghost use Rattle.intmap.specs.Signed.{int_of};
ghost use Rattle.state.specs.Stores.{cells_in, IsHeld, LeavesStore, Changes};
ghost use Rattle.jump_arms.specs.Arms.{ReadyStore, at, Puts};
ghost use Rattle.ifpos_arm.specs.Arm.{IfPosArm, KnowsInt, PutsInt, WordBefore, forget_if};

use refusal::Refusal;
use rows::Row;
use state::{Store, Ways};
use type_info::DataType;

// The word of the number before. No known number is the first word, which stays as it is.
fn word_before(w: u64) -> u64
    ensures { WordBefore w result }
{
    w.saturating_sub(1)
}

// Stores a number in register i, within the map's room alone.
fn put_int(store: &mut Store, i: u64, value: u64) -> Result<(), Refusal>
    requires { HasRoom (cells_in store.old) store.old.limit store.old.map }
    ensures { Changes (λ limit cs ds a r. PutsInt limit cs ds a i value r) store.old store.new result }
{
    store.store_plain(intmap::Class::Registers, i, state::int(value))
}

// Makes register i an unknown Integer, if w is the word of a number of 1 or more.
fn forget(store: &mut Store, i: u64, w: u64) -> Result<(), Refusal>
    requires { HasRoom (cells_in store.old) store.old.limit store.old.map × IsHeld store.old }
    ensures { Changes (λ limit cs ds a r. Puts limit cs ds a r (forget_if (is_positive (int_of w)) limit (int_of i))) store.old store.new result }
{
    if intmap::ZERO < w {
        return jump_arms::put_single(store, i, DataType::Integer, Some(false));
    }
    Ok(())
}

// IfPos at a row that is handled again, where the number of the word w is known: both ways, whatever it is. The branch counts down; what
// goes on forgets a number of 1 or more.
fn if_pos_again(store: &mut Store, row: u64, x: Row, w: u64) -> Result<Ways, Refusal>
    requires { ReadyStore store.old row × KnowsInt (cells_in store.old) store.old.map x.p1 w }
    ensures { LeavesStore store.old store.new result × IfPosArm store.old.limit (cells_in store.old) (cells_in store.new) (at row store.old.map) x true result }
{
    let before = word_before(w);
    let branch = |s: &mut Store| put_int(s, x.p1, before);
    let stays = |s: &mut Store| forget(s, x.p1, w);
    jump_arms::both_ways(store, row, x.p2, branch, stays)
}

// IfPos. `again` says whether the row was handled before in this lineage.
pub fn if_pos(store: &mut Store, row: u64, x: Row, again: bool) -> Result<Ways, Refusal>
    requires { ReadyStore store.old row }
    ensures { LeavesStore store.old store.new result × IfPosArm store.old.limit (cells_in store.old) (cells_in store.new) (at row store.old.map) x again result }
{
    let Some(w) = jump_arms::known_int(store, x.p1)? else {
        return Ok(jump_arms::branch_and_go(store.at(x.p2), store, row + 1));
    };
    if again {
        return if_pos_again(store, row, x, w);
    }
    if intmap::ZERO < w {
        put_int(store, x.p1, word_before(w))?;
        return Ok(jump_arms::branch_at(store, x.p2));
    }
    Ok(jump_arms::go_on(store, row + 1))
}
