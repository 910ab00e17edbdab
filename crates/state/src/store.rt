// A state's map in the area, lent as one value.

ghost use Rattle.std.specs.Prelude.{◌≡◌, ◌∷◌, [], ◌<◌, ◌≤◌, get_or, set};
ghost use Rattle.model.specs.State.{Column, Single, Int};
ghost use Rattle.model.specs.Access.{store_register};
ghost use Rattle.area.specs.Cells.{blank, Inside};
ghost use Rattle.area.specs.Moves.{moved};
ghost use Rattle.intmap.specs.Depth.{nesting};
ghost use Rattle.intmap.specs.Entries.{span};
ghost use Rattle.intmap.specs.Find.{seek};
ghost use Rattle.intmap.specs.Map.{levels, IsMap, HasRoom};
ghost use Rattle.intmap.specs.Runs.{size, IsColumn};
ghost use Rattle.intmap.specs.Pack.{tag_of, class_number, class_key};
ghost use Rattle.intmap.specs.Signed.{int_of};
ghost use Rattle.intmap.specs.Store.{RunAbove, Stores};
ghost use Rattle.rows.specs.Parts.{Operand};
ghost use Rattle.state.specs.Leads.{Leads};
ghost use Rattle.state.specs.Over.{IsHead, OverEntry, OverRegister};
ghost use Rattle.state.specs.Own.{entry_slot, InMap, is_flat, FindsIndex, OverwritesOwn, StoresCell};
ghost use Rattle.state.specs.Reads.{Reads};
ghost use Rattle.state.specs.Stores.{cells_in, IsHeld, IsCurrent, Changes, Writes};

use super::{MemoryState, Register};
use area::Cell;
use intmap::{Class, IntMap, Place};
use refusal::Refusal;
use type_info::DataType;

// A state's map in the area, and how many cells it may have.
#[derive(Drop)]
pub struct Store<'a> {
    pub map: IntMap,
    pub area: &'a mut [u8],
    pub limit: usize,
}

// What changes it is a call of a function over its parts: the checker of borrows has no proof yet where a part is read while another is lent.
impl Store<'_> {
    // The state on a row.
    pub fn at(&self, row: u64) -> MemoryState
        ensures { (result.map ≡ self.now.map) × (result.row ≡ row) }
    {
        MemoryState { map: self.map, row }
    }

    pub fn cell_at(&self, at: usize) -> Cell
        requires { Inside self.now.area.now at 1 }
        ensures { result ≡ get_or (cells_in self.now) at blank }
    {
        area::cell_at(self.area, at)
    }

    pub fn find(&self, key: u64) -> Result<Place, Place>
        requires { IsMap (cells_in self.now) self.now.map }
        ensures { result ≡ seek (cells_in self.now) levels key self.now.map.len self.now.map.base }
    {
        self.map.find(self.area, key)
    }

    // Whether the n cells behind `at` are followed by an entry or by the map's end.
    pub fn is_flat(&self, at: usize, n: u64) -> bool
        requires { IsMap (cells_in self.now) self.now.map × InMap self.now.map at }
        ensures { result ≡ is_flat (cells_in self.now) self.now.map at n }
    {
        super::is_flat(self.map, self.area, at, n)
    }

    // Where the entry of a place in a class is: at once, or by a search of all entries.
    pub fn entry_at(&self, class: Class, k: u64) -> Option<usize>
        requires { IsHeld self.now × (k ≤ 65535) }
        ensures { result ≡ entry_slot (cells_in self.now) self.now.map (class_number class) k }
    {
        super::entry_at(self.map, self.area, class, k)
    }

    // Where a place in a class is or belongs: at the map's end, if its key is above all, or by a search of all entries.
    pub fn place_of(&self, class: Class, k: u64) -> Result<Place, Place>
        requires { IsHeld self.now × (k ≤ 65535) }
        ensures { result ≡ seek (cells_in self.now) levels (class_key (class_number class) k) self.now.map.len self.now.map.base }
    {
        super::place_of(self.map, self.area, class, k)
    }

    // Where the entry of index i in a class is.
    pub fn get(&self, class: Class, i: u64) -> Result<Option<usize>, Refusal>
        requires { IsHeld self.now }
        ensures { FindsIndex (cells_in self.now) self.now.map (class_number class) i result }
    {
        super::get(self.map, self.area, class, i)
    }

    // Reads register i, if it is there.
    pub fn read_register(&self, i: u64) -> Result<Option<Register>, Refusal>
        requires { IsHeld self.now }
        ensures { Reads (cells_in self.now) self.now.map i result }
    {
        super::read_register(self.map, self.area, i)
    }

    pub fn put_cell(&mut self, at: usize, c: Cell)
        requires { Inside self.old.area.now at 1 }
        ensures { Writes (λ cs ds a. ds ≡ set cs at c) self.old self.new }
    {
        area::put_cell(self.area, at, c);
    }

    // Writes c over the cell of index i in a class, if there is one and it is no record's. Says whether it was.
    pub fn overwrite_own(&mut self, class: Class, i: u64, c: Cell) -> bool
        requires { IsHeld self.old × (tag_of c ≡ 2 → ⊥) }
        ensures { Writes (λ cs ds a. OverwritesOwn cs ds a (class_number class) i c result) self.old self.new }
    {
        super::overwrite_own(self.map, self.area, class, i, c)
    }

    // Puts the record at `at` of the map, with c for its head, over the one of place k in a class, if both have as many columns, of one cell
    // each. Says whether it did.
    pub fn over_entry(&mut self, at: usize, c: Cell, class: Class, k: u64) -> bool
        requires { IsHeld self.old × IsHead (cells_in self.old) at c × (k ≤ 65535) }
        ensures { Writes (λ cs ds a. OverEntry cs ds a at c (class_number class) k result) self.old self.new }
    {
        super::over_entry(self.map, self.area, at, c, class, k)
    }

    // The same over the record in register i.
    pub fn over_register(&mut self, at: usize, c: Cell, i: u64) -> bool
        requires { IsHeld self.old × IsHead (cells_in self.old) at c }
        ensures { Writes (λ cs ds a. OverRegister cs ds a at c i result) self.old self.new }
    {
        super::over_register(self.map, self.area, at, c, i)
    }

    // Stores a cell that is no record's under index i of a class.
    pub fn store_cell(&mut self, class: Class, i: u64, c: Cell) -> Result<(), Refusal>
        requires { HasRoom (cells_in self.old) self.old.limit self.old.map × IsHeld self.old × (tag_of c ≡ 2 → ⊥) }
        ensures { Changes (λ limit cs ds a r. StoresCell limit cs ds a (class_number class) i c r) self.old self.new result }
    {
        self.map = super::store_cell(self.map, self.area, class, i, c, self.limit)?;
        Ok(())
    }

    // Stores a plain column in register i.
    pub fn store_single(
        &mut self,
        i: u64,
        d: DataType,
        nullable: Option<bool>,
    ) -> Result<(), Refusal>
        requires { IsCurrent self.old }
        ensures { Changes (λ limit cs ds a r. Leads limit cs ds a r (store_register limit (int_of i) (Column (Single d nullable)))) self.old self.new result }
    {
        self.map = super::store_single(self.map, self.area, i, d, nullable, self.limit)?;
        Ok(())
    }

    // Stores a known number, as an operand's word, in register i.
    pub fn store_int(&mut self, i: u64, value: u64) -> Result<(), Refusal>
        requires { IsCurrent self.old × Operand value }
        ensures { Changes (λ limit cs ds a r. Leads limit cs ds a r (store_register limit (int_of i) (Int (int_of value)))) self.old self.new result }
    {
        self.map = super::store_int(self.map, self.area, i, value, self.limit)?;
        Ok(())
    }

    // The same as `store_cell` within the map's room alone.
    pub fn store_plain(&mut self, class: Class, i: u64, c: Cell) -> Result<(), Refusal>
        requires { HasRoom (cells_in self.old) self.old.limit self.old.map × (tag_of c ≡ 2 → ⊥) }
        ensures { Changes (λ limit cs ds a r. Stores cs ds limit a (class_number class) i 0 (c ∷ []) r) self.old self.new result }
    {
        self.map = self.map.store_cell(self.area, class, i, c, self.limit)?;
        Ok(())
    }

    // How many cells the column at `at` takes.
    pub fn count(&self, at: usize) -> usize
        requires { IsColumn (cells_in self.now) levels at }
        ensures { result ≡ size (cells_in self.now) levels at }
    {
        intmap::count(self.area, at, intmap::LEVELS)
    }

    // Copies n cells from `from` to `to`; the two may overlap.
    pub fn move_cells(&mut self, from: usize, to: usize, n: usize)
        requires { Inside self.old.area.now from n × Inside self.old.area.now to n }
        ensures { Writes (λ cs ds a. ds ≡ moved cs from to n) self.old self.new }
    {
        area::move_cells(self.area, from, to, n);
    }

    // Stores the run at `from`, above the map's room, under index i of a class.
    pub fn store_run(&mut self, class: Class, i: u64, from: usize) -> Result<(), Refusal>
        requires { HasRoom (cells_in self.old) self.old.limit self.old.map × RunAbove (cells_in self.old) self.old.limit self.old.map from (size (cells_in self.old) levels from) }
        ensures { Changes (λ limit cs ds a r. Stores cs ds limit a (class_number class) i (nesting cs levels from) (span cs from (size cs levels from)) r) self.old self.new result }
    {
        self.map = self.map.store_run(self.area, class, i, from, self.limit)?;
        Ok(())
    }
}
