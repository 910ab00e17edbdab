// The blocks as one value. It has a file of its own, since a struct with a ghost field imports what its file imports, and `first_link` names it.

ghost use Rattle.std.specs.Prelude.{◌≡◌, ◌-◌, ◌%◌, ◌<◌, ◌≤◌, length, get_or, IfSome};
ghost use Rattle.area.specs.Cells.{blank, cells};
ghost use Rattle.root_block.specs.Blocks.{first_of, leads_to, IsBlocks};

use area::Cell;

// Bytes that hold the records of some catalogue, so that whoever reads them asks nothing of them.
#[derive(Clone, Copy)]
pub struct Blocks<'a> {
    pub bytes: &'a [u8],
    pub ghost indexed: { ∥ IsBlocks bytes.now ∥₁ },
}

impl Blocks<'_> {
    // The link to the first record in the bucket of a page's word, if there is one.
    pub fn first_link(self, page: u64) -> Option<usize>
        ensures { (result ≡ leads_to (first_of (get_or (cells self.entry.bytes.now) (page % length (cells self.entry.bytes.now)) blank))) × IfSome result (λ link. link < 16777216) }
    {
        super::leads_to(super::first_link(self.bytes, page))
    }

    // The cell of the record that a link leads to.
    pub fn record_at(self, link: usize) -> Cell
        requires { (0 < link) × (link ≤ length (cells self.bytes.now)) }
        ensures { result ≡ get_or (cells self.entry.bytes.now) (link - 1) blank }
    {
        area::cell_at(self.bytes, link - 1)
    }
}
