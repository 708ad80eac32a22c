// A memory means a size and one cell for each address below it. Each memory names its own kind of cell.
ghost use Rattle.std.specs.Borrow.{GName};
ghost use Rattle.std.specs.Prelude.{◌≡◌, ℕ, List, length};
ghost use Rattle.cells.specs.Meaning.{Reads, Writes};

use crate::refusal::Refusal;

pub trait Memory {
    type Cell: Copy;

    // The cells, in order of their addresses; the size is their number.
    ghost contents: { Self → List Self.Cell };

    // What no call ever changes, as bytes behind the last whole cell.
    ghost rest: { Self → List ℕ };

    // The reference through which the cells are lent, where there is one.
    ghost lender: { Self → GName };

    fn size(&self) -> usize
        ensures { result ≡ length (contents self.now) };

    fn read(&self, address: usize) -> Result<Self::Cell, Refusal>
        ensures { Reads (contents self.now) address result };

    fn write(&mut self, address: usize, cell: Self::Cell) -> Result<(), Refusal>
        ensures writes { Writes (contents self.old) address cell result (contents self.new) }
        ensures rest_kept { rest self.new ≡ rest self.old }
        ensures lender_kept { lender self.new ≡ lender self.old };
}
