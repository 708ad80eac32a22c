// Looks an address up in a log: one text for every kind of cell.
ghost use Rattle.std.specs.Prelude.{◌≡◌, length};
ghost use Rattle.rules.specs.Logs.{Searched};

// The first pair with the address: its position and its cell.
pub(crate) fn find<C: Copy>(addresses: &[u32], cells: &[C], address: u32) -> Option<(usize, C)>
    requires { length addresses.now ≡ length cells.now }
    ensures { Searched addresses.now cells.now 0 (length addresses.now) address result }
{
    let position = addresses.iter().position(|logged| *logged == address)?;
    Some((position, cells[position]))
}
