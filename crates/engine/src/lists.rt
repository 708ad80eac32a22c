// Writes to a whole list.
ghost use Rattle.std.specs.Prelude.{◌≡◌, ℕ};
ghost use Rattle.rules.specs.Lists.{At};

// Every element is written: the library has no `fill` for a slice.
pub(crate) fn fill<T: Copy>(items: &mut [T], item: T)
    ensures { (k : ℕ) (x : T) → At items.new k x → x ≡ item }
{
    for place in items.iter_mut() {
        *place = item;
    }
}
