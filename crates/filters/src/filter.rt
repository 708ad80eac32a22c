// A filter means the set of addresses it covers.
ghost use Rattle.std.specs.Prelude.{◌≡◌, ℕ, ◌<◌, Bool, true, false};

pub trait Filter: Copy {
    // The filter covers the address.
    ghost covers: { Self → ℕ → Type 0 };

    // What making a new filter may give.
    ghost fresh: { Self → Type 0 };

    // What adding an address to a filter may give.
    ghost added: { Self → ℕ → Self → Type 0 };

    // The answer to whether two filters meet: it depends on the two alone.
    ghost meeting: { Self → Self → Bool };

    fn new() -> Self
        ensures { fresh result };

    fn add(self, address: u32) -> Self
        ensures { added self address result };

    fn meets(&self, other: &Self) -> bool
        ensures { result ≡ meeting self.now other.now };

    // A new filter covers none.
    ghost none: { (f : Self) → fresh f → (a : ℕ) → covers f a → ⊥ };

    // Adding an address covers it.
    ghost adds: { (f g : Self) (a : ℕ) → added f a g → covers g a };

    // Adding an address keeps the rest.
    ghost keeps: { (f g : Self) (a b : ℕ) → added f a g → covers f b → covers g b };

    // Two filters that cover a common address below 65,536 meet.
    ghost common: { (f g : Self) (a : ℕ) → a < 65536 → covers f a → covers g a → meeting f g ≡ true };

    // A filter that covers none meets no filter.
    ghost apart: { (f g : Self) → ((a : ℕ) → covers f a → ⊥) → meeting f g ≡ false };

    // The order of the two does not matter.
    ghost either: { (f g : Self) → meeting f g ≡ meeting g f };
}
