// The small filter: 32 bits. Address a sets bit a mod 32; two meet if they share a set bit.
ghost use Rattle.std.specs.Prelude.{◌≡◌, ◌%◌, ◌^◌, ◌<◌};
ghost use Rattle.std.proofs.Common.{subst, sym, arith};
ghost use Rattle.filters.specs.Bits.{Bit, with_bit, share};
ghost use Rattle.filters.specs.BitLaws.{zero_none, set_sets, set_keeps, bit_shared, none_zero, zero_apart, share_comm};

use crate::filter::Filter;

pub(crate) const BITS: u32 = 32;

#[derive(Clone, Copy, PartialEq, Eq, Debug)]
pub struct Small {
    bits: u32,
    ghost narrow: { bits < 2 ^ 32 },
}

impl Filter for Small {
    ghost covers = { λ f a. Bit f.bits (a % 32) };

    ghost fresh = { λ f. f.bits ≡ 0 };

    ghost added = { λ f a g. g.bits ≡ with_bit f.bits (a % 32) };

    ghost meeting = { λ f g. share f.bits g.bits };

    ghost none = { λ f e a h. zero_none (a % 32) (subst (λ x. Bit x (a % 32)) e h) };

    ghost adds = { λ f g a e. subst (λ x. Bit x (a % 32)) (sym e) (set_sets f.bits (a % 32)) };

    ghost keeps = { λ f g a b e h. subst (λ x. Bit x (b % 32)) (sym e) (set_keeps f.bits (a % 32) (b % 32) h) };

    ghost common = { λ f g a _ p q. bit_shared f.bits g.bits (a % 32) p q };

    // Each bit below 32 is the bit of an address, so a filter that covers none has no bit set.
    ghost apart = { λ f g none.
        zero_apart f.bits g.bits
        (none_zero 32 f.bits f.narrow
        (λ k h b. let e : k ≡ k % 32 = omega arith in none k (subst (λ j. Bit f.bits j) e b))) };

    ghost either = { λ f g. share_comm f.bits g.bits };

    fn new() -> Small {
        Small { bits: 0 }
    }

    fn add(self, address: u32) -> Small {
        let bits = self.bits | 1 << (address % BITS);
        Small { bits }
    }

    fn meets(&self, other: &Small) -> bool {
        self.bits & other.bits != 0
    }
}
