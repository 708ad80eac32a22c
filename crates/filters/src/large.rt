// The large filter: 1,024 bits, as 32 small filters. Address a goes to small filter a mod 1024 / 32; two meet if their
// small filters at some place meet. Both filters as one type over its number of words would need a bound on a const
// parameter: with no word, adding an address can not cover it.
ghost use Rattle.std.specs.Prelude.{◌≡◌, length, replicate};
ghost use Rattle.std.proofs.Common.{subst, sym};
ghost use Rattle.filters.specs.Words.{bits_of, Marked, mark, share_word};
ghost use Rattle.filters.specs.WordLaws.{full_bits, narrow_bits, none_marked, mark_marks, mark_keeps, marked-share, none_share, share_word_comm};

use crate::filter::Filter;
use crate::small::{self, Small};

const BITS: u32 = 1024;

const WORDS: usize = 32;

#[derive(Clone, Copy, PartialEq, Eq, Debug)]
pub struct Large {
    words: [Small; WORDS],
    ghost full: { length words ≡ 32 },
}

impl Filter for Large {
    ghost covers = { λ f a. Marked (bits_of f.words) a };

    ghost fresh = { λ f. bits_of f.words ≡ replicate 32 0 };

    ghost added = { λ f a g. bits_of g.words ≡ mark (bits_of f.words) a };

    ghost meeting = { λ f g. share_word (bits_of f.words) (bits_of g.words) };

    ghost none = { λ f e a h. none_marked a (subst (λ ws. Marked ws a) e h) };

    ghost adds = { λ f g a e. subst (λ ws. Marked ws a) (sym e) (mark_marks (bits_of f.words) (full_bits f.words f.full) a) };

    ghost keeps = { λ f g a b e h. subst (λ ws. Marked ws b) (sym e) (mark_keeps (bits_of f.words) (full_bits f.words f.full) a b h) };

    ghost common = { λ f g a _ p q. marked-share (bits_of f.words) (bits_of g.words) a p q };

    ghost apart = { λ f g none. none_share (bits_of f.words) (bits_of g.words) (narrow_bits f.words) none };

    ghost either = { λ f g. share_word_comm (bits_of f.words) (bits_of g.words) };

    fn new() -> Large {
        Large {
            words: [Small::new(); WORDS],
        }
    }

    fn add(self, address: u32) -> Large {
        let mut words = self.words;
        let word = (address % BITS / small::BITS) as usize;
        words[word] = words[word].add(address);
        Large { words }
    }

    fn meets(&self, other: &Large) -> bool {
        self.words
            .iter()
            .zip(&other.words)
            .any(|(word, others)| word.meets(others))
    }
}
