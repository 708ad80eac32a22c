// Takes a line of a text apart into its letter and its numbers.
ghost use Rattle.std.specs.Prelude.{◌≡◌, ◌+◌, ◌*◌, ◌<◌, MatchBool, MatchOption, slice_index};
ghost use Rattle.lines.specs.Grammar.{most};
ghost use Rattle.lines.specs.Reading.{ByteAt, Digit, DigitAt, LineAt, NoLine, NumberAt, NoNumber};

use super::Reader;
use arrayvec::ArrayVec;

// The letter of a line, and the numbers behind it.
#[derive(Drop)]
pub(super) struct Fields {
    pub(super) letter: char,
    pub(super) numbers: ArrayVec<u32, 5>,
}

// The number that a digit behind `value` makes: none behind a leading zero, and none that is too large.
fn longer(value: u32, next: u32) -> Option<u32>
    requires { next < 10 }
    ensures { MatchOption result (0 < value → most < value * 10 + next) (λ n. (0 < value) × (n ≡ value * 10 + next)) }
{
    if value == 0 {
        return None;
    }
    value.checked_mul(10)?.checked_add(next)
}

impl<'a> Reader<'a> {
    fn digit(&self) -> Option<u32>
        ensures { MatchOption result (Digit (slice_index self.now.text.now self.now.at) → ⊥) (DigitAt self.now.text.now self.now.at) }
    {
        char::from(*self.text.get(self.at)?).to_digit(10)
    }

    // A number ends where the digits end.
    fn number(&mut self) -> Option<u32>
        ensures kept { self.new.text.now ≡ self.old.text.now }
        ensures reads { MatchOption result (NoNumber self.old.text.now self.old.at) (λ n. NumberAt self.old.text.now self.old.at n self.new.at) }
    {
        let mut value = self.digit()?;
        self.at += 1;
        while let Some(next) = self.digit() {
            value = longer(value, next)?;
            self.at += 1;
        }
        Some(value)
    }

    // Reads the byte, where it stands next.
    fn take(&mut self, byte: u8) -> bool
        ensures kept { self.new.text.now ≡ self.old.text.now }
        ensures reads { MatchBool result (ByteAt self.old.text.now self.old.at byte × (self.new.at ≡ self.old.at + 1)) ((ByteAt self.old.text.now self.old.at byte → ⊥) × (self.new.at ≡ self.old.at)) }
    {
        let stands = self.text.get(self.at) == Some(&byte);
        if stands {
            self.at += 1;
        }
        stands
    }

    pub(super) fn fields(&mut self) -> Option<Fields>
        ensures kept { self.new.text.now ≡ self.old.text.now }
        ensures reads { MatchOption result (NoLine self.old.text.now self.old.at) (λ f. LineAt self.old.text.now self.old.at f.letter f.numbers.items self.new.at) }
    {
        let letter = char::from(*self.text.get(self.at)?);
        self.at += 1;
        let mut numbers = ArrayVec::new();
        while !numbers.is_full() && self.take(b' ') {
            numbers.push(self.number()?);
        }
        if !self.take(b'\n') {
            return None;
        }
        Some(Fields { letter, numbers })
    }
}
