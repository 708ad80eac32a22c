// A line of a report while it is put together.
ghost use Rattle.std.specs.Prelude.{◌≡◌, ◌+◌, ◌*◌, ◌<◌, ◌≤◌, [], ◌∷◌, ◌++◌, map, length};
ghost use Rattle.lines.specs.Decimal.{decimal};
ghost use Rattle.lines.specs.Line.{line_of, numbers_room};

use arrayvec::ArrayVec;
use itoa::Buffer;
use std::marker::Model;

// The longest line has 46 bytes.
#[derive(Drop)]
pub(crate) struct Line {
    bytes: ArrayVec<u8, 64>,
}

// A line is what is written of it.
impl Model for Line {
    ghost use Rattle.std.specs.Prelude.{ℕ, List};

    ghost Value = { List ℕ };

    ghost view = { λ l. l.bytes.items };
}

impl Line {
    pub(crate) fn new(letter: u8) -> Line
        ensures { result ≡ letter ∷ [] }
    {
        let mut bytes = ArrayVec::new();
        bytes.push(letter);
        Line { bytes }
    }

    // A space, and the word.
    pub(crate) fn word(&mut self, word: &[u8])
        requires { length self.old + length word.now < 64 }
        ensures { self.new ≡ self.old ++ (32 ∷ word.now) }
    {
        self.bytes.push(b' ');
        self.bytes.try_extend_from_slice(word).unwrap();
    }

    // A space, and a word of one byte.
    fn byte(&mut self, byte: u8)
        requires { length self.old + 2 ≤ 64 }
        ensures { self.new ≡ self.old ++ (32 ∷ byte ∷ []) }
    {
        self.bytes.push(b' ');
        self.bytes.push(byte);
    }

    // A space, and the number in decimal. Most numbers of a report have one digit, which needs no buffer.
    pub(crate) fn number(&mut self, n: u32)
        requires { length self.old + 11 ≤ 64 }
        ensures text { self.new ≡ self.old ++ (32 ∷ decimal n) }
        ensures ten { length (decimal n) ≤ 10 }
    {
        if n < 10 {
            self.byte(b'0' + n as u8);
        } else {
            let mut buffer = Buffer::new();
            self.word(buffer.format(n).as_bytes());
        }
    }

    // The line feed.
    pub(crate) fn feed(&mut self)
        requires { length self.old < 64 }
        ensures { self.new ≡ self.old ++ (10 ∷ []) }
    {
        self.bytes.push(b'\n');
    }

    // A whole line of a letter and numbers.
    pub(crate) fn of(letter: u8, numbers: &[u32]) -> Line
        requires { length numbers.now ≤ 4 }
        ensures text { result ≡ line_of letter (map decimal numbers.now) }
        ensures room { length result ≤ numbers_room numbers.now }
        ensures wide { length result ≤ 2 + 11 * length numbers.now }
    {
        let mut made = Line::new(letter);
        for n in numbers {
            made.number(*n);
        }
        made.feed();
        made
    }

    // What is written of the line.
    pub(crate) fn as_slice(&self) -> &[u8]
        ensures text { result.now ≡ self.now }
        ensures short { length result.now ≤ 64 }
    {
        self.bytes.as_slice()
    }
}
