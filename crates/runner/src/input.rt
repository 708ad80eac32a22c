// The text of a schedule, where it is short enough to be played.
ghost use Rattle.std.specs.Prelude.{◌≡◌, ◌<◌, ◌≤◌, length, MatchOption};

use lines::command::{Area, Command};
use lines::reader::{Broken, Reader};

// The longest text that is played.
const MOST_TEXT: usize = 8192;

// What is left of a text of at most 8,192 bytes.
#[derive(Clone, Copy)]
pub(crate) struct Input<'a> {
    reader: Reader<'a>,
    ghost short: { length reader.text.now ≤ 8192 },
}

impl<'a> Input<'a> {
    ghost use Rattle.runner.specs.Inputs.{left, Takes};

    pub(crate) fn new(text: &'a [u8]) -> Option<Input<'a>>
        ensures { MatchOption result (8192 < length text.now) (λ s. left s ≡ text.now) }
    {
        if text.len() > MOST_TEXT {
            return None;
        }
        Some(Input {
            reader: Reader::new(text),
        })
    }

    // Takes the next line, as the reader does.
    pub(crate) fn next(&mut self, made: Option<Area>) -> Result<Option<Command>, Broken>
        ensures { Takes made (left self.old) (left self.new) result }
    {
        self.reader.next(made)
    }
}
