// The tags memory: a byte array, five bytes a cell. Bytes behind the last whole cell are left as they are.
ghost use Rattle.std.specs.Prelude.{◌≡◌, ◌<◌, length, Some};
ghost use Rattle.cells.specs.Tags.{count, leftover, stored, tag_at, tags};
ghost use Rattle.cells.specs.Texts.{tag_text};

use crate::memory::Memory;
use crate::refusal::Refusal;
use std::fmt;

// The quality of a value that can be relied on.
pub const GOOD: u8 = 192;

// The bytes of a cell: its quality, then its value, most significant byte first.
const CELL: usize = 5;

#[derive(Clone, Copy, PartialEq, Eq, Debug)]
pub struct Tag {
    pub quality: u8,
    pub value: u32,
}

impl fmt::Display for Tag {
    ghost output = { λ tag. Some (tag_text tag) };

    fn fmt<W: fmt::Write>(&self, f: &mut fmt::Formatter<W>) -> fmt::Result {
        let value = self.value;
        match self.quality {
            GOOD => write!(f, "{value} (good)"),
            quality => write!(f, "{value} (quality {quality})"),
        }
    }
}

#[derive(Drop)]
pub struct Tags<'a> {
    bytes: &'a mut [u8],
}

impl<'a> Tags<'a> {
    pub fn new(bytes: &'a mut [u8]) -> Tags<'a>
        ensures bytes { result.bytes.now ≡ bytes.old }
        ensures lender { result.bytes.ghost_name ≡ bytes.entry.ghost_name }
    {
        Tags { bytes }
    }
}

// How many whole cells the bytes hold.
fn held(bytes: &[u8]) -> usize
    ensures { result ≡ count bytes.now }
{
    bytes.len() / CELL
}

fn load(bytes: &[u8], address: usize) -> Tag
    requires { address < count bytes.now }
    ensures { result ≡ tag_at bytes.now address }
{
    let start = CELL * address;
    let quality = bytes[start];
    let value = u32::from_be_bytes([
        bytes[start + 1],
        bytes[start + 2],
        bytes[start + 3],
        bytes[start + 4],
    ]);
    Tag { quality, value }
}

fn store(bytes: &mut [u8], address: usize, tag: Tag)
    requires { address < count bytes.old }
    ensures { bytes.new ≡ stored bytes.old address tag }
{
    let start = CELL * address;
    let [b1, b2, b3, b4] = tag.value.to_be_bytes();
    bytes[start] = tag.quality;
    bytes[start + 1] = b1;
    bytes[start + 2] = b2;
    bytes[start + 3] = b3;
    bytes[start + 4] = b4;
}

impl<'a> Memory for Tags<'a> {
    type Cell = Tag;

    ghost contents = { λ t. tags t.bytes.now };

    ghost rest = { λ t. leftover t.bytes.now };

    ghost lender = { λ t. t.bytes.ghost_name };

    // Read and write go by the second clause: the places of a cell's bytes follow from it.
    fn size(&self) -> usize
        ensures cells { result ≡ length (tags self.now.bytes.now) }
        ensures whole { result ≡ count self.now.bytes.now }
    {
        held(self.bytes)
    }

    fn read(&self, address: usize) -> Result<Tag, Refusal> {
        if address >= self.size() {
            return Err(Refusal::Address);
        }
        Ok(load(self.bytes, address))
    }

    fn write(&mut self, address: usize, cell: Tag) -> Result<(), Refusal> {
        if address >= self.size() {
            return Err(Refusal::Address);
        }
        store(self.bytes, address, cell);
        Ok(())
    }
}
