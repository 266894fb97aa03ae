// Whole numbers as bytes, high byte first, and two-byte marks.
ghost use Rattle.std.specs.Prelude.{◌≡◌, [], ◌∷◌, ◌+◌, ◌≤◌, ◌<◌, length, drop};
ghost use Rattle.river.specs.Bytes.{byte_at, two_at, four_at, marked, mark_bytes, two_bytes, narrow_bytes, four_bytes, Put};
ghost use Rattle.river.specs.held.Cursors.{Room, Puts};

// A two-byte mark, with which a record begins.
#[derive(Clone, Copy)]
pub struct Mark {
    pub first: u8,
    pub second: u8,
}

// How many numbers two bytes hold.
const TWO_BYTES: u32 = 65_536;

// The byte at a place, 0 past the end.
pub fn byte_at(s: &[u8], k: usize) -> u8
    ensures { result ≡ byte_at s.now k }
{
    s.get(k).copied().unwrap_or(0)
}

// The number in the two bytes from a place on.
pub fn two_at(s: &[u8], k: usize) -> u16
    requires { k < 64 }
    ensures { result ≡ two_at s.now k }
{
    u16::from_be_bytes([byte_at(s, k), byte_at(s, k + 1)])
}

// The number in the four bytes from a place on.
pub fn four_at(s: &[u8], k: usize) -> u32
    requires { k < 62 }
    ensures { result ≡ four_at s.now k }
{
    u32::from_be_bytes([
        byte_at(s, k),
        byte_at(s, k + 1),
        byte_at(s, k + 2),
        byte_at(s, k + 3),
    ])
}

// The bytes from a place on, none past the end.
pub fn behind(s: &[u8], k: usize) -> &[u8]
    ensures { result.now ≡ drop k s.now }
{
    s.get(k..).unwrap_or(&[])
}

// Whether bytes begin with a mark.
pub fn marked(s: &[u8], mark: Mark) -> bool
    ensures { result ≡ marked s.now mark }
{
    byte_at(s, 0) == mark.first && byte_at(s, 1) == mark.second
}

// Bytes at a place, and the next place.
pub fn put_bytes(out: &mut [u8], at: usize, bytes: &[u8]) -> usize
    requires { at + length bytes.now ≤ length out.old }
    ensures { Put out.old at bytes.now out.new result }
{
    let end = at + bytes.len();
    out[at..end].copy_from_slice(bytes);
    end
}

// A buffer that bytes are put into, and the place of the next one. A method puts its bytes there and moves on behind them.
#[derive(Drop)]
pub struct Cursor<'a> {
    pub out: &'a mut [u8],
    pub at: usize,
}

impl<'a> Cursor<'a> {
    // Bytes.
    pub fn bytes(&mut self, bytes: &[u8])
        requires { Room self.old (length bytes.now) }
        ensures { Puts self.old bytes.now self.new }
    {
        self.at = put_bytes(self.out, self.at, bytes);
    }

    // A byte.
    pub fn byte(&mut self, x: u8)
        requires { Room self.old 1 }
        ensures { Puts self.old (x ∷ []) self.new }
    {
        self.bytes(&[x]);
    }

    // A mark.
    pub fn mark(&mut self, mark: Mark)
        requires { Room self.old 2 }
        ensures { Puts self.old (mark_bytes mark) self.new }
    {
        self.bytes(&[mark.first, mark.second]);
    }

    // A number as two bytes.
    pub fn two(&mut self, x: u16)
        requires { Room self.old 2 }
        ensures { Puts self.old (two_bytes x) self.new }
    {
        self.bytes(&x.to_be_bytes());
    }

    // A number as two bytes, modulo 65,536.
    pub fn narrow(&mut self, x: u32)
        requires { Room self.old 2 }
        ensures { Puts self.old (narrow_bytes x) self.new }
    {
        self.two((x % TWO_BYTES) as u16);
    }

    // A number as four bytes.
    pub fn four(&mut self, x: u32)
        requires { Room self.old 4 }
        ensures { Puts self.old (four_bytes x) self.new }
    {
        self.bytes(&x.to_be_bytes());
    }
}
