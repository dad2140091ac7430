//! A line of output text while it is built, in a buffer on the stack.
ghost use Rattle.std.specs.Prelude.{◌≡◌, ◌+◌, ◌*◌, ◌<◌, ◌≤◌, [], ◌∷◌, ◌++◌, length, decimal};
ghost use Rattle.std.specs.List.{list_all, flat_map};
ghost use Rattle.hb_text.specs.BodyText.{body_text, byte_digits, hex_digit, is_visible};
ghost use Rattle.hb_text.specs.Output.{numbers_text};

use arrayvec::ArrayVec;
use hb_space::Body;
use itoa::Buffer;

/// Room for the longest line, in bytes, which is that of a leaf in a map: 8 + 20 + 8 * 21 + 1.
const ROOM: usize = 200;

/// The bytes of a line so far.
#[derive(Drop)]
pub struct LineBuffer {
    bytes: ArrayVec<u8, ROOM>,
}

impl LineBuffer {
    /// An empty line.
    pub fn new() -> LineBuffer
        ensures { result.bytes.items ≡ [] }
    {
        LineBuffer {
            bytes: ArrayVec::new(),
        }
    }

    /// How many bytes it has.
    pub fn len(&self) -> usize
        ensures { result ≡ length self.now.bytes.items }
    {
        self.bytes.len()
    }

    /// Makes it empty.
    pub fn clear(&mut self)
        ensures { self.new.bytes.items ≡ [] }
    {
        self.bytes.clear();
    }

    /// The bytes.
    pub fn as_slice(&self) -> &[u8]
        ensures { result.now ≡ self.now.bytes.items }
    {
        self.bytes.as_slice()
    }

    /// Adds a piece, for which there is room.
    pub fn add(&mut self, piece: &[u8])
        requires { length self.old.bytes.items + length piece.now ≤ ROOM }
        ensures { self.new.bytes.items ≡ self.old.bytes.items ++ piece.now }
    {
        let _fits = self.bytes.try_extend_from_slice(piece);
    }

    /// Adds a number in decimal, for which there is room.
    pub fn add_number(&mut self, n: u64)
        requires { length self.old.bytes.items + 20 ≤ ROOM }
        ensures text { self.new.bytes.items ≡ self.old.bytes.items ++ decimal n }
        ensures longer { length self.new.bytes.items ≤ length self.old.bytes.items + 20 }
    {
        let mut digits = Buffer::new();
        self.add(digits.format(n).as_bytes());
    }

    /// Adds a space and a number in decimal, for which there is room.
    pub fn add_word(&mut self, n: u64)
        requires { length self.old.bytes.items + 21 ≤ ROOM }
        ensures text { self.new.bytes.items ≡ self.old.bytes.items ++ 32 ∷ decimal n }
        ensures longer { length self.new.bytes.items ≤ length self.old.bytes.items + 21 }
    {
        self.add(b" ");
        self.add_number(n);
    }

    /// Adds numbers, each after a space, for which there is room.
    pub fn add_numbers(&mut self, numbers: &[u64])
        requires { length self.old.bytes.items + 21 * length numbers.now ≤ ROOM }
        ensures text { self.new.bytes.items ≡ self.old.bytes.items ++ numbers_text numbers.now }
        ensures longer { length self.new.bytes.items ≤ length self.old.bytes.items + 21 * length numbers.now }
    {
        for number in numbers {
            self.add_word(*number);
        }
    }

    /// Adds a body, for which there is room.
    #[tactic(auto, unfolding(crate::specs::BodyText::body_text))]
    pub fn add_body(&mut self, body: &Body)
        requires { length self.old.bytes.items + 65 ≤ ROOM }
        ensures text { self.new.bytes.items ≡ self.old.bytes.items ++ body_text body.now }
        ensures longer { length self.new.bytes.items ≤ length self.old.bytes.items + 65 }
    {
        let bytes = body.bytes();
        if are_visible(bytes) {
            self.add(b"=");
            self.add(bytes);
        } else {
            self.add(b"%");
            self.add_digits(bytes);
        }
    }

    // Adds two digits for each byte, for which there is room.
    fn add_digits(&mut self, bytes: &[u8])
        requires { length self.old.bytes.items + 2 * length bytes.now ≤ ROOM }
        ensures text { self.new.bytes.items ≡ self.old.bytes.items ++ flat_map byte_digits bytes.now }
        ensures longer { length self.new.bytes.items ≤ length self.old.bytes.items + 2 * length bytes.now }
    {
        for byte in bytes {
            self.add(&[hex_digit(*byte / 16), hex_digit(*byte % 16)]);
        }
    }
}

// Whether a body of a command may have all these bytes.
fn are_visible(bytes: &[u8]) -> bool
    ensures { result ≡ list_all is_visible bytes.now }
{
    bytes.iter().all(|byte| 33 <= *byte && *byte <= 126)
}

// The hexadecimal digit of a number.
fn hex_digit(number: u8) -> u8
    requires { number < 16 }
    ensures { result ≡ hex_digit number }
{
    if number < 10 {
        b'0' + number
    } else {
        b'a' - 10 + number
    }
}
