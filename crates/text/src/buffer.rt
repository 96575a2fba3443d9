//! A lent buffer that is written at a place.
ghost use Rattle.std.specs.Prelude.{◌≡◌, ◌+◌, length, nat_le};
ghost use Rattle.text.specs.Buffer.{length_put};
ghost use Rattle.text.specs.Writer.{Puts};

// Is there room for so many bytes from `at` on?
pub fn has_room(buffer: &[u8], at: usize, bytes: usize) -> bool
    ensures { result ≡ nat_le (at + bytes) (length buffer.now) }
{
    at <= buffer.len() && bytes <= buffer.len() - at
}

// A lent buffer, and the place where writing goes on. Any place is allowed, also one past the end.
#[derive(Drop)]
pub struct Writer<'a> {
    pub buffer: &'a mut [u8],
    pub at: usize,
}

impl<'a> Writer<'a> {
    // Is there room for so many bytes where writing goes on?
    pub fn has_room(&self, bytes: usize) -> bool
        ensures { result ≡ nat_le (self.now.at + bytes) (length self.now.buffer.now) }
    {
        has_room(self.buffer, self.at, bytes)
    }

    // Writes bytes and goes on behind them, and answers how many they are; nothing where the room is short.
    pub fn bytes(&mut self, bytes: &[u8]) -> Option<usize>
        ensures answer { result ≡ length_put self.old.buffer.now self.old.at bytes.now }
        ensures puts { Puts self.old bytes.now self.new }
    {
        if !self.has_room(bytes.len()) {
            return None;
        }
        let end = self.at + bytes.len();
        self.buffer[self.at..end].copy_from_slice(bytes);
        self.at = end;
        Some(bytes.len())
    }
}
