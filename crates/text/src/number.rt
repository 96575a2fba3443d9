//! Numbers as the archive writes them: one to five digits, with no leading zero but for `0` itself.
ghost use Rattle.std.specs.Prelude.{◌≡◌, ℕ, ◌+◌, ◌-◌, ◌*◌, ◌/◌, ◌%◌, ◌<◌, ◌≤◌, ◌↔◌, length, Some, None, cond, decimal};
ghost use Rattle.text.specs.Buffer.{length_put};
ghost use Rattle.text.specs.Writer.{PutsInRoom, Puts};
ghost use Rattle.text.specs.Number.{ReadBack, Reads, digit, number_in, read_on};

use crate::buffer::Writer;

// The digit that a byte is.
fn digit(b: u8) -> Option<u32>
    ensures { result ≡ cond (digit b) (Some (b - 48)) None }
{
    char::from(b).to_digit(10)
}

// What up to five bytes write, if each is a digit.
fn read_digits(text: &[u8]) -> Option<u32>
    requires { length text.now ≤ 5 }
    ensures { result ≡ read_on 0 text.now }
{
    let mut n = 0;
    for b in text {
        n = n * 10 + digit(*b)?;
    }
    Some(n)
}

// The number that `text` is, by its length, its first digit and then all its digits.
// Stays: apart from `read_number` by docs/DECISIONS.md, "Laws stand on thin public functions".
fn parse(text: &[u8]) -> Option<u32>
    ensures { result ≡ number_in text.now }
{
    if text.is_empty() || text.len() > 5 {
        return None;
    }
    if text[0] == b'0' && text.len() > 1 {
        return None;
    }
    read_digits(text)
}

// The number that `text` is, or none where it has not the form of a number.
pub fn read_number(text: &[u8]) -> Option<u32>
    ensures value { result ≡ number_in text.now }
    ensures exact { (n : ℕ) → (result ≡ Some n) ↔ Reads text.now n }
{
    parse(text)
}

// `n` without its last digit.
fn front(n: u32) -> u32
    ensures { result ≡ n / 10 }
{
    n / 10
}

// The last digit of `n`, as a byte.
fn last_digit(n: u32) -> u8
    ensures { result ≡ 48 + n % 10 }
{
    b'0' + (n % 10) as u8
}

// How many digits `n` has; never more than ten.
// Stays: `as`, since std has no `From<u32>` for `usize`.
#[tactic(auto, using(crate::proofs::Digits::length_by_log))]
pub fn number_length(n: u32) -> usize
    ensures digits { result ≡ length (decimal n) }
    ensures few { result ≤ 10 }
{
    n.checked_ilog10().unwrap_or(0) as usize + 1
}

impl<'a> Writer<'a> {
    // Writes the digits of `n` where there is room for them.
    // Stays: `write!` of a number would need an impl of fmt::Write beside `bytes`, for these four lines.
    fn digits(&mut self, n: u32)
        ensures { PutsInRoom self.old (decimal n) self.new }
    {
        if n >= 10 {
            self.digits(front(n));
        }
        self.bytes(&[last_digit(n)]);
    }

    // The digits of `n` where they fit, and how many they are.
    // Stays: apart from `number` by docs/DECISIONS.md, "Laws stand on thin public functions".
    // Stays: a length, a test of the room and the writing, as in `lines` and `saving`; a method that takes the writing
    // as a closure would have to ask of its caller what the closure does, and a public call has no requires here, a
    // rule of the project.
    fn put_number(&mut self, n: u32) -> Option<usize>
        ensures answer { result ≡ length_put self.old.buffer.now self.old.at (decimal n) }
        ensures puts { Puts self.old (decimal n) self.new }
    {
        let digits = number_length(n);
        if !self.has_room(digits) {
            return None;
        }
        self.digits(n);
        Some(digits)
    }

    // Writes `n` and goes on behind it, and answers how many digits it has; nothing where the room is short.
    pub fn number(&mut self, n: u32) -> Option<usize>
        ensures answer { result ≡ length_put self.old.buffer.now self.old.at (decimal n) }
        ensures puts { Puts self.old (decimal n) self.new }
        ensures back { ReadBack self.new.buffer.now self.old.at n result }
    {
        self.put_number(n)
    }
}
