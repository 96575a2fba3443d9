//! Planes of bits: bit i is bit i mod 8, counted from the lowest, of byte i div 8.
// Stays: functions over a slice and not methods of a plane, since what each asks bounds the number that is passed; a
// struct around one slice would say no more.
ghost use Rattle.std.specs.Prelude.{◌≡◌, ◌*◌, ◌<◌, ◌≤◌, length};
ghost use Rattle.planes.specs.Bits.{Cleared, FirstSet, bit_at, put_bit, with_bit};
ghost use Rattle.planes.specs.Planes.{mark_of, sweep_of};

use cells::{MarkColour, SweepColour};

// Is bit i set?
pub(crate) fn get_bit(plane: &[u8], i: usize) -> bool
    requires { i < 8 * length plane.now }
    ensures { result ≡ bit_at plane.now i }
{
    (plane[i / 8] >> (i % 8)) % 2 == 1
}

// The byte with bit k set or cleared.
fn with_bit(byte: u8, k: usize, on: bool) -> u8
    requires { k < 8 }
    ensures { result ≡ with_bit byte k on }
{
    let mask = 1u8 << k;
    let raised = byte | mask;
    if on { raised } else { raised ^ mask }
}

// Sets or clears bit i, and no other.
pub(crate) fn set_bit(plane: &mut [u8], i: usize, on: bool)
    requires { i < 8 * length plane.old }
    ensures { plane.new ≡ put_bit plane.old i on }
{
    plane[i / 8] = with_bit(plane[i / 8], i % 8, on);
}

// Clears the bits below n, and no other.
// Stays: a `for` over the numbers of the bits, since bits are no elements that an iterator gives.
#[tactic(auto, using(crate::proofs::Bitwise::clear_more))]
pub(crate) fn clear_bits(plane: &mut [u8], n: usize)
    requires { n ≤ 8 * length plane.old }
    ensures { Cleared n plane.old plane.new }
{
    for i in 0..n {
        set_bit(plane, i, false);
    }
}

// The first bit that is set, from `from` on and below `size`. Bits at the size and above are never
// reported, not even those in the byte of the last one below it.
// Stays: two nested loops over bytes and bits, left by a label with what was found, by docs/HEAPS.md and a rule of the
// project (docs/DECISIONS.md, Forms that the project fixes). It counts in `usize`, since in 32 bits it takes a third more
// instructions.
pub(crate) fn first_set(plane: &[u8], from: u32, size: u32) -> Option<u32>
    requires { (size ≤ 8 * length plane.now) × (size ≤ 16384) }
    ensures { FirstSet plane.now from size result }
{
    let (from, size) = (from as usize, size as usize);
    'search: {
        for at in from / 8..size.div_ceil(8) {
            let byte = plane[at];
            for k in 0..8 {
                let i = at * 8 + k;
                if i >= from && i < size && (byte >> k) % 2 == 1 {
                    break 'search Some(i as u32);
                }
            }
        }
        None
    }
}

// The mark colour of a bit of the grey plane and one of the mark plane.
pub(crate) fn mark_of(grey: bool, black: bool) -> MarkColour
    ensures { result ≡ mark_of grey black }
{
    if grey {
        MarkColour::Grey
    } else if black {
        MarkColour::Black
    } else {
        MarkColour::White
    }
}

// The sweep colour of a bit of the sweep plane.
pub(crate) fn sweep_of(black: bool) -> SweepColour
    ensures { result ≡ sweep_of black }
{
    if black {
        SweepColour::Black
    } else {
        SweepColour::White
    }
}
