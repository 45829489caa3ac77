//! A hasher for the numbers of cards.
ghost use Rattle.std.specs.Prelude.{◌≡◌};
ghost use Rattle.g1_sets.specs.Hasher as hashing;

use std::hash::Hasher;

// 2^64 divided by the golden ratio: neighbouring numbers are spread over all bits.
const MULTIPLIER: u64 = 0x9e37_79b9_7f4a_7c15;

// A write adds the number and multiplies, so a card costs one multiplication.
#[derive(Clone, Copy, Default)]
pub(crate) struct CardHasher {
    state: u64,
}

impl Hasher for CardHasher {
    ghost use Rattle.g1_sets.specs.Hasher.{after_write};

    ghost write = { λ s bytes. record { state = after_write s.state bytes } };

    ghost finish = { λ s. s.state };

    fn finish(&self) -> u64 {
        self.state
    }

    fn write(&mut self, bytes: &[u8]) {
        let number = first_four(bytes) as u64;
        self.state = self.state.wrapping_add(number).wrapping_mul(MULTIPLIER);
    }
}

// The first four bytes as a number, the lowest first, which is all that a card has.
fn first_four(bytes: &[u8]) -> u32
    ensures { result ≡ hashing.first_four bytes.now }
{
    let len = bytes.len();
    let first = if len > 0 { bytes[0] as u32 } else { 0 };
    let second = if len > 1 { bytes[1] as u32 } else { 0 };
    let third = if len > 2 { bytes[2] as u32 } else { 0 };
    let fourth = if len > 3 { bytes[3] as u32 } else { 0 };
    first + 256 * second + 65536 * third + 16777216 * fourth
}
