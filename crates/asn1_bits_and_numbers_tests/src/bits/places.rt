//! A target that counts the words that are stored in it.

ghost use Rattle.std.specs.Prelude.{◌≤◌};
ghost use Rattle.asn1_bits.specs.Bits.{bits};

use crate::bits::words::{push_number, size};
use asn1_bits::{BitStr, Places, Turns, place_bits, write_bitslice};
use std::alloc::Global;

/// Answers `POSITION COUNT`: how many words are stored for COUNT ones from bit POSITION of the
/// target on.
pub fn answer(alloc: Global, text: &mut String, words: &[&str]) -> Option<()> {
    if let [position, count] = words
        && let Some(position) = size(position)
        && let Some(count) = size(count)
        && position <= 8
        && count <= 640
    {
        return push_number(alloc, text, u128::from(calls(position, count)));
    }
    None
}

/// Octets that count the words that are stored in them.
#[derive(Drop)]
struct Counted {
    octets: [u8; 128],
    calls: u64,
    placed: Turns,
}

impl Places for Counted {
    ghost list = { λ c. bits c.octets };

    ghost placements = { λ c. c.placed.count };

    fn len(&self) -> u128 {
        1024
    }

    fn place(&mut self, position: usize, word: u64, width: usize, turns: &mut Turns) {
        let octets = word.to_be_bytes();
        let (_, lowest) = BitStr::from_octets(&octets).split_at(64 - width);
        write_bitslice(&mut self.octets, position, lowest, &mut Turns::new());
        self.calls = self.calls.wrapping_add(1);
        self.placed.tick();
        turns.tick();
    }
}

/// Returns how many words `place_bits` stores for `count` bits at bit `position`.
fn calls(position: usize, count: usize) -> u64
    requires position { position ≤ 8 }
    requires count { count ≤ 640 }
{
    let mut target = Counted {
        octets: [0; 128],
        calls: 0,
        placed: Turns::new(),
    };
    let (src, _) = BitStr::from_octets(&[0xFF; 80]).split_at(count);
    place_bits(&mut target, position, src, &mut Turns::new());
    target.calls
}
