//! The search of an ascending list, and how often it reads the list.

ghost use Rattle.std.specs.Prelude.{◌≡◌, true};
ghost use Rattle.std.specs.List.Sorted.{IsNonDecreasing};

use crate::strings::lists::list;
use asn1_alphabets::{Entries, find_ascending};
use asn1_bits::Turns;
use asn1_test_rows::{RowError, parse_word, two, wrong};
use std::alloc::Global;

/// Returns whether the character is found in the list, and whether the list was read 1 to 8 times.
pub fn answer(alloc: Global, name: &str, words: &[&str]) -> Result<String, RowError> {
    let (word, character) = two(alloc, words)?;
    let list = list(alloc, word)?;
    if !is_ascending(list.as_slice()) {
        return Err(wrong(alloc, name, "search of such a list"));
    }
    let (found, few) = looked_for(list.as_slice(), parse_word::<u32>(alloc, character)?);
    Ok(format!(in alloc; "{found} {few}")?)
}

/// A list that counts at run time how often it is read.
#[derive(Drop)]
struct Looked<'a> {
    list: &'a [u32],
    taken: Turns,
    looks: u32,
}

impl<'a> Entries for Looked<'a> {
    ghost list = { λ s. s.list.now };

    ghost looks = { λ s. s.taken.count };

    fn count(&self) -> usize {
        self.list.len()
    }

    fn entry(&mut self, i: usize, probes: &mut Turns) -> u32 {
        probes.tick();
        self.taken.tick();
        self.looks = self.looks.saturating_add(1);
        self.list[i]
    }
}

/// Returns whether the list is ascending.
fn is_ascending(list: &[u32]) -> bool
    ensures { result ≡ true → IsNonDecreasing list.now }
{
    list.is_sorted()
}

fn looked_for(list: &[u32], character: u32) -> (bool, bool)
    requires { IsNonDecreasing list.now }
{
    let mut looked = Looked {
        list,
        taken: Turns::new(),
        looks: 0,
    };
    let found = find_ascending(&mut looked, character, &mut Turns::new()).is_some();
    (found, looked.looks >= 1 && looked.looks <= 8)
}
