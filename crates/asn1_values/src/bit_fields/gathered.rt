//! Digits that are gathered into a word before they are pushed.

ghost use Rattle.std.specs.Prelude.{◌≡◌, ◌+◌, ◌^◌, ◌<◌, ◌≤◌};
ghost use Rattle.asn1_bits.specs.BitAppender.{room};
ghost use Rattle.asn1_bits.specs.Bits.{digits};
ghost use Rattle.asn1_values.specs.Steps.{Gathers, PushesList, PushesGathered};

use asn1_bits::{BitAppender, Turns};

/// The digits of short fields that are not pushed yet. Some of them at once are one store.
#[derive(Clone, Copy)]
pub(super) struct Gathered {
    word: u64,
    width: usize,
    ghost few: { width ≤ 64 },
    ghost below: { word < 2 ^ width },
}

impl Gathered {
    /// Returns no digits.
    pub(super) fn none() -> Gathered
        ensures { result.width ≡ 0 }
    {
        Gathered { word: 0, width: 0 }
    }

    /// Gathers a number of `width` digits after the others, which are pushed first if the word has
    /// no room for all.
    #[inline(always)]
    pub(super) fn add(
        &mut self,
        appender: &mut BitAppender<'_>,
        number: u64,
        width: usize,
        turns: &mut Turns,
    )
        requires width { width ≤ 32 }
        requires below { number < 2 ^ width }
        requires room { self.old.width + width ≤ room appender.old }
        ensures { Gathers (digits number width) appender.old appender.new self.old.word
            self.old.width self.new.word self.new.width turns.old.count turns.new.count }
    {
        if self.width + width > 64 {
            self.push(appender, turns);
        }
        *self = Gathered {
            word: (self.word << width) + number,
            width: self.width + width,
        };
    }

    /// Pushes the digits, and keeps none.
    #[inline(always)]
    pub(super) fn push(&mut self, appender: &mut BitAppender<'_>, turns: &mut Turns)
        requires { self.old.width ≤ room appender.old }
        ensures { PushesGathered appender.old appender.new self.old.word self.old.width
            self.new.width turns.old.count turns.new.count }
    {
        let digits = *self;
        *self = Gathered::none();
        if digits.width == 0 {
            return;
        }
        push_word(appender, digits, turns);
    }
}

/// Pushes the digits. Not inlined, so that the loop over fields stays short.
#[inline(never)]
fn push_word(appender: &mut BitAppender<'_>, gathered: Gathered, turns: &mut Turns)
    requires { gathered.width ≤ room appender.old }
    ensures { PushesList (digits gathered.word gathered.width) appender.old appender.new
        turns.old.count turns.new.count }
{
    appender.push_number(u128::from(gathered.word), gathered.width, turns);
}
