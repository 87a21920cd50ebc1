//! A counter of turns that takes no bytes.

ghost use Rattle.std.specs.Prelude.{◌≡◌, ℕ, ◌+◌};
ghost use base.Fml.{ftrue};

use std::marker::Model;

/// A counter of turns for proofs alone: it takes no bytes, nothing reads it at run time, and
/// clauses see its number as `count`. A turn places one word of at most 64 bits, in at most two
/// stores, or octet by octet if fewer than eight octets are left; a search takes one for each look.
/// If no count is needed, pass `&mut Turns::new()`.
#[derive(Drop)]
pub struct Turns {
    /// The number of turns counted.
    pub ghost count: { ℕ },
}

impl Model for Turns {
    ghost also_owns = { λ _. ftrue };
}

impl Turns {
    /// Returns a counter at zero.
    pub fn new() -> Turns
        ensures { result.count ≡ 0 }
    {
        Turns::counting()
    }

    /// Adds one to the ghost count. It does nothing at run time.
    pub fn tick(&mut self)
        ensures { self.new.count ≡ self.old.count + 1 }
    {
        self.add(&Turns::counting());
    }

    /// Adds the other counter's ghost count. It does nothing at run time.
    pub fn add(&mut self, other: &Turns)
        ensures { self.new.count ≡ self.old.count + other.now.count }
    {
        self.set(other);
    }

    /// Sets the ghost count to the ghost argument `number`.
    fn set(&mut self, _other: &Turns)
        ghost number: { ℕ }
        ensures { self.new.count ≡ number }
    {
        *self = Turns::counting();
    }

    /// Returns a counter whose ghost count is the ghost argument `number`.
    fn counting() -> Turns
        ghost number: { ℕ }
        ensures { result.count ≡ number }
    {
        Turns {}
    }
}
