// Sets of flags, a bit a flag: what all of them can do, and how they are printed.
ghost use Rattle.std.specs.Prelude.{◌≡◌, ℕ, bit_or};
ghost use Rattle.formats.specs.Flags.{holds};

use std::fmt;

// A set is a word of bits, and nothing more.
// A trait, and no struct with a type parameter: its parameter would stand, with no value of its own, in every definition of a set.
pub trait Flags: Copy {
    ghost word: { Self → ℕ };

    ghost of_word: { ℕ → Self };

    fn bits(self) -> u32
        ensures { result ≡ word self };

    // Every bit is kept, also one that has no name.
    fn from_bits_retain(bits: u32) -> Self
        ensures { result ≡ of_word bits };

    fn empty() -> Self
        ensures { result ≡ of_word 0 }
    {
        Self::from_bits_retain(0)
    }

    // What is in the one or in the other.
    fn union(self, other: Self) -> Self
        ensures { result ≡ of_word (bit_or (word self) (word other)) }
    {
        Self::from_bits_retain(self.bits() | other.bits())
    }

    // Whether each flag of the other set is in this one.
    fn contains(self, other: Self) -> bool
        ensures { result ≡ holds (word self) (word other) }
    {
        self.bits() & other.bits() == other.bits()
    }

    ghost word_kept: { (n : ℕ) → word (of_word n) ≡ n };

    ghost word_alone: { (s : Self) → of_word (word s) ≡ s };
}

// Sets whose flags have names, and are printed by them.
pub trait NamedFlags: Flags + fmt::Display {
    // What a flag of the set is called.
    const KIND: &'static str;
}
