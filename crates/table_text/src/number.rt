// The numbers that words write.
ghost use Rattle.std.proofs.Common.{arith};
ghost use Rattle.std.specs.Prelude.{◌≡◌, ℕ, ◌<◌, ◌^◌, List, Result};
ghost use Rattle.std.specs.declared.num.ParseIntError.{ParseIntError};
ghost use Rattle.table_text.specs.Spelled.{ReadsValue};
ghost use Rattle.table_text.specs.Words.{Parses, value_of};

use std::num::ParseIntError;
use std::str::FromStr;

// A type of unsigned numbers. What is ensured for it is ensured for u8 with 8 bits and for u32 with 32.
pub(crate) trait Unsigned: Copy + FromStr<Err = ParseIntError> {
    // how many bits it has
    ghost bits: { ℕ };

    // the value that stands for a number in it
    ghost value: { ℕ → Self };

    // what `parse` answers of a word
    ghost parses: { (word : List ℕ) (r : Result Self ParseIntError) → Self.from_str_gives word r → Parses bits value word r };

    // no number has more than 64 bits
    ghost small: { (n : ℕ) → n < 2 ^ bits → n < 2 ^ 64 };
}

impl Unsigned for u8 {
    ghost bits = { 8 };

    ghost value = { λ n. n };

    ghost parses = { λ word r h. h.0 };

    ghost small = { λ n h. Prim.omega arith };
}

impl Unsigned for u32 {
    ghost bits = { 32 };

    ghost value = { λ n. n };

    ghost parses = { λ word r h. h.0 };

    ghost small = { λ n h. Prim.omega arith };
}

// A number in digits, with no sign.
pub(crate) fn number<N: Unsigned>(word: &str) -> Option<N>
    ensures value { result ≡ value_of N.bits N.value word.now }
    ensures spelled { ReadsValue N.bits N.value word.now result }
{
    if word.starts_with('+') {
        return None;
    }
    word.parse::<N>().ok()
}
