// Integers in two's complement, carried as unsigned codes. The arithmetic wraps.
#![tactic(auto)]

ghost use Rattle.std.specs.Prelude.{◌≡◌, unsigned_abs};
ghost use Rattle.integers.specs.Integers.{width, signed, wrapped_sum, wrapped_difference, wrapped_product, wrapped_negation, truncated_quotient, signed_remainder, less_than};

// The first code of a negative number.
const NEGATIVE: u32 = 0x8000_0000;

// How many codes there are.
const CODES: u64 = 0x1_0000_0000;

pub fn sum(a: u32, b: u32) -> u32
    ensures { result ≡ wrapped_sum width a b }
{
    std::num::wrapping_add_u32(a, b)
}

pub fn difference(a: u32, b: u32) -> u32
    ensures { result ≡ wrapped_difference width a b }
{
    std::num::wrapping_sub_u32(a, b)
}

// The whole product fits twice the width; its lower half is the code.
pub fn product(a: u32, b: u32) -> u32
    ensures { result ≡ wrapped_product width a b }
{
    ((a as u64) * (b as u64) % CODES) as u32
}

pub fn negation(a: u32) -> u32
    ensures { result ≡ wrapped_negation width a }
{
    std::num::wrapping_sub_u32(0, a)
}

pub fn magnitude(a: u32) -> u32
    ensures { result ≡ unsigned_abs (signed width a) }
{
    if a < NEGATIVE {
        return a;
    }
    u32::MAX - a + 1
}

// By the magnitudes, and the sign put on the result. A zero divisor is the rule's to refuse; here it gives 0.
pub fn quotient(a: u32, b: u32) -> u32
    ensures { result ≡ truncated_quotient width a b }
{
    if b == 0 {
        return 0;
    }
    let q = magnitude(a) / magnitude(b);
    if a < NEGATIVE {
        if b < NEGATIVE {
            return q;
        }
        return negation(q);
    }
    if b < NEGATIVE {
        return negation(q);
    }
    q
}

// By a zero divisor the dividend remains.
pub fn remainder(a: u32, b: u32) -> u32
    ensures { result ≡ signed_remainder width a b }
{
    if b == 0 {
        return a;
    }
    let m = magnitude(a) % magnitude(b);
    if a < NEGATIVE {
        return m;
    }
    negation(m)
}

pub fn less(a: u32, b: u32) -> bool
    ensures { result ≡ less_than width a b }
{
    if a < NEGATIVE {
        if b < NEGATIVE {
            return a < b;
        }
        return false;
    }
    if b < NEGATIVE {
        return true;
    }
    a < b
}
