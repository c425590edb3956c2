// Reals: a real literal and an Integer as a Real, each rounded once.
#![tactic(auto)]

ghost use Rattle.std.specs.Prelude.{◌≡◌, ◌<◌, ◌^◌};
ghost use Rattle.integers.specs.Integers.{width};
ghost use Rattle.reals.specs.Reals.{literal_real, stored_real, integer_real};

const POWERS: [u64; 15] = [
    1,
    10,
    100,
    1000,
    10000,
    100000,
    1000000,
    10000000,
    100000000,
    1000000000,
    10000000000,
    100000000000,
    1000000000000,
    10000000000000,
    100000000000000,
];

fn power_of_ten(places: usize) -> u64
    requires { places < 15 }
    ensures { result ≡ 10 ^ places }
{
    POWERS[places]
}

// Both whole numbers are below 2 ^ 53, so each is exact and only the division rounds.
fn quotient(digits: u64, places: usize) -> f64
    requires { (digits < 10 ^ 15) × (places < 15) }
    ensures { result ≡ literal_real digits places }
{
    (digits as f64) / (power_of_ten(places) as f64)
}

// The Real of a literal's two stored numbers. No literal has a number of 10^15 or more, no place or more than 14; there it is 0.0.
pub fn literal(digits: u64, places: u64) -> f64
    ensures { result ≡ stored_real digits places }
{
    if digits >= 1_000_000_000_000_000 {
        return 0.0;
    }
    if places < 1 {
        return 0.0;
    }
    if places >= 15 {
        return 0.0;
    }
    quotient(digits, places as usize)
}

pub fn of_integer(a: u32) -> f64
    ensures { result ≡ integer_real width a }
{
    if a < 0x8000_0000 {
        return a as f64;
    }
    -(integers::magnitude(a) as f64)
}
