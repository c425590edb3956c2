// The remainder of two floats without the operator `%`, which is compiled to a call of a C library's fmod. It is computed on whole numbers of 2 ^ -1074, of which each finite float is one.
#![tactic(auto)]

ghost use Rattle.std.specs.Prelude.{◌≡◌, ◌*◌, ◌%◌, ◌^◌, ◌<◌, T, false};
ghost use Rattle.std.specs.Float.Ieee as Ieee;
ghost use Rattle.std.specs.Float.{binary64, float_is_finite};
ghost use Rattle.remainders.specs.Units.{Measures, IsUnits, of_units};

// the weights of a pattern's sign and of the exponent's field
const SIGN: u64 = 0x8000_0000_0000_0000;

const FIELD: u64 = 0x10_0000_0000_0000;

// `digits` * 2 ^ `exponent` units
#[derive(Clone, Copy)]
struct Size {
    digits: u64,
    exponent: u64,
}

fn size_of(x: f64) -> Size
    requires { T (float_is_finite x) }
    ensures { Measures x result.digits result.exponent }
{
    let bits = x.to_bits();
    let field = bits % SIGN / FIELD;
    let fraction = bits % FIELD;
    if field == 0 {
        return Size {
            digits: fraction,
            exponent: 0,
        };
    }
    Size {
        digits: FIELD + fraction,
        exponent: field - 1,
    }
}

fn power(exponent: u64) -> f64
    requires { exponent < 2046 }
    ensures { IsUnits result false (2 ^ exponent) }
{
    if exponent < 52 {
        return f64::from_bits(1 << exponent);
    }
    f64::from_bits((exponent - 51) * FIELD)
}

fn of_size(negative: bool, digits: u64, exponent: u64) -> f64
    requires digits_fit { digits < 2 ^ 53 }
    requires exponent_fits { exponent < 2046 }
    ensures { result ≡ of_units negative (digits * 2 ^ exponent) }
{
    let unit = power(exponent);
    if negative {
        return digits as f64 * -unit;
    }
    digits as f64 * unit
}

fn shifted_remainder(digits: u64, shift: u64, divisor: u64) -> u64
    requires above { 0 < divisor }
    requires below { divisor < 2 ^ 53 }
    ensures { result ≡ digits * 2 ^ shift % divisor }
{
    let mut rest = digits % divisor;
    let mut left = shift;
    while left >= 10 {
        rest = rest * 1024 % divisor;
        left -= 10;
    }
    (rest << left) % divisor
}

fn of_finite(x: f64, y: f64) -> f64
    requires finite_x { T (float_is_finite x) }
    requires finite_y { T (float_is_finite y) }
    ensures { result ≡ Ieee.rem binary64 x y }
{
    let a = size_of(x);
    let b = size_of(y);
    if b.digits == 0 {
        return f64::NAN;
    }
    let negative = x.is_sign_negative();
    if a.exponent < b.exponent {
        return of_size(negative, a.digits, a.exponent);
    }
    let rest = shifted_remainder(a.digits, a.exponent - b.exponent, b.digits);
    of_size(negative, rest, b.exponent)
}

pub fn remainder(x: f64, y: f64) -> f64
    ensures { result ≡ Ieee.rem binary64 x y }
{
    if !x.is_finite() {
        return f64::NAN;
    }
    if y.is_nan() {
        return f64::NAN;
    }
    if y.is_infinite() {
        return x;
    }
    of_finite(x, y)
}
