// The shortest decimal of a Real, for a person to read: the fewest digits that read back as the same 64-bit float, and of these the
// closest to it. Each number here is digits from the left, POINT of them before the point, so that every float is exact.
// What is written is compared with another program's, and not proved; that no call goes wrong is.
#![tactic(auto)]

ghost use Rattle.std.specs.Prelude.{◌≤◌, length};

// A float has at most 309 digits before the point and 1,074 behind it; the ends of what reads as it have up to two more behind it.
pub const POINT: usize = 328;

type Digits = [u8; 1408];

// A float, `whole` · 2^(exponent - 1077), and in the same way the ends of what reads as it; whether the ends do so too.
#[derive(Clone, Copy)]
struct Parts {
    low: u64,
    whole: u64,
    high: u64,
    exponent: u64,
    closed: bool,
}

// The digits of a float and of the ends of what reads as it; whether the ends do so too.
#[derive(Clone, Copy)]
struct Around<'a> {
    low: &'a Digits,
    exact: &'a Digits,
    high: &'a Digits,
    closed: bool,
}

fn narrow(x: u64) -> u8 {
    (x % 10) as u8
}

// The float's whole number and exponent, and the ends of what rounds to it: half the way to its neighbours, nearer below a power of
// two. An even whole number's ends round to it too.
fn taken_apart(bits: u64) -> Parts {
    let field = bits / 0x10_0000_0000_0000 % 2048;
    let fraction = bits % 0x10_0000_0000_0000;
    let closed = fraction % 2 == 0;
    if field == 0 {
        let whole = fraction * 4;
        return Parts {
            low: whole.saturating_sub(2),
            whole,
            high: whole + 2,
            exponent: 1,
            closed,
        };
    }
    let whole = (fraction + 0x10_0000_0000_0000) * 4;
    let below = if fraction == 0 && 1 < field { 1 } else { 2 };
    Parts {
        low: whole - below,
        whole,
        high: whole + 2,
        exponent: field,
        closed,
    }
}

// Puts a whole number's digits before the point.
fn put_whole(n: u64, d: &mut Digits) {
    let mut rest = n;
    for digit in d[..POINT].iter_mut().rev() {
        *digit = narrow(rest);
        rest /= 10;
    }
}

fn double(d: &mut Digits) {
    let mut carry = 0;
    for digit in d.iter_mut().rev() {
        let x = 2 * u64::from(*digit) + carry % 10;
        *digit = narrow(x);
        carry = x / 10;
    }
}

fn halve(d: &mut Digits) {
    let mut over = 0;
    for digit in d.iter_mut() {
        let x = over % 2 * 10 + u64::from(*digit);
        *digit = narrow(x / 2);
        over = x % 2;
    }
}

fn double_times(d: &mut Digits, n: u64) {
    for _ in 0..n {
        double(d);
    }
}

fn halve_times(d: &mut Digits, n: u64) {
    for _ in 0..n {
        halve(d);
    }
}

// The digits of n · 2^(exponent - 1077).
fn scaled(n: u64, exponent: u64) -> Digits {
    let mut d = [0u8; 1408];
    put_whole(n, &mut d);
    double_times(&mut d, exponent.saturating_sub(1077));
    halve_times(&mut d, 1077u64.saturating_sub(exponent));
    d
}

// The place of the first digit that is not 0, or how many digits there are.
fn first_digit(d: &[u8]) -> usize
    ensures { result ≤ length d.now }
{
    d.iter().position(|&digit| digit != 0).unwrap_or(d.len())
}

// One place behind the last digit that is not 0.
fn last_digit(d: &[u8]) -> usize
    ensures { result ≤ length d.now }
{
    for i in (0..d.len()).rev() {
        if d[i] != 0 {
            return i + 1;
        }
    }
    0
}

// Whether a is below b, or at b where `closed`.
fn below(a: &Digits, b: &Digits, closed: bool) -> bool {
    a < b || closed && a == b
}

// The digits of x before the place, and zeros.
fn cut(x: &Digits, place: usize) -> Digits {
    let mut d = *x;
    d[place.min(x.len())..].fill(0);
    d
}

// One more in the place before, where there is one.
fn raise(d: &mut Digits, place: usize) {
    if d.len() < place {
        return;
    }
    for digit in d[..place].iter_mut().rev() {
        if *digit < 9 {
            *digit += 1;
            return;
        }
        *digit = 0;
    }
}

// Whether what stands from the place on is a half or more.
fn half(x: &Digits, place: usize) -> bool {
    x.get(place).is_some_and(|&digit| 5 <= digit)
}

impl<'a> Around<'a> {
    // The float rounded at the place, down or up, whichever reads as it and is closer; none where neither reads as it.
    fn rounded(self, place: usize) -> Option<Digits> {
        let down = cut(self.exact, place);
        let mut up = down;
        raise(&mut up, place);
        let reads_down = below(self.low, &down, self.closed);
        if below(&up, self.high, self.closed) && (half(self.exact, place) || !reads_down) {
            return Some(up);
        }
        if reads_down { Some(down) } else { None }
    }

    // The shortest digits that read as the float; its first digit stands at the place `from`.
    fn shortest(self, from: usize) -> Digits
        requires { from ≤ 1408 }
    {
        for n in 1..18 {
            if let Some(d) = self.rounded(from + n) {
                return d;
            }
        }
        cut(self.exact, from + 17)
    }
}

// The shortest digits of the finite float with these bits, which is not zero.
fn digits(bits: u64) -> Digits {
    let p = taken_apart(bits);
    let exact = scaled(p.whole, p.exponent);
    let around = Around {
        low: &scaled(p.low, p.exponent),
        exact: &exact,
        high: &scaled(p.high, p.exponent),
        closed: p.closed,
    };
    around.shortest(first_digit(&exact))
}

// ASCII digits, for as many digits as there are.
fn put_ascii(d: &[u8], out: &mut [u8]) {
    out.fill(b'0');
    for (slot, &digit) in out.iter_mut().zip(d) {
        *slot = digit % 10 + b'0';
    }
}

// Where a shortest decimal's digits stand: its first, and one behind its last.
#[derive(Clone, Copy)]
pub struct Span {
    pub first: usize,
    pub last: usize,
}

// Puts the ASCII digits of the finite float with these bits, which is not zero, and tells where they stand.
pub fn put_decimal(bits: u64, out: &mut [u8]) -> Span
    ensures { (result.first ≤ 1408) × (result.last ≤ 1408) }
{
    let d = digits(bits);
    put_ascii(&d, out);
    Span {
        first: first_digit(&d),
        last: last_digit(&d),
    }
}
