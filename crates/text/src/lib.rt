// Bytes and strings of bytes.
#![tactic(auto)]

ghost use Rattle.std.specs.Prelude.{◌≡◌, false, length};
ghost use Rattle.text.specs.Bytes.{is_blank, is_digit, is_letter, starts_name, continues_name, lower_case};
ghost use Rattle.text.specs.Strings.{same_bytes, same_name, string_order};

use std::cmp::Ordering;

// Space, tab, CR or LF.
#[tactic(auto, unfolding(crate::specs::Bytes::is_blank))]
pub fn is_blank(b: u8) -> bool
    ensures { result ≡ is_blank b }
{
    matches!(b, b' ' | b'\t' | b'\r' | b'\n')
}

#[tactic(auto, unfolding(crate::specs::Bytes::is_digit))]
pub fn is_digit(b: u8) -> bool
    ensures { result ≡ is_digit b }
{
    b.is_ascii_digit()
}

#[tactic(auto, unfolding(crate::specs::Bytes::is_letter))]
pub fn is_letter(b: u8) -> bool
    ensures { result ≡ is_letter b }
{
    b.is_ascii_alphabetic()
}

// The first byte of a Name.
#[tactic(auto, unfolding(crate::specs::Bytes::starts_name))]
pub fn starts_name(b: u8) -> bool
    ensures { result ≡ starts_name b }
{
    is_letter(b) || b == b'_'
}

// A further byte of a Name.
#[tactic(auto, unfolding(crate::specs::Bytes::continues_name))]
pub fn continues_name(b: u8) -> bool
    ensures { result ≡ continues_name b }
{
    starts_name(b) || is_digit(b)
}

// ASCII lower case.
#[tactic(auto, unfolding(crate::specs::Bytes::lower_case))]
pub fn lower(b: u8) -> u8
    ensures { result ≡ lower_case b }
{
    b.to_ascii_lowercase()
}

// Byte for byte.
#[tactic(auto, unfolding(crate::specs::Strings::same_bytes))]
pub fn same_bytes(a: &[u8], b: &[u8]) -> bool
    ensures { result ≡ same_bytes a.now b.now }
{
    a == b
}

// A first look at two strings, done with most unlike names within a few bytes. A no is sure: at some byte they differ in more than the
// bit that tells a letter's two cases apart.
fn may_match(a: &[u8], b: &[u8]) -> bool
    ensures { result ≡ false → same_name a.now b.now ≡ false }
{
    for (x, y) in a.iter().zip(b) {
        if *x & 0xDF != *y & 0xDF {
            return false;
        }
    }
    true
}

// Looks at every byte and stops at none, so that a machine compares several at a time, whichever case they are in.
fn same_letters(a: &[u8], b: &[u8]) -> bool
    requires { length a.now ≡ length b.now }
    ensures { result ≡ same_name a.now b.now }
{
    let mut same = true;
    for (x, y) in a.iter().zip(b) {
        same &= lower(*x) == lower(*y);
    }
    same
}

// Without regard to ASCII case.
#[tactic(auto, using(crate::proofs::Compare::names_unequal))]
pub fn same_name(a: &[u8], b: &[u8]) -> bool
    ensures { result ≡ same_name a.now b.now }
{
    if a.len() != b.len() {
        return false;
    }
    may_match(a, b) && same_letters(a, b)
}

// The order of the bytes after ASCII lower case.
pub fn string_order(a: &[u8], b: &[u8]) -> Ordering
    ensures { result ≡ string_order a.now b.now }
{
    for (x, y) in a.iter().zip(b) {
        let order = lower(*x).cmp(&lower(*y));
        if order.is_ne() {
            return order;
        }
    }
    a.len().cmp(&b.len())
}
