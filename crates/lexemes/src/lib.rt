// Names and literals: which ones a text can write, and how long they print.
#![tactic(auto)]

ghost use Rattle.std.specs.Prelude.{◌≡◌, ◌+◌, ◌*◌, ◌/◌, ◌≤◌, length};
ghost use Rattle.syntax.specs.Bounds.{string_bytes};
ghost use Rattle.text.specs.Bytes.{continues_name};
ghost use Rattle.syntax.specs.Tree.{real, string};
ghost use Rattle.syntax.specs.Token.{reserved};
ghost use Rattle.syntax.specs.Print.{decimal, escaped, literal_text};
ghost use Rattle.syntax.specs.Inner.Lexeme.{every, is_one_of, is_name, in_string, is_string, is_real};

// Whether a Name can go on with each of these bytes.
fn go_on(name: &[u8]) -> bool
    ensures { result ≡ every continues_name name.now }
{
    name.iter().all(|b| text::continues_name(*b))
}

#[tactic(auto, unfolding(syntax::specs::Inner::Lexeme::is_one_of, syntax::specs::Token::reserved, text::specs::Bytes::bytes))]
fn is_reserved(name: &[u8]) -> bool
    ensures { result ≡ is_one_of reserved name.now }
{
    text::same_name(b"true", name)
        || text::same_name(b"false", name)
        || text::same_name(b"undefined", name)
        || text::same_name(b"error", name)
        || text::same_name(b"is", name)
        || text::same_name(b"isnt", name)
        || text::same_name(b"parent", name)
        || text::same_name(b"other", name)
}

// Whether some bytes are a Name that is not reserved.
#[tactic(auto, unfolding(syntax::specs::Inner::Lexeme::is_name))]
pub fn is_name(name: &[u8]) -> bool
    ensures { result ≡ is_name name.now }
{
    match name.first() {
        Some(b) => text::starts_name(*b)
            && go_on(name)
            && name.len() <= syntax::NAME_BYTES
            && !is_reserved(name),
        None => false,
    }
}

// Whether a string can hold this byte.
#[tactic(auto, unfolding(syntax::specs::Inner::Lexeme::in_string))]
fn in_string(b: u8) -> bool
    ensures { result ≡ in_string b }
{
    matches!(b, b' '..=b'~' | b'\n' | b'\t')
}

fn string_bytes(s: &[u8]) -> bool
    ensures { result ≡ every in_string s.now }
{
    s.iter().all(|b| in_string(*b))
}

// Whether some bytes are a string after escapes.
#[tactic(auto, unfolding(syntax::specs::Inner::Lexeme::is_string))]
pub fn is_string(s: &[u8]) -> bool
    ensures { result ≡ is_string s.now }
{
    string_bytes(s) && s.len() <= syntax::STRING_BYTES
}

// Whether a Real can have these digits, and so many of them after its point.
#[tactic(auto, unfolding(syntax::specs::Inner::Lexeme::is_real))]
pub fn is_real(digits: u64, places: u64) -> bool
    ensures { result ≡ is_real digits places }
{
    digits < 1000000000000000 && 1 <= places && places < 15
}

// How long an Integer prints.
pub fn decimal_length(v: u64) -> usize
    ensures { (result ≡ length (decimal v)) × (result ≤ v / 2 + 1) }
{
    if v < 10 {
        return 1;
    }
    decimal_length(v / 10) + 1
}

// How long a Real prints.
pub fn real_length(v: u64, places: u64) -> usize
    requires { places ≤ 14 }
    ensures { (result ≡ length (literal_text (real v places))) × (result ≤ v / 2 + 2 + places) }
{
    if places == 0 {
        return decimal_length(v) + 1;
    }
    real_length(v / 10, places - 1) + 1
}

// How long a byte of a string prints. No test is skipped, so that a machine does many bytes at a time.
#[tactic(auto, unfolding(syntax::specs::Print::escaped, text::specs::Bytes::bytes))]
fn escaped_length(b: u8) -> usize
    ensures { (result ≡ length (escaped b)) × (result ≤ 2) }
{
    let escape = (b == b'"') | (b == b'\\') | (b == b'\n') | (b == b'\t');
    1 + usize::from(escape)
}

// How long a string prints.
pub fn string_length(s: &[u8]) -> usize
    requires { length s.now ≤ string_bytes }
    ensures { (result ≡ length (literal_text (string s.now))) × (result ≤ 2 * length s.now + 2) }
{
    let mut n = 2;
    for b in s {
        n += escaped_length(*b);
    }
    n
}
