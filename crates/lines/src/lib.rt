// The lines of a text: where each ends, where the next begins, and how many there are.
#![tactic(auto)]

ghost use Rattle.std.specs.Prelude.{◌≡◌, ℕ, ◌+◌, ◌≤◌, ◌<◌, min, false, length, get_or, drop};
ghost use Rattle.lines.specs.Lines.{up_to, lines_of};
ghost use Rattle.lines.specs.Inner.Feeds.{feeds_in};

// How many bytes are looked at together.
const BLOCK: usize = 64;

// Whether a block has such a byte; callers go by `false` alone. No exit in the loop: it is compiled to look at many bytes at a time.
fn has(block: &[u8], byte: u8) -> bool
    ensures { result ≡ false → (k : ℕ) → k < length block.now → get_or block.now k 0 ≡ byte → ⊥ }
{
    let mut found = false;
    let mut j = 0;
    while j < block.len() {
        if block[j] == byte {
            found = true;
        }
        j += 1;
    }
    found
}

// Behind all whole blocks from `at` on that do not have such a byte.
fn skip(text: &[u8], at: usize, byte: u8) -> usize
    requires { at ≤ length text.now }
    ensures { (result ≤ length text.now) × (at + length (up_to byte (drop at text.now)) ≡ result + length (up_to byte (drop result text.now))) }
{
    let mut i = at;
    while BLOCK <= text.len() - i {
        if has(&text[i..i + BLOCK], byte) {
            return i;
        }
        i += BLOCK;
    }
    i
}

// The place of the first such byte from `at` on; the text's length where there is none.
pub fn find(text: &[u8], at: usize, byte: u8) -> usize
    requires { at ≤ length text.now }
    ensures { result ≡ at + length (up_to byte (drop at text.now)) }
{
    let mut i = skip(text, at, byte);
    while i < text.len() {
        if text[i] == byte {
            return i;
        }
        i += 1;
    }
    i
}

// Where the line begins that is behind the one which ends at `end`.
pub fn behind(text: &[u8], end: usize) -> usize
    requires { end ≤ length text.now }
    ensures { result ≡ min (end + 1) (length text.now) }
{
    if end < text.len() {
        return end + 1;
    }
    end
}

// How many LFs a short block has. No exit in the loop, as in `has`, and a count of one byte, so that as many are added at a time.
fn feeds(block: &[u8]) -> u8
    requires { length block.now ≤ 255 }
    ensures { result ≡ feeds_in block.now }
{
    let mut n = 0;
    let mut j = 0;
    while j < block.len() {
        if block[j] == b'\n' {
            n += 1;
        }
        j += 1;
    }
    n
}

// How many lines a text has: one more than there are LFs before its last byte.
pub fn count(text: &[u8]) -> usize
    ensures { result ≡ length (lines_of text.now) }
{
    if text.len() == 0 {
        return 0;
    }
    let last = text.len() - 1;
    let mut n = 1;
    let mut i = 0;
    while BLOCK <= last - i {
        n += feeds(&text[i..i + BLOCK]) as usize;
        i += BLOCK;
    }
    n + feeds(&text[i..last]) as usize
}
