// The lines of a refusal: why a text is refused, and where. Where a reason has several causes, the bytes around the place tell which it
// is.
#![tactic(auto)]

use cli_output::Output;
use syntax::{Reason, Refusal};

// What stands first in a string that none may hold.
#[derive(Clone, Copy)]
enum Flaw {
    Byte,
    Escape,
    End,
}

// The last byte before a place that is no blank.
fn byte_before(text: &[u8], place: usize) -> Option<u8> {
    for &b in parts::cut(text, 0, place).iter().rev() {
        if !text::is_blank(b) {
            return Some(b);
        }
    }
    None
}

// The flaw of a string that begins at the first byte.
fn flaw_of(rest: &[u8]) -> Flaw {
    let mut escaped = false;
    for &b in parts::cut(rest, 1, rest.len()) {
        if escaped && !matches!(b, b'"' | b'\\' | b'n' | b't') {
            return Flaw::Escape;
        }
        if !matches!(b, b' '..=b'~') {
            return Flaw::Byte;
        }
        escaped = !escaped && b == b'\\';
    }
    Flaw::End
}

// Whether a point and a digit follow the digits in front.
fn is_real(rest: &[u8]) -> bool {
    let digits = rest
        .iter()
        .position(|&b| !text::is_digit(b))
        .unwrap_or(rest.len());
    matches!(&rest[digits..], [b'.', b'0'..=b'9', ..])
}

// No token, or a broken string.
fn no_token(rest: &[u8]) -> &'static [u8] {
    if rest.first() != Some(&b'"') {
        return b"no token starts here\n";
    }
    match flaw_of(rest) {
        Flaw::Byte => b"bad byte in a string\n",
        Flaw::Escape => b"bad escape in a string\n",
        Flaw::End => b"string not closed\n",
    }
}

// What is wrong at a place of a text, from which on `rest` stands.
fn phrase(text: &[u8], rest: &[u8], refusal: Refusal) -> &'static [u8] {
    match refusal.reason {
        Reason::MemoryTooSmall => b"memory too small\n",
        Reason::TextTooLong => b"text over 16,384 bytes\n",
        Reason::NoToken => no_token(rest),
        // The end of the text counts as a token.
        Reason::Misfit if rest.is_empty() => b"text ends early\n",
        Reason::Misfit => b"token does not fit here\n",
        Reason::NumberTooLarge if is_real(rest) => b"Real over 15 digits\n",
        Reason::NumberTooLarge => b"Integer over 2,147,483,647\n",
        Reason::NestedTooDeep => b"nested deeper than level 64\n",
        Reason::TokenTooLong if rest.first() == Some(&b'"') => b"string over 1,024 bytes\n",
        Reason::TokenTooLong => b"name over 64 bytes\n",
        Reason::DefinedTwice => b"name defined twice\n",
        // Only a definition begins behind a semicolon.
        Reason::TooMany if byte_before(text, refusal.place) == Some(b';') =>
            b"over 256 definitions\n",
        Reason::TooMany => b"over 1,024 nodes\n",
        Reason::NotWellFormed => b"stored ad is not well formed\n",
        _ => b"printed text over 16,384 bytes\n",
    }
}

// Whether a refusal's place is one of the text, and not 0 by rule.
fn has_place(reason: Reason) -> bool {
    !matches!(
        reason,
        Reason::MemoryTooSmall | Reason::TextTooLong | Reason::NotWellFormed | Reason::PrintTooLong
    )
}

// Every byte takes one column.
fn shown_byte(b: u8) -> u8 {
    match b {
        b'\t' => b' ',
        b' '..=b'~' => b,
        _ => b'?',
    }
}

// The line around a place, and a caret below it.
fn caret(out: &mut Output, text: &[u8], place: usize, column: usize) {
    let before = column.saturating_sub(1);
    let rest = parts::cut(text, place.saturating_sub(before), text.len());
    let mut line = [0u8; 16385];
    let n = rest
        .iter()
        .position(|&b| b == b'\n')
        .unwrap_or(rest.len())
        .min(line.len());
    for i in 0..n {
        line[i] = shown_byte(rest[i]);
    }
    out.say(&line[..n]);
    out.byte(b'\n');
    out.say(parts::cut(&[b' '; 16385], 0, before));
    out.say(b"^\n");
}

// The rest of the line of a refusal with a place, and the text's line around it.
fn located(out: &mut Output, text: &[u8], refusal: Refusal) {
    let place = refusal.place;
    let p = positions::locate(text, place);
    out.counted(b" (line ", p.line as u64);
    out.counted(b", column ", p.column as u64);
    out.say(b"): ");
    out.say(phrase(text, parts::cut(text, place, text.len()), refusal));
    caret(out, text, place, p.column);
}

// What is said behind the name of what is refused.
pub fn refused(out: &mut Output, text: &[u8], refusal: Refusal) {
    out.counted(b": refused ", refusal.reason.number() as u64);
    out.counted(b" at ", refusal.place as u64);
    if has_place(refusal.reason) {
        located(out, text, refusal);
        return;
    }
    out.say(b": ");
    out.say(phrase(text, text, refusal));
}
