// The check that an ad's memory is zero behind its content.
#![tactic(auto)]

ghost use Rattle.std.specs.Prelude.{◌≡◌, ◌+◌, ◌*◌, ◌≤◌, length};
ghost use Rattle.syntax.specs.Bounds.{max_definitions, max_nodes};
ghost use Rattle.ad.specs.Layout.{ad_words, ad_bytes_room};
ghost use Rattle.syntax.specs.Inner.Lexeme.{every};
ghost use Rattle.unused_room.specs.Inner.Zeros.{is_zero, zero_behind};

// Whether all are zero. The loops look at everything and stop nowhere, which a machine does many numbers at a time.
fn zero_words(words: &[u64]) -> bool
    ensures { result ≡ every is_zero words.now }
{
    let mut clear = true;
    for x in words {
        clear &= *x == 0;
    }
    clear
}

fn zero_bytes(bytes: &[u8]) -> bool
    ensures { result ≡ every is_zero bytes.now }
{
    let mut clear = true;
    for x in bytes {
        clear &= *x == 0;
    }
    clear
}

// Whether all is zero behind d definitions, n nodes and k bytes.
pub fn zero_behind(words: &[u64], bytes: &[u8], d: usize, n: usize, k: usize) -> bool
    requires { (d ≤ max_definitions) × (n ≤ max_nodes) × (k ≤ ad_bytes_room) × (length words.now ≡ ad_words) × (length bytes.now ≡ ad_bytes_room) }
    ensures { result ≡ zero_behind words.now bytes.now d n k }
{
    let node = 4 * n;
    let entry = ad::NODE_WORDS + 3 * d;
    let nodes = zero_words(&words[node..ad::NODE_WORDS]);
    let entries = zero_words(&words[entry..]);
    let rest = zero_bytes(&bytes[k..]);
    nodes && entries && rest
}
