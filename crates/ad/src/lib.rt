// The stored ad: its layout in lent memory, read and written by the numbers of its nodes and definitions.
#![tactic(auto)]

mod kind;
mod stored;

ghost use Rattle.std.specs.Prelude.{◌≡◌, [], ◌∷◌, ◌+◌, ◌*◌, ◌-◌, ◌≤◌, length};
ghost use Rattle.std.proofs.lemmas.List.Edits.{sets};
ghost use Rattle.std.proofs.Math.Seq.{slice};
ghost use Rattle.ad.specs.Layout.{node, node_words, code_of};

pub use kind::{Kind, UnknownKind};
pub use stored::StoredAd;

// The room of an ad: 1,024 nodes of four words, behind them 256 definitions of three, and 16,384 bytes.
pub const NODE_WORDS: usize = 4096;

pub const WORDS: usize = 4864;

pub const BYTES: usize = 16384;

// How many definitions and nodes an ad has.
#[derive(Clone, Copy, PartialEq, Eq)]
pub struct Counts {
    pub definitions: usize,
    pub nodes: usize,
}

// Writes node n.
pub fn store_node(words: &mut [u64], n: usize, kind: Kind, a: u64, b: u64, c: u64)
    requires { 4 * n + 4 ≤ length words.old }
    ensures { words.new ≡ sets words.old (4 * n) (node (code_of kind) a b c) }
{
    let at = 4 * n;
    words[at] = kind.code();
    words[at + 1] = a;
    words[at + 2] = b;
    words[at + 3] = c;
}

// Writes definition j.
pub fn store_definition(words: &mut [u64], j: usize, at: u64, len: u64, root: u64)
    requires { node_words + 3 * j + 3 ≤ length words.old }
    ensures { words.new ≡ sets words.old (node_words + 3 * j) (at ∷ len ∷ root ∷ []) }
{
    let first = NODE_WORDS + 3 * j;
    words[first] = at;
    words[first + 1] = len;
    words[first + 2] = root;
}

// Writes the bytes of `text` from p up to q from k on. One by one: std's copy of a slice is a call of C's `memmove`, which a caller that has
// no C library would have to give.
pub fn copy(text: &[u8], p: usize, q: usize, bytes: &mut [u8], k: usize)
    requires { (p ≤ q) × (q ≤ length text.now) × (k + (q - p) ≤ length bytes.old) }
    ensures { bytes.new ≡ sets bytes.old k (slice p q text.now) }
{
    for i in p..q {
        bytes[k + (i - p)] = text[i];
    }
}
