// Literals and references: read at a place of a text and stored.
#![tactic(auto)]

ghost use Rattle.std.specs.Prelude.{◌≡◌, ◌+◌, ◌*◌, ◌≤◌, length, drop};
ghost use Rattle.std.proofs.lemmas.List.Edits.{sets};
ghost use Rattle.std.proofs.Math.Seq.{slice};
ghost use Rattle.syntax.specs.Bounds.{max_nodes};
ghost use Rattle.syntax.specs.Token.{body_of};
ghost use Rattle.tokens.specs.Inner.Meaning.{literal_of, bytes_of};
ghost use Rattle.ad.specs.Layout.{literal_node, node_words, code_of};
ghost use Rattle.leaves.specs.Inner.Marks.{mark_at, memory, Room, RoomFor, StringFrom, StringRoom, NameRoom, ConstantLeaf, TextLeaf, OtherLeaf, OtherWithin, LeafOk, LeafWithin};

use ad::Kind;
use lexer::StringStep;
use syntax::{Reason, Refusal, Symbol};
use tokens::{Constant, Span, Token};

// Where a reader is in the text, and how many nodes and bytes are stored.
#[derive(Clone, Copy, PartialEq, Eq)]
pub struct Progress {
    pub place: usize,
    pub nodes: usize,
    pub bytes: usize,
}

impl Progress {
    // Whether there is room for a node more, where so many operators are begun; its token is at a place.
    pub fn room(self, begun: usize, place: usize) -> Result<(), Refusal>
        requires { self.nodes + begun ≤ max_nodes }
        ensures { RoomFor (self.nodes + begun) place result }
    {
        if self.nodes + begun < syntax::NODES {
            Ok(())
        } else {
            Err(Refusal {
                reason: Reason::TooMany,
                place,
            })
        }
    }
}

// What stands at a place where an operand can begin.
#[derive(Clone, Copy, PartialEq, Eq)]
pub enum Leaf {
    // A literal or reference, which is stored.
    Done(Progress),
    // An opening parenthesis.
    Open(Span),
}

// Writes node n, a literal that has no bytes.
#[tactic(auto, unfolding(ad::specs::Layout::literal_node))]
fn store_constant(words: &mut [u64], n: usize, c: Constant)
    requires { 4 * n + 4 ≤ length words.old }
    ensures { words.new ≡ sets words.old (4 * n) (literal_node 0 (literal_of c)) }
{
    match c {
        Constant::Undefined => ad::store_node(words, n, Kind::Undefined, 0, 0, 0),
        Constant::Error => ad::store_node(words, n, Kind::Error, 0, 0, 0),
        Constant::Boolean(b) => ad::store_node(words, n, Kind::Boolean, u64::from(b), 0, 0),
        Constant::Integer(v) => ad::store_node(words, n, Kind::Integer, v, 0, 0),
        Constant::Real(v, places) => ad::store_node(words, n, Kind::Real, v, places, 0),
    }
}

// Writes the `n` bytes of a string that stands behind its opening quote at `at`, from k on.
fn copy_string(text: &[u8], at: usize, n: usize, bytes: &mut [u8], k: usize)
    requires { StringFrom text.now at n × (k + n ≤ length bytes.old) }
    ensures { bytes.new ≡ sets bytes.old k (bytes_of (body_of (drop at text.now))) }
{
    let mut i = at;
    for j in k..k + n {
        let Some(StringStep::Byte(b, next)) = lexer::string_step(text, i) else {
            return;
        };
        bytes[j] = b;
        i = next;
    }
}

// A literal without bytes.
fn constant_leaf(
    c: Constant,
    at: Span,
    from: Progress,
    begun: usize,
    words: &mut [u64],
) -> Result<Progress, Refusal>
    requires { (from.nodes + begun ≤ max_nodes) × (node_words ≤ length words.old) }
    ensures { ConstantLeaf at c (mark_at from) begun words.old words.new result }
{
    from.room(begun, at.start)?;
    store_constant(words, from.nodes, c);
    Ok(Progress {
        place: at.end,
        nodes: from.nodes + 1,
        bytes: from.bytes,
    })
}

// A string of `n` bytes.
fn string_leaf(
    text: &[u8],
    n: usize,
    at: Span,
    from: Progress,
    begun: usize,
    words: &mut [u64],
    bytes: &mut [u8],
) -> Result<Progress, Refusal>
    requires { StringRoom text.now at n (mark_at from) begun (memory words.old bytes.old) }
    ensures { TextLeaf 6 (bytes_of (body_of (drop (at.start + 1) text.now))) at.start at.end (mark_at from) begun (memory words.old bytes.old) (memory words.new bytes.new) result }
{
    from.room(begun, at.start)?;
    ad::store_node(
        words,
        from.nodes,
        Kind::String,
        from.bytes as u64,
        n as u64,
        0,
    );
    copy_string(text, at.start + 1, n, bytes, from.bytes);
    Ok(Progress {
        place: at.end,
        nodes: from.nodes + 1,
        bytes: from.bytes + n,
    })
}

// The reference of a kind, which has a name and begins at `start`.
fn name_leaf(
    text: &[u8],
    kind: Kind,
    start: usize,
    name: Span,
    from: Progress,
    begun: usize,
    words: &mut [u64],
    bytes: &mut [u8],
) -> Result<Progress, Refusal>
    requires { NameRoom text.now name (mark_at from) begun (memory words.old bytes.old) }
    ensures { TextLeaf (code_of kind) (slice name.start name.end text.now) start name.end (mark_at from) begun (memory words.old bytes.old) (memory words.new bytes.new) result }
{
    from.room(begun, start)?;
    let n = name.end - name.start;
    ad::store_node(words, from.nodes, kind, from.bytes as u64, n as u64, 0);
    ad::copy(text, name.start, name.end, bytes, from.bytes);
    Ok(Progress {
        place: name.end,
        nodes: from.nodes + 1,
        bytes: from.bytes + n,
    })
}

// Behind `other`, which begins at `start`: a point and a Name.
fn other_leaf(
    text: &[u8],
    start: usize,
    from: Progress,
    begun: usize,
    words: &mut [u64],
    bytes: &mut [u8],
) -> Result<Progress, Refusal>
    requires { Room text.now from.place (mark_at from) begun (memory words.old bytes.old) }
    ensures within { OtherWithin text.now from.place (mark_at from) begun result }
    ensures exact { OtherLeaf text.now start from.place (mark_at from) begun (memory words.old bytes.old) (memory words.new bytes.new) result }
{
    from.room(begun, start)?;
    let point = lookahead::symbol_at(text, from.place, Symbol::Point)?;
    let name = lookahead::word_at(text, point.end)?;
    name_leaf(text, Kind::Other, start, name, from, begun, words, bytes)
}

// What stands at a place where an operand can begin.
#[tactic(auto, unfolding(syntax::specs::Reader::conditional_at))]
pub fn leaf_at(
    text: &[u8],
    from: Progress,
    begun: usize,
    words: &mut [u64],
    bytes: &mut [u8],
) -> Result<Leaf, Refusal>
    requires { Room text.now from.place (mark_at from) begun (memory words.old bytes.old) }
    ensures within { LeafWithin text.now from.place (mark_at from) begun (memory words.old bytes.old) (memory words.new bytes.new) result }
    ensures exact { LeafOk text.now from.place (mark_at from) begun (memory words.old bytes.old) (memory words.new bytes.new) result }
{
    let token = lexer::token_at(text, from.place)?;
    match token {
        Token::Word(at) => {
            let done = name_leaf(text, Kind::Own, at.start, at, from, begun, words, bytes)?;
            Ok(Leaf::Done(done))
        }
        Token::Constant(c, at) => Ok(Leaf::Done(constant_leaf(c, at, from, begun, words)?)),
        Token::String(n, at) => {
            let done = string_leaf(text, n, at, from, begun, words, bytes)?;
            Ok(Leaf::Done(done))
        }
        Token::Symbol(Symbol::Other, at) => {
            let behind = Progress {
                place: at.end,
                ..from
            };
            let done = other_leaf(text, at.start, behind, begun, words, bytes)?;
            Ok(Leaf::Done(done))
        }
        Token::Symbol(Symbol::OpenParenthesis, at) => Ok(Leaf::Open(at)),
        _ => Err(token.misfit()),
    }
}
