// Reading: brackets and the definitions between them, up to the end of the text.
#![tactic(auto)]

ghost use Rattle.std.specs.Prelude.{◌≤◌, length};
ghost use Rattle.ad.specs.Layout.{ad_words};
ghost use Rattle.leaves.specs.Inner.Marks.{mark_at, memory};
ghost use Rattle.definition_reader.specs.Inner.Post.{AdRoom};
ghost use Rattle.ad_reader.specs.Inner.Post.{AgreesAd, DefinitionsOk, BehindOk, EndOk};
ghost use Rattle.syntax.specs.Reader.{parse};

use ad::Counts;
use leaves::Progress;
use syntax::{Refusal, Symbol};
use tokens::Token;

// Behind the closing bracket of an ad of so many definitions and nodes the text ends.
fn end_at(text: &[u8], at: usize, counts: Counts) -> Result<Counts, Refusal>
    requires { at ≤ length text.now }
    ensures { EndOk text.now at counts.definitions counts.nodes result }
{
    match lexer::token_at(text, at)? {
        Token::End(_) => Ok(counts),
        token => Err(token.misfit()),
    }
}

// Behind `[` or `;`: the closing bracket, or definition d.
#[cycle(definitions)]
fn read_definitions(
    text: &[u8],
    d: usize,
    from: Progress,
    words: &mut [u64],
    bytes: &mut [u8],
) -> Result<Counts, Refusal>
    requires { AdRoom text.now from.place d (mark_at from) (memory words.old bytes.old) }
    ensures { DefinitionsOk text.now from.place d (mark_at from) (memory words.old bytes.old) (memory words.new bytes.new) result }
{
    if let Ok(close) = lookahead::symbol_at(text, from.place, Symbol::CloseBracket) {
        return end_at(
            text,
            close.end,
            Counts {
                definitions: d,
                nodes: from.nodes,
            },
        );
    }
    let name = lookahead::word_at(text, from.place)?;
    let done = definition_reader::read_definition(text, name, d, from, words, bytes)?;
    read_behind(text, d + 1, done, words, bytes)
}

// Behind d definitions: `;` and more, or the closing bracket.
#[cycle(definitions)]
fn read_behind(
    text: &[u8],
    d: usize,
    from: Progress,
    words: &mut [u64],
    bytes: &mut [u8],
) -> Result<Counts, Refusal>
    requires { AdRoom text.now from.place d (mark_at from) (memory words.old bytes.old) }
    ensures { BehindOk text.now from.place d (mark_at from) (memory words.old bytes.old) (memory words.new bytes.new) result }
{
    if let Ok(semicolon) = lookahead::symbol_at(text, from.place, Symbol::Semicolon) {
        let behind = Progress {
            place: semicolon.end,
            ..from
        };
        return read_definitions(text, d, behind, words, bytes);
    }
    let close = lookahead::symbol_at(text, from.place, Symbol::CloseBracket)?;
    end_at(
        text,
        close.end,
        Counts {
            definitions: d,
            nodes: from.nodes,
        },
    )
}

// An ad that is the whole text, into memory that is zero.
pub fn read_ad(text: &[u8], words: &mut [u64], bytes: &mut [u8]) -> Result<Counts, Refusal>
    requires { (ad_words ≤ length words.old) × (length text.now ≤ length bytes.old) }
    ensures { AgreesAd (memory words.old bytes.old) (memory words.new bytes.new) (parse text.now) result }
{
    let open = lookahead::symbol_at(text, 0, Symbol::OpenBracket)?;
    let start = Progress {
        place: open.end,
        nodes: 0,
        bytes: 0,
    };
    read_definitions(text, 0, start, words, bytes)
}
