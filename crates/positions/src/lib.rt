// Where a byte of a text stands for a person: its line and its column.
#![tactic(auto)]

ghost use Rattle.std.specs.Prelude.{◌≡◌, ◌+◌, ◌-◌, ◌^◌, ◌<◌};
ghost use Rattle.positions.specs.Positions.{line_after, column_after, Stands};

// A line and a column, both from 1.
#[derive(Clone, Copy, PartialEq, Eq)]
pub struct Position {
    pub line: usize,
    pub column: usize,
}

// Behind one more byte: how many lines end before, and how many bytes of the last stand before.
fn behind(p: Position, b: u8) -> Position
    requires { (p.line < 2 ^ 64 - 1) × (p.column < 2 ^ 64 - 1) }
    ensures { (result.line ≡ line_after p.line b) × (result.column ≡ column_after p.column b) }
{
    if b == b'\n' {
        Position {
            line: p.line + 1,
            column: 0,
        }
    } else {
        Position {
            line: p.line,
            column: p.column + 1,
        }
    }
}

// The line and the column of a place in a text; a place beyond the text counts as its length.
pub fn locate(text: &[u8], place: usize) -> Position
    ensures { Stands text.now place result.line result.column }
{
    let end = place.min(text.len());
    let mut p = Position { line: 0, column: 0 };
    for b in &text[..end] {
        p = behind(p, *b);
    }
    Position {
        line: p.line + 1,
        column: p.column + 1,
    }
}
