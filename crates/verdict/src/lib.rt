// Verdict and ranks, from the values that a match's table holds.
#![tactic(auto)]

ghost use Rattle.std.specs.Prelude.{◌≡◌, ◌&&◌};
ghost use Rattle.verdict.specs.Verdict.{is_true, rank_of};
ghost use Rattle.verdict.specs.Inner.Worth.{worth_at};

use lookup::Roots;
use values::Value;

// Whether both Requirements are true, and both ranks.
#[derive(Clone, Copy)]
pub struct Conclusion {
    pub matched: bool,
    pub first_rank: u32,
    pub second_rank: u32,
}

fn is_true(v: Value) -> bool
    ensures { result ≡ is_true v }
{
    match v {
        Value::Boolean(b) => b,
        _ => false,
    }
}

fn rank_of(v: Value) -> u32
    ensures { result ≡ rank_of v }
{
    match v {
        Value::Integer(x) if x < 0x8000_0000 => x,
        _ => 0,
    }
}

// The value that the table holds for a root; Undefined where there is none.
fn worth(root: Option<usize>, table: &[u64]) -> Value
    ensures { result ≡ worth_at table.now root }
{
    match root {
        Some(y) => evaluation::value_in(table, y),
        None => Value::Undefined,
    }
}

// Both Requirements and both Ranks, from the table alone: it is lent no ad.
pub fn conclude(roots: Roots, table: &[u64]) -> Conclusion
    ensures verdict { result.matched ≡ (is_true (worth_at table.now roots.first_requirements) && is_true (worth_at table.now roots.second_requirements)) }
    ensures ranks { (result.first_rank ≡ rank_of (worth_at table.now roots.first_rank)) × (result.second_rank ≡ rank_of (worth_at table.now roots.second_rank)) }
{
    let x = is_true(worth(roots.first_requirements, table));
    let y = is_true(worth(roots.second_requirements, table));
    let i = rank_of(worth(roots.first_rank, table));
    let j = rank_of(worth(roots.second_rank, table));
    Conclusion {
        matched: x && y,
        first_rank: i,
        second_rank: j,
    }
}
