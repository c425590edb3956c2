// What the C functions of the operators of one and two operands do, by packed slots (`crates/slots`). An operator is named by the kind
// of its node; where a number is no operator's, or an operand's slot is blank, the result is a blank slot. Missing words of `operands`
// read as 0, and of `result` only slot 0 is written, as far as it is there.
#![tactic(auto)]

ghost use Rattle.std.specs.Prelude.{◌≡◌};
ghost use Rattle.slots.specs.Packed.{slot_at, Stored};
ghost use Rattle.c_operators.specs.Operators.{binary_named, unary_named, binary_slot, unary_slot};

use ad::Kind;
use slots::Slot;
use syntax::{Binary, Unary};

// The operator of two operands that a number names.
fn binary_named(kind: u64) -> Option<Binary>
    ensures { result ≡ binary_named kind }
{
    match Kind::try_from(kind).ok()? {
        Kind::Binary(op) => Some(op),
        _ => None,
    }
}

// The operator of one operand that a number names.
fn unary_named(kind: u64) -> Option<Unary>
    ensures { result ≡ unary_named kind }
{
    match Kind::try_from(kind).ok()? {
        Kind::Unary(op) => Some(op),
        _ => None,
    }
}

fn binary_slot(first: &[u8], second: &[u8], op: Option<Binary>, a: Slot, b: Slot) -> Slot
    ensures { result ≡ binary_slot first.now second.now op a b }
{
    match (op, a, b) {
        (Some(op), Slot::Held(x), Slot::Held(y)) => Slot::Held(operators::binary(
            first, second, op, x, y,
        )),
        _ => Slot::Blank,
    }
}

fn unary_slot(op: Option<Unary>, a: Slot) -> Slot
    ensures { result ≡ unary_slot op a }
{
    match (op, a) {
        (Some(op), Slot::Held(x)) => Slot::Held(operators::unary(op, x)),
        _ => Slot::Blank,
    }
}

// An operator of two operands, which are slots 0 and 1 of `operands`. `first` and `second` are the two ads' bytes.
pub fn binary(first: &[u8], second: &[u8], kind: u64, operands: &[u64], res: &mut [u64])
    ensures { Stored res.old res.new 0 (binary_slot first.now second.now (binary_named kind) (slot_at operands.now 0) (slot_at operands.now 1)) }
{
    let a = slots::load(operands, 0);
    let b = slots::load(operands, 1);
    slots::store(res, 0, binary_slot(first, second, binary_named(kind), a, b));
}

// An operator of one operand, which is slot 0 of `operands`.
pub fn unary(kind: u64, operands: &[u64], res: &mut [u64])
    ensures { Stored res.old res.new 0 (unary_slot (unary_named kind) (slot_at operands.now 0)) }
{
    slots::store(
        res,
        0,
        unary_slot(unary_named(kind), slots::load(operands, 0)),
    );
}
