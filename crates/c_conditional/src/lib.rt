// What the C functions of `? :` and of a real literal do, by packed slots (`crates/slots`). Where an operand's slot is blank, the result is
// a blank slot. Missing words of `operands` read as 0, and of `result` only slot 0 is written, as far as it is there.
#![tactic(auto)]

ghost use Rattle.std.specs.Prelude.{◌≡◌};
ghost use Rattle.values.specs.declared.Value.TheVariants.{Real};
ghost use Rattle.reals.specs.Reals.{stored_real};
ghost use Rattle.slots.specs.declared.Slot.TheVariants.{Held};
ghost use Rattle.slots.specs.Packed.{slot_at, Stored};
ghost use Rattle.c_conditional.specs.Conditional.{conditional_slot};

use slots::Slot;
use values::Value;

fn conditional_slot(p: Slot, a: Slot, b: Slot) -> Slot
    ensures { result ≡ conditional_slot p a b }
{
    match (p, a, b) {
        (Slot::Held(x), Slot::Held(y), Slot::Held(z)) => Slot::Held(logic::conditional(x, y, z)),
        _ => Slot::Blank,
    }
}

// `? :` of slots 0, 1 and 2 of `operands`.
pub fn conditional(operands: &[u64], res: &mut [u64])
    ensures { Stored res.old res.new 0 (conditional_slot (slot_at operands.now 0) (slot_at operands.now 1) (slot_at operands.now 2)) }
{
    let p = slots::load(operands, 0);
    let a = slots::load(operands, 1);
    let b = slots::load(operands, 2);
    slots::store(res, 0, conditional_slot(p, a, b));
}

// A real literal's two stored numbers: its digits as one whole number, and how many stand after the point. 0.0 where no
// literal has them.
pub fn real(digits: u64, places: u64, res: &mut [u64])
    ensures { Stored res.old res.new 0 (Held (Real (stored_real digits places))) }
{
    slots::store(
        res,
        0,
        Slot::Held(Value::Real(reals::literal(digits, places))),
    );
}
