// The public face: every public function, none of which requires anything, and the same for programs in other languages, on numbers and
// slices (docs/LAYOUT.md). Any bytes and numbers may come, in memory of any length.
// The kit builds a crate as a library or for C, and not as both: this is the library, and `classad_c` hands each `classad_..` on to C.
// What each does, and with the same contract, is in the crates `c_..`.
#![tactic(auto)]

ghost use Rattle.std.specs.Prelude.{◌≡◌, eqb, not};
ghost use Rattle.values.specs.declared.Value.TheVariants.{Real};
ghost use Rattle.reals.specs.Reals.{stored_real};
ghost use Rattle.slots.specs.declared.Slot.TheVariants.{Held};
ghost use Rattle.slots.specs.Packed.{slot_at, Stored};
ghost use Rattle.c_operators.specs.Operators.{binary_named, unary_named, binary_slot, unary_slot};
ghost use Rattle.c_conditional.specs.Conditional.{conditional_slot};
ghost use Rattle.c_reading.specs.Reading.{Reported};
ghost use Rattle.c_checking.specs.Checking.{CheckReported};
ghost use Rattle.c_printing.specs.Printing.{PrintReported};
ghost use Rattle.c_places.specs.Inspecting.{position_numbers, holder_numbers};
ghost use Rattle.c_matching.specs.Matching.{MatchReported};
ghost use Rattle.c_ordering.specs.Ordering.{OrderReported};
ghost use Rattle.c_results.specs.Showing.{slot_numbers, StringPlaced};
ghost use Rattle.results.specs.Results.{shown_at};
ghost use Rattle.inspection.specs.Inspection.{node_text};
ghost use Rattle.holders.specs.Holders.{holder};
ghost use Rattle.syntax.specs.Print.{printed_ad};

pub use holders::{definition_name, definition_of};
pub use inspection::expression;
pub use matcher::match_ads;
pub use ordering::order_ads;
pub use positions::locate;
pub use printer::{print, text};
pub use reader::read;
pub use results::{string_bytes, value_at};
pub use well_formed::check;

// An operator of two operands, which are slots 0 and 1 of `operands`. `first` and `second` are the two ads' bytes.
pub fn classad_binary(first: &[u8], second: &[u8], kind: u64, operands: &[u64], res: &mut [u64])
    ensures { Stored res.old res.new 0 (binary_slot first.now second.now (binary_named kind) (slot_at operands.now 0) (slot_at operands.now 1)) }
{
    c_operators::binary(first, second, kind, operands, res);
}

// An operator of one operand, which is slot 0 of `operands`.
pub fn classad_unary(kind: u64, operands: &[u64], res: &mut [u64])
    ensures { Stored res.old res.new 0 (unary_slot (unary_named kind) (slot_at operands.now 0)) }
{
    c_operators::unary(kind, operands, res);
}

// `? :` of slots 0, 1 and 2 of `operands`.
pub fn classad_conditional(operands: &[u64], res: &mut [u64])
    ensures { Stored res.old res.new 0 (conditional_slot (slot_at operands.now 0) (slot_at operands.now 1) (slot_at operands.now 2)) }
{
    c_conditional::conditional(operands, res);
}

// A real literal's two stored numbers: its digits as one whole number, and how many stand after the point. 0.0 where no
// literal has them.
pub fn classad_real(digits: u64, places: u64, res: &mut [u64])
    ensures { Stored res.old res.new 0 (Held (Real (stored_real digits places))) }
{
    c_conditional::real(digits, places, res);
}

// Reads any text into any lent memory of an ad.
pub fn classad_read(text: &[u8], words: &mut [u64], bytes: &mut [u8], answer: &mut [u64; 3])
    ensures { Reported text.now words.old bytes.old words.new bytes.new answer.new }
{
    c_reading::read(text, words, bytes, answer);
}

// Checks any numbers that may be a stored ad.
pub fn classad_check(words: &[u64], bytes: &[u8], answer: &mut [u64; 4])
    ensures { CheckReported words.now bytes.now answer.new }
{
    c_checking::check(words, bytes, answer);
}

// Matches any numbers that may be two stored ads, in any lent memory.
pub fn classad_match(
    first_words: &[u64],
    first_bytes: &[u8],
    second_words: &[u64],
    second_bytes: &[u8],
    table: &mut [u64],
    list: &mut [u64],
    budget: u16,
    answer: &mut [u64; 7],
)
    ensures { MatchReported first_words.now first_bytes.now second_words.now second_bytes.now budget table.old list.old table.new list.new answer.new }
{
    c_matching::match_ads(
        first_words,
        first_bytes,
        second_words,
        second_bytes,
        table,
        list,
        budget,
        answer,
    );
}

// Prints any numbers that may be a stored ad into any lent output.
pub fn classad_print(words: &[u64], bytes: &[u8], output: &mut [u8], answer: &mut [u64; 2])
    ensures { PrintReported printed_ad words.now bytes.now output.old output.new answer.new }
{
    c_printing::print(words, bytes, output, answer);
}

// Flags the circular references and lists the evaluation order of any numbers that may be two stored ads.
pub fn classad_dependencies(
    first_words: &[u64],
    first_bytes: &[u8],
    second_words: &[u64],
    second_bytes: &[u8],
    flags: &mut [usize],
    list: &mut [u64],
    answer: &mut [u64; 3],
)
    ensures { OrderReported first_words.now first_bytes.now second_words.now second_bytes.now flags.old list.old flags.new list.new answer.new }
{
    c_ordering::dependencies(
        first_words,
        first_bytes,
        second_words,
        second_bytes,
        flags,
        list,
        answer,
    );
}

// What a match left in the slot of a node of the first ad, or of the second where `second` is not 0.
pub fn classad_value(table: &[u64], second: u64, node: usize, answer: &mut [u64; 4])
    ensures { answer.new ≡ slot_numbers (shown_at table.now (not (eqb second 0)) node) }
{
    c_results::value(table, second, node, answer);
}

// Where the bytes of a String value begin in its ad's bytes, and how many there are.
pub fn classad_string<'a>(
    first: &'a [u8],
    second: &'a [u8],
    side: u64,
    offset: u16,
    length: u16,
    answer: &mut [u64; 2],
)
    ensures { StringPlaced first.now second.now (not (eqb side 0)) offset length answer.new }
{
    c_results::string(first, second, side, offset, length, answer);
}

// The definition that a node belongs to, as four numbers: 1, its number, and its name's offset and length; zeros where there is none.
pub fn classad_definition(words: &[u64], node: usize, answer: &mut [u64; 4])
    ensures { answer.new ≡ holder_numbers words.now (holder words.now node) }
{
    c_places::definition(words, node, answer);
}

// Prints the expression of one node of any numbers that may be a stored ad into any lent output.
pub fn classad_expression(
    words: &[u64],
    bytes: &[u8],
    node: usize,
    output: &mut [u8],
    answer: &mut [u64; 2],
)
    ensures { PrintReported (λ a. node_text a node) words.now bytes.now output.old output.new answer.new }
{
    c_printing::expression(words, bytes, node, output, answer);
}

// The line and the column of a place in a text, as two numbers.
pub fn classad_position(text: &[u8], place: usize, answer: &mut [u64; 2])
    ensures { answer.new ≡ position_numbers text.now place }
{
    c_places::position(text, place, answer);
}
