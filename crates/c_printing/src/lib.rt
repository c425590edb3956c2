// What the C functions that print do: each calls the function of its name and leaves its answer in numbers (docs/LAYOUT.md).
#![tactic(auto)]

ghost use Rattle.std.specs.Prelude.{◌≡◌};
ghost use Rattle.c_printing.specs.Printing.{print_numbers, PrintReported};
ghost use Rattle.inspection.specs.Inspection.{node_text};
ghost use Rattle.syntax.specs.Print.{printed_ad};

use syntax::Refusal;

// What printing answers, as two numbers.
fn print_numbers(answer: Result<usize, Refusal>) -> [u64; 2]
    ensures { result ≡ print_numbers answer }
{
    match answer {
        Ok(n) => [0, n as u64],
        Err(refusal) => [u64::from(refusal.reason.number()), 0],
    }
}

// Prints any numbers that may be a stored ad into any lent output.
pub fn print(words: &[u64], bytes: &[u8], output: &mut [u8], answer: &mut [u64; 2])
    ensures { PrintReported printed_ad words.now bytes.now output.old output.new answer.new }
{
    *answer = print_numbers(printer::print(words, bytes, output));
}

// Prints the expression of one node of any numbers that may be a stored ad into any lent output.
pub fn expression(
    words: &[u64],
    bytes: &[u8],
    node: usize,
    output: &mut [u8],
    answer: &mut [u64; 2],
)
    ensures { PrintReported (λ a. node_text a node) words.now bytes.now output.old output.new answer.new }
{
    *answer = print_numbers(inspection::expression(words, bytes, node, output));
}
