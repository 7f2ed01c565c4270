// The public calls of `layout` for C and Rust to link (include/layout.h), each with the clauses that it has there.
#![tactic(auto)]

ghost use Rattle.std.specs.Prelude.{◌≡◌};
ghost use Rattle.rules.specs.Outcome.{write_back, layout_blocks};

use rules::Answer;

// Reads the records of `input` and writes them back to the front of `out`. A refusal (1 to 10) changes no byte of `out`.
#[unsafe(no_mangle)]
pub extern "C" fn layout_write_back(input: &[u8], out: &mut [u8]) -> Answer
    ensures value { result ≡ (write_back input.now out.old).answer }
    ensures out_after { out.new ≡ (write_back input.now out.old).lent }
{
    layout::layout_write_back(input, out)
}

// Reads the records of `input`, forwards and reorders if asked to, and lays the blocks: laid records at the front of `out`.
// A refusal (1 to 10) changes no byte of `out`.
#[unsafe(no_mangle)]
pub extern "C" fn layout_blocks(
    input: &[u8],
    forward: bool,
    reorder: bool,
    out: &mut [u8],
) -> Answer
    ensures value { result ≡ (layout_blocks forward reorder input.now out.old).answer }
    ensures out_after { out.new ≡ (layout_blocks forward reorder input.now out.old).lent }
{
    layout::layout_blocks(input, forward, reorder, out)
}
