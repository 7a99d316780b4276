// What the readers and writers of the UCP line's messages share: the answers that are due, and how a body is put.
#![tactic(auto)]

ghost use Rattle.std.specs.Prelude.{true};
ghost use Rattle.ucp_answers.specs.Writes.{WritesBody};

use output_writing::Written;
use refusals::Refusal;

// A body goes to the output whole, or not at all: 8, an output shorter than the body.
#[tactic(auto, using(std::proofs::lemmas::Bool::Decides::nat_tests), unfolding(crate::specs::Writes::body_due))]
pub fn put(body: &[u8], output: &mut [u8]) -> Written
    ensures { WritesBody true body.now output.old result output.new }
{
    if field_layout::store(body, output) {
        return Ok(body.len());
    }
    Err(Refusal::OutputLength)
}
