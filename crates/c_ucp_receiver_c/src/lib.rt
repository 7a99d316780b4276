// The calls of `c_ucp_receiver` as symbols for C and Rust. scripts/exports writes these files.
#![tactic(auto)]

ghost use Rattle.c_ucp_receiver.specs.Numbers.{ReceivesNumbers, TakesNumbers, StartsNumbers};

use c_ucp_receiver::{OstrogoszAnswer, OstrogoszTaken, RecordNumbers};
use ucp_receiver::Store;

// A fresh receiver.
#[unsafe(no_mangle)]
pub extern "C" fn ostrogosz_ucp_start(store: &mut Store, line: &mut RecordNumbers)
    ensures { StartsNumbers store.new line.new }
{
    c_ucp_receiver::ostrogosz_ucp_start(store, line)
}

// One octet of the line. The flag is apart, so that a call with any other octet touches little.
#[unsafe(no_mangle)]
pub extern "C" fn ostrogosz_ucp_receive(
    store: &mut Store,
    line: &mut RecordNumbers,
    octet: u8,
    output: &mut [u8],
) -> OstrogoszAnswer
    ensures { ReceivesNumbers store.old line.old octet output.old result.kind result.value store.new line.new output.new }
{
    c_ucp_receiver::ostrogosz_ucp_receive(store, line, octet, output)
}

// Octets of the line up to and including the one that brings the next answer.
#[unsafe(no_mangle)]
pub extern "C" fn ostrogosz_ucp_receive_slice(
    store: &mut Store,
    line: &mut RecordNumbers,
    octets: &[u8],
    output: &mut [u8],
) -> OstrogoszTaken
    ensures { TakesNumbers store.old line.old octets.now output.old result.kind result.value result.taken store.new line.new output.new }
{
    c_ucp_receiver::ostrogosz_ucp_receive_slice(store, line, octets, output)
}
