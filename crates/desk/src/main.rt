// The desk program: reads one input from standard input, and prints what the client's check says of it.
//
// What is printed of an input is proved, in the crate `report`; here it is only read and written. A
// read that fails counts as the input's end.
#![tactic(auto)]

mod stream;

use report::MOST;

fn main(rt: HostRuntime) {
    // Kept: buffers of the most bytes with a length beside them, since a read is lent one and says how much it filled, and
    // there is no heap. One byte more than the longest input of the stated form, so that a longer one is seen to be.
    let mut input = [0u8; 1718];
    let n = stream::read(&mut rt.stdin(), &mut input);
    // No output is longer, so none is refused.
    let mut output = [0u8; MOST];
    if let Ok(k) = report::print(&input[..n], &mut output) {
        stream::write(&mut rt.stdout(), &output[..k]);
    }
}
