#![tactic(auto)]

// Writes the stream on standard input canonically to standard output, or prints its refusal.
// Assumes the contracts that the kit states of C's `read` and `write`.
fn rewrite(rt: &impl Print, stream: &[u8], table: &mut [u32], output: &mut [u8]) {
    let _ = match bulk::write(stream, table, output) {
        Err(refusal) => println!(rt; "{refusal}"),
        Ok(length) => rt.write_all(&output[..length]),
    };
}

fn main(rt: HostRuntime) {
    // A byte more than a stream may have, so that one that is too long is seen to be.
    let mut stream = [0u8; bulk::STREAM_LIMIT + 1];
    let mut table = [0u32; bulk::TABLE_LIMIT];
    // No canonical stream is longer than its stream.
    let mut output = [0u8; bulk::STREAM_LIMIT];
    let length = text::read_full(&mut rt.stdin(), &mut stream);
    rewrite(&rt, &stream[..length], &mut table, &mut output);
}
