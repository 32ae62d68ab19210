// Reads a sheet from standard input and writes its answer to standard output, whole or not at all.
#![tactic(auto)]

use writer::NoRoom;

const STANDARD_INPUT: i32 = 0;

const STANDARD_OUTPUT: i32 = 1;

fn main() {
    // one byte more than a sheet may have, so that one too long is told
    let mut input = [0u8; 60_001];
    // the longest answer: its first line and 601 lines of months
    let mut out = [0u8; 43_100];
    let bytes = io::read_full(STANDARD_INPUT, &mut input);
    let n = outputs::within(bytes, &input);
    let written = sheets::sheet(&input[..n], &mut out);
    match written {
        Ok(m) => {
            let end = outputs::within(m, &out);
            io::write_all(STANDARD_OUTPUT, &out[..end]);
        }
        Err(NoRoom) => {}
    }
}
