// The table lister: reads SCOPE's text from standard input, and writes its answer to standard output, the lines of every table of the build
// or a refusal. Proved: it never fails. What is written is what `lister_report::report` promises of what was read. Assumed: what io says of
// reading and writing.
#![tactic(auto)]

use lister_report::ListerColumns;

// Standard input.
const STDIN_FILENO: i32 = 0;
// Standard output.
const STDOUT_FILENO: i32 = 1;

fn main() {
    let mut text = [0u8; 65537];
    let mut columns = ListerColumns::new();
    let mut out = [0u8; 156672];
    let n = io::read_full(STDIN_FILENO, &mut text);
    let k = lister_report::report(&text[..n], &mut columns, &mut out);
    io::write_all(STDOUT_FILENO, &out[..k]);
}
