// Replays stored texts on the crate `lister_report`, and says whether what is printed for each is what the Rust's tables come to.
// A case is a line of two words, how long the text is and how long what is printed for it; then both, byte for byte, with nothing
// between them.
// Proved: a case agrees if and only if its second part is what SCOPE has the lister print for its first. Assumed: what io says of reading
// and writing.
#![tactic(auto)]

ghost use Rattle.std.specs.Prelude.{◌≤◌};
ghost use Rattle.replay_lister.specs.Prints.{prints_is};

use lister_report::ListerColumns;
use replay_vectors::{Function, Malformed, Verdict};

// Standard input.
const STDIN_FILENO: i32 = 0;

// Whether what is printed for the text is what is expected.
fn prints(text: &[u8], want: &[u8]) -> bool
    ensures { prints_is text.now want.now result }
{
    let mut columns = ListerColumns::new();
    let mut out = [0u8; 156672];
    let k = lister_report::report(text, &mut columns, &mut out);
    want == &out[..k]
}

// Fills the column from standard input.
fn fill(column: &mut [u8]) -> Result<(), Malformed> {
    if io::read_full(STDIN_FILENO, column) == column.len() {
        Ok(())
    } else {
        Err(Malformed)
    }
}

// Replays a case whose text and whose expected lines, of these lengths, are the next bytes.
fn replay_text(text: &mut [u8], want: &mut [u8]) -> Result<Verdict, Malformed> {
    fill(text)?;
    fill(want)?;
    Ok(replay_vectors::judged(prints(text, want), Function::Report))
}

// Replays a case whose text and whose expected lines are of these lengths.
fn replay_lengths(n: usize, m: usize) -> Result<Verdict, Malformed>
    requires { (n ≤ 65537) × (m ≤ 156672) }
{
    let mut text = [0u8; 65537];
    let mut want = [0u8; 156672];
    replay_text(&mut text[..n], &mut want[..m])
}

// Replays the case that begins with this number, the length of its text.
fn replay_case(bits: u64) -> Result<Verdict, Malformed> {
    let n = replay_vectors::count_of(bits, 65537)?;
    let m = replay_vectors::count_of(replay_vectors::next_bits(true)?, 156672)?;
    replay_lengths(n, m)
}

// Replays standard input, and writes how that ended.
fn main() {
    replay_vectors::say_ending(replay_vectors::replay_words(replay_case));
}
