// What the programs share that replay stored vectors: a vector's words are 16 lowercase hexadecimal digits, a number's or the bits of an
// f64. Proved: a word is read exactly as io::hex would write it, every pattern of a NaN is read as NaN, a number with a sign is the one
// that its bits stand for, and two floats agree where they are equal or both NaN. Proved too: the score of a replay counts each case
// once, and names the first that differs. What is written is only proved to be safe. Proved of what is read and compared: a word's number
// is what its 17 bytes spell, a count is within its limit, two columns are compared to their ends. Assumed: nothing beyond the contracts
// of `io`. What standard input gives is not modelled: a function that reads it is only proved to be safe.
#![tactic(auto)]

ghost use Rattle.std.specs.Prelude.{◌≡◌, ◌+◌, ◌*◌, ◌≤◌, ◌<◌, ℕ, Option, None, Some, Ok, Err, ltb, cond, length};
ghost use Rattle.std.specs.Float.{binary64};
ghost use Rattle.std.specs.Float.Ieee.{nan_bits, of_bits};
ghost use Rattle.std.specs.Int.{w64};
ghost use Rattle.std.proofs.Common.{to_z};
ghost use Rattle.replay_vectors.specs.Words.{digit_is, pattern_is, word_is, count_is, agreeing};
ghost use Rattle.replay_vectors.specs.Same.{same_floats};
ghost use Rattle.replay_vectors.specs.Scores.{first_of, with_agreed, with_differed, ending_is};

use std::fmt;
use std::fmt::Write;

// Standard input.
const STDIN_FILENO: i32 = 0;
// Standard output.
const STDOUT_FILENO: i32 = 1;

// Input that is not of the form.
#[derive(Clone, Copy, Debug, PartialEq, Eq)]
pub struct Malformed;

// A word: the number that its digits write, and whether it ends its line or has a space after it.
#[derive(Clone, Copy)]
pub struct Word {
    pub bits: u64,
    pub last: bool,
}

// A slot of an index.
#[derive(Clone, Copy)]
pub struct Slot {
    pub id: u32,
    pub x: f64,
    pub y: f64,
}

// The questions to a build.
#[derive(Clone, Copy)]
pub enum Question {
    Box,
    Ring,
    Children,
    Leaves,
    Expansion,
    Tile,
    Tally,
}

// The functions that vectors have answers of: those of `range`, those of `kdbush` and `kdwalk`, that of `supercluster`, that of `report`,
// and the questions.
#[derive(Clone, Copy)]
pub enum Function {
    Normalize,
    Denormalize,
    Longitude,
    Build,
    Range,
    Within,
    Cursor,
    Load,
    Report,
    Asked(Question),
}

// What became of a case: the answers agree, or this function's is the first that does not.
pub type Verdict = Result<(), Function>;

// A case whose answers do not agree, and the first function whose does not. Cases count from 1.
#[derive(Clone, Copy)]
pub struct Difference {
    pub case: u64,
    pub function: Function,
}

// The cases so far, those that differ, and the first of these.
#[derive(Clone, Copy)]
pub struct Score {
    pub cases: u64,
    pub differences: u64,
    pub first: Option<Difference>,
}

// Why a replay stopped before the end of the input: this case is not of the form; there are more cases than it takes.
#[derive(Clone, Copy)]
pub enum Stopped {
    Malformed(u64),
    TooMany,
}

// The most cases that are taken: a loop that is proved has to end, and nothing says that the input does.
pub const MOST: u64 = 4_000_000;

// The value of a lowercase hexadecimal digit.
fn hex_digit(c: u8) -> Option<u64>
    ensures { digit_is c result }
{
    match c {
        b'0'..=b'9' => Some(u64::from(c - b'0')),
        b'a'..=b'f' => Some(u64::from(c - b'a') + 10),
        _ => None,
    }
}

// The number that the 16 digits from `at` on write.
pub fn read_pattern(line: &[u8], at: usize) -> Option<u64>
    requires { at + 16 ≤ length line.now }
    ensures { pattern_is line.now at result }
{
    let mut bits: u64 = 0;
    for i in 0..16 {
        bits = bits * 16 + hex_digit(line[at + i])?;
    }
    Some(bits)
}

// Whether a bit pattern is a NaN's: the exponent's 11 bits are all ones, and the 52 bits below them are not all zeros.
fn is_nan_pattern(bits: u64) -> bool
    ensures { result ≡ nan_bits binary64 bits }
{
    let exponent = bits % 0x8000_0000_0000_0000 / 0x10_0000_0000_0000;
    let fraction = bits % 0x10_0000_0000_0000;
    exponent == 0x7ff && fraction != 0
}

// The float of a bit pattern, NaN for each pattern of a NaN.
pub fn float_of(bits: u64) -> f64
    ensures { result ≡ of_bits binary64 bits }
{
    if is_nan_pattern(bits) {
        f64::NAN
    } else {
        f64::from_bits(bits)
    }
}

// Whether two floats are equal, the two zeros too, or both NaN.
pub fn agree(a: f64, b: f64) -> bool
    ensures { result ≡ agreeing a b }
{
    a == b || (a.is_nan() && b.is_nan())
}

// What a word can hold: what its number stands for, if that is a value of the type.
pub trait Value: Copy {
    ghost value_of: { ℕ → Option Self };

    fn of_word(bits: u64) -> Option<Self>
        ensures { result ≡ value_of bits };
}

impl Value for f64 {
    ghost value_of = { λ n. Some (of_bits binary64 n) };

    fn of_word(bits: u64) -> Option<f64> {
        Some(float_of(bits))
    }
}

impl Value for i64 {
    ghost value_of = { λ n. Some (to_z w64 n) };

    fn of_word(bits: u64) -> Option<i64> {
        Some(bits.cast_signed())
    }
}

impl Value for u64 {
    ghost value_of = { λ n. Some n };

    fn of_word(bits: u64) -> Option<u64> {
        Some(bits)
    }
}

impl Value for u32 {
    ghost value_of = { λ n. cond (ltb n 4294967296) (Some n) None };

    fn of_word(bits: u64) -> Option<u32> {
        u32::try_from(bits).ok()
    }
}

impl Value for u8 {
    ghost value_of = { λ n. cond (ltb n 256) (Some n) None };

    fn of_word(bits: u64) -> Option<u8> {
        u8::try_from(bits).ok()
    }
}

// The word that 17 bytes hold.
fn word_of(text: &[u8; 17]) -> Result<Word, Malformed>
    ensures { word_is text.now result }
{
    let bits = read_pattern(text, 0).ok_or(Malformed)?;
    match text[16] {
        b' ' => Ok(Word { bits, last: false }),
        b'\n' => Ok(Word { bits, last: true }),
        _ => Err(Malformed),
    }
}

// The next word of standard input, if there is one. A read that fails counts as the end of the input.
pub fn next_word() -> Result<Option<Word>, Malformed> {
    let mut text = [0u8; 17];
    match io::read_full(STDIN_FILENO, &mut text) {
        0 => Ok(None),
        17 => Ok(Some(word_of(&text)?)),
        _ => Err(Malformed),
    }
}

// The number of the word that begins the next case, if there is one. It does not end its line.
pub fn next_start() -> Result<Option<u64>, Malformed> {
    match next_word()? {
        None => Ok(None),
        Some(word) if word.last => Err(Malformed),
        Some(word) => Ok(Some(word.bits)),
    }
}

// The number of the next word, which is to end its line where `last`, and only there.
pub fn next_bits(last: bool) -> Result<u64, Malformed> {
    match next_word()? {
        Some(word) if word.last == last => Ok(word.bits),
        _ => Err(Malformed),
    }
}

// What the next word holds, where it is a value of the type.
pub fn next<T: Value>(last: bool) -> Result<T, Malformed> {
    T::of_word(next_bits(last)?).ok_or(Malformed)
}

// A number as a count, if it is at most so many.
pub fn count_of(bits: u64, most: usize) -> Result<usize, Malformed>
    ensures { count_is most result }
{
    let count = bits as usize;
    if count <= most {
        Ok(count)
    } else {
        Err(Malformed)
    }
}

// The next word as a count. Where `last`, a count of nothing ends the line, and no other does.
pub fn next_count(most: usize, last: bool) -> Result<usize, Malformed>
    ensures { count_is most result }
{
    let word = next_word()?.ok_or(Malformed)?;
    let count = count_of(word.bits, most)?;
    if word.last == (last && count == 0) {
        Ok(count)
    } else {
        Err(Malformed)
    }
}

// Fills a column with values; the last of them ends its line where `last`.
pub fn read_values<T: Value>(last: bool, column: &mut [T]) -> Result<(), Malformed> {
    let n = column.len();
    for i in 0..n {
        column[i] = next(last && i + 1 == n)?;
    }
    Ok(())
}

// Reads how many values there are and then these, as many as the column holds at the most.
pub fn next_values<T: Value>(column: &mut [T]) -> Result<usize, Malformed>
    ensures { count_is (length column.old) result }
{
    let n = next_count(column.len(), false)?;
    read_values(false, &mut column[..n])?;
    Ok(n)
}

// Fills columns with the points that they hold both.
pub fn read_points(xs: &mut [f64], ys: &mut [f64]) -> Result<(), Malformed> {
    for (x, y) in xs.iter_mut().zip(ys.iter_mut()) {
        *x = next(false)?;
        *y = next(false)?;
    }
    Ok(())
}

// The next words as a slot.
pub fn next_slot() -> Result<Slot, Malformed> {
    Ok(Slot {
        id: next(false)?,
        x: next(false)?,
        y: next(false)?,
    })
}

// Whether two columns of floats agree, to their ends.
pub fn same_floats(want: &[f64], got: &[f64]) -> bool
    ensures { result ≡ same_floats want.now got.now }
{
    want.len() == got.len() && want.iter().zip(got).all(|(a, b)| agree(*a, *b))
}

// The verdict on a function whose answers agree or do not.
pub fn judged(agrees: bool, function: Function) -> Verdict
    ensures { result ≡ cond agrees (Ok tt) (Err function) }
{
    if agrees { Ok(()) } else { Err(function) }
}

impl Score {
    // The score with one more case that agrees.
    pub fn agreed(self) -> Score
        requires { self.cases ≤ 4000000 }
        ensures { result ≡ with_agreed self }
    {
        Score {
            cases: self.cases + 1,
            ..self
        }
    }

    // The score with one more case that differs.
    pub fn differed(self, function: Function) -> Score
        requires cases_bound { self.cases ≤ 4000000 }
        requires differences_le_cases { self.differences ≤ self.cases }
        ensures { result ≡ with_differed self function }
    {
        let case = self.cases + 1;
        Score {
            cases: case,
            differences: self.differences + 1,
            first: self.first.or(Some(Difference { case, function })),
        }
    }
}

// Replays case after case until there is none, one past the most at the utmost.
pub fn replay_all<F: Fn() -> Result<Option<Verdict>, Malformed>>(
    next_case: F,
) -> Result<Score, Stopped>
    requires { F.IsAlwaysCallable next_case }
    ensures { ending_is result }
{
    let mut score = Score {
        cases: 0,
        differences: 0,
        first: None,
    };
    for case in 1..MOST + 2 {
        match next_case() {
            Ok(Some(Ok(()))) => score = score.agreed(),
            Ok(Some(Err(function))) => score = score.differed(function),
            Ok(None) => return Ok(score),
            Err(Malformed) => return Err(Stopped::Malformed(case)),
        }
    }
    Err(Stopped::TooMany)
}

// The same of cases that each begin with a word, by the number of that word.
pub fn replay_words<F: Fn(u64) -> Result<Verdict, Malformed>>(
    replay_case: F,
) -> Result<Score, Stopped>
    requires { F.IsAlwaysCallable replay_case }
    ensures { ending_is result }
{
    replay_all(|| {
        let Some(bits) = next_start()? else {
            return Ok(None);
        };
        Ok(Some(replay_case(bits)?))
    })
}

impl fmt::Display for Question {
    fn fmt<W: fmt::Write>(&self, f: &mut fmt::Formatter<W>) -> fmt::Result {
        f.write_str(match self {
            Question::Box => "box",
            Question::Ring => "ring",
            Question::Children => "children",
            Question::Leaves => "leaves",
            Question::Expansion => "expansion zoom",
            Question::Tile => "tile",
            Question::Tally => "tally",
        })
    }
}

impl fmt::Display for Function {
    fn fmt<W: fmt::Write>(&self, f: &mut fmt::Formatter<W>) -> fmt::Result {
        let name = match self {
            Function::Normalize => "normalize",
            Function::Denormalize => "denormalize",
            Function::Longitude => "longitude",
            Function::Build => "build",
            Function::Range => "range",
            Function::Within => "within",
            Function::Cursor => "cursor",
            Function::Load => "load",
            Function::Report => "report",
            Function::Asked(question) => return write!(f, "{question}"),
        };
        f.write_str(name)
    }
}

impl fmt::Display for Score {
    fn fmt<W: fmt::Write>(&self, f: &mut fmt::Formatter<W>) -> fmt::Result {
        if self.cases == 0 {
            return f.write_str("no case\n");
        }
        write!(f, "cases={} differences={}\n", self.cases, self.differences)?;
        match self.first {
            None => f.write_str("no difference\n"),
            Some(Difference { case, function }) => {
                write!(f, "first difference: case={case} function={function}\n")
            }
        }
    }
}

impl fmt::Display for Stopped {
    fn fmt<W: fmt::Write>(&self, f: &mut fmt::Formatter<W>) -> fmt::Result {
        match self {
            Stopped::Malformed(case) => write!(f, "case={case} is not of the form\n"),
            Stopped::TooMany => write!(f, "more than {MOST} cases\n"),
        }
    }
}

// What is written to standard output, by `io` as everything that is read. Where the write of a piece fails, the next is tried all the same.
#[derive(Clone, Copy)]
struct Output;

impl fmt::Write for Output {
    fn write_str(&mut self, text: &str) -> fmt::Result {
        io::write_all(STDOUT_FILENO, text.as_bytes());
        Ok(())
    }
}

// Writes how a replay ended. A write that fails is not told.
pub fn say_ending(ending: Result<Score, Stopped>) {
    let mut output = Output;
    let _written = match ending {
        Ok(score) => write!(output, "{score}"),
        Err(stopped) => write!(output, "{stopped}"),
    };
}
