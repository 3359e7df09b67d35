//! Reading a line file: every line begins with a letter and a comma, and is numbered among the lines
//! of its letter.
ghost use Rattle.std.specs.Prelude.{◌≡◌, ℕ, ◌+◌, ◌≤◌, [], cond, IfOk, Some, None, length};
ghost use Rattle.std.specs.Option.{option_map};
ghost use Rattle.std.specs.Ordering.{nat_cmp};
ghost use Rattle.text.specs.Lines.{bare, lines};
ghost use Rattle.text.specs.Parts.{first_from};
ghost use Rattle.text.specs.Unread.{unread};
ghost use Rattle.linefile.specs.Files.{Exactly, Tells, file_lines, in_file, is_whole, letter_of, lettered, longest, read_lines};
ghost use Rattle.linefile.specs.Formats.{Format};
ghost use Rattle.linefile.specs.Places.{comes, placed, placed_last, so_far};

use faults::{FileFault, LineFault};
use std::alloc::Global;
use std::cmp::Ordering;
use text::{COMMA, Fields, Lines, NEWLINE};

/// The bytes of the longest line file. A trace has a limit of its own, which is the same number.
pub const MOST_BYTES: usize = 32768;

/// A line of a kind of line file.
pub trait FileLine: Sized {
    /// The letters that lines begin with, in their order.
    type Letter: Copy + Ord;

    ghost format: { Format Self };

    // where a letter stands among the letters
    ghost place: { Self.Letter → ℕ };

    /// The letters of the file, in order.
    fn letters() -> &'static [u8]
        ensures { result.now ≡ format.letters };

    /// The letter that a byte is.
    fn letter(byte: u8) -> Option<Self::Letter>
        ensures { option_map place result ≡ first_from byte format.letters 0 };

    /// Where a letter stands among the letters.
    fn place(letter: Self::Letter) -> usize
        ensures { result ≡ place letter };

    /// How many lines the letter at a place among the letters may have.
    fn limit(letter: usize) -> u32
        ensures { result ≡ format.limit letter };

    /// What a line of the letter at a place says by the fields behind the letter: its number and
    /// the line.
    fn parse(letter: usize, fields: Fields) -> Option<(u32, Self)>
        ensures { result ≡ format.form letter (unread fields.entry) };

    // the order of letters is that of their places
    ghost ordered: { (a b : Self.Letter) → Self.Letter.cmp a b ≡ nat_cmp (place a) (place b) };
}

// At most so many bytes, the last being byte 10 unless there is none.
fn is_whole(text: &[u8]) -> bool
    ensures { result ≡ is_whole text.now }
{
    text.len() <= MOST_BYTES && matches!(text, [] | [.., NEWLINE])
}

// A line without its byte 10.
fn bare(line: &[u8]) -> &[u8]
    ensures { result.now ≡ bare line.now }
{
    &line[..line.len().saturating_sub(1)]
}

// The letter that a line begins with, before a comma.
fn letter_of<L: FileLine>(line: &[u8]) -> Option<L::Letter>
    ensures { option_map L.place result ≡ letter_of L.format.letters line.now }
{
    match line {
        [letter, COMMA, ..] => L::letter(*letter),
        _ => None,
    }
}

// The letter of the last line, and how many lines have it so far.
#[derive(Clone, Copy)]
struct Last<K> {
    letter: K,
    count: u32,
}

// How many lines of a letter were read, by what the last line tells: nothing where the letter may
// not come any more.
fn count_so_far<L: FileLine>(last: Option<Last<L::Letter>>, letter: L::Letter) -> Option<u32>
    ensures { result ≡ cond (comes (placed_last L.place last) (L.place letter)) (Some (so_far (placed_last L.place last) (L.place letter))) None }
{
    let Some(last) = last else {
        return Some(0);
    };
    match letter.cmp(&last.letter) {
        Ordering::Less => None,
        Ordering::Equal => Some(last.count),
        Ordering::Greater => Some(0),
    }
}

// What the line at a place says, with its letter and how many lines now have it.
fn read_line<L: FileLine + Drop>(
    line: &[u8],
    place: u32,
    last: Option<Last<L::Letter>>,
) -> Result<(Last<L::Letter>, L), LineFault>
    ensures line { placed L.place result ≡ lettered L.format (comes (placed_last L.place last)) (so_far (placed_last L.place last)) place line.now }
    ensures count { IfOk result (λ found. found.0.count ≡ so_far (placed_last L.place last) (L.place found.0.letter) + 1) }
{
    let letter = letter_of::<L>(line).ok_or(LineFault::Letter(place))?;
    let count = count_so_far::<L>(last, letter).ok_or(LineFault::Letter(place))?;
    let (number, said) = L::parse(L::place(letter), Fields::new(line, 2)).ok_or(LineFault::Fields(
        place,
    ))?;
    if number != count {
        return Err(LineFault::Number(place));
    }
    if number >= L::limit(L::place(letter)) {
        return Err(LineFault::Limit(place));
    }
    let count = number + 1;
    Ok((Last { letter, count }, said))
}

// The lines of a file that is not too long, each in turn.
fn read_each<L: FileLine + Drop>(heap: Global, text: &[u8]) -> Result<Vec<L>, FileFault>
    requires { length text.now ≤ longest }
    ensures { Tells (in_file (read_lines L.format [] (lines text.now))) result }
{
    let mut read = Vec::new(heap);
    let mut last = None;
    for line in Lines::new(text) {
        // the place fits a word, as a file has at most 32,768 lines
        let (now, said) = read_line(bare(line), read.len() as u32, last)?;
        read.push(said)?;
        last = Some(now);
    }
    Ok(read)
}

// Reading, without the law above it.
fn read_file<L: FileLine + Drop>(heap: Global, text: &[u8]) -> Result<Vec<L>, FileFault>
    ensures { Tells (file_lines L.format text.now) result }
{
    if !is_whole(text) {
        return Err(FileFault::Bytes);
    }
    read_each(heap, text)
}

/// The lines of a file, or the first fault in it.
pub fn read_lines<L: FileLine + Drop>(heap: Global, text: &[u8]) -> Result<Vec<L>, FileFault>
    ensures value { Tells (file_lines L.format text.now) result }
    ensures exactly { Exactly L.format text.now result }
{
    read_file(heap, text)
}
