// Codes 8 to 10: a table stored in a lent output. Blocks of code 8, the writer of the new form: n, m and the charge, 4 bytes each; sixteen
// periods and sixteen budgets, 64 bytes each; sixteen core bytes; the output, up to 1,024 bytes. Of code 9, the move to the new form, and
// code 10, the move back: the table and the output, up to 1,024 bytes each. Codes 14 and 15: the run log. Blocks of code 14, the writer: the
// answers, up to 65,535 bytes, and the records. Of code 15, the expander: the records, and the output, up to 65,535 bytes. Records are a length
// in four bytes, lowest first, then that many bytes, up to 720,000: twelve a record, task, first tick and length in four each. The line has every
// byte of the output or every number of the records, more than a text holds, so it is printed in pieces.
ghost use Rattle.std.specs.Prelude.{◌≡◌, ℕ, min};
ghost use Rattle.text.specs.Shown.{shown};
ghost use Rattle.decimal.specs.Joined.{Converts};
ghost use Rattle.caselines.specs.Lines.{answer_start, piece as piece_of};

use crate::lines;
use storing::Transfer;
use text::Text;

// The start of the line: number, place and length.
pub fn answer_start(answer: Transfer) -> Text
    ensures { shown result ≡ answer_start answer }
{
    let nothing = text::empty();
    let outcome = answer.outcome;
    let start = lines::append_outcome(nothing, outcome);
    decimal::append_field(start, answer.length as u64)
}

// How many numbers a piece has at most.
pub const PIECE: usize = 100;

// How many of the numbers that are left make the next piece.
pub fn piece_length(left: usize) -> usize
    ensures { result ≡ min left 100 }
{
    left.min(PIECE)
}

// The next piece, of the bytes or numbers that are left.
pub fn piece<T: Copy + Into<u64>>(left: &[T]) -> Text
    ensures { (f : T → ℕ) → Converts T.converts f → shown result ≡ piece_of f left.now }
{
    let nothing = text::empty();
    let n = piece_length(left.len());
    decimal::append_numbers(nothing, &left[..n])
}
