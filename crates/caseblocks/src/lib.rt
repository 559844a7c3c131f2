// The blocks of a case, a length in two bytes, lowest first, then that many bytes; and what their bytes say.
#![tactic(auto)]

ghost use Rattle.std.specs.Prelude.{◌≡◌, ◌<◌, true, false, drop};
ghost use Rattle.std.specs.Io.KnownBytes.{Consumes};
ghost use Rattle.console.specs.Counts.{IsPrefixLen};
ghost use Rattle.numbers.specs.Rows.{row};
ghost use Rattle.wire.specs.Bytes.{word_at};
ghost use Rattle.edf.specs.Slots.{empty_slot};
ghost use Rattle.caseblocks.specs.Blocks.{block_of, slot_in, run_in, fields_in};

use edf::Slot;
use fields::Fields;
use runs::Run;
use std::io::Read;

// What was read of a block: whether it is whole, and how many bytes it has. It is not whole, and has none, where the input ended or
// the block is longer than it may be. A struct and not an `Option`: `read_block`, which docs/DECISIONS.md names, hands it back, and its
// clauses speak of both fields.
#[derive(Clone, Copy)]
pub struct Block {
    pub whole: bool,
    pub length: usize,
}

const NO_BLOCK: Block = Block {
    whole: false,
    length: 0,
};

// Reads a block into the front of a buffer, which is as long as the block may be. What stands behind the bytes of a whole block stays as it was.
// A read that fails counts as the end of the input.
pub fn read_block<R: Read>(input: &mut R, buffer: &mut [u8]) -> Block
    ensures none { result.whole ≡ false → result.length ≡ 0 }
    ensures counts { IsPrefixLen result.length buffer.new }
    ensures kept { result.whole ≡ true → drop result.length buffer.new ≡ drop result.length buffer.old }
    ensures bytes { result.whole ≡ true → Consumes (R.remaining input.old) (R.remaining input.new) (block_of result.length buffer.new) }
{
    let mut head = [0u8; 2];
    if console::read_next(input, &mut head, 2) < 2 {
        return NO_BLOCK;
    }
    let length = wire::size(head[0]) + 256 * wire::size(head[1]);
    let got = console::read_next(input, buffer, length);
    if got < length {
        return NO_BLOCK;
    }
    Block {
        whole: true,
        length: got,
    }
}

// Sixteen numbers of four bytes each.
pub fn numbers_of(bytes: &[u8]) -> [u32; 16]
    ensures { result ≡ row 0 16 (word_at bytes.now 0) }
{
    rows::words(bytes, 0, 16)
}

// Slot `k` of a record's bytes.
fn slot_in(bytes: &[u8], k: usize) -> Slot
    requires { k < 16 }
    ensures { result ≡ slot_in bytes.now k }
{
    let period = wire::word(bytes, 16 * k);
    let budget = wire::word(bytes, 16 * k + 4);
    let until = wire::word(bytes, 16 * k + 8);
    let remaining = wire::word(bytes, 16 * k + 12);
    Slot {
        period,
        budget,
        until,
        remaining,
    }
}

// The sixteen slots of a record's bytes.
pub fn slots_in(bytes: &[u8]) -> [Slot; 16]
    ensures { result ≡ row empty_slot 16 (slot_in bytes.now) }
{
    numbers::row(slots::empty(), 16, |k| slot_in(bytes, k))
}

// The record of the run log that twelve bytes say.
pub fn run_in(bytes: &[u8]) -> Run
    ensures { result ≡ run_in bytes.now }
{
    let task = wire::word(bytes, 0);
    let first = wire::word(bytes, 4);
    let length = wire::word(bytes, 8);
    Run {
        task,
        first,
        length,
    }
}

// The fields that the blocks of code 8 say. Six parameters, one for each block: what they make up is `Fields` itself.
pub fn fields_in(
    n: u32,
    m: u32,
    charge: u32,
    periods: [u32; 16],
    budgets: [u32; 16],
    affinity: [u8; 16],
) -> Fields
    ensures { result ≡ fields_in n m charge periods budgets affinity }
{
    Fields {
        n: n as usize,
        m: m as usize,
        periods,
        budgets,
        charge,
        affinity,
        given: n as usize,
    }
}
