// The pieces that lines share.
ghost use Rattle.std.specs.Prelude.{ℕ};
ghost use Rattle.text.specs.Shown.{Appended};
ghost use Rattle.decimal.specs.Decimal.{field};
ghost use Rattle.decimal.specs.Joined.{joined, Converts};
ghost use Rattle.caselines.specs.Lines.{outcome_fields, slot_fields, record_fields};

use edf::Slot;
use refusal::Cause;
use runner::Core;
use text::Text;

// Number and place.
pub fn append_outcome(t: Text, outcome: Result<(), Cause>) -> Text
    ensures { Appended t (outcome_fields outcome) 41 result }
{
    match outcome {
        Ok(()) => text::append_bytes(t, b"0 0"),
        Err(cause) => {
            let number = decimal::append_decimal(t, numbering::number(cause) as u64);
            decimal::append_field(number, numbering::place(cause) as u64)
        }
    }
}

// Sixteen numbers.
pub fn append_row<T: Copy + Into<u64>>(t: Text, row: [T; 16]) -> Text
    ensures { (f : T → ℕ) → Converts T.converts f → Appended t (joined (λ x. field (f x)) row) 336 result }
{
    decimal::append_numbers(t, &row)
}

// Period, budget, ticks until release and ticks owed.
fn append_slot(t: Text, s: Slot) -> Text
    ensures { Appended t (slot_fields s) 84 result }
{
    decimal::append_numbers(t, &[s.period, s.budget, s.until, s.remaining])
}

// Sixteen slots.
fn append_slots(t: Text, slots: [Slot; 16]) -> Text
    ensures { Appended t (joined slot_fields slots) 1344 result }
{
    let mut longer = t;
    for s in &slots {
        longer = append_slot(longer, *s);
    }
    longer
}

// A core record: its charge and its slots.
pub fn append_record(t: Text, core: Core) -> Text
    ensures { Appended t (record_fields core) 1365 result }
{
    let charge = decimal::append_field(t, u64::from(core.charge));
    append_slots(charge, core.slots)
}
