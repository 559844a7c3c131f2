// Numbers in decimal, appended to a text.
#![tactic(auto)]

ghost use Rattle.std.specs.Prelude.{◌≡◌, ℕ, ◌+◌, ◌*◌, ◌%◌, length};
ghost use Rattle.text.specs.Shown.{Appended};
ghost use Rattle.decimal.specs.Decimal.{decimal, field};
ghost use Rattle.decimal.specs.Joined.{joined, Converts};

use text::Text;

// The digit for a number below 10.
fn digit(x: u64) -> u8
    ensures { result ≡ 48 + x % 10 }
{
    48 + (x % 10) as u8
}

// The text with a number after it, in decimal.
pub fn append_decimal(t: Text, x: u64) -> Text
    ensures { Appended t (decimal x) 20 result }
{
    if x < 10 {
        return text::append_byte(t, digit(x));
    }
    let front = append_decimal(t, x / 10);
    text::append_byte(front, digit(x))
}

// The text with a space and a number after it.
pub fn append_field(t: Text, x: u64) -> Text
    ensures { Appended t (field x) 21 result }
{
    let spaced = text::append_byte(t, b' ');
    append_decimal(spaced, x)
}

// The text with some numbers after it, a space before each.
pub fn append_numbers<T: Copy + Into<u64>>(t: Text, numbers: &[T]) -> Text
    ensures { (f : T → ℕ) → Converts T.converts f → Appended t (joined (λ x. field (f x)) numbers.now) (21 * length numbers.now) result }
{
    let mut longer = t;
    for x in numbers {
        longer = append_field(longer, (*x).into());
    }
    longer
}
