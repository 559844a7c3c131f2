// Numbers and bytes put into a lent output, as tables and plans are stored.
#![tactic(auto)]

ghost use Rattle.std.specs.Prelude.{◌≡◌, ◌+◌, ◌*◌, ◌≤◌, length};
ghost use Rattle.wire.specs.Bytes.{bytes_of, bytes_of_all, over};

// Puts the four bytes of `x` at `at`, lowest byte first.
fn put_word(out: &mut [u8], at: usize, x: u32)
    requires { at + 4 ≤ length out.old }
    ensures { out.new ≡ over out.old at (bytes_of x) }
{
    out[at..at + 4].copy_from_slice(&x.to_le_bytes());
}

// Puts numbers one after another from `at` on.
pub fn put_words(out: &mut [u8], at: usize, numbers: &[u32])
    requires { at + 4 * length numbers.now ≤ length out.old }
    ensures { out.new ≡ over out.old at (bytes_of_all numbers.now) }
{
    for (k, x) in numbers.iter().enumerate() {
        put_word(out, at + 4 * k, *x);
    }
}

// Puts bytes from `at` on.
pub fn put_bytes(out: &mut [u8], at: usize, bytes: &[u8])
    requires { at + length bytes.now ≤ length out.old }
    ensures { out.new ≡ over out.old at bytes.now }
{
    out[at..at + bytes.len()].copy_from_slice(bytes);
}
