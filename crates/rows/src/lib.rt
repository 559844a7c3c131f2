// Rows of sixteen read from bytes, as tables store them. Two loops, and not `numbers::row` twice: its row is copied once more on the way, and
// the firmware's entry would take 1,031 bytes of stack where 1,024 are promised.
#![tactic(auto)]

ghost use Rattle.std.specs.Prelude.{◌≡◌, ◌<◌};
ghost use Rattle.numbers.specs.Rows.{row};
ghost use Rattle.wire.specs.Bytes.{word_at, byte_at};

// The first `n` numbers of `s` from `at`, at most sixteen, and zeros up to sixteen.
pub fn words(s: &[u8], at: usize, n: usize) -> [u32; 16]
    requires { at < 2048 }
    ensures { result ≡ row 0 n (word_at s.now at) }
{
    let mut entries = [0; 16];
    for k in 0..numbers::at_most_sixteen(n) {
        entries[k] = wire::word(s, at + 4 * k);
    }
    entries
}

// The first `n` bytes of `s` from `at`, at most sixteen, and zeros up to sixteen.
pub fn bytes(s: &[u8], at: usize, n: usize) -> [u8; 16]
    requires { at < 2048 }
    ensures { result ≡ row 0 n (byte_at s.now at) }
{
    let mut entries = [0; 16];
    for k in 0..numbers::at_most_sixteen(n) {
        entries[k] = wire::byte(s, at + k);
    }
    entries
}
