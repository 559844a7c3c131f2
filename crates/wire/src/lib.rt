// Numbers read from bytes, as tables and cases store them.
#![tactic(auto)]

ghost use Rattle.std.specs.Prelude.{◌≡◌, ◌<◌, get_or};
ghost use Rattle.wire.specs.Bytes.{le32};

// The byte at `at`, or 0 past the end.
pub fn byte(s: &[u8], at: usize) -> u8
    ensures { result ≡ get_or s.now at 0 }
{
    s.get(at).copied().unwrap_or(0)
}

// A byte as a 32-bit number.
pub fn wide(b: u8) -> u32
    ensures { (result ≡ b) × (result < 256) }
{
    u32::from(b)
}

// A byte as a size.
pub fn size(b: u8) -> usize
    ensures { (result ≡ b) × (result < 256) }
{
    usize::from(b)
}

// The number in the four bytes of `s` from `at`, lowest byte first; bytes past the end are 0.
pub fn word(s: &[u8], at: usize) -> u32
    ensures { result ≡ le32 s.now at }
{
    if s.len() <= at {
        return 0;
    }
    u32::from_le_bytes([
        byte(s, at),
        byte(s, at + 1),
        byte(s, at + 2),
        byte(s, at + 3),
    ])
}
