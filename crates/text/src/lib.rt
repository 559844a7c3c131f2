// A text by value, built up piece by piece. What does not fit is dropped; a piece that fits is kept whole.
#![tactic(auto)]

ghost use Rattle.std.specs.Prelude.{◌≡◌, [], ◌∷◌, length};
ghost use Rattle.text.specs.Shown.{shown, Appended};

// The first `length` bytes are shown. A row and its length, since no crate takes memory from a heap.
#[derive(Clone, Copy)]
pub struct Text {
    pub bytes: [u8; 2560],
    pub length: usize,
}

pub fn empty() -> Text
    ensures { shown result ≡ [] }
{
    Text {
        bytes: [0; 2560],
        length: 0,
    }
}

// The text with one byte more.
pub fn append_byte(t: Text, b: u8) -> Text
    ensures { Appended t (b ∷ []) 1 result }
{
    let at = t.length;
    if 2560 <= at {
        return t;
    }
    let mut next = t;
    next.bytes[at] = b;
    next.length = at + 1;
    next
}

// The text with some bytes after it.
pub fn append_bytes(t: Text, bytes: &[u8]) -> Text
    ensures { Appended t bytes.now (length bytes.now) result }
{
    let mut longer = t;
    for b in bytes {
        longer = append_byte(longer, *b);
    }
    longer
}
