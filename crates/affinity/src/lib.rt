// Core bytes: which cores a task may use, how many, and the lowest of them. Bit 0 stands for core 1, up to bit 3 for core 4.
#![tactic(auto)]

ghost use Rattle.std.specs.Prelude.{◌≡◌, ◌+◌, ◌≤◌, ◌<◌};
ghost use Rattle.affinity.specs.Permitted.{permitted, allowed, permitted_count, lowest_permitted, unfit, every_core};

// Whether a byte permits the core after `below` others.
pub fn permits(byte: u8, below: u32) -> bool
    requires { below < 8 }
    ensures { result ≡ permitted byte (below + 1) }
{
    (u32::from(byte) >> below) % 2 == 1
}

// Whether a byte permits a choice: 0, for left out, always.
pub fn allows(byte: u8, choice: u8) -> bool
    ensures { result ≡ allowed byte choice }
{
    if choice == 0 {
        return true;
    }
    if 8 < choice {
        return false;
    }
    permits(byte, u32::from(choice) - 1)
}

// How many cores a byte permits: the count of its ones.
pub fn count(byte: u8) -> u32
    ensures { result ≡ permitted_count byte 8 }
{
    byte.count_ones()
}

// The lowest core that a byte permits: its trailing zeros, plus 1; 0 if it permits none.
pub fn lowest(byte: u8) -> u32
    ensures { result ≡ lowest_permitted byte 8 }
{
    if byte == 0 {
        return 0;
    }
    byte.trailing_zeros() + 1
}

// Whether a byte is 0 or has a bit above core `m`.
pub fn is_unfit(byte: u8, m: usize) -> bool
    requires { m ≤ 4 }
    ensures { result ≡ unfit byte m }
{
    (byte == 0) | (0 < usize::from(byte) >> m)
}

// The byte that permits each of `m` cores, of which there are four at most.
pub fn every_core(m: usize) -> u8
    ensures { result ≡ every_core m }
{
    (1 << m.min(4)) - 1
}
