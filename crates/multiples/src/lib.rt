// Whole products, the greatest common divisor and the least common multiple.
#![tactic(auto)]

ghost use Rattle.std.specs.Prelude.{◌≡◌, ◌*◌};
ghost use Rattle.numbers.specs.Multiples.{gcd as gcd_of, lcm as lcm_of};

// The greatest common divisor, by Euclid's algorithm: its loop has no index, and ends where nothing remains.
fn gcd(a: u32, b: u32) -> u32
    ensures { result ≡ gcd_of a b }
{
    let mut x = a;
    let mut y = b;
    while y != 0 {
        let t = x % y;
        x = y;
        y = t;
    }
    x
}

// The whole product.
fn product(a: u32, b: u32) -> u64
    ensures { result ≡ a * b }
{
    u64::from(a) * u64::from(b)
}

// The least common multiple; 0 where one of the two is 0.
pub fn lcm(a: u32, b: u32) -> u64
    ensures { result ≡ lcm_of a b }
{
    let g = gcd(a, b);
    if g == 0 {
        return 0;
    }
    product(a / g, b)
}
