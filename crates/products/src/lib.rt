// The sum of products that the step ceiling is, over the core bytes of tasks.
#![tactic(auto)]

ghost use Rattle.std.specs.Prelude.{◌≡◌, ◌+◌, ◌*◌, ◌≤◌, ◌<◌, take};
ghost use Rattle.products.specs.Products.{some_tied, factor_for, sum_of_products};

// Whether some of n tasks does not permit all m cores.
pub fn some_tied(affinity: [u8; 16], n: usize, m: usize) -> bool
    requires { n ≤ 16 }
    ensures { result ≡ some_tied (take n affinity) n m }
{
    numbers::first(n, |k| affinity::count(affinity[k]) as usize != m).is_some()
}

// The factor for the task at k: how many cores it permits, plus 1, where some task is tied; otherwise the smaller of k + 1 and m, plus 1.
fn factor(tied: bool, affinity: [u8; 16], m: u64, k: usize) -> u64
    requires { (k < 16) × (m ≤ 4) }
    ensures { result ≡ factor_for tied affinity m (k + 1) }
{
    if tied {
        u64::from(affinity::count(affinity[k])) + 1
    } else {
        (k as u64 + 1).min(m) + 1
    }
}

// The sum, over k from 1 to n, of the product over j from 1 to k of the factor for j.
pub fn sum_of_products(tied: bool, affinity: [u8; 16], n: usize, m: u64) -> u64
    requires { (n ≤ 16) × (m ≤ 4) }
    ensures { result ≡ sum_of_products (factor_for tied (take n affinity) m) n }
{
    let mut sum: u64 = 0;
    let mut product: u64 = 1;
    for k in 0..n {
        product *= factor(tied, affinity, m, k);
        sum += product;
    }
    sum
}
