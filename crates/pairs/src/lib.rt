// A dependency list, which names pairs of a task that feeds and one that is fed: its pairs, the test of its shape, the test of one pair.
#![tactic(auto)]

ghost use Rattle.std.specs.Prelude.{◌≡◌, ◌<◌};
ghost use Rattle.pairs.specs.Pairs.{pair_count, feeding as feeding_of, fed as fed_of, list_test, period_of, unfit};

use refusal::Cause;

// The most pairs of a list.
pub const MOST_PAIRS: usize = 64;

// How many pairs the list names.
pub fn count(list: &[u8]) -> usize
    ensures { (result ≡ pair_count list.now) × (result < 256) }
{
    wire::size(wire::byte(list, 0))
}

// The task that feeds, of pair `i` counted from 0.
pub fn feeding(list: &[u8], i: usize) -> usize
    requires { i < 256 }
    ensures { (result ≡ feeding_of list.now i) × (result < 256) }
{
    wire::size(wire::byte(list, 1 + i))
}

// The task that is fed, of pair `i` counted from 0.
pub fn fed(list: &[u8], i: usize) -> usize
    requires { i < 256 }
    ensures { (result ≡ fed_of list.now i) × (result < 256) }
{
    let k = count(list);
    wire::size(wire::byte(list, 1 + k + i))
}

// Number 19.
pub fn list_test(list: &[u8]) -> Result<(), Cause>
    ensures { result ≡ list_test list.now }
{
    let k = count(list);
    refusal::refuse_if(
        list.is_empty() | (MOST_PAIRS < k) | (list.len() != 1 + 2 * k),
        Cause::PairList,
    )
}

// The period of task `t`; 0 if there is none. No `Option`: the definition `unfit` reads it as 0 too.
fn period_of(periods: [u32; 16], t: usize) -> u32
    ensures { result ≡ period_of periods t }
{
    if t == 0 {
        0
    } else {
        periods.get(t - 1).copied().unwrap_or(0)
    }
}

// Whether tasks `a` and `b` of `n` tasks are no pair: a number is no task's, one task is named twice, or the periods do not fit.
pub fn is_unfit(n: usize, periods: [u32; 16], a: usize, b: usize) -> bool
    ensures { result ≡ unfit n periods a b }
{
    let p = period_of(periods, a);
    let q = period_of(periods, b);
    let harmonic = p.is_multiple_of(q) | q.is_multiple_of(p);
    let strange = numbers::outside(1, n as u64, a as u64) | numbers::outside(1, n as u64, b as u64);
    strange | (a == b) | !harmonic
}
