// The placement that the walk carries, with one choice changed.
#![tactic(auto)]

ghost use Rattle.std.specs.Prelude.{◌≡◌, ◌<◌, set};

// The placement with the choice of the task at `at` changed. As for the loads (`blend`), each entry is written by its own test.
pub fn with_choice(mut path: [u8; 16], at: u8, c: u8) -> [u8; 16]
    requires { at < 16 }
    ensures { result ≡ set path at c }
{
    for k in 0..16u8 {
        path[k as usize] = blend::pick(at == k, c, path[k as usize]);
    }
    path
}
