// The lowest rule that is broken.
ghost use Rattle.std.specs.Prelude.{◌≡◌};
ghost use Rattle.rules.specs.Legal.{first_false};

/// The number of the first test that fails, from 1.
pub fn lowest_broken(tests: &[bool; 10]) -> Option<u8>
    ensures { result ≡ first_false 1 tests.now }
{
    for (at, passes) in tests.iter().enumerate() {
        if !*passes {
            return Some(at as u8 + 1);
        }
    }
    None
}
