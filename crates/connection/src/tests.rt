// Tests, each with its cause.
ghost use Rattle.std.specs.Prelude.{◌≡◌};
ghost use Rattle.connection.specs.Tests.{first_of};

use crate::Cause;

// The cause of the first test that holds.
pub fn first_of(tests: &[(bool, Cause)]) -> Option<Cause>
    ensures { result ≡ first_of tests.now }
{
    let test = tests.iter().find(|test| test.0)?;
    Some(test.1)
}
