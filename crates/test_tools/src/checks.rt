// Checks that helpers of tests make: where one does not hold, the test ends there.
ghost use Rattle.std.specs.Prelude.{◌≡◌, is_ok, OnOk};
ghost use Rattle.std.specs.List.{FoldsTo};
ghost use Rattle.test_tools.specs.Checks.{AnswersAs};

use std::fmt::Debug;
use std::test::Fail;

pub fn check(holds: bool) -> Result<(), Fail>
    ensures { is_ok result ≡ holds }
{
    if holds {
        Ok(())
    } else {
        Err(Fail::new("a check does not hold"))
    }
}

// Of two values, which the failure names.
pub fn check_eq<T: PartialEq + Debug + Copy>(found: T, expected: T) -> Result<(), Fail>
    ensures { is_ok result ≡ T.eq found expected }
{
    if found == expected {
        Ok(())
    } else {
        Err(Fail::new(format_args!("{found:?} in place of {expected:?}")))
    }
}

// Makes the calls in turn, and holds each to its answer.
pub fn play<C: Copy, R: PartialEq + Debug + Copy, F: FnMut(C) -> R>(
    mut answer: F,
    lines: &[(C, R)],
) -> Result<(), Fail>
    requires { F.IsAlwaysCallable answer }
    ensures { OnOk result ((last : F) × FoldsTo (AnswersAs F.step R.eq) answer lines.now last) }
{
    for (call, expected) in lines {
        let found = answer(*call);
        check_eq(found, *expected)?;
    }
    Ok(())
}
