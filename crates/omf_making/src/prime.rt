//! Prime numbers.

ghost use Rattle.std.specs.Prelude.{◌<◌};
ghost use Rattle.std.specs.Bool.{OnTrue};
ghost use Rattle.omf_making.specs.Made.{IsPrime};

/// Whether a number below 65,536 is prime.
#[tactic(auto, using(crate::proofs::PrimeLaws::prime_by))]
pub(crate) fn is_prime(n: usize) -> bool
    requires { n < 65536 }
    ensures { OnTrue result (IsPrime n) }
{
    if n < 2 {
        return false;
    }
    for divisor in 2..256usize {
        if divisor < n && n % divisor == 0 {
            return false;
        }
    }
    true
}
