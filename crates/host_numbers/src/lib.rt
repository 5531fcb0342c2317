// Numbers with a sign, and truths, as C has them in 64 bits.
#![tactic(auto)]

ghost use Rattle.std.specs.Prelude.{◌≡◌};
ghost use Rattle.host_numbers.specs.Numbers.{bits, flag, flags};

use file_spec::Exactness;

// A number with a sign, as C has it in 64 bits.
pub fn bits_of(x: i64) -> u64
    ensures { result ≡ bits x }
{
    x.cast_unsigned()
}

// A truth as C has it: 1, or 0.
pub fn flag_of(truth: bool) -> u64
    ensures { result ≡ flag truth }
{
    u64::from(truth)
}

// Which quotients of a file are exact, as C has it: F's, L's and FIRSTY's.
pub fn flags_of(exact: Exactness) -> [u64; 3]
    ensures { result ≡ flags exact }
{
    [exact.first, exact.last, exact.firsty].map(u64::from)
}
