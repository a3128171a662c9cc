// Numbers of a table: instructions, types.
ghost use Rattle.std.specs.Prelude.{◌≡◌};
ghost use Rattle.format.specs.Checks as Spec;

use bits::as_natural;

// 0..n-1
pub fn below(n: usize, v: i32) -> bool
    ensures { result ≡ Spec.below n v }
{
    as_natural(v).is_some_and(|k| k < n)
}
