// A raised name beside a case's.
ghost use Rattle.std.specs.Prelude.{◌≡◌};
ghost use Rattle.format.specs.Operands.{shown};
ghost use Rattle.format.specs.Walk as Spec;

use format::module::ExceptionCase;
use spans::name;

// A case is nameless, or its name's bytes are those raised.
#[tactic(auto, using(crate::proofs::Bytes::same_pointwise), unfolding(format::specs::Walk::takes))]
fn takes(name: &[u8], raised: &[u8]) -> bool
    ensures { result ≡ Spec.takes name.now raised.now }
{
    name.is_empty() || name == raised
}

pub fn case_takes(file: &[u8], case: ExceptionCase, raised: &[u8]) -> bool
    ensures { result ≡ Spec.takes (shown file.now case.name) raised.now }
{
    takes(name(file, case.name), raised)
}
