//! A pattern made ready to be matched.
ghost use Rattle.std.specs.Prelude.{◌≡◌, IfOk};
ghost use Rattle.std.specs.Result.{result_err};
ghost use Rattle.pattern_items.specs.Faults.{first_fault};
ghost use Rattle.pattern_items.specs.Matches.{test_of};

use crate::conditions::tests_of;
use crate::fault::ItemFault;
use crate::faults::fault_of_items;
use crate::pattern::Pattern;
use crate::test::Test;

/// Makes a pattern ready to be matched, or tells its first fault. It is refused only where it has
/// one. Takes no memory.
#[tactic(auto, using(crate::proofs::Rises::tests_rise))]
pub fn compile(pattern: &Pattern) -> Result<Test, ItemFault>
    ensures test { IfOk result (λ test. test ≡ test_of pattern.now) }
    ensures fault { result_err result ≡ first_fault pattern.now }
{
    if pattern.more > 0 {
        return Err(ItemFault::TooMany);
    }
    let items = pattern.items.as_slice();
    if let Some(fault) = fault_of_items(items) {
        return Err(fault);
    }
    Ok(Test {
        items: tests_of(items),
    })
}
