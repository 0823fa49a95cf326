ghost use Rattle.std.specs.Prelude.{◌≡◌, ◌≢◌, None, Some, slice_get};
ghost use Rattle.chi_core.specs.Functions.{callee};
ghost use Rattle.chi_core_apply.specs.Scenery.{scene_of};
ghost use Rattle.chi_plain_eval.specs.Surroundings.{scene_in};

use chi_core::FuncDef;
use chi_core_apply::Scenery;
use chi_value::{Names, Value};

/// What evaluations read beside variables, with the functions that they may call. It stays as it is
/// within a step, and nothing of it is copied for one.
#[derive(Clone, Copy, Debug)]
pub struct Surroundings<'a> {
    pub functions: &'a [FuncDef],
    /// The names of the enumeration values.
    pub names: &'a Names,
    pub seed: u64,
    /// The time in units of a real.
    pub clock: i64,
    /// The values of the constants.
    pub constants: &'a [Value],
    /// Whether it is finished, for each instance that there was before the step.
    pub finished: &'a [bool],
}

/// What operators read of it.
pub fn scenery<'a>(s: &Surroundings<'a>) -> Scenery<'a>
    ensures { scene_of result ≡ scene_in s.now }
{
    Scenery {
        names: s.names,
        seed: s.seed,
        clock: s.clock,
        constants: s.constants,
        finished: s.finished,
    }
}

/// The value of a constant.
#[tactic(auto, using(chi_core_apply::proofs::Parts::at_place))]
pub fn constant<'a>(s: &Surroundings<'a>, number: u32) -> &'a Value
    requires { slice_get s.now.constants.now number ≢ None }
    ensures { slice_get s.now.constants.now number ≡ Some result.now }
{
    &s.constants[number as usize]
}

/// The function of a number, which takes so many arguments.
#[tactic(auto, using(crate::proofs::Standing::places))]
pub fn function<'a>(s: &Surroundings<'a>, number: u32, count: usize) -> &'a FuncDef
    requires { callee s.now.functions.now number count ≢ None }
    ensures { callee s.now.functions.now number count ≡ Some result.now }
{
    &s.functions[number as usize]
}
