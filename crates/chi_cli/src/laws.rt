//! Laws of the definitions. Nothing here runs.

ghost use Rattle.std.specs.Prelude.{◌≡◌, ◌≢◌, ℕ, List, Result, Ok, Err};
ghost use Rattle.chi_types.specs.declared.ty.Ty.{Ty};
ghost use Rattle.chi_value.specs.declared.value.Value.{Value};
ghost use Rattle.chi_core.specs.Kinds.{kinds_of};
ghost use Rattle.chi_core.specs.Of.{AreOf, at_start};
ghost use Rattle.chi_cli.specs.declared.fault.CliFault.{CliFault};
ghost use Rattle.chi_cli.specs.declared.fault.CliFault.TheVariants as fault;
ghost use Rattle.chi_cli.specs.declared.request.Request.{Request};
ghost use Rattle.chi_cli.specs.Answers.{IsAnswer};
ghost use Rattle.chi_cli.specs.declared.args.ArgFault.TheVariants as arg;
ghost use Rattle.chi_cli.specs.Arguments.{IsNumber, values_of};
ghost use Rattle.chi_cli.specs.Ranges.{IsInRange};
ghost use Rattle.chi_cli.specs.Requests.{request_of};

/// Want of memory aside, words have one answer.
#[tactic(auto, using(crate::proofs::OneAnswer::one_answer))]
pub fn one_request_law()
    ensures { (words : List (List ℕ)) → (answer other : Result Request CliFault) → IsAnswer words answer → IsAnswer words other
        → answer ≢ Err fault.NoMemory → other ≢ Err fault.NoMemory → answer ≡ other }
{}

/// The numbers of a request are in their ranges.
pub fn numbers_are_in_range()
    ensures { (words : List (List ℕ)) → (request : Request) → request_of words ≡ Ok request → IsInRange request }
{}

/// The values that texts are for parameters are of the parameters' kinds, where a run begins.
#[tactic(auto, using(crate::proofs::Kinded::values_are_kinded))]
pub fn values_are_of_parameters()
    ensures { (names : List (List (List ℕ))) → (params : List Ty) → (args : List (List ℕ)) → (values : List Value)
        → values_of params args ≡ Ok values → AreOf (at_start names) values (kinds_of params) }
{}

/// A fault of an argument has the number of a parameter, and where its text is at fault of an argument too. Want of memory is
/// no fault of theirs.
pub fn faults_of_arguments_name_them()
    ensures kind { (params : List Ty) → (args : List (List ℕ)) → (k : ℕ) → values_of params args ≡ Err (arg.Kind k) → IsNumber params k }
    ensures text { (params : List Ty) → (args : List (List ℕ)) → (k : ℕ) → values_of params args ≡ Err (arg.Text k)
        → IsNumber params k × IsNumber args k }
    ensures memory { (params : List Ty) → (args : List (List ℕ)) → values_of params args ≢ Err arg.NoMemory }
{}
