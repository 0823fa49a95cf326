ghost use Rattle.std.specs.Prelude.{◌≡◌};
ghost use Rattle.chi_types.specs.declared.ty.Ty.{out-Ty};
ghost use Rattle.chi_explain_arguments.specs.Arguments.{form_words, type_words};

use chi_types::Ty;

/// What is of a type.
pub fn type_words(ty: &Ty) -> &'static str
    ensures { result.now ≡ type_words (out-Ty ty.now) }
{
    match ty {
        Ty::Bool => "a bool",
        Ty::Int => "an int",
        Ty::Real => "a real",
        Ty::Text => "a string",
        Ty::Timer => "a timer",
        Ty::Inst => "an instance",
        Ty::Void => "nothing",
        Ty::Choice(_) => "an enumeration's value",
        Ty::TupleOf(_) => "a tuple",
        Ty::ListOf(_) => "a list",
        Ty::SetOf(_) => "a set",
        Ty::DictOf(_, _) => "a dictionary",
        Ty::Chan(_, _) => "a channel",
        Ty::Dist(_) => "a distribution",
    }
}

/// Which texts are arguments of a type.
pub fn form_words(ty: &Ty) -> &'static str
    ensures { result.now ≡ form_words (out-Ty ty.now) }
{
    match ty {
        Ty::Bool => "`true` or `false`",
        Ty::Int => "digits, maybe after a `-`, and from -2^63 to 2^63 - 1",
        Ty::Real => {
            "digits, maybe after a `-`, maybe with a point and digits, and from -9223372036.854775808 to 9223372036.854775807"
        }
        Ty::Text => "tabs, line feeds and the bytes 0x20 to 0x7E",
        _ => "no text is one",
    }
}
