//! Aims taken apart. In this crate what is let go is let go by calls of `drop`: what goes out of scope where
//! a function returns is laid out part by part in its proof, on each way out.

ghost use Rattle.std.specs.Prelude.{◌≡◌};

use chi_check_stat_rules::Aim;
use chi_core::CTarget;

pub(crate) fn target_of(aim: Aim) -> CTarget
    ensures { result ≡ aim.target }
{
    let Aim { target, ty: _ty } = aim;
    target
}
