//! Sources to programs and their code.

ghost use Rattle.std.specs.Prelude.{◌≤◌, IfOk, length};
ghost use Rattle.chi_lex.specs.declared.lexer.TheConstants.{MOST_BYTES};
ghost use Rattle.chi_core.specs.Sound.{Sound};
ghost use Rattle.chi_machine_tests.specs.Programs.{HasCode};

use chi_check::check;
use chi_check_parsed::parsed_programs_are_sound;
use chi_code::Code;
use chi_core::Core;
use chi_gen::generate;
use chi_lex::{MOST_BYTES, lex};
use chi_parse::parse;
use chi_tree_laws::parsed_law;
use std::alloc::Global;
use std::process::Abort;
use std::test::Fail;

/// The seed of all draws.
pub const SEED: u64 = 0;

/// A program, and its code.
#[derive(Drop)]
pub struct Program {
    pub core: Core,
    pub code: Code,
}

fn core_of(alloc: Global, source: &[u8]) -> Result<Core, Fail>
    requires within { length source.now ≤ MOST_BYTES }
    ensures sound { IfOk result Sound }
{
    parsed_law();
    parsed_programs_are_sound();
    let tokens = lex(alloc, source)?;
    if tokens.len() > MOST_BYTES {
        return Err(Fail::new("too many tokens"));
    }
    let tree = parse(alloc, tokens.as_slice())?;
    let core = check(alloc, &tree)?;
    Ok(core)
}

/// The program of a source that breaks no rule.
pub fn program_of(rt: &impl Abort, alloc: Global, source: &[u8]) -> Result<Program, Fail>
    ensures { IfOk result (λ p. HasCode p.core p.code) }
{
    assert!(rt; source.len() <= MOST_BYTES);
    let core = core_of(alloc, source)?;
    match generate(alloc, &core) {
        Ok(code) => Ok(Program { core, code }),
        Err(error) => Err(Fail::from(error)),
    }
}
