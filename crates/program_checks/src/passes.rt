//! Calls of `type_verifier` for one code, over which wrong bodies are tried, with their contracts.

ghost use Rattle.std.specs.Prelude.{◌<◌, ◌^◌, IfOk, length};
ghost use Rattle.type_rows.specs.Means.{IsSite};
ghost use Rattle.type_verifier.specs.Passes.{FirstFaultIs, HandledRow};

use class_link::Instruction;
use class_model::Memory;
use type_rows::{Answer, Site};
use type_verifier::Fault;
use vframes::{Frame, Handler};

/// `type_verifier::row_with_handlers`
pub fn row_with_handlers(
    site: &Site,
    at: u32,
    handlers: &[Handler],
    instruction: Instruction,
    f: &mut Frame,
) -> Result<Answer, Memory>
    requires { IsSite site.now }
    ensures { IfOk result (λ a. HandledRow site.now handlers.now at instruction f.old a f.new) }
{
    let answer = type_verifier::row_with_handlers(site, at, handlers, instruction, f)?;
    Ok(answer)
}

/// `type_verifier::check_code`
pub fn check_code(site: &Site, handlers: &[Handler], first: Frame) -> Result<Option<Fault>, Memory>
    requires site { IsSite site.now }
    requires few { length site.now.code.now.instructions < 2 ^ 32 }
    ensures { IfOk result (λ r. FirstFaultIs site.now handlers.now first r) }
{
    let fault = type_verifier::check_code(site, handlers, first)?;
    Ok(fault)
}
