//! The flags of a pattern that is read alone.
ghost use Rattle.std.specs.Prelude.{◌≡◌, IsTrue, IfOk, IfSome};

use pattern_files::sources::System;
use patterns_config::choices::Choices;
use patterns_config::file_settings::flags_with;
use patterns_config::plan::{Plan, PlanRequest};
use patterns_text::error::RunError;
use std::alloc::Global;
use std::io::Write;

/// The flags that the pattern of a file is parsed under: those of the arguments, unless the configuration of the file says
/// otherwise and the arguments leave it open. The file `-`, and a pattern that is an argument, have the configuration of the
/// current folder. `None` if the configuration is wrong or cannot be read, and then `err` says why. An error if memory runs out
/// or a write fails.
pub fn flags_of_pattern<S: System, E: Write>(
    alloc: Global,
    choices: Choices<'_>,
    file: &str,
    sources: &S,
    err: &mut E,
) -> Result<Option<u32>, RunError>
    ensures given { IsTrue choices.entry.has_flags →
        IfOk result (λ found. IfSome found (λ flags. flags ≡ choices.entry.flags)) }
{
    let names = [file];
    let request = PlanRequest {
        choices,
        names: &names,
        has_arguments: false,
        has_no_json: false,
    };
    let plan = Plan::of(alloc, request, sources, err)?;
    let Some(planned) = plan.files.first() else {
        return Ok(None);
    };
    if !plan.is_complete {
        return Ok(None);
    }
    let settings = plan.settings(alloc, planned)?;
    Ok(Some(flags_with(choices, &settings)))
}
