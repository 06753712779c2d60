//! The data of one outermost call.

ghost use Rattle.std.specs.Prelude.{◌≡◌, IfOk};
ghost use Rattle.wt_span.specs.Origins.{IsSoundCall, outer_call};
ghost use Rattle.wt_call_data.specs.CallData.{call_part, next_call, target_by, text_or_none};

use crate::call_text::source_slice;
use crate::param::params;
use std::alloc::Global;
use wt_functions::function_named;
use wt_span::{NoMemory, Outer, Str};
use wt_tree::Part;

/// The target of a call, as it is written.
fn target<'a>(alloc: Global, outer: &Outer<'a>) -> Result<Str, NoMemory>
    requires { IsSoundCall (outer_call outer.now) }
    ensures { IfOk result (λ t. t ≡ target_by (outer_call outer.now) (outer_call outer.now).parts) }
{
    match outer.parts.as_slice() {
        [] => Ok(Str::new(alloc)),
        [part, ..] => Str::copy_of(alloc, source_slice(outer, part.start, part.end)),
    }
}

fn link(alloc: Global, href: &Option<Str>) -> Result<Str, NoMemory>
    ensures { IfOk result (λ t. t ≡ text_or_none href.now) }
{
    match href {
        None => Ok(Str::new(alloc)),
        Some(href) => Str::copy_of(alloc, href.as_str()),
    }
}

/// A call as a part of a group, after so many calls of the group.
#[tactic(auto, unfolding(crate::specs::CallData::call_part))]
pub fn call_part<'a>(alloc: Global, outer: &Outer<'a>, number: u32) -> Result<Part, NoMemory>
    requires { IsSoundCall (outer_call outer.now) }
    ensures { IfOk result (λ p. p ≡ call_part (outer_call outer.now) number) }
{
    if outer.argument {
        return Ok(Part::Param {
            wt: Str::copy_of(alloc, outer.source.as_str())?,
        });
    }
    if let Some((function, _)) = function_named(outer.source.as_str().as_bytes()) {
        return Ok(Part::Function {
            name: Str::copy_of(alloc, function.name())?,
            target: target(alloc, outer)?,
            params: params(alloc, outer)?,
            i: number,
        });
    }
    Ok(Part::Template {
        target: target(alloc, outer)?,
        href: link(alloc, &outer.href)?,
        params: params(alloc, outer)?,
        i: number,
    })
}
