ghost use Rattle.std.specs.Prelude.{◌≡◌, option_map, OnOk, IfOk, ◌++◌, filter, take};
ghost use Rattle.wt_checks.specs.View.{seen, indexed, has_number, index_list};

use crate::visit::Visit;
use std::alloc::Global;
use wt_span::NoMemory;

/// The page's node with this number; 0 is the body's.
pub fn original<'t, 'a>(index: &[Visit<'t, 'a>], number: u32) -> Option<Visit<'t, 'a>>
    ensures { option_map seen result ≡ indexed index.now number }
{
    index.get(number as usize).copied()
}

fn push_numbered<'t, 'a>(
    out: &mut Vec<Visit<'t, 'a>>,
    visits: &[Visit<'t, 'a>],
) -> Result<(), NoMemory>
    ensures { OnOk result (out.new.items ≡ out.old.items ++ filter has_number visits.now) }
{
    for visit in visits {
        if visit.node.id != 0 {
            out.push(*visit)?;
        }
    }
    Ok(())
}

fn push_first<'t, 'a>(
    out: &mut Vec<Visit<'t, 'a>>,
    visits: &[Visit<'t, 'a>],
) -> Result<(), NoMemory>
    ensures { OnOk result (out.new.items ≡ out.old.items ++ take 1 visits.now) }
{
    if let Some(body) = visits.first() {
        out.push(*body)?;
    }
    Ok(())
}

/// The body, and after it the nodes with a number: of a page whose numbers count from 1 in preorder
/// each is at its number.
pub fn index_of<'t, 'a>(
    alloc: Global,
    visits: &[Visit<'t, 'a>],
) -> Result<Vec<Visit<'t, 'a>>, NoMemory>
    ensures { IfOk result (λ vs. vs.items ≡ index_list visits.now) }
{
    let mut out = Vec::new(alloc);
    push_first(&mut out, visits)?;
    push_numbered(&mut out, visits)?;
    Ok(out)
}
