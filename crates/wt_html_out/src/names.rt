ghost use Rattle.std.specs.Prelude.{◌≡◌, ◌++◌, OnOk};
ghost use Rattle.wt_tree.specs.Kinds.{level_digits, element_name};

use wt_devices::{push, push_number};
use wt_span::NoMemory;
use wt_tree::Kind;

/// The level of an element, after its name.
fn push_level(out: &mut Vec<u8>, level: Option<u8>) -> Result<(), NoMemory>
    ensures { OnOk result (out.new.items ≡ out.old.items ++ level_digits level) }
{
    if let Some(level) = level {
        push_number(out, u32::from(level))?;
    }
    Ok(())
}

/// The name of a kind's element.
pub fn push_name(out: &mut Vec<u8>, kind: Kind) -> Result<(), NoMemory>
    ensures { OnOk result (out.new.items ≡ out.old.items ++ element_name kind) }
{
    let spelling = kind.spelling();
    push(out, spelling.name)?;
    push_level(out, spelling.level)
}
