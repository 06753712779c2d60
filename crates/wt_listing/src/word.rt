ghost use Rattle.std.specs.Prelude.{◌≡◌, ◌++◌, OnOk, decimal};
ghost use Rattle.wt_tree.specs.Kinds.{level_digits, word};

use wt_devices::{push, push_number};
use wt_span::NoMemory;
use wt_tree::Kind;

/// Appends a level after a word.
fn push_level(out: &mut Vec<u8>, level: Option<u8>) -> Result<(), NoMemory>
    ensures { OnOk result (out.new.items ≡ out.old.items ++ level_digits level) }
{
    if let Some(level) = level {
        push_number(out, u32::from(level))?;
    }
    Ok(())
}

/// Appends the word of a kind.
pub fn push_word(out: &mut Vec<u8>, kind: Kind) -> Result<(), NoMemory>
    ensures { OnOk result (out.new.items ≡ out.old.items ++ word kind) }
{
    push(out, kind.word())?;
    push_level(out, kind.level())?;
    Ok(())
}
