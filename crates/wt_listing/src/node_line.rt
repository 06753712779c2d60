ghost use Rattle.std.specs.Prelude.{◌≡◌, ◌++◌, OnOk};
ghost use Rattle.wt_listing.specs.Listing.{line, line_of, next_number, place_numbers};

use crate::word::push_word;
use wt_devices::{push, push_number};
use wt_span::NoMemory;
use wt_tree::{Kind, Ranges};

/// Appends a blank and a number.
fn push_next(out: &mut Vec<u8>, number: u32) -> Result<(), NoMemory>
    ensures { OnOk result (out.new.items ≡ out.old.items ++ next_number number) }
{
    push(out, b" ")?;
    push_number(out, number)?;
    Ok(())
}

/// Appends the numbers of a place.
#[tactic(auto, unfolding(crate::specs::Listing::place_numbers))]
fn push_place(out: &mut Vec<u8>, place: Ranges) -> Result<(), NoMemory>
    ensures { OnOk result (out.new.items ≡ out.old.items ++ place_numbers place) }
{
    push_next(out, place.start)?;
    push_next(out, place.end)?;
    push_next(out, place.open_w)?;
    push_next(out, place.close_w)?;
    Ok(())
}

/// Appends the line of a numbered node.
#[tactic(auto, unfolding(crate::specs::Listing::line))]
fn push_line(out: &mut Vec<u8>, id: u32, kind: Kind, place: Ranges) -> Result<(), NoMemory>
    ensures { OnOk result (out.new.items ≡ out.old.items ++ line id kind place) }
{
    push(out, b"mw")?;
    push_number(out, id)?;
    push(out, b" ")?;
    push_word(out, kind)?;
    push_place(out, place)?;
    push(out, b"\n")?;
    Ok(())
}

/// Appends the line of a node, where it has one.
#[tactic(auto, unfolding(crate::specs::Listing::line_of))]
pub fn push_line_of(
    out: &mut Vec<u8>,
    id: u32,
    kind: Kind,
    place: Option<Ranges>,
) -> Result<(), NoMemory>
    ensures { OnOk result (out.new.items ≡ out.old.items ++ line_of (id, kind, place)) }
{
    let Some(place) = place else {
        return Ok(());
    };
    if id == 0 {
        return Ok(());
    }
    push_line(out, id, kind, place)?;
    Ok(())
}
