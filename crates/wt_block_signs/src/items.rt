//! The signs with which the items of lists begin their lines.

use crate::kinds::is_item;
use std::alloc::Global;
use wt_checks::{Visit, original};
use wt_known::Known;
use wt_span::{NoMemory, Str};
use wt_tree::{Kind, Node};

/// The sign of an item of a list.
pub fn sign_of(list: Kind, item: Kind) -> &'static str {
    match item {
        Kind::Dt => ";",
        Kind::Dd => ":",
        _ => match list {
            Kind::Ol => "#",
            _ => "*",
        },
    }
}

/// The signs with which an item of the page begins its line, by the lists in which it is; nothing of another
/// node.
pub fn signs_of(alloc: Global, known: &Known<'_, '_>, item: &Node<'_>) -> Result<Str, NoMemory> {
    let mut out = Str::new(alloc);
    push_signs(&mut out, known.index, item.id)?;
    Ok(out)
}

/// Appends the signs of the page's node of this number. What holds a node has a number below its own.
fn push_signs(out: &mut Str, index: &[Visit<'_, '_>], number: u32) -> Result<(), NoMemory> {
    let Some(item) = original(index, number) else {
        return Ok(());
    };
    if !is_item(item.node.kind) {
        return Ok(());
    }
    let Some(list) = original(index, item.parent) else {
        return Ok(());
    };
    if list.parent < number {
        push_signs(out, index, list.parent)?;
    }
    out.push_str(sign_of(list.node.kind, item.node.kind))
}
