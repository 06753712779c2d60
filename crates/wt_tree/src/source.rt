ghost use Rattle.std.specs.Prelude.{◌≡◌, ◌++◌, OnOk, IfOk};
ghost use Rattle.wt_tree.specs.Source.{flat};
ghost use Rattle.wt_tree.specs.View.{texts_of, view};

use crate::node::Node;
use std::alloc::Global;
use wt_span::{NoMemory, Str, Text};

/// Appends texts.
pub fn push_texts(out: &mut Str, texts: &[Text<'_>]) -> Result<(), NoMemory>
    ensures { OnOk result (out.new ≡ out.old ++ texts_of texts.now) }
{
    for text in texts {
        out.push_str(text.as_str())?;
    }
    Ok(())
}

fn push_flat(out: &mut Str, node: &Node<'_>) -> Result<(), NoMemory>
    ensures { OnOk result (out.new ≡ out.old ++ flat (view node.now)) }
{
    if node.kind.is_leaf() {
        push_texts(out, node.own())?;
        return Ok(());
    }
    push_texts(out, node.opening())?;
    for child in node.children.as_slice() {
        push_flat(out, child)?;
    }
    push_texts(out, node.closing())?;
    Ok(())
}

/// The source of a tree: the bytes of the page that it stands for.
pub fn flat(alloc: Global, n: &Node<'_>) -> Result<Str, NoMemory>
    ensures { IfOk result (λ s. s ≡ flat (view n.now)) }
{
    let mut out = Str::new(alloc);
    push_flat(&mut out, n)?;
    Ok(out)
}
