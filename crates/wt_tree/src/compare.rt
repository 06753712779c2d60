ghost use Rattle.std.specs.Prelude.{◌≡◌, option_copied, [], ◌∷◌, map, IfOk, OnOk};
ghost use Rattle.std.specs.Bool.{Decides};
ghost use Rattle.wt_tree.specs.Plain.{plain, face};
ghost use Rattle.wt_tree.specs.Shown.{Adds, IsShownOf, bracket_of, brackets_of};
ghost use Rattle.wt_tree.specs.Stream.{signs, signs_of_all, byte, bracket, opens, closes};
ghost use Rattle.wt_tree.specs.View.{view, views, label_of};
ghost use Rattle.wt_tree.specs.declared.node.Node.{out-Node};

use crate::kind::{Kind, Showing};
use crate::node::{Attr, DataMw, Node};
use std::alloc::Global;
use wt_span::NoMemory;

/// Where an element opens or closes, by the number of characters (bytes) shown before.
#[derive(Drop)]
enum Bracket<'t, 'a> {
    Open(usize, &'t Node<'a>),
    Close(usize),
}

/// The plain view of a tree, read from left to right.
#[derive(Drop)]
struct Shown<'t, 'a> {
    text: Vec<u8>,
    brackets: Vec<Bracket<'t, 'a>>,
}

fn open<'t, 'a>(shown: &mut Shown<'t, 'a>, node: &'t Node<'a>) -> Result<(), NoMemory>
    ensures { OnOk result (Adds shown.old shown.new (bracket (opens (face (label_of (out-Node node.now)))) ∷ [])) }
{
    let place = shown.text.len();
    shown.brackets.push(Bracket::Open(place, node))?;
    Ok(())
}

fn close(shown: &mut Shown<'_, '_>) -> Result<(), NoMemory>
    ensures { OnOk result (Adds shown.old shown.new (bracket closes ∷ [])) }
{
    let place = shown.text.len();
    shown.brackets.push(Bracket::Close(place))?;
    Ok(())
}

fn push_text(shown: &mut Shown<'_, '_>, text: &str) -> Result<(), NoMemory>
    ensures { OnOk result (Adds shown.old shown.new (map byte text.now)) }
{
    shown.text.extend_from_slice(text.as_bytes())?;
    Ok(())
}

#[cycle(show)]
fn show<'t, 'a>(shown: &mut Shown<'t, 'a>, node: &'t Node<'a>) -> Result<(), NoMemory>
    ensures { OnOk result (Adds shown.old shown.new (signs (view node.now))) }
{
    match node.kind.showing() {
        Showing::Characters => push_text(shown, node.shown()),
        Showing::Inside => show_all(shown, node.children.as_slice()),
        Showing::Nothing => Ok(()),
        Showing::Element => {
            open(shown, node)?;
            show_all(shown, node.children.as_slice())?;
            close(shown)?;
            Ok(())
        }
    }
}

#[cycle(show)]
fn show_all<'t, 'a>(shown: &mut Shown<'t, 'a>, nodes: &'t [Node<'a>]) -> Result<(), NoMemory>
    ensures { OnOk result (Adds shown.old shown.new (signs_of_all (views nodes.now))) }
{
    for node in nodes {
        show(shown, node)?;
    }
    Ok(())
}

fn shown_of<'t, 'a>(alloc: Global, node: &'t Node<'a>) -> Result<Shown<'t, 'a>, NoMemory>
    ensures { IfOk result (IsShownOf (view node.now)) }
{
    let mut shown = Shown {
        text: Vec::new(alloc),
        brackets: Vec::new(alloc),
    };
    show(&mut shown, node)?;
    Ok(shown)
}

/// Whether two kinds are one, by the derived comparison.
pub fn same_kind(a: Kind, b: Kind) -> bool
    ensures { Decides result (a ≡ b) }
{
    a == b
}

/// Whether two nodes have the same attributes in the same order, each with its name and its value.
pub fn same_attrs(a: &[Attr], b: &[Attr]) -> bool
    ensures { Decides result (a.now ≡ b.now) }
{
    a == b
}

/// Whether what an extension has in `data-mw` is the same value.
pub fn same_data(a: Option<&DataMw>, b: Option<&DataMw>) -> bool
    ensures { Decides result (option_copied a.entry ≡ option_copied b.entry) }
{
    a == b
}

/// Whether two nodes are the same element: of one kind, with the same attributes and data.
pub fn same_face(a: &Node<'_>, b: &Node<'_>) -> bool
    ensures { Decides result (face (label_of (out-Node a.now)) ≡ face (label_of (out-Node b.now))) }
{
    if !same_kind(a.kind, b.kind) {
        return false;
    }
    if !same_attrs(a.attrs(), b.attrs()) {
        return false;
    }
    same_data(a.mw(), b.mw())
}

fn same_bracket(a: &Bracket<'_, '_>, b: &Bracket<'_, '_>) -> bool
    ensures { Decides result (bracket_of a.now ≡ bracket_of b.now) }
{
    match (a, b) {
        (Bracket::Open(place, node), Bracket::Open(other, second)) => {
            if *place != *other {
                return false;
            }
            same_face(node, second)
        }
        (Bracket::Close(place), Bracket::Close(other)) => *place == *other,
        (Bracket::Open(_, _), Bracket::Close(_)) => false,
        (Bracket::Close(_), Bracket::Open(_, _)) => false,
    }
}

fn same_brackets(a: &[Bracket<'_, '_>], b: &[Bracket<'_, '_>]) -> bool
    ensures { Decides result (brackets_of a.now ≡ brackets_of b.now) }
{
    if a.len() != b.len() {
        return false;
    }
    for at in 0..a.len() {
        if !same_bracket(&a[at], &b[at]) {
            return false;
        }
    }
    true
}

fn same_text(a: &[u8], b: &[u8]) -> bool
    ensures { Decides result (a.now ≡ b.now) }
{
    a == b
}

fn same_shown(a: &Shown<'_, '_>, b: &Shown<'_, '_>) -> bool
    ensures { Decides result ((brackets_of a.now.brackets.items ≡ brackets_of b.now.brackets.items) × (a.now.text.items ≡ b.now.text.items)) }
{
    if !same_brackets(a.brackets.as_slice(), b.brackets.as_slice()) {
        return false;
    }
    same_text(a.text.as_slice(), b.text.as_slice())
}

/// Whether two trees have the same plain view: what they show, without numbers, ranges, delimiters,
/// separators, marks and skips; a group counts as the nodes that it holds.
pub fn plain_eq(alloc: Global, a: &Node<'_>, b: &Node<'_>) -> Result<bool, NoMemory>
    ensures { IfOk result (λ same. Decides same (plain (view a.now) ≡ plain (view b.now))) }
{
    let left = shown_of(alloc, a)?;
    let right = shown_of(alloc, b)?;
    let same = same_shown(&left, &right);
    Ok(same)
}
