//! A page that was edited.

use bumpalo::Bump;
use std::alloc::Global;
use wt_checks::Visit;
use wt_span::Items;
use wt_tree::Node;

/// Where what a call makes lies: its values, and the texts of pages with their templates and trees.
#[derive(Clone, Copy)]
pub struct Memory<'a> {
    /// Of values.
    pub alloc: Global,
    /// Of texts and trees.
    pub arena: &'a Bump<Global>,
}

/// An expanded page, and the tree to which it was edited.
#[derive(Clone, Copy)]
pub struct EditedPage<'p, 'a> {
    /// The page.
    pub page: &'p str,
    /// Its tree.
    pub tree: &'p Node<'a>,
    /// The body, and after it the nodes of its tree by their numbers.
    pub index: &'p [Visit<'p, 'a>],
    /// Its items.
    pub items: &'p Items<'a>,
    /// The tree to which it was edited, with the marks of its difference from the page's tree, and no others.
    pub edited: &'p Node<'a>,
    /// Whether nothing differs.
    pub same: bool,
    /// Where what is made of it lies.
    pub memory: Memory<'a>,
}
