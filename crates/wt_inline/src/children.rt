ghost use Rattle.std.specs.Prelude.{◌≡◌, ◌<◌, ◌∷◌, [], None, Some, true, length, IfOk};
ghost use Rattle.wt_span.specs.Items.{items_of, call_of_origin};
ghost use Rattle.wt_lines.specs.Pieces.{is_chars};
ghost use Rattle.wt_inline.specs.Parts.{node, parts, same_origin};
ghost use Rattle.wt_inline.specs.View.{item_tree, item_trees};

use crate::loose::Loose;
use crate::run::Run;
use crate::tree::PieceTree;
use std::alloc::Global;
use wt_span::{List, NoMemory, Piece};

/// The children of a node while its parts are read, one after another: trees that are made, and the
/// run of characters after them, which may go on.
#[derive(Drop)]
pub struct Children<'a> {
    trees: List<PieceTree<'a>>,
    run: Option<Run<'a>>,
}

impl<'a> Children<'a> {
    ghost use Rattle.wt_inline.specs.Grown.{Grows, Ends, made, growth, open_run};

    /// No children so far.
    pub fn new(alloc: Global) -> Children<'a>
        ensures { growth result ≡ record { trees = []; run = None } }
    {
        Children {
            trees: List::new(alloc),
            run: None,
        }
    }

    /// The trees, the run made a leaf, where no more characters of it follow.
    fn closed(self, alloc: Global) -> Result<List<PieceTree<'a>>, NoMemory>
        ensures { IfOk result (λ l. Ends (growth self.entry) (item_trees l)) }
    {
        let Children { mut trees, run } = self;
        match run {
            None => Ok(trees),
            Some(run) => {
                let leaf = run.leaf(alloc)?;
                trees.push_tight(leaf)?;
                Ok(trees)
            }
        }
    }

    /// The children with these trees, and the run that a piece begins.
    fn begun(
        alloc: Global,
        trees: List<PieceTree<'a>>,
        loose: Loose,
        piece: Piece<'a>,
    ) -> Result<Children<'a>, NoMemory>
        requires chars { is_chars piece.form ≡ true }
        requires some { 0 < length (items_of piece) }
        ensures { IfOk result (λ c. Grows (record { trees = item_trees trees.entry; run = None }) (parts loose (items_of piece.entry)) (growth c)) }
    {
        let run = Run::begun(alloc, loose, piece)?;
        Ok(Children {
            trees,
            run: Some(run),
        })
    }

    /// The children with these trees and this run, to which a piece of its characters is put.
    fn continued(
        trees: List<PieceTree<'a>>,
        run: Run<'a>,
        piece: Piece<'a>,
    ) -> Result<Children<'a>, NoMemory>
        requires chars { is_chars piece.form ≡ true }
        requires same { same_origin (call_of_origin run.origin) (call_of_origin piece.origin) ≡ true }
        ensures { IfOk result (λ c. Grows
            (record { trees = item_trees trees.entry; run = Some (open_run run.entry) })
            (parts run.entry.loose (items_of piece.entry)) (growth c)) }
    {
        let run = run.with(piece)?;
        Ok(Children {
            trees,
            run: Some(run),
        })
    }

    /// Characters after these trees and this run.
    fn after_run(
        alloc: Global,
        trees: List<PieceTree<'a>>,
        run: Run<'a>,
        loose: Loose,
        piece: Piece<'a>,
    ) -> Result<Children<'a>, NoMemory>
        requires chars { is_chars piece.form ≡ true }
        requires some { 0 < length (items_of piece) }
        ensures { IfOk result (λ c. Grows
            (record { trees = item_trees trees.entry; run = Some (open_run run.entry) })
            (parts loose (items_of piece.entry)) (growth c)) }
    {
        if run.takes(loose, piece.origin) {
            Children::continued(trees, run, piece)
        } else {
            let mut trees = trees;
            let leaf = run.leaf(alloc)?;
            trees.push_tight(leaf)?;
            Children::begun(alloc, trees, loose, piece)
        }
    }

    /// These and characters of a text or a separator.
    pub fn with_chars(
        self,
        alloc: Global,
        loose: Loose,
        piece: Piece<'a>,
    ) -> Result<Children<'a>, NoMemory>
        requires { is_chars piece.form ≡ true }
        ensures { IfOk result (λ c. Grows (growth self.entry) (parts loose (items_of piece.entry)) (growth c)) }
    {
        if piece.text.as_str().is_empty() {
            return Ok(self);
        }
        let Children { trees, run } = self;
        match run {
            None => Children::begun(alloc, trees, loose, piece),
            Some(run) => Children::after_run(alloc, trees, run, loose, piece),
        }
    }

    /// These and a node.
    pub fn with_tree(self, alloc: Global, tree: PieceTree<'a>) -> Result<Children<'a>, NoMemory>
        ensures { IfOk result (λ c. Grows (growth self.entry) (node (item_tree tree.entry) ∷ []) (growth c)) }
    {
        let mut trees = self.closed(alloc)?;
        trees.push_tight(tree)?;
        Ok(Children { trees, run: None })
    }

    /// The children, where no more parts come.
    pub fn finish(self, alloc: Global) -> Result<List<PieceTree<'a>>, NoMemory>
        ensures { IfOk result (λ l. item_trees l ≡ made (growth self.entry) []) }
    {
        self.closed(alloc)
    }
}
