//! Tokens: the pieces of a context's segments.

ghost use Rattle.std.specs.Prelude.{◌≡◌, ◌<◌, ◌-◌, ◌++◌, ◌∷◌, [], true, length, take, drop, IfOk, OnOk};
ghost use Rattle.wt_span.specs.Items.{items, items_of};
ghost use Rattle.wt_inline.specs.Grown.{growth, Grows};
ghost use Rattle.wt_context.specs.Segments.{segment_items, segment_parts};
ghost use Rattle.wt_context.specs.Tokens.{token_segments, quotes_left};

use crate::stretch::{Quotes, Stretch};
use std::alloc::Global;
use wt_inline::{Children, Loose, PieceTree};
use wt_span::{List, NoMemory, Piece};

/// A tile as a node, and what it was cut from.
#[derive(Drop)]
pub struct TileNode<'a> {
    pub pieces: List<Piece<'a>>,
    pub tree: PieceTree<'a>,
}

/// Segments of a context that follow one another: one, or several apostrophes.
#[derive(Drop)]
pub enum Token<'a> {
    Quotes(Quotes<'a>),
    Stretch(Stretch<'a>),
    Tile(TileNode<'a>),
}

impl<'a> Token<'a> {
    /// How many segments it is.
    pub fn len(&self) -> usize
        ensures value { result ≡ length (token_segments self.now) }
        ensures some { 0 < result }
    {
        match self {
            Token::Quotes(quotes) => quotes.len(),
            Token::Stretch(_) | Token::Tile(_) => 1,
        }
    }

    /// Its first n segments, and the apostrophes that are left.
    pub fn split_at(self, n: usize) -> (Token<'a>, Option<Quotes<'a>>)
        requires { 0 < n }
        ensures front { token_segments result.0 ≡ take n (token_segments self.entry) }
        ensures back { quotes_left result.1 ≡ drop n (token_segments self.entry) }
    {
        match self {
            Token::Quotes(quotes) => {
                if quotes.len() <= n {
                    return (Token::Quotes(quotes), None);
                }
                let (front, back) = quotes.split_at(n);
                (Token::Quotes(front), Some(back))
            }
            Token::Stretch(stretch) => (Token::Stretch(stretch), None),
            Token::Tile(tile) => (Token::Tile(tile), None),
        }
    }

    /// The children of a node with it.
    pub fn onto(self, alloc: Global, children: Children<'a>) -> Result<Children<'a>, NoMemory>
        ensures { IfOk result (λ c. Grows (growth children.entry) (segment_parts (token_segments self.entry)) (growth c)) }
    {
        match self {
            Token::Quotes(quotes) => children.with_chars(alloc, Loose::Text, quotes.piece),
            Token::Stretch(stretch) => {
                children.with_pieces(alloc, Loose::Text, stretch.pieces.as_slice())
            }
            Token::Tile(tile) => children.with_tree(alloc, tile.tree),
        }
    }

    /// Its pieces, after others.
    pub fn push_pieces(self, out: &mut List<Piece<'a>>) -> Result<(), NoMemory>
        ensures { OnOk result (items out.new ≡ items out.old ++ segment_items (token_segments self.entry)) }
    {
        match self {
            Token::Quotes(quotes) => out.push_tight(quotes.piece),
            Token::Stretch(stretch) => out.extend_from_slice(stretch.pieces.as_slice()),
            Token::Tile(tile) => out.extend_from_slice(tile.pieces.as_slice()),
        }
    }
}
