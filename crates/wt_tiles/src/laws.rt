//! What holds of tiles. Each law is the contract of an empty function.

ghost use Rattle.std.specs.Prelude.{◌≡◌, ◌++◌, ℕ, Bool, List, Some, None, false, length, drop};
ghost use Rattle.wt_span.specs.Items.{Item};
ghost use Rattle.wt_tiles.specs.declared.context.Context.{Context as Where};
ghost use Rattle.wt_tiles.specs.declared.glyph.Glyph.{Glyph as Sign};
ghost use Rattle.wt_tiles.specs.declared.shape.Shape.{Shape as Cut};
ghost use Rattle.wt_tiles.specs.Partners.{partner};
ghost use Rattle.wt_tiles.specs.Counts.{Closes, AreInner};
ghost use Rattle.wt_tiles.specs.Tiles.{shapes, tiles};
ghost use Rattle.wt_tiles.specs.Reading.{AreTiles, tile_at};
ghost use Rattle.wt_tiles.specs.Edges.{HasEdges};
ghost use Rattle.wt_tiles.specs.Cutting.{joined};

/// The tiles of a context take all its items, each is the first form that begins at its place or a
/// run of characters at none of which a form begins, no two such runs are neighbours, and no other
/// list of tiles is so.
pub fn one_reading()
    ensures are { (cx : Where) (gs : List Sign) → AreTiles cx false (shapes cx gs) gs }
    ensures only { (cx : Where) (ws : List Cut) (gs : List Sign) → AreTiles cx false ws gs → ws ≡ shapes cx gs }
{}

/// A form begins with a character of one byte, an atom or a mark, and no character lies on both
/// sides of an end of one of its parts.
pub fn parts_have_edges()
    ensures { (cx : Where) (after : Bool) (gs : List Sign) (w : Cut) → tile_at cx after gs ≡ Some w → HasEdges gs w }
{}

/// The items of the tiles, joined, are the items of the context.
pub fn tiles_join()
    ensures { (cx : Where) (xs : List Item) → joined (tiles cx xs) ≡ xs }
{}

/// The closing tag that is found balances: after the opening tag as many tags of the name open as
/// close before it, and each closing tag before it closes one that was opened there. Where none is
/// found, each closing tag to the context's end closes one that was opened after the opening tag.
pub fn partners_balance()
    ensures found { (k : ℕ) (gs ys : List Sign) → partner k 0 gs ≡ Some ys → (n : ℕ) × (ys ≡ drop n gs) × Closes k gs n × AreInner k gs n }
    ensures none { (k : ℕ) (gs : List Sign) → partner k 0 gs ≡ None → AreInner k gs (length gs) }
{}
