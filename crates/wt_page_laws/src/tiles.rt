//! Laws of links and media, in the words of a reader of wikitext.

ghost use Rattle.std.specs.Prelude.{◌≡◌, ◌↔◌, ℕ, List, Option, Some, true};
ghost use Rattle.wt_span.specs.Items.{Item};
ghost use Rattle.wt_tiles.specs.declared.glyph.Glyph.{Glyph};
ghost use Rattle.wt_tiles.specs.declared.shape.Shape.{Shape};
ghost use Rattle.wt_tiles.specs.declared.shape.TileKind.TheVariants as kind;
ghost use Rattle.wt_tiles.specs.Links.{link_in};
ghost use Rattle.wt_tiles.specs.Partners.{balanced};
ghost use Rattle.wt_page_laws.specs.Addresses.{IsToldSmall, KeyIsBehindFirstPipe, LeadsToItself, LeadsToUrl};
ghost use Rattle.wt_attributes.specs.Attributes.{attributes, readings};
ghost use Rattle.wt_attributes.specs.Characters.{text_of};
ghost use Rattle.wt_page_laws.specs.Brackets.{BalancesTo, EndsBalanced};
ghost use Rattle.wt_page_laws.specs.FirstAttributes.{AreFirstOfNames};

/// The `]]` that closes a `[[` is the one before which the brackets balance as a grammar has it, and
/// there is none other.
pub fn brackets_balance()
    ensures { (gs ys : List Glyph) → (balanced 0 0 gs ≡ Some ys) ↔ BalancesTo gs ys }
{}

/// Media end with that `]]`, so links may be in them.
pub fn media_end_balanced()
    ensures { (gs : List Glyph) (w : Shape) → link_in gs ≡ Some w → w.kind ≡ kind.Media → EndsBalanced gs w }
{}

/// An external link leads to the URL between its `[` and the blanks after it.
pub fn links_lead_to_their_url()
    ensures { (o : Option ℕ) (url : List Item) (blanks : List Item) → LeadsToUrl o url blanks }
{}

/// A URL without brackets leads to its own characters.
pub fn urls_lead_to_themselves()
    ensures { (o : Option ℕ) (bs : List ℕ) → LeadsToItself o bs }
{}

/// A switch is known by its name in small letters.
pub fn switches_are_told_in_small()
    ensures { (name : List ℕ) → IsToldSmall name }
{}

/// A category's key is between the first `|` and the `]]`; further `|` are in it.
pub fn keys_are_behind_the_first_pipe()
    ensures { (o : Option ℕ) (target : List Item) (text : List Item) → KeyIsBehindFirstPipe o target text }
{}

/// The attributes of a tag, a table, a row or a cell are those that are read in its text, of each name the first one, and
/// they come in one order of the names.
pub fn attributes_are_the_first_of_their_names()
    ensures { (xs : List Item) → AreFirstOfNames (readings true 0 (text_of xs)) (attributes xs) }
{}
