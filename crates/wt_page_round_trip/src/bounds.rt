//! How many nodes of the meaning of items have numbers.

ghost use Rattle.std.specs.Prelude.{◌≤◌, ◌+◌, ◌*◌, List, length};
ghost use Rattle.wt_span.specs.Items.{Item};
ghost use Rattle.wt_page.specs.Body.{meaning};
ghost use Rattle.wt_annotated.specs.Counted.{numbered};
ghost use Rattle.wt_annotated.specs.Labels.{width};
ghost use Rattle.wt_page_round_trip.specs.Numbers.{makes_all};

/// At most two nodes for each item have a number: a list and an item by a sign of a prefix, or a block
/// and a tile or a style, beside those that forms make. A form makes at most one node more than it has
/// bytes.
pub fn few_numbers()
    ensures blocks { (xs : List Item) → numbered (meaning xs) ≤ 2 * length xs + makes_all xs }
    ensures forms { (xs : List Item) → makes_all xs ≤ length xs + width xs }
{}
