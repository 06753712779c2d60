//! The edit of a page without marks.

ghost use Rattle.std.specs.Prelude.{◌≡◌, ◌≤◌, Some};
ghost use Rattle.wt_expand.specs.Work.{Pages};
ghost use Rattle.wt_expansion.specs.Known.{HoldsPages};
ghost use Rattle.wt_transclusion.specs.Asked.{Asks};
ghost use Rattle.wt_tree.specs.Tree.{label};
ghost use Rattle.wt_tree.specs.View.{view};
ghost use Rattle.wt_tree.specs.declared.kind.Kind.TheVariants as kind;
ghost use Rattle.wt_unmarked_edit.specs.Counts.{IsCounted};
ghost use Rattle.wt_unmarked_edit.specs.Found.{AnswersUnmarked};
ghost use Rattle.wt_selser.specs.Borders.{page_text};
ghost use Rattle.wt_slices.specs.Borders.{HasBorders};
ghost use Rattle.wt_unmarked_edit.specs.Tried.{KnowsOf};

use crate::proposing::new_page;
use wt_checks::numbered_nodes;
use wt_devices::Folder;
use wt_edit::{KnownPage, MOST_READINGS, Readings, SelserRefusal};
use wt_new_page::{Beside, EditedPage, Memory, set_beside};
use wt_span::Str;
use wt_tree::Node;

/// The new page of a page that was changed to the edited tree, whose marks count for nothing: what was changed is
/// found by the difference of the two trees. At most `MOST_READINGS` new pages are tried and read back, and the
/// first that shows what the edited tree shows is the answer. `known` is the page's tree with its items, and what
/// its expansion knows, as `known_page` of `wt_edit` gives them: no template that it knows is fetched again.
/// `edited` is the body that was read. `readings` counts the new pages that are read, and begins at none.
///
/// # Errors
///
/// A check of a node of the edited tree; or why no new page was found, by the first that was tried or by what
/// `edit` says of the marks of the difference; or a fault of the folder or want of memory, which may come at any
/// time.
pub fn selser<'a, F: Folder>(
    page: &str,
    known: KnownPage<'a>,
    edited: Node<'a>,
    memory: Memory<'a>,
    folder: &mut F,
    readings: &mut Readings,
) -> Result<Str, SelserRefusal>
    requires body { (label (view known.annotated.tree.body)).kind ≡ kind.Body }
    requires places { HasBorders page.now (view known.annotated.tree.body) }
    requires text { page_text known.annotated.items ≡ page.now }
    requires known { HoldsPages known.expansion }
    requires unread { readings.old ≡ 0 }
    ensures answered { (pages : Pages) → F.pages folder.old ≡ Some pages → KnowsOf pages known.entry.expansion
        → AnswersUnmarked pages known.entry.annotated.items page.now (view known.entry.annotated.tree.body)
        (view edited.entry) result }
    ensures asks { Asks (F.answered folder.old) (F.answered folder.new) (F.most_asked folder.old)
        (F.most_asked folder.new) }
    ensures count { IsCounted (F.fault_count folder.old) (F.fault_count folder.new) result }
    ensures kept { F.pages folder.new ≡ F.pages folder.old }
    ensures few { readings.new ≤ MOST_READINGS }
{
    let KnownPage {
        annotated,
        expansion,
    } = known;
    let tree = annotated.body();
    let index = numbered_nodes(memory.alloc, tree)?;
    let beside = set_beside(memory.alloc, tree, index.as_slice(), edited)?;
    let Beside {
        edited,
        same,
        refused,
    } = beside;
    match refused {
        Some(check) => Err(SelserRefusal::Check(check)),
        None => {
            let edit = EditedPage {
                page,
                tree,
                index: index.as_slice(),
                items: annotated.items(),
                edited: &edited,
                same,
                memory,
            };
            new_page(&edit, folder, expansion, readings)
        }
    }
}
