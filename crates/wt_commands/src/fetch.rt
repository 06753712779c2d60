ghost use Rattle.std.specs.Prelude.{◌≡◌, [], ◌∷◌, IfSome, IfErr};
ghost use Rattle.wt_transclusion.specs.Asked.{Asks};
ghost use Rattle.wt_commands.specs.Asked.{AsksNames};
ghost use Rattle.wt_commands.specs.Causes.{IsFetched, IsOfTitle, IsKept};

use crate::refusal::Refusal;
use std::alloc::Global;
use wt_devices::{Fetched, Folder};
use wt_span::{List, PAGE_BYTES};

/// The bytes of the page of this full name. Of a page that is too long they are a front that is too
/// long.
pub fn fetched_page<F: Folder>(
    alloc: Global,
    title: &str,
    folder: &mut F,
) -> Result<List<u8>, Refusal>
    ensures page { IfSome (F.pages folder.old) (λ pages. IsFetched (pages title.now) result) }
    ensures of_title { IfErr result (IsOfTitle (F.fault_count folder.old) (F.fault_count folder.new)) }
    ensures kept { IsKept result (F.fault_count folder.old) (F.fault_count folder.new) }
    ensures pages_kept { F.pages folder.new ≡ F.pages folder.old }
    ensures asks { Asks (F.answered folder.old) (F.answered folder.new) (F.most_asked folder.old)
        (F.most_asked folder.new) }
    ensures asked { AsksNames (title.now ∷ []) (F.answered folder.old) (F.answered folder.new) result }
{
    match folder.fetch(alloc, title, PAGE_BYTES as u32 + 1)? {
        Fetched::Found(page) => Ok(page),
        Fetched::Absent => Err(Refusal::Absent),
    }
}
