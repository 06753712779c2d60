//! What a folder has, and what it gives.
ghost use Rattle.std.specs.Prelude.{◌≡◌, ◌↔◌, ℕ, List, Some, None};
ghost use Rattle.wt_devices.specs.Device.{Pages, Gives, IsAtMost};
ghost use Rattle.wt_devices.specs.Shelf.{look_up, ArePagesOf};
ghost use Rattle.wt_devices.specs.declared.device.Fetched.{Fetched};
ghost use Rattle.wt_devices.specs.declared.device.Fetched.TheVariants.{Found, Absent};
ghost use Rattle.wt_page_laws.specs.Folders.{IsFirstNamed, NoneIsNamed, IsFrontOfPage};

/// What is looked up is the page of the first entry of the name, and nothing where no entry has it. The
/// pages of entries are these, whichever way they are stated.
pub fn entries_are_looked_up()
    ensures first { (entries : List (List ℕ × List ℕ)) → (name page : List ℕ) → (look_up entries name ≡ Some page) ↔ (IsFirstNamed entries name page) }
    ensures absent { (entries : List (List ℕ × List ℕ)) → (name : List ℕ) → (look_up entries name ≡ None) ↔ (NoneIsNamed name entries) }
    ensures only { (entries : List (List ℕ × List ℕ)) → (pages : Pages) → ArePagesOf entries pages → (name : List ℕ) → pages name ≡ look_up entries name }
{}

/// A fetch gives a front of the page that is under the name, of at most so many bytes, all of it where
/// they are fewer; and nothing exactly where no page is there.
pub fn fetches_give_fronts()
    ensures found { (pages : Pages) → (name : List ℕ) → (most : ℕ) → (bytes : List ℕ) → (Gives (Some pages) name most (Found bytes)) ↔ (IsFrontOfPage pages name most bytes) }
    ensures absent { (pages : Pages) → (name : List ℕ) → (most : ℕ) → (Gives (Some pages) name most Absent) ↔ (pages name ≡ None) }
    ensures within { (pages : Pages) → (name : List ℕ) → (most : ℕ) → (fetched : Fetched) → Gives (Some pages) name most fetched → IsAtMost most fetched }
{}
