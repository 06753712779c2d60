//! What holds of titles, their links and the names of their files. Each law is the contract of an
//! empty function.
ghost use Rattle.std.specs.Prelude.{◌≡◌, ◌≢◌, ◌==◌, ℕ, ◌+◌, ◌*◌, ◌<◌, ◌≤◌, ◌⊎◌, List, [], true, false, Some, None, All, IsUtf8, length, slice_index};
ghost use Rattle.std.specs.List.{list_any, slice_split};
ghost use Rattle.wt_span.specs.Characters as byte;
ghost use Rattle.wt_names.specs.declared.title.Title.{Title};
ghost use Rattle.wt_names.specs.Namespace.{full_name_of};
ghost use Rattle.wt_names.specs.Good.{read_text, is_step, is_relative};
ghost use Rattle.wt_names.specs.Tidy.{IsTidy, text_of};
ghost use Rattle.wt_names.specs.Written.{underscored, link_to, read_link, stays_in_file, file_of};

/// Every title that is read is tidy, and every tidy title is read: from its full name, and where it
/// has a fragment `#` and it. So reading twice changes nothing.
pub fn tidy_titles()
    ensures read { (text : List ℕ) (t : Title) → read_text text ≡ Some t → IsTidy t }
    ensures back { (t : Title) → IsTidy t → read_text (text_of t) ≡ Some t }
{}

/// The link to a title leads back to it.
pub fn links_lead_back()
    ensures { (text : List ℕ) (t : Title) → IsUtf8 text → read_text text ≡ Some t → read_link (link_to t) ≡ Some t }
{}

/// A full name is read as the title without its fragment. That of a fragment alone is empty, and
/// that is no title.
pub fn full_names_read_back()
    ensures title { (text : List ℕ) (t : Title) → read_text text ≡ Some t → full_name_of t ≢ []
        → read_text (full_name_of t) ≡ Some (record t { fragment = None }) }
    ensures empty { read_text [] ≡ None }
{}

/// The eight forms of a step that make a full name bad say together: one of its parts between
/// slashes is `.` or `..`, the dot segments of RFC 3986.
pub fn steps_are_parts()
    ensures { (full : List ℕ) → is_relative full ≡ list_any is_step (slice_split (λ b. b == byte.slash) full) }
{}

/// Two full names that aren't the same but for spaces and `_` have two files; two titles that are
/// read, whose names have no `_`, have one file only where they have one full name.
pub fn files_differ()
    ensures names { (first second : List ℕ) → IsUtf8 first → IsUtf8 second → file_of first ≡ file_of second
        → underscored first ≡ underscored second }
    ensures titles { (first second : List ℕ) (t u : Title) → IsUtf8 first → IsUtf8 second → read_text first ≡ Some t
        → read_text second ≡ Some u → file_of (full_name_of t) ≡ file_of (full_name_of u) → full_name_of t ≡ full_name_of u }
{}

/// The name of a file stays in its folder, whatever the full name: it has letters, digits, `-`,
/// `_`, `.` and `%` alone, so no `/`; it is neither `.` nor `..`; and it begins with a dot only where
/// the full name does or is empty. It may be longer than a file system allows.
pub fn files_stay_in_their_folder()
    ensures bytes { (full : List ℕ) → All (λ b. (stays_in_file b ≡ true) ⊎ (b ≡ byte.percent)) (file_of full) }
    ensures no_slash { (full : List ℕ) → All (λ b. b ≢ 47) (file_of full) }
    ensures no_step { (full : List ℕ) → is_step (file_of full) ≡ false }
    ensures dot { (full : List ℕ) → slice_index (file_of full) 0 ≡ byte.full_stop → (full ≡ []) ⊎ (slice_index full 0 ≡ byte.full_stop) }
    ensures bound { (full : List ℕ) → length (file_of full) ≤ 3 * length full + 5 }
{}
