ghost use Rattle.std.specs.Prelude.{◌≡◌, ◌<◌, ◌&&◌, ◌||◌, ◌==◌, not, nat_lt, false, true, [], All, option_map, length, replicate, slice_set, slice_index, IfOk, if◌then◌else◌};
ghost use Rattle.std.specs.List.{slice_index_or};
ghost use Rattle.wt_tree.specs.declared.node.Node.{out-Node};
ghost use Rattle.wt_checks.specs.Ids.{is_unknown, is_repeated, has_parent, is_moved};
ghost use Rattle.wt_checks.specs.Places.{first};
ghost use Rattle.wt_checks.specs.View.{seen, all_seen, indexed, has_number};

use crate::index::original;
use crate::visit::Visit;
use std::alloc::Global;
use wt_span::NoMemory;

fn is_unknown(index: &[Visit<'_, '_>], visit: Visit<'_, '_>) -> bool
    ensures { result ≡ is_unknown (indexed index.now) [] (seen visit.entry) [] }
{
    let number = visit.node.id;
    number != 0 && original(index, number).is_none()
}

/// The first number that the page doesn't have.
pub fn first_unknown(index: &[Visit<'_, '_>], edited: &[Visit<'_, '_>]) -> Option<u32>
    ensures { result ≡ first (is_unknown (indexed index.now)) (all_seen edited.now) }
{
    for visit in edited {
        if is_unknown(index, *visit) {
            return Some(visit.node.id);
        }
    }
    None
}

fn flags(alloc: Global, size: usize) -> Result<Vec<bool>, NoMemory>
    ensures { IfOk result (λ v. v.items ≡ replicate size false) }
{
    let flags = Vec::from_elem(alloc, false, size)?;
    Ok(flags)
}

/// Whether the number was noted before; it is from now on.
fn note(noted: &mut [bool], number: u32) -> bool
    requires { number < length noted.old }
    ensures before { result ≡ slice_index_or noted.old number false }
    ensures after { noted.new ≡ slice_set noted.old number true }
{
    let before = noted[number as usize];
    noted[number as usize] = true;
    before
}

/// Whether the node's number was noted before; it is from now on.
fn note_visit(noted: &mut [bool], visit: Visit<'_, '_>) -> bool
    requires { (out-Node visit.node.now).id < length noted.old }
    ensures before { result ≡ has_number visit.entry && slice_index_or noted.old (out-Node visit.entry.node.now).id false }
    ensures after { noted.new ≡ (if has_number visit.entry then slice_set noted.old (out-Node visit.entry.node.now).id true else noted.old) }
{
    let number = visit.node.id;
    if number == 0 {
        return false;
    }
    note(noted, number)
}

/// The first number that is on two elements.
pub fn first_repeated(
    alloc: Global,
    size: usize,
    edited: &[Visit<'_, '_>],
) -> Result<Option<u32>, NoMemory>
    requires { All (λ v. (out-Node v.node.now).id < size) edited.now }
    ensures { IfOk result (λ r. r ≡ first is_repeated (all_seen edited.now)) }
{
    let mut noted = flags(alloc, size)?;
    let mut found = None;
    let mut at = edited.len();
    while at > 0 {
        at -= 1;
        if note_visit(&mut noted, edited[at]) {
            found = Some(edited[at].node.id);
        }
    }
    Ok(found)
}

fn zeros(alloc: Global, size: usize) -> Result<Vec<u32>, NoMemory>
    ensures { IfOk result (λ v. v.items ≡ replicate size 0) }
{
    let zeros = Vec::from_elem(alloc, 0, size)?;
    Ok(zeros)
}

fn has_parent(parent: u32, original: Option<Visit<'_, '_>>) -> bool
    ensures { result ≡ has_parent parent (option_map seen original.entry) }
{
    match original {
        Some(visit) => visit.parent == parent,
        None => false,
    }
}

/// Whether the node has another parent than in the page, or a number below the greatest one so far
/// with its parent.
fn is_moved(index: &[Visit<'_, '_>], greatest: &[u32], visit: Visit<'_, '_>) -> bool
    requires { visit.parent < length greatest.now }
    ensures { result ≡ has_number visit.entry &&
        (not (has_parent visit.entry.parent (indexed index.now (out-Node visit.entry.node.now).id)) || nat_lt
        (out-Node visit.entry.node.now).id (slice_index greatest.now visit.entry.parent)) }
{
    let number = visit.node.id;
    if number == 0 {
        return false;
    }
    if !has_parent(visit.parent, original(index, number)) {
        return true;
    }
    number < greatest[visit.parent as usize]
}

fn pass(greatest: &mut Vec<u32>, visit: Visit<'_, '_>)
    requires { visit.parent < length greatest.old.items }
    ensures { greatest.new.items ≡ (if has_number visit.entry
        then slice_set greatest.old.items visit.entry.parent (out-Node visit.entry.node.now).id
        else greatest.old.items) }
{
    let number = visit.node.id;
    if number != 0 {
        greatest[visit.parent as usize] = number;
    }
}

/// The first node that is elsewhere than in the page.
pub fn first_moved(
    alloc: Global,
    index: &[Visit<'_, '_>],
    edited: &[Visit<'_, '_>],
) -> Result<Option<u32>, NoMemory>
    requires { All (λ v. v.parent < length index.now) edited.now }
    ensures { IfOk result (λ r. r ≡ first (is_moved (indexed index.now)) (all_seen edited.now)) }
{
    let mut greatest = zeros(alloc, index.len())?;
    for visit in edited {
        if is_moved(index, &greatest, *visit) {
            return Ok(Some(visit.node.id));
        }
        pass(&mut greatest, *visit);
    }
    Ok(None)
}
