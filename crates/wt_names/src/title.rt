//! A title and its full name.
ghost use Rattle.std.specs.Prelude.{◌≡◌, IfOk};
ghost use Rattle.wt_names.specs.Namespace.{prefix_of, full_name_of};

use crate::namespace::Ns;
use std::alloc::Global;
use wt_span::{NoMemory, Str};

/// A title: its namespace, its name with spaces and a raised first letter, and its fragment, where
/// it has one.
#[derive(Debug, Drop)]
pub struct Title {
    pub ns: Ns,
    pub name: Str,
    pub fragment: Option<Str>,
}

/// The full name: the namespace and a colon, if it isn't the main one, and the name.
#[tactic(auto, unfolding(crate::specs::Namespace::full_name_of, crate::specs::Namespace::prefix_of))]
pub fn full_name(alloc: Global, t: &Title) -> Result<Str, NoMemory>
    ensures { IfOk result (λ full. full ≡ full_name_of t.now) }
{
    let mut full = Str::new(alloc);
    if t.ns != Ns::Main {
        full.push_str(t.ns.name())?;
        full.push_str(":")?;
    }
    full.push_str(t.name.as_str())?;
    Ok(full)
}
