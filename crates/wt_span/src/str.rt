ghost use Rattle.std.specs.Prelude.{◌≡◌, [], ◌++◌, OnOk, OnErr, IfOk, string_bytes, nat_eq};
ghost use Rattle.std.specs.Cmp.Lexicographic.{pointwise, nat_list_eq_equiv};
ghost use Rattle.std.specs.Cmp.{partial_equiv_from_equiv};

use crate::memory::NoMemory;
use std::alloc::Global;
use std::marker::Model;

/// A text that contracts see as the list of its UTF-8 bytes, as they see a `&str`.
#[derive(Debug)]
pub struct Str {
    text: String,
}

// One call wherever a text is let go.
impl Drop for Str {
    fn drop(self) {
        let Str { text: _ } = self;
    }
}

impl Model for Str {
    ghost use Rattle.std.specs.Prelude.{List, ℕ, string_bytes};

    ghost Value = { List ℕ };

    ghost view = { λ s. string_bytes s.text };
}

impl Str {
    /// The empty text.
    pub fn new(alloc: Global) -> Str
        ensures { result ≡ [] }
    {
        Str {
            text: String::new(alloc),
        }
    }

    /// The text of a `String`, which takes no memory.
    pub fn from_string(text: String) -> Str
        ensures { result ≡ string_bytes text }
    {
        Str { text }
    }

    /// A copy of a text.
    pub fn copy_of(alloc: Global, text: &str) -> Result<Str, NoMemory>
        ensures { IfOk result (λ s. s ≡ text.now) }
    {
        let mut copy = Str::new(alloc);
        copy.push_str(text)?;
        Ok(copy)
    }

    /// Appends a text; after want of memory the text is as it was.
    pub fn push_str(&mut self, text: &str) -> Result<(), NoMemory>
        ensures ok { OnOk result (self.new ≡ self.old ++ text.now) }
        ensures err { OnErr result (self.new ≡ self.old) }
    {
        self.text.push_str(text)?;
        Ok(())
    }

    pub fn as_str(&self) -> &str
        ensures { result.now ≡ self.now }
    {
        self.text.as_str()
    }
}

impl PartialEq for Str {
    ghost eq = { pointwise nat_eq };

    ghost laws = { partial_equiv_from_equiv nat_list_eq_equiv };

    fn eq(&self, other: &Str) -> bool {
        self.as_str() == other.as_str()
    }
}
