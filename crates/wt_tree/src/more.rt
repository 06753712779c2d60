//! What few nodes have.

ghost use Rattle.std.specs.Prelude.{◌≡◌, option_copied, true, IfOk};
ghost use Rattle.wt_tree.specs.Rare.{rare_none, rare_attrs};

use crate::kind::Mark;
use crate::node::{Attr, DataMw};
use std::alloc::Global;
use std::marker::Model;
use wt_span::{List, NoMemory};

#[derive(Drop)]
struct Fields {
    attrs: List<Attr>,
    mark: Mark,
    mw: Option<DataMw>,
}

/// What few nodes have: attributes that their kind doesn't tell, an editor's mark, and data.
pub struct More {
    fields: Option<Box<Fields>>,
}

// One call wherever a node is let go.
impl Drop for More {
    fn drop(self) {
        let More { fields: _ } = self;
    }
}

impl Model for More {
    ghost use Rattle.wt_tree.specs.Fields.{rare};
    ghost use Rattle.wt_tree.specs.Rare.{Rare};

    ghost Value = { Rare };

    ghost view = { λ m. rare m.fields };
}

impl More {
    /// Nothing.
    pub fn none() -> More
        ensures { result ≡ rare_none }
    {
        More { fields: None }
    }

    /// Attributes alone.
    pub fn with_attrs(alloc: Global, attrs: List<Attr>) -> Result<More, NoMemory>
        ensures { IfOk result (λ m. m ≡ rare_attrs attrs) }
    {
        More::of(alloc, attrs, Mark::Nothing, None)
    }

    /// All three.
    pub fn of(
        alloc: Global,
        attrs: List<Attr>,
        mark: Mark,
        mw: Option<DataMw>,
    ) -> Result<More, NoMemory>
        ensures { IfOk result (λ m. m ≡ record { attrs = attrs; mark = mark; mw = mw }) }
    {
        if attrs.len() == 0 && mw.is_none() && matches!(mark, Mark::Nothing) {
            return Ok(More::none());
        }
        let fields = Box::new(alloc, Fields { attrs, mark, mw })?;
        Ok(More {
            fields: Some(fields),
        })
    }

    /// The same with this mark.
    pub fn with_mark(self, alloc: Global, mark: Mark) -> Result<More, NoMemory>
        ensures { IfOk result (λ m. m ≡ record self { mark = mark }) }
    {
        let More { fields } = self;
        match fields {
            None => More::of(alloc, List::new(alloc), mark, None),
            Some(fields) => {
                let mut fields = fields;
                fields.mark = mark;
                Ok(More {
                    fields: Some(fields),
                })
            }
        }
    }

    /// Whether there is no box: then there is nothing in it.
    pub fn is_none(&self) -> bool
        ensures { result ≡ true → self.now ≡ rare_none }
    {
        self.fields.is_none()
    }

    /// The attributes, in the order of `AttrName`.
    pub fn attrs(&self) -> &[Attr]
        ensures { result.now ≡ self.now.attrs }
    {
        match &self.fields {
            None => &[],
            Some(fields) => fields.attrs.as_slice(),
        }
    }

    /// What an editor said.
    pub fn mark(&self) -> Mark
        ensures { result ≡ self.now.mark }
    {
        match &self.fields {
            None => Mark::Nothing,
            Some(fields) => fields.mark,
        }
    }

    /// What `data-mw` holds.
    pub fn mw(&self) -> Option<&DataMw>
        ensures { option_copied result ≡ self.now.mw }
    {
        match &self.fields {
            None => None,
            Some(fields) => fields.mw.as_ref(),
        }
    }
}
