//! One pass over the lexemes of a text. A closing run takes from the nearest open run that has two
//! braces left, so whatever comes after that run is the inside of the call that it makes. What
//! lies after the nearest such run is read as one level: its signs, without those between a `[[`
//! and the `]]` that pairs with it.

ghost use Rattle.std.specs.Prelude.{◌≡◌, ◌≤◌, ◌<◌, ℕ, ◌+◌, ◌-◌, ◌^◌, List, [], ◌∷◌, false, map, reverse, length, drop, OnOk, IfOk};
ghost use Rattle.wt_span.specs.Braces.{Member, parts_between, closed_by, with_word};
ghost use Rattle.wt_lex.specs.Places.{word_of};
ghost use Rattle.wt_braces.specs.Views.{part_of, sign_at, closed_at};
ghost use Rattle.wt_braces.specs.PartRows.{Fit};
ghost use Rattle.wt_braces.specs.Matched.{TakesRun, TakesNearest, links_before, with_run, with_link, link_closed, with_signs, cut_at, with_closed, with_left, CanClose, call_closed, Stands};
ghost use Rattle.wt_braces.specs.Leading.{IsRead};

use crate::call::PartAt;
use crate::parts::{PartSign, parts_between};
use std::alloc::Global;
use std::marker::Model;
use wt_functions::braces_taken;
use wt_lex::Lexeme;
use wt_span::{LexKind, NoMemory, Range, rest_of};

/// A run of open braces that has two left.
#[derive(Clone, Copy, Debug)]
pub struct OpenRun {
    /// Its first brace.
    pub at: u32,
    /// How many braces it has left, from the first on.
    pub left: u32,
    /// How many signs, links and calls come before it.
    pub signs: usize,
    pub links: usize,
    pub calls: usize,
}

/// A call or an argument, of which the calls inside come before it. `first` is the number of the
/// first of these, or its own.
#[derive(Debug, Drop)]
pub struct Closed {
    pub argument: bool,
    pub at: Range,
    pub parts: wt_span::List<PartAt>,
    pub first: usize,
}

/// The open runs that have two braces left. Contracts see them from the nearest on.
#[derive(Drop)]
struct Runs {
    items: Vec<OpenRun>,
}

impl Model for Runs {
    ghost use Rattle.std.specs.Prelude.{List, reverse};
    ghost use Rattle.wt_braces.specs.declared.matching.OpenRun.{OpenRun};

    ghost Value = { List OpenRun };

    ghost view = { λ r. reverse r.items.items };
}

impl Runs {
    fn new(alloc: Global) -> Runs
        ensures { result ≡ [] }
    {
        Runs {
            items: Vec::new(alloc),
        }
    }

    #[tactic(auto, using(crate::proofs::Ends::reverse_push))]
    fn push(&mut self, run: OpenRun) -> Result<(), NoMemory>
        ensures { OnOk result (self.new ≡ run ∷ self.old) }
    {
        self.items.push(run)?;
        Ok(())
    }

    #[tactic(auto, using(crate::proofs::Ends::reverse_push))]
    fn pop(&mut self) -> Option<OpenRun>
        ensures { TakesRun result self.old self.new }
    {
        self.items.pop()
    }

    /// How many links are open before the nearest run.
    #[tactic(auto, using(crate::proofs::Ends::run_last, crate::proofs::Ends::run_none))]
    fn links(&self) -> usize
        ensures { result ≡ links_before self.now }
    {
        match self.items.last() {
            Some(run) => run.links,
            None => 0,
        }
    }
}

/// What is read of a text.
#[derive(Drop)]
pub struct Matching {
    runs: Runs,
    /// The signs after each of these, without those in a link.
    signs: Vec<PartSign>,
    /// For each `[[` that is open, how many signs come before it.
    links: Vec<usize>,
    /// The calls and arguments so far, in the order of their last bytes.
    closed: Vec<Closed>,
}

impl Model for Matching {
    ghost use Rattle.std.specs.Prelude.{map};
    ghost use Rattle.wt_braces.specs.Views.{sign_at, closed_at};
    ghost use Rattle.wt_braces.specs.Matched.{Matched};

    ghost Value = { Matched };

    ghost view = { λ m. record { runs = m.runs; signs = map sign_at m.signs.items; links = m.links.items; closed = map closed_at m.closed.items } };
}

impl Matching {
    pub fn new(alloc: Global) -> Matching
        ensures { result ≡ record { runs = []; signs = []; links = []; closed = [] } }
    {
        Matching {
            runs: Runs::new(alloc),
            signs: Vec::new(alloc),
            links: Vec::new(alloc),
            closed: Vec::new(alloc),
        }
    }

    /// The calls and arguments in the order of their last bytes.
    pub fn into_closed(self) -> Vec<Closed>
        ensures { map closed_at result.items ≡ self.closed }
    {
        self.closed
    }

    fn open(&mut self, at: u32, left: u32) -> Result<(), NoMemory>
        ensures { OnOk result (self.new ≡ with_run at left self.old) }
    {
        if left >= 2 {
            self.runs.push(OpenRun {
                at,
                left,
                signs: self.signs.len(),
                links: self.links.len(),
                calls: self.closed.len(),
            })?;
        }
        Ok(())
    }

    fn open_link(&mut self) -> Result<(), NoMemory>
        ensures { OnOk result (self.new ≡ with_link self.old) }
    {
        self.links.push(self.signs.len())?;
        Ok(())
    }

    /// A `]]` pairs with the nearest `[[` of its level, and no sign between them counts.
    #[tactic(auto, using(crate::proofs::Ends::take_map))]
    fn close_link(&mut self)
        ensures { self.new ≡ link_closed self.old }
    {
        if self.runs.links() < self.links.len() {
            if let Some(signs) = self.links.pop() {
                self.signs.truncate(signs);
            }
        }
    }

    fn push_sign(&mut self, sign: PartSign) -> Result<(), NoMemory>
        ensures { OnOk result (self.new ≡ with_signs (sign_at sign ∷ []) self.old) }
    {
        self.signs.push(sign)?;
        Ok(())
    }

    /// The parts of a call whose inside begins after a run.
    #[tactic(auto, using(crate::proofs::Ends::drop_map, crate::proofs::PartSteps::fit_le))]
    fn parts_behind(
        &self,
        alloc: Global,
        run: OpenRun,
        to: u32,
    ) -> Result<wt_span::List<PartAt>, NoMemory>
        requires behind { run.signs ≤ length self.now.signs }
        requires fit { Fit (run.at + run.left) to (drop run.signs self.now.signs) }
        ensures { IfOk result (λ ps. map part_of ps ≡ parts_between false (run.at + run.left) to (drop run.signs self.now.signs)) }
    {
        parts_between(
            alloc,
            run.at + run.left,
            to,
            rest_of(&self.signs, run.signs),
        )
    }

    /// Forgets what is after a run, but for the calls.
    #[tactic(auto, using(crate::proofs::Ends::take_map))]
    fn cut(&mut self, run: OpenRun)
        ensures { self.new ≡ cut_at run self.old }
    {
        self.signs.truncate(run.signs);
        self.links.truncate(run.links);
    }

    fn push_call(&mut self, call: Closed) -> Result<(), NoMemory>
        ensures { OnOk result (self.new ≡ with_closed (closed_at call) self.old) }
    {
        self.closed.push(call)?;
        Ok(())
    }

    /// Opens a run again where it has two braces left.
    fn open_again(&mut self, run: OpenRun, left: u32) -> Result<(), NoMemory>
        ensures { OnOk result (self.new ≡ with_left run left self.old) }
    {
        if left >= 2 {
            self.runs.push(OpenRun { left, ..run })?;
        }
        Ok(())
    }

    /// So many braces of a run and of a closing run, of which they are the last up to `end`, make a
    /// call. The run is no longer among the open ones, and is again where it has two braces left.
    #[tactic(auto, using(crate::proofs::PartSteps::fit_le))]
    fn close_call(
        &mut self,
        alloc: Global,
        run: OpenRun,
        braces: u32,
        end: u32,
    ) -> Result<(), NoMemory>
        requires { CanClose run braces end self.old }
        ensures { OnOk result (self.new ≡ call_closed run braces end self.old) }
    {
        let parts = self.parts_behind(alloc, run, end - braces)?;
        let start = run.at + run.left - braces;
        self.cut(run);
        self.push_call(Closed {
            argument: braces == 3,
            at: Range { start, end },
            parts,
            first: run.calls,
        })?;
        self.open_again(run, run.left - braces)
    }

    fn pop_run(&mut self) -> Option<OpenRun>
        ensures { TakesNearest result self.old self.new }
    {
        self.runs.pop()
    }

    /// A closing run takes from the nearest open runs, as often as it has two braces left.
    fn close(&mut self, alloc: Global, at: Range) -> Result<(), NoMemory>
        requires { IsRead self.old at.start }
        ensures { OnOk result ((from : ℕ) (before : List Member) → Stands from before self.old at.start
            → Stands from (closed_by (at.end - at.start) before) self.new at.end) }
    {
        let mut place = at.start;
        while at.end - place >= 2 {
            let Some(run) = self.pop_run() else {
                return Ok(());
            };
            let braces = braces_taken(run.left, at.end - place);
            place += braces;
            self.close_call(alloc, run, braces, place)?;
        }
        Ok(())
    }

    /// One more lexeme.
    pub fn read(&mut self, alloc: Global, lexeme: Lexeme) -> Result<(), NoMemory>
        requires { IsRead self.old lexeme.at.start }
        ensures read { OnOk result ((from : ℕ) (before : List Member) → Stands from before self.old lexeme.at.start
            → Stands from (with_word (word_of lexeme) before) self.new lexeme.at.end) }
        ensures small { lexeme.at.end < 2 ^ 32 }
    {
        let at = lexeme.at;
        match lexeme.kind {
            LexKind::Opens => self.open(at.start, at.end - at.start)?,
            LexKind::Closes => self.close(alloc, at)?,
            LexKind::LinkOpen => self.open_link()?,
            LexKind::LinkClose => self.close_link(),
            LexKind::Pipe => self.push_sign(PartSign::Pipe(at))?,
            LexKind::Equals => self.push_sign(PartSign::Equals(at))?,
            LexKind::Chars
            | LexKind::CommentLine
            | LexKind::Comment
            | LexKind::Raw
            | LexKind::Include
            | LexKind::Hidden
            | LexKind::Entity(_) => {}
        }
        Ok(())
    }
}
