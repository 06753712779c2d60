ghost use Rattle.std.specs.Prelude.{◌≡◌, ℕ, ◌<◌, ◌≤◌, true, List, [], Ok, length, OnOk, IfOk};
ghost use Rattle.std.specs.List.{list_all};
ghost use Rattle.wt_html_elements.specs.Held.{fits};
ghost use Rattle.wt_html_elements.specs.Runs.{stays, put_run};
ghost use Rattle.wt_html_elements.specs.Reads.{Reads, TookByte, TookRun, Took, state_of, parts_of};

use crate::builder::Builder;
use crate::machine::{Machine, Mode, Within};
use std::alloc::Global;
use wt_html_reasons::Fault;
use wt_span::{NoMemory, front_of};

/// What is read: where the machine is, and what was built.
#[derive(Drop)]
pub struct Reading {
    pub machine: Machine,
    pub builder: Builder,
}

impl Reading {
    pub fn new(alloc: Global) -> Reading
        ensures { Reads result [] 0 }
    {
        Reading {
            machine: Machine::new(),
            builder: Builder::new(alloc),
        }
    }

    fn take_byte(&mut self, alloc: Global, byte: u8) -> Result<(), Fault>
        requires fits { fits (state_of self.old) (parts_of self.old) ≡ true }
        ensures { (bytes : List ℕ) (k : ℕ) → Reads self.old bytes k → TookByte result self.new bytes byte k }
    {
        match self.machine.take(&self.builder, byte) {
            Ok(event) => match self.builder.put(alloc, event) {
                Ok(()) => Ok(()),
                Err(_) => Err(Fault::NoMemory),
            },
            Err(why) => Err(Fault::Html(why)),
        }
    }

    /// Builds what a run of bytes says that stand for themselves.
    fn put_run(&mut self, run: &[u8]) -> Result<(), NoMemory>
        requires place { self.old.machine.within ≡ Within.Nothing }
        ensures built { OnOk result (parts_of self.new ≡ put_run (parts_of self.old) (state_of self.old) run.now) }
        ensures machine { self.new.machine ≡ self.old.machine }
    {
        match self.machine.mode {
            Mode::Value => self.builder.value_run(run),
            _ => self.builder.text_run(run),
        }
    }

    /// Takes a run of bytes that stand for themselves.
    fn take_run(&mut self, run: &[u8]) -> Result<(), Fault>
        requires some { 0 < length run.now }
        requires run { list_all (stays (state_of self.old)) run.now ≡ true }
        requires place { self.old.machine.within ≡ Within.Nothing }
        ensures { (bytes : List ℕ) (k : ℕ) → Reads self.old bytes k → TookRun result self.new bytes run.now k }
    {
        match self.put_run(run) {
            Ok(()) => Ok(()),
            Err(_) => Err(Fault::NoMemory),
        }
    }

    /// Takes a run of bytes that stand for themselves, or one byte. It gives how many it took.
    pub fn take_some(&mut self, alloc: Global, piece: &[u8]) -> Result<usize, Fault>
        requires some { 0 < length piece.now }
        requires fits { fits (state_of self.old) (parts_of self.old) ≡ true }
        ensures took { (bytes : List ℕ) (k : ℕ) → Reads self.old bytes k → Took result self.new bytes piece.now k }
        ensures some { IfOk result (λ n. 0 < n) }
        ensures within { IfOk result (λ n. n ≤ length piece.now) }
    {
        let run = self.machine.run_len(&self.builder, piece);
        if run > 0 {
            self.take_run(front_of(piece, run))?;
            Ok(run)
        } else {
            self.take_byte(alloc, piece[0])?;
            Ok(1)
        }
    }
}
