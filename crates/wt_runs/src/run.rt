//! Runs of children: those between which no cut is free.

ghost use Rattle.std.specs.Prelude.{◌≡◌, ◌∷◌, [], List, IfOk, OnOk};
ghost use Rattle.wt_runs.specs.RunTrees.{begins_run, is_alone, AreRunsOf, CutSoFar, IsRunOf};

use crate::child::Child;
use std::alloc::Global;
use wt_inline::with_room;
use wt_span::NoMemory;

/// A run of children: a clean one by itself, or those of a group.
#[derive(Drop)]
pub enum Run<'a> {
    Alone(Child<'a>),
    Group(wt_span::List<Child<'a>>),
}

fn is_alone(children: &[Child<'_>]) -> bool
    ensures { result ≡ is_alone children.now }
{
    match children {
        [child] => child.clean,
        _ => false,
    }
}

fn run_of<'a>(children: wt_span::List<Child<'a>>) -> Run<'a>
    ensures { IsRunOf children.entry result }
{
    let mut children = children.into_vec();
    if is_alone(children.as_slice())
        && let Some(child) = children.pop()
    {
        return Run::Alone(child);
    }
    Run::Group(wt_span::List::from_vec(children))
}

/// Whether a child begins another run after the one that waits.
fn begins_run(run: &[Child<'_>], child: &Child<'_>) -> bool
    ensures { result ≡ begins_run run.now child.now }
{
    match run {
        [] => false,
        _ => child.free,
    }
}

fn single<'a>(alloc: Global, child: Child<'a>) -> Result<wt_span::List<Child<'a>>, NoMemory>
    ensures { IfOk result (λ cs. cs ≡ child.entry ∷ []) }
{
    let mut children = with_room(alloc, 1)?;
    children.push(child)?;
    Ok(children)
}

/// Appends a child to the run that waits, or closes that one and begins another where the cut
/// before the child is free.
fn add_child<'a>(
    alloc: Global,
    runs: &mut wt_span::List<Run<'a>>,
    run: wt_span::List<Child<'a>>,
    child: Child<'a>,
) -> Result<wt_span::List<Child<'a>>, NoMemory>
    ensures { IfOk result (λ new. (rest all : List Child) → CutSoFar runs.old run.entry (child.entry ∷ rest) all → CutSoFar runs.new new rest all) }
{
    if begins_run(run.as_slice(), &child) {
        runs.push(run_of(run))?;
        return single(alloc, child);
    }
    let mut run = run;
    run.push(child)?;
    Ok(run)
}

fn close_run<'a>(
    runs: &mut wt_span::List<Run<'a>>,
    run: wt_span::List<Child<'a>>,
) -> Result<(), NoMemory>
    ensures { OnOk result ((all : List Child) → CutSoFar runs.old run.entry [] all → AreRunsOf runs.new all) }
{
    if run.len() > 0 {
        runs.push(run_of(run))?;
    }
    Ok(())
}

/// The runs of children, in their order.
pub fn cut_runs<'a>(
    alloc: Global,
    children: wt_span::List<Child<'a>>,
) -> Result<wt_span::List<Run<'a>>, NoMemory>
    ensures { IfOk result (λ rs. AreRunsOf rs children.entry) }
{
    let mut runs = wt_span::List::new(alloc);
    let mut run = wt_span::List::new(alloc);
    for child in children.into_vec() {
        run = add_child(alloc, &mut runs, run, child)?;
    }
    close_run(&mut runs, run)?;
    Ok(runs)
}
