ghost use Rattle.std.specs.Prelude.{◌≡◌, ◌≢◌, ◌↔◌, [], ◌∷◌, None, Some, drop, map, IfOk, OnOk, IsTrue, MatchOption};
ghost use Rattle.chi_core.specs.Terms.{Do, Loop, Walk, first_the, after_loop, from_loop};
ghost use Rattle.chi_core.specs.Terms as terms;
ghost use Rattle.chi_core_frame.specs.Heads.{IsHead, walk_done};
ghost use Rattle.chi_core_frame.specs.Terms.{todo, item_of, first_of};

use crate::elements::Elements;
use crate::variables::Variables;
use chi_base::NoMemory;
use chi_core::{CExpr, CStat};
use std::alloc::Global;
use std::marker::Model;

/// One thing that is left to do.
#[derive(Debug, Drop)]
pub enum Task<'a> {
    Do(&'a CStat),
    /// A loop under way, which tests again: the line of its statement, its test and its block.
    Loop(u32, &'a CExpr, &'a [CStat]),
    /// A walk under way: the line of its statement, the slots that each element fills, the elements
    /// that are left, and its block.
    Walk(u32, &'a [u32], Elements, &'a [CStat]),
}

/// What is left to do. Contracts see it as the list of its items.
#[derive(Debug, Drop)]
pub struct Term<'a> {
    /// The next one last.
    tasks: Vec<Task<'a>>,
}

impl<'a> Model for Term<'a> {
    ghost use Rattle.std.specs.Coded.{codes};
    ghost use Rattle.chi_core.specs.contracts.statement.CStat as statements;
    ghost use Rattle.chi_core.specs.contracts.expression.CExpr as expressions;
    ghost use Rattle.chi_value.specs.contracts.value.Value as values;
    ghost use Rattle.chi_core.specs.Terms as terms;

    ghost Value = { terms.Term };

    ghost coded = { Prim.hlevel (codes, statements.the_row.coded, expressions.the_row.coded, values.the_row.coded) };

    ghost use Rattle.chi_core_frame.specs.Terms.{todo};

    ghost view = { λ t. todo t.tasks.items };
}

#[tactic(auto, using(crate::proofs::Tasks::tasks))]
fn push_block<'a>(tasks: &mut Vec<Task<'a>>, block: &'a [CStat]) -> Result<(), NoMemory>
    ensures { OnOk result (todo tasks.new.items ≡ first_the block.now (todo tasks.old.items)) }
{
    let mut left = block.len();
    while left > 0 {
        left -= 1;
        tasks.push(Task::Do(&block[left]))?;
    }
    Ok(())
}

/// The first of what is left to do.
#[derive(Clone, Copy, Debug)]
pub enum Head<'a> {
    Do(&'a CStat),
    Loop(u32, &'a CExpr, &'a [CStat]),
    Walk,
    /// Nothing is left.
    End,
}

impl<'a> Term<'a> {
    /// A body, of which all is left to do.
    pub fn new(alloc: Global, body: &'a [CStat]) -> Result<Term<'a>, NoMemory>
        ensures { IfOk result (λ term. term ≡ map Do body.now) }
    {
        let mut tasks = Vec::new(alloc);
        push_block(&mut tasks, body)?;
        Ok(Term { tasks })
    }

    /// Whether nothing is left to do.
    #[tactic(auto, using(crate::proofs::Tasks::not_empty))]
    pub fn is_empty(&self) -> bool
        ensures { IsTrue result ↔ (self.now ≡ []) }
    {
        match self.first() {
            Some(_) => false,
            None => true,
        }
    }

    /// The first item.
    pub fn first(&self) -> Option<&Task<'a>>
        ensures { MatchOption result (self.now ≡ []) (λ task. first_of self.now ≡ Some (item_of task.now)) }
    {
        self.tasks.last()
    }

    /// The items without the first.
    pub fn drop_first(&mut self)
        ensures { self.new ≡ drop 1 self.old }
    {
        let _ = self.tasks.pop();
    }

    /// Puts a block first.
    pub fn put_first(&mut self, block: &'a [CStat]) -> Result<(), NoMemory>
        ensures { OnOk result (self.new ≡ first_the block.now self.old) }
    {
        push_block(&mut self.tasks, block)?;
        Ok(())
    }

    /// What stands first.
    pub fn head(&self) -> Head<'a>
        ensures { IsHead result self.now }
    {
        match self.first() {
            Some(task) => head_of(task),
            None => Head::End,
        }
    }

    /// Puts a loop under way first.
    #[tactic(auto, using(crate::proofs::Tasks::tasks))]
    pub fn put_loop(
        &mut self,
        line: u32,
        test: &'a CExpr,
        block: &'a [CStat],
    ) -> Result<(), NoMemory>
        ensures { OnOk result (self.new ≡ Loop line test.now block.now ∷ self.old) }
    {
        self.tasks.push(Task::Loop(line, test, block))?;
        Ok(())
    }

    /// Puts a walk over the elements first.
    #[tactic(auto, using(crate::proofs::Tasks::walk_put))]
    pub fn put_walk(
        &mut self,
        line: u32,
        slots: &'a [u32],
        elements: Elements,
        block: &'a [CStat],
    ) -> Result<(), NoMemory>
        ensures { OnOk result (self.new ≡ Walk line slots.now elements block.now ∷ self.old) }
    {
        self.tasks.push(Task::Walk(line, slots, elements, block))?;
        Ok(())
    }

    /// The walk that stands first goes on: the names are bound to the next element, and the block is
    /// put before the walk; or the walk is over.
    #[tactic(auto, using(crate::proofs::Tasks::walks))]
    pub fn walk(&mut self, alloc: Global, variables: &mut Variables) -> Result<(), NoMemory>
        requires { walk_done variables.old self.old ≢ None }
        ensures { OnOk result (walk_done variables.old self.old ≡ Some (variables.new, self.new)) }
    {
        match self.tasks.pop() {
            Some(Task::Walk(line, slots, elements, block)) => {
                let mut elements = elements;
                let next = elements.next(alloc)?;
                match next {
                    Some(element) => {
                        variables.bind(alloc, slots, element)?;
                        self.tasks.push(Task::Walk(line, slots, elements, block))?;
                        push_block(&mut self.tasks, block)?;
                        Ok(())
                    }
                    None => Ok(()),
                }
            }
            Some(Task::Do(_)) => unreachable!(),
            Some(Task::Loop(_, _, _)) => unreachable!(),
            None => unreachable!(),
        }
    }

    #[tactic(auto, using(crate::proofs::Tasks::loops))]
    /// What is left after the nearest loop or walk.
    pub fn leave_loop(&mut self)
        requires { after_loop self.old ≢ None }
        ensures { after_loop self.old ≡ Some self.new }
    {
        self.back_to_loop();
        self.drop_first();
    }

    #[tactic(auto, using(crate::proofs::Tasks::loops))]
    /// What is left from the nearest loop or walk on.
    pub fn back_to_loop(&mut self)
        requires { from_loop self.old ≢ None }
        ensures { from_loop self.old ≡ Some self.new }
    {
        loop {
            match self.head() {
                Head::Do(_) => self.drop_first(),
                Head::Loop(_, _, _) => return,
                Head::Walk => return,
                Head::End => unreachable!(),
            }
        }
    }
}

fn head_of<'a>(task: &Task<'a>) -> Head<'a>
    ensures { (term : terms.Term) → first_of term ≡ Some (item_of task.now) → IsHead result term }
{
    match task {
        Task::Do(statement) => Head::Do(statement),
        Task::Loop(line, test, block) => Head::Loop(*line, test, block),
        Task::Walk(_, _, _, _) => Head::Walk,
    }
}
