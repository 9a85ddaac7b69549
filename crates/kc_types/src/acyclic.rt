//! Hierarchies in which no class leads back to itself.
ghost use Rattle.std.specs.Prelude.{◌≡◌, true, nat_le, length, IfOk};
ghost use Rattle.std.specs.List.{list_all};
ghost use Rattle.kc_types.specs.Supertypes.{Acyclic};
ghost use Rattle.kc_types.specs.TypeOf.{heads_of};
ghost use Rattle.kc_types.specs.Ranks.{class_of, rank_of, is_lower, are_lower, are_lower_from, are_ranked};

use crate::{ClassId, Head, Heads, TypeTree};
use kc_text::Memory;
use std::alloc::Global;

// The class of a direct supertype, if it is of one.
fn class_of(ty: &TypeTree) -> Option<usize>
    ensures { result ≡ class_of ty.now }
{
    match ty {
        TypeTree::Class(class, _) => Some(class.0),
        TypeTree::Fun(params, _) => Some(ClassId::FUNCTION_0.0 + params.get().as_slice().len()),
        TypeTree::Param(_) => None,
        TypeTree::Nothing => None,
        TypeTree::Nullable(_) => None,
    }
}

fn rank_of(ranks: &[usize], class: usize) -> usize
    ensures { result ≡ rank_of ranks.now class }
{
    match ranks.get(class) {
        Some(rank) => *rank,
        None => 0,
    }
}

fn is_lower(ranks: &[usize], rank: usize, class: Option<usize>) -> bool
    ensures { result ≡ is_lower ranks.now rank class }
{
    match class {
        Some(class) => rank_of(ranks, class) < rank,
        None => false,
    }
}

// Are the direct supertypes of classes that rank lower than this?
fn are_lower(ranks: &[usize], rank: usize, supers: &[TypeTree]) -> bool
    ensures { result ≡ are_lower ranks.now rank supers.now }
{
    supers.iter().all(|ty| is_lower(ranks, rank, class_of(ty)))
}

fn are_all_lower(ranks: &[usize], classes: &[Head]) -> bool
    ensures { result ≡ are_lower_from ranks.now 0 classes.now }
{
    for (class, head) in classes.iter().enumerate() {
        if !are_lower(ranks, rank_of(ranks, class), head.supers.as_slice()) {
            return false;
        }
    }
    true
}

fn are_few(ranks: &[usize], count: usize) -> bool
    ensures { result ≡ list_all (λ rank. nat_le rank count) ranks.now }
{
    ranks.iter().all(|rank| *rank <= count)
}

fn are_ranked(classes: &[Head], ranks: &[usize]) -> bool
    ensures { result ≡ are_ranked classes.now ranks.now }
{
    are_all_lower(ranks, classes) && are_few(ranks, classes.len())
}

// A class on the way up, and how many of its direct supertypes have been looked at.
#[derive(Clone, Copy)]
struct Open {
    class: usize,
    looked_at: usize,
}

// The ranks found so far, which classes have been met, and those whose supertypes are being looked at, the highest last.
#[derive(Drop)]
struct Walk {
    ranks: Vec<usize>,
    met: Vec<bool>,
    open: Vec<Open>,
}

// One more than the highest rank of the direct supertypes' classes.
fn rank_above(ranks: &[usize], supers: &[TypeTree]) -> usize {
    let mut highest = 0;
    for ty in supers {
        if let Some(class) = class_of(ty) {
            highest = rank_of(ranks, class).max(highest);
        }
    }
    highest.saturating_add(1)
}

impl Walk {
    fn new(alloc: Global, count: usize) -> Result<Walk, Memory> {
        let mut ranks = Vec::new(alloc);
        let mut met = Vec::new(alloc);
        for _ in 0..count {
            ranks.push(0)?;
            met.push(false)?;
        }
        Ok(Walk {
            ranks,
            met,
            open: Vec::new(alloc),
        })
    }

    fn put_rank(&mut self, class: usize, rank: usize) {
        if class < self.ranks.len() {
            self.ranks[class] = rank;
        }
    }

    // Opens a class that has not been met.
    fn meet(&mut self, class: usize) -> Result<(), Memory> {
        if class < self.met.len() && !self.met[class] {
            self.met[class] = true;
            self.open.push(Open {
                class,
                looked_at: 0,
            })?;
        }
        Ok(())
    }

    // Looks at one more supertype of the highest open class, or gives that class its rank. Answers false where none is open.
    fn step(&mut self, classes: &[Head]) -> Result<bool, Memory> {
        let Some(open) = self.open.pop() else {
            return Ok(false);
        };
        let Some(head) = classes.get(open.class) else {
            return Ok(true);
        };
        let supers = head.supers.as_slice();
        match supers.get(open.looked_at) {
            Some(ty) => {
                self.open.push(Open {
                    class: open.class,
                    looked_at: open.looked_at.saturating_add(1),
                })?;
                if let Some(above) = class_of(ty) {
                    self.meet(above)?;
                }
            }
            None => {
                let rank = rank_above(self.ranks.as_slice(), supers);
                self.put_rank(open.class, rank);
            }
        }
        Ok(true)
    }

    // Gives ranks to a class and to those above it.
    fn rank_up(&mut self, classes: &[Head], class: usize, most: usize) -> Result<(), Memory> {
        self.meet(class)?;
        for _ in 0..most {
            if !self.step(classes)? {
                return Ok(());
            }
        }
        Ok(())
    }
}

// How many steps the classes take together.
fn steps(classes: &[Head]) -> usize {
    let mut steps: usize = 1;
    for head in classes {
        steps = steps.saturating_add(head.supers.len()).saturating_add(1);
    }
    steps
}

// Ranks of the classes by their places, in time linear in the heads: the longest way up. Where a class leads back to itself they are
// not right.
fn ranks_of(alloc: Global, classes: &[Head]) -> Result<Vec<usize>, Memory> {
    let mut walk = Walk::new(alloc, classes.len())?;
    let most = steps(classes);
    for class in 0..classes.len() {
        walk.rank_up(classes, class, most)?;
    }
    Ok(walk.ranks)
}

impl Heads {
    /// Does no class lead back to itself by direct supertypes, and is each of these of a class? Only then is the answer yes. The time
    /// is linear in the heads.
    pub fn is_acyclic(&self, alloc: Global) -> Result<bool, Memory>
        ensures { IfOk result (λ yes. yes ≡ true → Acyclic (heads_of self.now)) }
    {
        let classes = self.classes.as_slice();
        let ranks = ranks_of(alloc, classes)?;
        let ranked = are_ranked(classes, ranks.as_slice());
        Ok(ranked)
    }
}
