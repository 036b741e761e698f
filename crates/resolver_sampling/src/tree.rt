//! A list of numbers in a tree of their sums.

ghost use Rattle.std.specs.Prelude.{◌≡◌, ℕ, ◌<◌, ◌+◌, ◌≤◌, ◌^◌, drop, length, map, replicate, sum, slice_index, slice_set, IfOk};
ghost use Rattle.std.specs.Vec.{vec_capacity, vec_len};
ghost use Rattle.resolver_sampling.specs.Choice.{chosen};
ghost use Rattle.resolver_sampling.specs.SumTrees.{AreSummed, AreWeights, IsShape, mark};
ghost use Rattle.resolver_sampling.specs.Visits.{VisitsAtMost, visited};

use crate::Visits;
use crate::stored::Stored;
use std::alloc::{AllocError, Global};
use std::marker::Model;

/// How many leaves a tree has room for, a power of two, and how many levels are above them.
#[derive(Clone, Copy, Debug, Drop)]
pub(super) struct Shape {
    depth: usize,
    leaves: usize,
}

/// A list of numbers below 2^64 in a tree of their sums. Contracts see it as that list.
///
/// The numbers are leaves. Node 1 is the root, the nodes below node i are 2i and 2i + 1, and the
/// leaves come last: those past the list are not stored. Each other node stores what the two
/// below it add up to.
#[derive(Debug, Drop)]
pub struct Tree {
    nodes: Stored,
    shape: Shape,
    total: u128,
}

impl Model for Tree {
    ghost use Rattle.std.specs.Prelude.{ℕ, List, drop};
    ghost use Rattle.resolver_sampling.specs.SumTrees.{IsTree};

    ghost Value = { List ℕ };

    ghost view = { λ tree. drop tree.shape.leaves tree.nodes };

    ghost invariant = { λ tree. IsTree tree.shape.depth tree.shape.leaves tree.nodes tree.total };
}

impl Tree {
    /// The tree of these weights, in time linear in their number. The only error is refused memory.
    pub fn of_weights(alloc: Global, weights: &[u64]) -> Result<Self, AllocError>
        ensures { IfOk result (λ tree. tree ≡ weights.now) }
    {
        let shape = shape_of(weights.len())?;
        let mut nodes = inner_nodes(alloc, shape, weights.len())?;
        for weight in weights {
            nodes.push_reserved(u128::from(*weight));
        }
        Ok(Tree::summed(shape, nodes))
    }

    /// The tree that counts the positive ones among these weights: each is one, the others are
    /// zero. It takes time linear in their number, and the only error is refused memory.
    pub fn of_marks(alloc: Global, weights: &[u64]) -> Result<Self, AllocError>
        ensures { IfOk result (λ tree. tree ≡ map mark weights.now) }
    {
        let shape = shape_of(weights.len())?;
        let mut nodes = inner_nodes(alloc, shape, weights.len())?;
        for weight in weights {
            nodes.push_reserved(u128::from(mark(*weight)));
        }
        Ok(Tree::summed(shape, nodes))
    }

    /// The tree of these nodes, of which all but the leaves are to be summed up.
    fn summed(shape: Shape, nodes: Vec<u128>) -> Self
        requires shape { IsShape shape.depth shape.leaves (length nodes.items) }
        requires weights { AreWeights (drop shape.leaves nodes.items) }
        ensures { result ≡ drop shape.leaves nodes.items }
    {
        let mut nodes = nodes;
        sum_up(&mut nodes, shape.leaves);
        let total = number_at(&nodes, 1);
        Tree {
            nodes: Stored::new(nodes),
            shape,
            total,
        }
    }

    /// How many numbers there are, in constant time.
    pub fn len(&self) -> usize
        ensures { result ≡ length self.now }
    {
        self.nodes.len() - self.shape.leaves
    }

    /// The sum of the numbers, in constant time.
    pub fn total(&self) -> u128
        ensures total { result ≡ sum self.now }
        ensures few { length self.now ≤ 2 ^ 63 }
    {
        self.total
    }

    /// The number at a place, in constant time: it is one visit.
    pub fn get(&self, place: usize, visits: &mut Visits) -> u64
        requires { place < length self.now }
        ensures value { result ≡ slice_index self.now place }
        ensures visit { visits.new ≡ visited visits.old }
    {
        self.nodes.read(self.shape.leaves + place, visits) as u64
    }

    /// The place that a number below the total chooses: the numbers of the list are intervals, one
    /// after another, and it lies in that of the place. It takes a visit for each level.
    pub fn choose(&self, number: u128, visits: &mut Visits) -> usize
        requires { number < sum self.now }
        ensures place { result ≡ chosen self.now number }
        ensures visits { (digits : ℕ) → length self.now < 2 ^ digits
            → visits.new ≤ visits.old + digits }
    {
        let mut rest = number;
        let mut node = 1;
        for _level in 0..self.shape.depth {
            node *= 2;
            let left = self.nodes.read(node, visits);
            if rest >= left {
                rest -= left;
                node += 1;
            }
        }
        node - self.shape.leaves
    }

    /// Puts another number at a place, and gives back the one that was there. It takes a visit, and
    /// one for each level.
    pub fn replace(&mut self, place: usize, number: u64, visits: &mut Visits) -> u64
        requires { place < length self.old }
        ensures was { result ≡ slice_index self.old place }
        ensures set { self.new ≡ slice_set self.old place number }
        ensures visits { VisitsAtMost 1 (length self.old) visits.old visits.new }
    {
        let more = u128::from(number);
        let mut node = self.shape.leaves + place;
        let less = self.nodes.replace(node, more, visits);
        for _level in 0..self.shape.depth {
            node /= 2;
            self.nodes.shift(node, less, more, visits);
        }
        self.total = self.total - less + more;
        less as u64
    }
}

/// One for a positive weight, and zero for none.
pub fn mark(weight: u64) -> u64
    ensures { result ≡ mark weight }
{
    if weight > 0 { 1 } else { 0 }
}

/// The shape of a tree for so many numbers: the least power of two that has room for them.
fn shape_of(count: usize) -> Result<Shape, AllocError>
    ensures ok { IfOk result (λ shape. IsShape shape.depth shape.leaves (shape.leaves + count)) }
    ensures fits { IfOk result (λ shape. shape.leaves + count < 2 ^ 64) }
{
    // No memory has room for so many.
    if count >= 1 << 63 {
        return Err(AllocError);
    }
    let mut depth = 0;
    let mut leaves = 1;
    while leaves < count {
        depth += 1;
        leaves *= 2;
    }
    Ok(Shape { depth, leaves })
}

/// The nodes of a tree that are no leaves, each zero, with room for so many leaves.
fn inner_nodes(alloc: Global, shape: Shape, count: usize) -> Result<Vec<u128>, AllocError>
    requires shape { IsShape shape.depth shape.leaves (shape.leaves + count) }
    requires fits { shape.leaves + count < 2 ^ 64 }
    ensures ok { IfOk result (λ nodes. nodes.items ≡ replicate shape.leaves 0) }
    ensures room { IfOk result (λ nodes. vec_len nodes + count ≤ vec_capacity nodes) }
{
    let mut nodes = Vec::with_capacity(alloc, shape.leaves + count)?;
    for _node in 0..shape.leaves {
        nodes.push_reserved(0);
    }
    Ok(nodes)
}

/// Has each node that is no leaf store what the two below it add up to.
fn sum_up(nodes: &mut Vec<u128>, leaves: usize)
    requires positive { 0 < leaves }
    requires stored { leaves ≤ length nodes.old.items }
    requires room { length nodes.old.items ≤ leaves + leaves }
    requires small { leaves ≤ 2 ^ 63 }
    requires fits { sum (drop leaves nodes.old.items) < 2 ^ 128 }
    ensures summed { AreSummed leaves nodes.new.items }
    ensures leaves { drop leaves nodes.new.items ≡ drop leaves nodes.old.items }
    ensures length { length nodes.new.items ≡ length nodes.old.items }
{
    let mut node = leaves;
    while node > 1 {
        node -= 1;
        let sum = number_at(nodes, 2 * node) + number_at(nodes, 2 * node + 1);
        nodes[node] = sum;
    }
}

/// The number of a node, zero for a leaf that is not stored.
fn number_at(nodes: &[u128], node: usize) -> u128
    ensures { result ≡ slice_index nodes.now node }
{
    match nodes.get(node) {
        Some(number) => *number,
        None => 0,
    }
}
