//! A search tree of leases by ID, balanced by weight, whose nodes know what is below them.
ghost use Rattle.std.specs.Prelude.{◌≡◌, ◌+◌, ◌*◌, ◌<◌, ◌≤◌, ◌^◌, ℤ, pos, ◌<ℤ◌, true, false, []};
ghost use Rattle.std.specs.Prelude.{◌∷◌, ◌++◌, length, map, option_map, OnOk, OnErr, MatchOption};
ghost use Rattle.kv_model.specs.Leases.{is_granted, lease_at, insert_lease};
ghost use Rattle.kv_model.specs.Leases.{without_lease, renewed, most_leases, least_free};
ghost use Rattle.lease_book.specs.Entries.{lease_of, IsAscending, earliest};
ghost use Rattle.lease_book.specs.Entries.{positives, AreSums, gap, PositivesAbove};

use crate::entry::Entry;
use std::alloc::{AllocError, Global};
use std::marker::Model;
use std::mem;

/// Leases that ascend by ID, at most 65,536.
#[cycle(tree)]
#[derive(Drop)]
pub struct Tree {
    root: Link,
}

#[cycle(tree)]
#[derive(Drop)]
enum Link {
    Nothing,
    Held(Box<Node>),
}

#[cycle(tree)]
#[derive(Drop)]
struct Node {
    left: Tree,
    entry: Entry,
    right: Tree,
    sums: Sums,
}

/// What is known of the leases from a node downward.
#[derive(Clone, Copy)]
struct Sums {
    /// How many there are.
    count: u32,
    /// How many have an ID above 0.
    positive: u32,
    /// The one that expires first.
    earliest: Entry,
}

impl Model for Tree {
    ghost use Rattle.std.specs.Prelude.{List, length};
    ghost use Rattle.kv_model.specs.Leases.{Lease};

    ghost Value = { List Lease };

    ghost use Rattle.lease_book.specs.Trees.{leases_in, IsLink};

    ghost view = { λ t. leases_in t.root };

    ghost invariant = { λ t. IsLink t.root };

    ghost size = { length };

    ghost use Rattle.std.proofs.Common.{arith, length-append};

    ghost size_decreases = { λ a h. Prim.grind (arith, length-append) };
}

impl Tree {
    ghost use Rattle.lease_book.specs.Trees.{leases_of, leases_in, AreEven, IsNode, IsLink};

    /// The tree without a lease.
    pub fn new() -> Tree
        ensures { result ≡ [] }
    {
        Tree {
            root: Link::Nothing,
        }
    }

    fn open(self) -> Link
        ensures leases { leases_in result ≡ self }
        ensures sound { IsLink result }
    {
        self.root
    }

    fn hold(node: Box<Node>) -> Tree
        requires { IsNode node.value }
        ensures { result ≡ leases_of node.value }
    {
        Tree {
            root: Link::Held(node),
        }
    }

    /// The top of a tree that is not empty, taken apart: its box, to be written anew, and its sides
    /// with the lease between them.
    fn unpack(self) -> (Box<Node>, Tree, Entry, Tree)
        requires { 0 < length self }
        ensures leases { self ≡ result.1 ++ lease_of result.2 ∷ result.3 }
        ensures even { AreEven (length result.1) (length result.3) }
    {
        let Link::Held(mut node) = self.open() else {
            unreachable!()
        };
        let (left, entry, right) = node.take();
        (node, left, entry, right)
    }

    /// The number of leases. Constant time.
    pub fn len(&self) -> u32
        ensures { result ≡ length self.now }
    {
        match &self.root {
            Link::Nothing => 0,
            Link::Held(node) => node.sums.count,
        }
    }

    /// How many IDs are above 0. Constant time.
    fn positive(&self) -> u32
        ensures { result ≡ positives self.now }
    {
        match &self.root {
            Link::Nothing => 0,
            Link::Held(node) => node.sums.positive,
        }
    }

    /// The lease that expires first. Constant time.
    pub fn earliest(&self) -> Option<Entry>
        ensures { option_map lease_of result ≡ earliest self.now }
    {
        match &self.root {
            Link::Nothing => None,
            Link::Held(node) => Some(node.sums.earliest),
        }
    }

    /// The lease of an ID. Logarithmic time.
    pub fn get(&self, id: i64) -> Option<Entry>
        ensures { option_map lease_of result ≡ lease_at self.now id }
    {
        match &self.root {
            Link::Nothing => None,
            Link::Held(node) => {
                let node: &Node = node;
                if id < node.entry.id {
                    node.left.get(id)
                } else if node.entry.id < id {
                    node.right.get(id)
                } else {
                    Some(node.entry)
                }
            }
        }
    }

    /// The least number above 0 that is no ID. Logarithmic time.
    pub fn least_free(&self) -> u32
        requires { length self.now < most_leases }
        ensures least { result ≡ least_free self.now }
        ensures free { is_granted self.now (pos result) ≡ false }
    {
        let _ = &self.root;
        self.next_free(0)
    }

    /// The least number above `filled` that is no ID, where the IDs above 0 are above `filled`.
    /// Logarithmic time.
    fn next_free(&self, filled: u32) -> u32
        requires above { PositivesAbove filled self.now }
        requires fits { filled + length self.now < 2 ^ 31 }
        ensures { result ≡ gap (filled + 1) self.now }
    {
        match &self.root {
            Link::Nothing => filled + 1,
            Link::Held(node) => {
                let node: &Node = node;
                let place = filled + node.left.positive() + 1;
                if node.entry.id <= 0 {
                    node.right.next_free(filled)
                } else if node.entry.id == i64::from(place) {
                    node.right.next_free(place)
                } else {
                    node.left.next_free(filled)
                }
            }
        }
    }

    /// Adds the IDs, ascending, to a list. The error is want of memory. Linear time.
    pub fn push_ids(&self, out: &mut Vec<i64>) -> Result<(), AllocError>
        ensures { OnOk result (out.new.items ≡ out.old.items ++ map (λ l. l.id) self.now) }
    {
        match &self.root {
            Link::Nothing => Ok(()),
            Link::Held(node) => {
                let node: &Node = node;
                node.left.push_ids(out)?;
                out.push(node.entry.id)?;
                node.right.push_ids(out)
            }
        }
    }

    /// Adds a lease whose ID is not granted. The error is want of memory, and the tree is then as
    /// it was. Logarithmic time.
    pub fn insert(&mut self, alloc: Global, entry: Entry) -> Result<(), AllocError>
        requires unknown { is_granted self.old entry.id ≡ false }
        requires few { length self.old < most_leases }
        ensures ok { OnOk result (self.new ≡ insert_lease (lease_of entry) self.old) }
        ensures err { OnErr result (self.new ≡ self.old) }
    {
        match &mut self.root {
            Link::Nothing => {
                let node = Box::new(alloc, Node::new(Tree::new(), entry, Tree::new()))?;
                self.root = Link::Held(node);
            }
            Link::Held(node) => {
                let node: &mut Node = node;
                if entry.id < node.entry.id {
                    node.left.insert(alloc, entry)?;
                } else {
                    node.right.insert(alloc, entry)?;
                }
                node.settle();
            }
        }
        Ok(())
    }

    /// Takes out the first lease, and answers it. Takes no memory. Logarithmic time.
    fn pop_first(&mut self) -> Option<Entry>
        ensures { MatchOption result (self.new ≡ [] × self.old ≡ [])
            (λ e. self.old ≡ lease_of e ∷ self.new) }
    {
        match &mut self.root {
            Link::Nothing => None,
            Link::Held(node) => {
                let node: &mut Node = node;
                match node.left.pop_first() {
                    Some(first) => {
                        node.settle();
                        Some(first)
                    }
                    None => {
                        let first = node.entry;
                        let right = mem::replace(&mut node.right, Tree::new());
                        self.root = right.open();
                        Some(first)
                    }
                }
            }
        }
    }

    /// Takes out the lease of an ID, and answers whether there was one. Takes no memory.
    /// Logarithmic time.
    pub fn remove(&mut self, id: i64) -> bool
        ensures found { result ≡ is_granted self.old id }
        ensures leases { self.new ≡ without_lease id self.old }
    {
        match &mut self.root {
            Link::Nothing => false,
            Link::Held(node) => {
                let node: &mut Node = node;
                let mut found = true;
                if id < node.entry.id {
                    found = node.left.remove(id);
                } else if node.entry.id < id {
                    found = node.right.remove(id);
                } else {
                    match node.right.pop_first() {
                        Some(next) => node.entry = next,
                        None => {
                            let left = mem::replace(&mut node.left, Tree::new());
                            self.root = left.open();
                            return true;
                        }
                    }
                }
                node.settle();
                found
            }
        }
    }

    /// Sets the deadline of the lease of an ID anew, and answers its time to live. Takes no memory.
    /// Logarithmic time.
    pub fn renew(&mut self, id: i64, clock: u64) -> Option<u64>
        requires { clock ≤ 2 ^ 62 }
        ensures ttl { result ≡ option_map (λ l. l.ttl) (lease_at self.old id) }
        ensures leases { self.new ≡ map (renewed clock id) self.old }
    {
        match &mut self.root {
            Link::Nothing => return None,
            Link::Held(node) => {
                let node: &mut Node = node;
                let ttl;
                if id < node.entry.id {
                    ttl = node.left.renew(id, clock);
                } else if node.entry.id < id {
                    ttl = node.right.renew(id, clock);
                } else {
                    ttl = Some(node.entry.ttl);
                    node.entry = node.entry.renewed(clock);
                }
                node.settle();
                ttl
            }
        }
    }
}

/// What is known of two sides and the lease between them.
fn sums_of(left: &Tree, entry: Entry, right: &Tree) -> Sums
    requires { length left.now + length right.now < most_leases }
    ensures { AreSums result (left.now ++ lease_of entry ∷ right.now) }
{
    let earliest = entry
        .sooner(right.earliest())
        .sooner_behind(left.earliest());
    Sums {
        count: left.len() + 1 + right.len(),
        positive: left.positive() + entry.positive() + right.positive(),
        earliest,
    }
}

impl Node {
    ghost use Rattle.lease_book.specs.Trees.{leases_of, AreEven, AreNearlyEven, IsNode};

    /// The node of two sides and the lease between them.
    fn new(left: Tree, entry: Entry, right: Tree) -> Node
        requires ascending { IsAscending (left ++ lease_of entry ∷ right) }
        requires few { length left + length right < most_leases }
        requires even { AreEven (length left) (length right) }
        ensures leases { leases_of result ≡ left ++ lease_of entry ∷ right }
        ensures sound { IsNode result }
    {
        let sums = sums_of(&left, entry, &right);
        Node {
            left,
            entry,
            right,
            sums,
        }
    }

    /// Balances a node after a change of one lease below it, and sums it up (Adams: weight-balanced
    /// trees, with the ratios 3 and 2).
    fn settle(&mut self)
        requires ascending { IsAscending (leases_of self.old) }
        requires few { length self.old.left + length self.old.right < most_leases }
        requires nearly { AreNearlyEven (length self.old.left) (length self.old.right) }
        ensures leases { leases_of self.new ≡ leases_of self.old }
        ensures sound { IsNode self.new }
    {
        let (left, entry, right) = self.take();
        let left_weight = left.len() + 1;
        let right_weight = right.len() + 1;
        *self = if right_weight > 3 * left_weight {
            Node::raise_right(left, entry, right)
        } else if left_weight > 3 * right_weight {
            Node::raise_left(left, entry, right)
        } else {
            Node::new(left, entry, right)
        };
    }

    /// The sides and the lease between them, taken out, so that the node can be written anew.
    fn take(&mut self) -> (Tree, Entry, Tree)
        ensures left { result.0 ≡ self.old.left }
        ensures entry { result.1 ≡ self.old.entry }
        ensures right { result.2 ≡ self.old.right }
    {
        let left = mem::replace(&mut self.left, Tree::new());
        let right = mem::replace(&mut self.right, Tree::new());
        (left, self.entry, right)
    }

    /// The node where the right side's top is raised, or the top of that one's left side where it
    /// is the heavy one.
    fn raise_right(left: Tree, entry: Entry, right: Tree) -> Node
        requires ascending { IsAscending (left ++ lease_of entry ∷ right) }
        requires few { length left + length right < most_leases }
        requires nearly { length right + 1 ≤ 3 * (length left + 2) }
        requires heavy { 3 * (length left + 1) < length right + 1 }
        ensures leases { leases_of result ≡ left ++ lease_of entry ∷ right }
        ensures sound { IsNode result }
    {
        let (mut top, near, middle, far) = right.unpack();
        if near.len() + 1 < 2 * (far.len() + 1) {
            *top = Node::new(left, entry, near);
            return Node::new(Tree::hold(top), middle, far);
        }
        let (mut inner, low, pivot, high) = near.unpack();
        *inner = Node::new(left, entry, low);
        *top = Node::new(high, middle, far);
        Node::new(Tree::hold(inner), pivot, Tree::hold(top))
    }

    /// The same from the left.
    fn raise_left(left: Tree, entry: Entry, right: Tree) -> Node
        requires ascending { IsAscending (left ++ lease_of entry ∷ right) }
        requires few { length left + length right < most_leases }
        requires nearly { length left + 1 ≤ 3 * (length right + 2) }
        requires heavy { 3 * (length right + 1) < length left + 1 }
        ensures leases { leases_of result ≡ left ++ lease_of entry ∷ right }
        ensures sound { IsNode result }
    {
        let (mut top, far, middle, near) = left.unpack();
        if near.len() + 1 < 2 * (far.len() + 1) {
            *top = Node::new(near, entry, right);
            return Node::new(far, middle, Tree::hold(top));
        }
        let (mut inner, low, pivot, high) = near.unpack();
        *inner = Node::new(high, entry, right);
        *top = Node::new(far, middle, low);
        Node::new(Tree::hold(top), pivot, Tree::hold(inner))
    }
}
