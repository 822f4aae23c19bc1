//! A balanced search tree of the free ranges, in order of size and then of base.
ghost use Rattle.std.specs.Prelude.{◌≡◌, [], ◌∷◌, ◌++◌, find, nat_le, None, is_some, IfSome, IfNone};
ghost use Rattle.std.specs.Option.{option_or};
ghost use Rattle.vmem_arena.specs.declared.free.Fit.{Fit};
ghost use Rattle.vmem_arena.specs.Fits.{Ascend, HasOneMore, Removal, largest_size};
ghost use Rattle.vmem_arena.specs.BySize.{node_fits};

use crate::free::Fit;
use std::marker::Model;
use std::mem;

/// The free ranges in order, and how high the tree of them is.
#[cycle(by_size)]
#[derive(Drop)]
pub(crate) struct BySize {
    top: Link,
    height: u64,
}

/// What is at a place of the tree.
#[cycle(by_size)]
#[derive(Drop)]
enum Link {
    Empty,
    Full(Box<Node>),
}

/// A free range, those before it, and those behind it.
#[cycle(by_size)]
#[derive(Drop)]
pub(crate) struct Node {
    before: BySize,
    fit: Fit,
    behind: BySize,
}

impl Model for BySize {
    ghost use Rattle.std.specs.Prelude.{List};
    ghost use Rattle.vmem_arena.specs.declared.free.Fit.{Fit};

    ghost Value = { List Fit };

    ghost use Rattle.vmem_arena.specs.Fits.{Ascend};
    ghost use Rattle.vmem_arena.specs.BySize.{fits};

    ghost view = { λ a. fits a.top };

    ghost invariant = { λ a. Ascend (fits a.top) };

    ghost use Rattle.std.specs.Prelude.{length};

    ghost size = { length };

    ghost use Rattle.vmem_arena.specs.BySizeFalls.{deep_le-length-fits};

    ghost size_decreases = { λ a h. deep_le-length-fits a.top };
}

impl Node {
    /// A node that stands in no tree.
    pub(crate) fn new() -> Node {
        Node {
            before: BySize::new(),
            fit: Fit { size: 0, base: 0 },
            behind: BySize::new(),
        }
    }
}

impl BySize {
    pub(crate) fn new() -> BySize
        ensures { result ≡ [] }
    {
        BySize {
            top: Link::Empty,
            height: 0,
        }
    }

    fn height(&self) -> u64 {
        self.height
    }

    /// The first that has this size or more.
    pub(crate) fn first_from(&self, size: u64) -> Option<Fit>
        ensures first { result ≡ find (λ f. nat_le size f.size) self.now }
        ensures order { Ascend self.now }
    {
        self.first_or(size, None)
    }

    /// The first that has this size or more, or else this one.
    fn first_or(&self, size: u64, other: Option<Fit>) -> Option<Fit>
        ensures first { result ≡ option_or (find (λ f. nat_le size f.size) self.now) other }
        ensures order { Ascend self.now }
    {
        match &self.top {
            Link::Empty => other,
            Link::Full(node) => {
                if node.fit.size < size {
                    node.behind.first_or(size, other)
                } else {
                    node.before.first_or(size, Some(node.fit))
                }
            }
        }
    }

    /// The size of the last, which is the greatest, or 0.
    pub(crate) fn greatest(&self) -> u64
        ensures { result ≡ largest_size self.now }
    {
        match &self.top {
            Link::Empty => 0,
            Link::Full(node) => node.fit.size.max(node.behind.greatest()),
        }
    }

    /// Puts the node back on top, of which one side has changed: where that is `level`, it is as high as before.
    fn set(&mut self, top: Box<Node>, level: bool)
        requires { Ascend (node_fits top.value) }
        ensures same { self.new ≡ node_fits top.value }
        ensures order { Ascend self.new }
    {
        if level {
            self.top = Link::Full(top);
        } else {
            self.replace_by(balanced(top));
        }
    }

    fn replace_by(&mut self, other: BySize)
        ensures same { self.new ≡ other }
        ensures order { Ascend self.new }
    {
        self.top = other.top;
        self.height = other.height;
    }

    /// Puts one more in, at this node, of which nothing else stays.
    pub(crate) fn insert(&mut self, node: Box<Node>, fit: Fit)
        ensures more { HasOneMore self.old fit self.new }
        ensures order { Ascend self.new }
    {
        match mem::replace(&mut self.top, Link::Empty) {
            Link::Empty => self.replace_by(single(node, fit)),
            Link::Full(mut top) => {
                if fit.is_before(top.fit) {
                    let height = top.before.height();
                    top.before.insert(node, fit);
                    let level = top.before.height() == height;
                    self.set(top, level);
                } else {
                    let height = top.behind.height();
                    top.behind.insert(node, fit);
                    let level = top.behind.height() == height;
                    self.set(top, level);
                }
            }
        }
    }

    /// Takes this one out, and its node with it.
    pub(crate) fn remove(&mut self, fit: Fit) -> Option<Box<Node>>
        ensures removal { Removal (is_some result) self.old fit self.new }
        ensures order { Ascend self.new }
    {
        match mem::replace(&mut self.top, Link::Empty) {
            Link::Empty => None,
            Link::Full(mut node) => {
                if fit.is_before(node.fit) {
                    let height = node.before.height();
                    let found = node.before.remove(fit);
                    let level = node.before.height() == height;
                    self.set(node, level);
                    return found;
                }
                if node.fit.is_before(fit) {
                    let height = node.behind.height();
                    let found = node.behind.remove(fit);
                    let level = node.behind.height() == height;
                    self.set(node, level);
                    return found;
                }
                let before = mem::replace(&mut node.before, BySize::new());
                let behind = mem::replace(&mut node.behind, BySize::new());
                self.replace_by(joined(before, behind));
                Some(node)
            }
        }
    }

    /// Takes the first out.
    fn remove_first(&mut self) -> Option<Box<Node>>
        ensures first { IfSome result (λ node. self.old ≡ node.value.fit ∷ self.new) }
        ensures none { IfNone result ((self.old ≡ []) × (self.new ≡ [])) }
        ensures order { Ascend self.new }
    {
        match mem::replace(&mut self.top, Link::Empty) {
            Link::Empty => None,
            Link::Full(mut node) => {
                let height = node.before.height();
                match node.before.remove_first() {
                    Some(first) => {
                        let level = node.before.height() == height;
                        self.set(node, level);
                        Some(first)
                    }
                    None => {
                        let behind = mem::replace(&mut node.behind, BySize::new());
                        self.replace_by(behind);
                        Some(node)
                    }
                }
            }
        }
    }
}

/// A tree of this one alone, at this node.
fn single(mut node: Box<Node>, fit: Fit) -> BySize
    ensures { result ≡ fit ∷ [] }
{
    node.before = BySize::new();
    node.behind = BySize::new();
    node.fit = fit;
    tree(node)
}

/// Those of both, of which none of the second is before one of the first.
fn joined(before: BySize, mut behind: BySize) -> BySize
    requires { Ascend (before ++ behind) }
    ensures same { result ≡ before ++ behind }
{
    match behind.remove_first() {
        None => before,
        Some(mut node) => {
            node.before = before;
            node.behind = behind;
            balanced(node)
        }
    }
}

/// The tree with this node at its top.
fn tree(top: Box<Node>) -> BySize
    requires { Ascend (node_fits top.value) }
    ensures { result ≡ node_fits top.value }
{
    let height = top.before.height().max(top.behind.height());
    BySize {
        top: Link::Full(top),
        height: height.saturating_add(1),
    }
}

/// The same fits, where neither side is more than one higher than the other, if neither was more than two.
fn balanced(node: Box<Node>) -> BySize
    requires { Ascend (node_fits node.value) }
    ensures { result ≡ node_fits node.value }
{
    let before = node.before.height();
    let behind = node.behind.height();
    if before > behind.saturating_add(1) {
        lean_behind(node)
    } else if behind > before.saturating_add(1) {
        lean_before(node)
    } else {
        tree(node)
    }
}

fn lean_behind(mut node: Box<Node>) -> BySize
    requires { Ascend (node_fits node.value) }
    ensures { result ≡ node_fits node.value }
{
    let Link::Full(left) = mem::replace(&mut node.before, BySize::new()).top else {
        return tree(node);
    };
    node.before = with_high_front(left);
    turned_behind(node)
}

fn lean_before(mut node: Box<Node>) -> BySize
    requires { Ascend (node_fits node.value) }
    ensures { result ≡ node_fits node.value }
{
    let Link::Full(right) = mem::replace(&mut node.behind, BySize::new()).top else {
        return tree(node);
    };
    node.behind = with_high_back(right);
    turned_before(node)
}

/// The same fits, with no more of the height behind the top than before it.
fn with_high_front(node: Box<Node>) -> BySize
    requires { Ascend (node_fits node.value) }
    ensures { result ≡ node_fits node.value }
{
    if node.behind.height() > node.before.height() {
        turned_before(node)
    } else {
        tree(node)
    }
}

/// The same fits, with no more of the height before the top than behind it.
fn with_high_back(node: Box<Node>) -> BySize
    requires { Ascend (node_fits node.value) }
    ensures { result ≡ node_fits node.value }
{
    if node.before.height() > node.behind.height() {
        turned_behind(node)
    } else {
        tree(node)
    }
}

/// The node before it comes to the top, and the node goes behind that.
fn turned_behind(mut node: Box<Node>) -> BySize
    requires { Ascend (node_fits node.value) }
    ensures { result ≡ node_fits node.value }
{
    let Link::Full(mut top) = mem::replace(&mut node.before, BySize::new()).top else {
        return tree(node);
    };
    node.before = mem::replace(&mut top.behind, BySize::new());
    top.behind = tree(node);
    tree(top)
}

/// The node behind it comes to the top, and the node goes before that.
fn turned_before(mut node: Box<Node>) -> BySize
    requires { Ascend (node_fits node.value) }
    ensures { result ≡ node_fits node.value }
{
    let Link::Full(mut top) = mem::replace(&mut node.behind, BySize::new()).top else {
        return tree(node);
    };
    node.behind = mem::replace(&mut top.before, BySize::new());
    top.before = tree(node);
    tree(top)
}
