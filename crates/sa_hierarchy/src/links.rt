//! The trees of classes. The parent of a class with exactly one edge, which keeps its arguments, is the supertype's class of that edge.

ghost use Rattle.std.specs.Prelude.{◌≡◌, ◌<◌, IfOk, Some, length, slice_get};
ghost use Rattle.sa_hierarchy.specs.Lines.{in_line};
ghost use Rattle.sa_hierarchy.specs.Hierarchies.{AreLinked, IsBelow, IsClimbed, IsHigher, IsRoot, depth_at};

use failure::{Failure, Invariant, broken, known};

/// The node of a class in its tree.
#[derive(Clone, Copy)]
pub struct ParentLink {
    /// The number of the edge to its parent, if it has one.
    pub edge: Option<u32>,
    /// The parent, or the class itself if it is a root.
    pub parent: u32,
    /// How many ancestors it has in its tree.
    pub depth: u32,
    /// An ancestor, so that each ancestor is reached by few jumps and steps; itself if it is a root.
    pub jump: u32,
    /// The root of its tree.
    pub root: u32,
}

/// The link of a class that is a root.
pub(crate) fn root_link(class: u32) -> ParentLink {
    ParentLink {
        edge: None,
        parent: class,
        depth: 0,
        jump: class,
        root: class,
    }
}

/// The link of a class with an edge to its parent. It jumps as far as two jumps of the parent if these are equally
/// long, and else to the parent.
pub(crate) fn link_below(
    links: &[ParentLink],
    edge: u32,
    parent: u32,
) -> Result<ParentLink, Failure> {
    let above = link_at(links, parent)?;
    let far = link_at(links, above.jump)?;
    let farther = link_at(links, far.jump)?;
    let first = above.depth.saturating_sub(far.depth);
    let second = far.depth.saturating_sub(farther.depth);
    Ok(ParentLink {
        edge: Some(edge),
        parent,
        depth: above.depth.saturating_add(1),
        jump: if first == second { far.jump } else { parent },
        root: above.root,
    })
}

/// The link of a class.
#[tactic(auto, using(crate::proofs::Trials::reads))]
pub(crate) fn link_at(links: &[ParentLink], class: u32) -> Result<ParentLink, Failure>
    ensures { IfOk result (λ link. slice_get links.now class ≡ Some link) }
{
    let at = class as usize;
    if at < links.len() {
        Ok(links[at])
    } else {
        broken(Invariant::HierarchyTable)
    }
}

/// Checks that the class is a root.
#[tactic(auto, using(crate::proofs::Trials::reads))]
pub(crate) fn try_root(class: u32, link: ParentLink) -> Result<(), Failure>
    ensures { IfOk result (λ _. IsRoot class link) }
{
    if link.root != class {
        return broken(Invariant::HierarchyTable);
    }
    if link.jump != class {
        return broken(Invariant::HierarchyTable);
    }
    if link.depth != 0 {
        return broken(Invariant::HierarchyTable);
    }
    match link.edge {
        None => Ok(()),
        Some(_) => broken(Invariant::HierarchyTable),
    }
}

/// Checks the link of a class that has a parent.
#[tactic(auto, using(crate::proofs::Trials::reads))]
pub(crate) fn try_below(links: &[ParentLink], link: ParentLink) -> Result<(), Failure>
    ensures { IfOk result (λ _. IsBelow links.now link) }
{
    let parent = link_at(links, link.parent)?;
    let deeper = known(parent.depth.checked_add(1), Invariant::HierarchyTable)?;
    if link.depth != deeper {
        return broken(Invariant::HierarchyTable);
    }
    if link.root != parent.root {
        return broken(Invariant::HierarchyTable);
    }
    if link.jump == link.parent {
        return Ok(());
    }
    let far = link_at(links, parent.jump)?;
    if link.jump == far.jump {
        Ok(())
    } else {
        broken(Invariant::HierarchyTable)
    }
}

/// Whether the second class is the first or an ancestor of it in its tree.
#[tactic(auto, using(crate::proofs::Jumps::jumps))]
pub fn has_ancestor(links: &[ParentLink], lower: u32, upper: u32) -> bool
    requires { ∥ AreLinked links.now ∥₁ }
    ensures { result ≡ in_line links.now lower upper }
{
    if lower == upper {
        return true;
    }
    if lower as usize >= links.len() {
        return false;
    }
    if upper as usize >= links.len() {
        return false;
    }
    let depth = depth_of(links, upper);
    let end = climbed(links, lower, depth);
    if end == upper {
        return true;
    }
    false
}

/// The link of a class, if it is one.
fn found(links: &[ParentLink], class: u32) -> Option<ParentLink>
    ensures { result ≡ slice_get links.now class }
{
    links.get(class as usize).copied()
}

/// The depth of a class, or 0 if there is none.
fn depth_of(links: &[ParentLink], class: u32) -> u32
    ensures { result ≡ depth_at links.now class }
{
    match found(links, class) {
        Some(link) => link.depth,
        None => 0,
    }
}

/// The ancestor at this depth of a class, or the class itself if it isn't as deep.
#[tactic(auto, using(crate::proofs::Jumps::jumps))]
fn climbed(links: &[ParentLink], lower: u32, depth: u32) -> u32
    requires linked { ∥ AreLinked links.now ∥₁ }
    requires within { lower < length links.now }
    ensures { ∥ IsClimbed links.now lower depth result ∥₁ }
{
    let mut at = lower;
    while depth_of(links, at) > depth {
        at = higher(links, at, depth);
    }
    at
}

/// An ancestor of a class that is deeper than a depth: the jump, if that isn't too far, and else its parent.
#[tactic(auto, using(crate::proofs::Jumps::jumps))]
fn higher(links: &[ParentLink], class: u32, depth: u32) -> u32
    requires linked { ∥ AreLinked links.now ∥₁ }
    requires within { class < length links.now }
    requires deeper { depth < depth_at links.now class }
    ensures { ∥ IsHigher links.now class depth result ∥₁ }
{
    let Some(link) = found(links, class) else {
        return class;
    };
    let Some(far) = found(links, link.jump) else {
        return link.parent;
    };
    if far.depth >= depth {
        return link.jump;
    }
    link.parent
}
