// One walk over a graph along its edges, which finds the nodes that lead to themselves, and an order of all.

ghost use Rattle.std.specs.Prelude.{◌≡◌, ◌<◌, ◌≤◌, ◌+◌, ◌^◌, ◌↔◌, OnOk, IfOk, IsTrue, All, length, map};
ghost use Rattle.c0_struct_sizes.specs.Graph.{AreInside, IsIn, IsOrderOf, Leads, edges_in};
ghost use Rattle.c0_struct_sizes.specs.Walk.{WalkGoesOn, IsWalkOver, finished, walk_start, numbers_below, merged, last_start, start_node};
ghost use Rattle.c0_struct_sizes.specs.Walk.{mark_of, met, others_left, set_all, walk_state, target_of, without_target};
ghost use Rattle.c0_struct_sizes.specs.declared.walk.Mark.TheVariants.{Open, Done};

use std::alloc::{AllocError, Global};

/// An order of the nodes of a graph.
#[derive(Drop)]
pub struct Order {
    /// All nodes: one that doesn't lead to itself stands behind all to which it has an edge.
    pub nodes: Vec<u32>,
    /// Whether the node of this number leads to itself.
    pub turning: Vec<bool>,
}

/// How far the walk is with a node.
#[derive(Clone, Copy)]
pub(crate) enum Mark {
    /// It wasn't met.
    Unseen,
    /// It stands at this place of the path.
    Open(usize),
    /// It is known whether it leads to itself.
    Done,
}

/// A piece of the path, and the edges that are left of it: each piece ends where the next one starts.
#[derive(Clone, Copy)]
pub(crate) struct Group {
    /// Its first place on the path.
    pub path_start: usize,
    /// The first of the edges that are left of it.
    pub todo_start: usize,
}

/// Where a walk stands.
#[derive(Drop)]
pub(crate) struct Walk {
    /// The mark of each node.
    pub marks: Vec<Mark>,
    /// The nodes that were met and aren't done, in the order in which they were met.
    pub path: Vec<u32>,
    /// The nodes to which edges are left to be followed.
    pub todo: Vec<u32>,
    /// The pieces of the path.
    pub groups: Vec<Group>,
    /// Whether each node that is done leads to itself.
    pub turning: Vec<bool>,
    /// The nodes that are done, in the order in which they were.
    pub listed: Vec<u32>,
}

/// The nodes to which a node has an edge.
pub fn edges_of(graph: &[Vec<u32>], node: u32) -> &[u32]
    requires { node < length graph.now }
    ensures { result.now ≡ edges_in (map (λ x. x.items) graph.now) node }
{
    graph[node as usize].as_slice()
}

// Whether a number is one of these.
fn is_among(nodes: &[u32], number: u32) -> bool
    ensures { IsTrue result ↔ IsIn nodes.now number }
{
    for node in nodes {
        if *node == number {
            return true;
        }
    }
    false
}

// Marks nodes as done, where they lead to themselves or not.
fn mark_all(marks: &mut [Mark], turning: &mut [bool], nodes: &[u32], turns: bool)
    requires marked { All (λ v. v < length marks.old) nodes.now }
    requires flagged { All (λ v. v < length turning.old) nodes.now }
    ensures marks { marks.new ≡ set_all marks.old nodes.now Done }
    ensures turning { turning.new ≡ set_all turning.old nodes.now turns }
{
    for node in nodes {
        marks[*node as usize] = Mark::Done;
        turning[*node as usize] = turns;
    }
}

impl Walk {
    // Whether anything is left to do.
    fn is_under_way(&self) -> bool
        ensures { IsTrue result ↔ (0 < length self.now.todo.items + length self.now.groups.items) }
    {
        !self.todo.is_empty() || !self.groups.is_empty()
    }

    // How many edges are left that aren't of the last group.
    fn others_left(&self) -> usize
        ensures { result ≡ others_left (walk_state self.now) }
    {
        match self.groups.last() {
            None => 0,
            Some(group) => group.todo_start,
        }
    }

    // Where the last group starts on the path.
    fn last_start(&self) -> usize
        requires { 0 < length self.now.groups.items }
        ensures { result ≡ last_start (walk_state self.now) }
    {
        self.groups[self.groups.len() - 1].path_start
    }

    // Meets a node: it is a group of its own, and its edges are left.
    fn meet(&mut self, graph: &[Vec<u32>], node: u32) -> Result<(), AllocError>
        requires marked { node < length self.old.marks.items }
        requires there { node < length graph.now }
        ensures { OnOk result (walk_state self.new ≡ met (edges_in (map (λ x. x.items) graph.now)) node (walk_state self.old)) }
    {
        let group = Group {
            path_start: self.path.len(),
            todo_start: self.todo.len(),
        };
        self.marks[node as usize] = Mark::Open(group.path_start);
        self.path.push(node)?;
        self.groups.push(group)?;
        self.todo.extend_from_slice(edges_of(graph, node))
    }

    // Takes off the last edge that is left.
    fn leave_target(&mut self)
        requires { 0 < length self.old.todo.items }
        ensures { walk_state self.new ≡ without_target (walk_state self.old) }
    {
        self.todo.truncate(self.todo.len() - 1);
    }

    // Makes the last group a part of the one before it.
    fn join_groups(&mut self)
        requires { 0 < length self.old.groups.items }
        ensures { walk_state self.new ≡ merged (walk_state self.old) }
    {
        self.groups.truncate(self.groups.len() - 1);
    }

    // The last group is done: its nodes lead to themselves or not.
    fn finish(&mut self, turns: bool) -> Result<(), AllocError>
        requires grouped { 0 < length self.old.groups.items }
        requires marked { All (λ v. v < length self.old.marks.items) self.old.path.items }
        requires flagged { All (λ v. v < length self.old.turning.items) self.old.path.items }
        requires started { last_start (walk_state self.old) ≤ length self.old.path.items }
        ensures { OnOk result (walk_state self.new ≡ finished turns (walk_state self.old)) }
    {
        let start = self.last_start();
        mark_all(
            self.marks.as_mut_slice(),
            self.turning.as_mut_slice(),
            &self.path[start..],
            turns,
        );
        self.listed.extend_from_slice(&self.path[start..])?;
        self.path.truncate(start);
        self.groups.truncate(self.groups.len() - 1);
        Ok(())
    }

    // The first node of the last group.
    fn start_node(&self) -> u32
        requires grouped { 0 < length self.now.groups.items }
        requires started { last_start (walk_state self.now) < length self.now.path.items }
        ensures { result ≡ start_node (walk_state self.now) }
    {
        self.path[self.last_start()]
    }

    // Whether the nodes of the last group lead to themselves: there are several, or the one has an edge to itself.
    fn is_turning(&self, graph: &[Vec<u32>]) -> bool
        requires walk { IsWalkOver (map (λ x. x.items) graph.now) (walk_state self.now) }
        requires grouped { 0 < length self.now.groups.items }
        requires followed { length self.now.todo.items ≤ others_left (walk_state self.now) }
        ensures { IsTrue result ↔ Leads (edges_in (map (λ x. x.items) graph.now)) (start_node (walk_state self.now)) (start_node (walk_state self.now)) }
    {
        if self.path.len() - self.last_start() > 1 {
            return true;
        }
        let node = self.start_node();
        is_among(edges_of(graph, node), node)
    }

    // The node to which the last edge that is left leads.
    fn target(&self) -> u32
        requires { 0 < length self.now.todo.items }
        ensures { result ≡ target_of (walk_state self.now) }
    {
        self.todo[self.todo.len() - 1]
    }

    // The mark of a node.
    fn mark(&self, node: u32) -> Mark
        requires { node < length self.now.marks.items }
        ensures { result ≡ mark_of self.now.marks.items node }
    {
        self.marks[node as usize]
    }

    // The last group, of which no edge is left, is done.
    fn complete(&mut self, graph: &[Vec<u32>]) -> Result<(), AllocError>
        requires walk { IsWalkOver (map (λ x. x.items) graph.now) (walk_state self.old) }
        requires grouped { 0 < length self.old.groups.items }
        requires followed { length self.old.todo.items ≤ others_left (walk_state self.old) }
        ensures walk { OnOk result (IsWalkOver (map (λ x. x.items) graph.now) (walk_state self.new)) }
        ensures falls { OnOk result (WalkGoesOn (map (λ x. x.items) graph.now) (walk_state self.old) (walk_state self.new)) }
    {
        let turns = self.is_turning(graph);
        self.finish(turns)?;
        Ok(())
    }

    // The last edge that is left leads to a node at this place of the path: all that stand there and behind lead to themselves.
    fn turn_back(&mut self, graph: &[Vec<u32>], place: usize)
        requires walk { IsWalkOver (map (λ x. x.items) graph.now) (walk_state self.old) }
        requires left { others_left (walk_state self.old) < length self.old.todo.items }
        requires placed { mark_of self.old.marks.items (target_of (walk_state self.old)) ≡ Open place }
        ensures walk { IsWalkOver (map (λ x. x.items) graph.now) (walk_state self.new) }
        ensures falls { WalkGoesOn (map (λ x. x.items) graph.now) (walk_state self.old) (walk_state self.new) }
    {
        if place < self.last_start() {
            self.join_groups();
        } else {
            self.leave_target();
        }
    }

    // Follows the last edge that is left.
    fn follow(&mut self, graph: &[Vec<u32>]) -> Result<(), AllocError>
        requires inside { AreInside (map (λ x. x.items) graph.now) }
        requires walk { IsWalkOver (map (λ x. x.items) graph.now) (walk_state self.old) }
        requires left { others_left (walk_state self.old) < length self.old.todo.items }
        ensures walk { OnOk result (IsWalkOver (map (λ x. x.items) graph.now) (walk_state self.new)) }
        ensures falls { OnOk result (WalkGoesOn (map (λ x. x.items) graph.now) (walk_state self.old) (walk_state self.new)) }
    {
        let target = self.target();
        match self.mark(target) {
            Mark::Unseen => self.meet(graph, target)?,
            Mark::Open(place) => self.turn_back(graph, place),
            Mark::Done => self.leave_target(),
        }
        Ok(())
    }

    // Follows an edge that is left of the last group, or completes the group.
    fn step(&mut self, graph: &[Vec<u32>]) -> Result<(), AllocError>
        requires inside { AreInside (map (λ x. x.items) graph.now) }
        requires walk { IsWalkOver (map (λ x. x.items) graph.now) (walk_state self.old) }
        requires under_way { 0 < length self.old.todo.items + length self.old.groups.items }
        ensures walk { OnOk result (IsWalkOver (map (λ x. x.items) graph.now) (walk_state self.new)) }
        ensures falls { OnOk result (WalkGoesOn (map (λ x. x.items) graph.now) (walk_state self.old) (walk_state self.new)) }
    {
        if self.others_left() < self.todo.len() {
            self.follow(graph)?;
        } else {
            self.complete(graph)?;
        }
        Ok(())
    }
}

// The numbers of so many nodes.
fn all_nodes(alloc: Global, count: u32) -> Result<Vec<u32>, AllocError>
    ensures { IfOk result (λ nodes. nodes.items ≡ numbers_below count) }
{
    let mut nodes = Vec::new(alloc);
    for number in 0..count {
        nodes.push(number)?;
    }
    Ok(nodes)
}

// Where a walk over so many nodes begins: each is left to be met.
fn first_walk(alloc: Global, count: u32) -> Result<Walk, AllocError>
    ensures { IfOk result (λ w. walk_state w ≡ walk_start count) }
{
    let mut walk = Walk {
        marks: Vec::new(alloc),
        path: Vec::new(alloc),
        todo: all_nodes(alloc, count)?,
        groups: Vec::new(alloc),
        turning: Vec::new(alloc),
        listed: Vec::new(alloc),
    };
    walk.marks.resize(count as usize, Mark::Unseen)?;
    walk.turning.resize(count as usize, false)?;
    Ok(walk)
}

/// An order of the nodes of a graph, which has a list of edges for each node. The one error is want of memory.
///
/// Its time grows with the number of nodes and edges, and it does not recurse along edges.
pub fn order_of(alloc: Global, graph: &[Vec<u32>]) -> Result<Order, AllocError>
    requires inside { AreInside (map (λ x. x.items) graph.now) }
    requires few { length graph.now < 2 ^ 32 }
    ensures { IfOk result (λ o. IsOrderOf (map (λ x. x.items) graph.now) o.nodes.items o.turning.items) }
{
    let mut walk = first_walk(alloc, graph.len() as u32)?;
    while walk.is_under_way() {
        walk.step(graph)?;
    }
    Ok(Order {
        nodes: walk.listed,
        turning: walk.turning,
    })
}
