//! `LongTexts`: what each name of 256 bytes or more exports, in a trie of its blocks of 256 bytes, from its end.

ghost use Rattle.std.specs.Prelude.{◌≡◌, ◌+◌, ◌-◌, ◌*◌, ◌/◌, ◌≤◌, ◌<◌, ℕ, List, Option, None, Some, length, OnOk, IfOk, slice_index_or, max, is_none, option_and_then, ◌∷◌, ◌++◌, ◌==◌, ◌&&◌, [], if◌then◌else◌, ◌⊎◌};
ghost use Rattle.std.specs.Str.{bytes_eq};
ghost use Rattle.pe_layout.specs.Layout.{file_of};
ghost use Rattle.pe_layout.specs.Span.{IsTextOf};
ghost use Rattle.pe_tables.specs.LongTexts.{longer, held_at, node_of, block, front, long_held, IsTrie, Grows, Leads, IsPath, AreLongTextsOf};
ghost use Rattle.pe_tables.specs.NameTrail.{node_after, Follows, IsTrail};

use crate::key::Target;
use crate::name_trail::node_after;
use pe_layout::{Layout, Text};
use std::alloc::{AllocError, Allocator};
use std::collections::BTreeMap;

/// How many bytes a block has.
pub(crate) const BLOCK: usize = 256;

/// A node of the trie: the strings with the same last blocks.
#[derive(Drop)]
pub(crate) struct Node<'a, A: Allocator> {
    /// The nodes with one more block, by this block.
    pub longer: BTreeMap<&'a [u8], usize, A>,
    /// What each string with these last blocks exports, by the bytes before them, which are less than a block.
    pub targets: BTreeMap<&'a [u8], Option<Target<'a>>, A>,
}

/// What each of some strings exports, or that it exports nothing, by the string; for long strings, of which many may end alike.
///
/// A string is stored as its blocks of 256 bytes, counted from its end, and the bytes before them.
#[derive(Drop)]
pub(crate) struct LongTexts<'a, A: Allocator> {
    alloc: A,
    /// The first is the root, which has no block.
    pub nodes: Vec<Node<'a, A>, A>,
    /// By the file offset of an end: the nodes of the last blocks, in order from the end, of the longest string added that ends
    /// there.
    pub paths: BTreeMap<u64, Vec<usize, A>, A>,
}

/// The bytes before the blocks of a string.
fn front(text: &[u8]) -> &[u8]
    ensures { result.now ≡ front text.now }
{
    &text[..text.len() % BLOCK]
}

/// Block `index` of a string, counted from its end.
fn block(text: &[u8], index: usize) -> &[u8]
    requires { 256 * (index + 1) ≤ length text.now }
    ensures { result.now ≡ block text.now index }
{
    let end = text.len() - BLOCK * index;
    &text[end - BLOCK..end]
}

/// The node to which a path leads.
fn last_node(path: &[usize]) -> usize
    ensures { result ≡ slice_index_or (0 ∷ path.now) (length path.now) 0 }
{
    match path.last() {
        Some(node) => *node,
        None => 0,
    }
}

impl<'a, A: Allocator + Copy> LongTexts<'a, A> {
    /// The child of a node for a block, if there is one.
    fn longer(&self, node: usize, block: &[u8]) -> Option<usize>
        ensures { result ≡ longer self.now.nodes.items node block.now }
    {
        self.nodes.get(node)?.longer.get(block).copied()
    }

    /// What the string with the blocks of a node and these bytes before them exports, if it is stored.
    fn held_at(&self, node: usize, front: &[u8]) -> Option<Option<Target<'a>>>
        ensures { result ≡ held_at self.now.nodes.items node front.now }
    {
        self.nodes.get(node)?.targets.get(front).copied()
    }

    /// The node of the blocks of a string.
    fn node_of(&self, text: &[u8]) -> Option<usize>
        ensures { result ≡ node_of self.now.nodes.items text.now (length text.now / 256) }
    {
        let mut node = 0;
        for index in 0..text.len() / BLOCK {
            node = self.longer(node, block(text, index))?;
        }
        Some(node)
    }

    /// What a string exports, if it is stored.
    pub fn get(&self, text: &[u8]) -> Option<Option<Target<'a>>>
        ensures { result ≡ long_held self.now.nodes.items text.now }
    {
        self.held_at(self.node_of(text)?, front(text))
    }

    /// The node after one more block of a string than a trail has, if there is one.
    fn next_node(&self, text: &[u8], trail: &[Option<usize>]) -> Option<usize>
        requires { 256 * (length trail.now + 1) ≤ length text.now }
        ensures { result ≡ option_and_then (λ node. longer self.now.nodes.items node (block text.now (length trail.now))) (node_after trail.now (length trail.now)) }
    {
        self.longer(node_after(trail, trail.len())?, block(text, trail.len()))
    }

    /// Extends a trail to the last block of a string or to a block for which there is no node, or as far as memory for it is not
    /// refused.
    fn extend(&self, text: &[u8], trail: &mut Vec<Option<usize>, A>) -> Result<(), AllocError>
        ensures follows { Follows self.now.nodes.items text.now trail.old.items → Follows self.now.nodes.items text.now trail.new.items }
        ensures goes_on { (more : List (Option ℕ)) × (trail.new.items ≡ trail.old.items ++ more) }
        ensures needed { length trail.new.items ≤ max (length trail.old.items) (length text.now / 256) }
        ensures whole { OnOk result ((length text.now / 256 ≤ length trail.new.items) ⊎ (node_after trail.new.items (length trail.new.items) ≡ None)) }
    {
        while trail.len() < text.len() / BLOCK && node_after(trail, trail.len()).is_some() {
            let next = self.next_node(text, trail);
            trail.push(next)?;
        }
        Ok(())
    }

    /// What a string exports, if it is stored, by the trail of its end in its file.
    pub fn get_along(
        &self,
        text: Text,
        trail: &mut Vec<Option<usize>, A>,
    ) -> Result<Option<Option<Target<'a>>>, AllocError>
        ensures exact { (file : List ℕ) → IsTextOf file text.entry → IsTrail self.now.nodes.items file text.entry.end trail.old.items
            → IfOk result (λ held. held ≡ long_held self.now.nodes.items text.entry.bytes.now) }
        ensures follows { (file : List ℕ) → IsTextOf file text.entry → IsTrail self.now.nodes.items file text.entry.end trail.old.items
            → IsTrail self.now.nodes.items file text.entry.end trail.new.items }
    {
        self.extend(text.bytes, trail)?;
        match node_after(trail, text.bytes.len() / BLOCK) {
            Some(node) => Ok(self.held_at(node, front(text.bytes))),
            None => Ok(None),
        }
    }

    /// No strings. Allocates nothing.
    pub fn new(alloc: A) -> LongTexts<'a, A>
        ensures nodes { result.nodes.items ≡ [] }
        ensures known { (file : List ℕ) → AreLongTextsOf file result }
    {
        LongTexts {
            alloc,
            nodes: Vec::new(alloc),
            paths: BTreeMap::new(alloc),
        }
    }

    /// Adds a node, to which no other leads yet.
    fn add_node(&mut self) -> Result<(), AllocError>
        ensures same { OnOk result ((n : ℕ) (bytes : List ℕ) → (longer self.new.nodes.items n bytes ≡ longer self.old.nodes.items n bytes) × (held_at self.new.nodes.items n bytes ≡ held_at self.old.nodes.items n bytes)) }
        ensures count { OnOk result (length self.new.nodes.items ≡ length self.old.nodes.items + 1) }
        ensures paths { self.new.paths ≡ self.old.paths }
    {
        let node = Node {
            longer: BTreeMap::new(self.alloc),
            targets: BTreeMap::new(self.alloc),
        };
        self.nodes.push(node)?;
        Ok(())
    }

    /// Makes a node the child of another for a block, in place of the one before.
    fn link(&mut self, node: usize, block: &'a [u8], next: usize) -> Result<(), AllocError>
        requires { node < length self.old.nodes.items }
        ensures links { OnOk result ((n : ℕ) (bytes : List ℕ) → longer self.new.nodes.items n bytes ≡ (if n == node && bytes_eq bytes block.now then Some next else longer self.old.nodes.items n bytes)) }
        ensures targets { OnOk result ((n : ℕ) (bytes : List ℕ) → held_at self.new.nodes.items n bytes ≡ held_at self.old.nodes.items n bytes) }
        ensures count { OnOk result (length self.new.nodes.items ≡ length self.old.nodes.items) }
        ensures paths { self.new.paths ≡ self.old.paths }
    {
        self.nodes[node].longer.insert(block, next)?;
        Ok(())
    }

    /// The child of a node for a block, which is added if there is none.
    fn reach(&mut self, node: usize, block: &'a [u8]) -> Result<usize, AllocError>
        requires trie { IsTrie self.old.nodes.items }
        requires inside { node < length self.old.nodes.items }
        ensures trie { OnOk result (IsTrie self.new.nodes.items) }
        ensures grows { OnOk result (Grows self.old.nodes.items self.new.nodes.items) }
        ensures reached { IfOk result (λ next. longer self.new.nodes.items node block.now ≡ Some next) }
        ensures paths { self.new.paths ≡ self.old.paths }
    {
        if let Some(next) = self.longer(node, block) {
            return Ok(next);
        }
        let next = self.nodes.len();
        self.add_node()?;
        self.link(node, block, next)?;
        Ok(next)
    }

    /// Sets what the string with the blocks of a node and these bytes before them exports.
    fn set_target(
        &mut self,
        node: usize,
        front: &'a [u8],
        target: Option<Target<'a>>,
    ) -> Result<(), AllocError>
        requires { node < length self.old.nodes.items }
        ensures links { OnOk result ((n : ℕ) (bytes : List ℕ) → longer self.new.nodes.items n bytes ≡ longer self.old.nodes.items n bytes) }
        ensures targets { OnOk result ((n : ℕ) (bytes : List ℕ) → held_at self.new.nodes.items n bytes ≡ (if n == node && bytes_eq bytes front.now then Some target.entry else held_at self.old.nodes.items n bytes)) }
        ensures count { OnOk result (length self.new.nodes.items ≡ length self.old.nodes.items) }
        ensures paths { self.new.paths ≡ self.old.paths }
    {
        self.nodes[node].targets.insert(front, target)?;
        Ok(())
    }

    /// Extends the path of a string's blocks to its last one.
    fn follow(&mut self, text: &'a [u8], path: &mut Vec<usize, A>) -> Result<(), AllocError>
        requires trie { IsTrie self.old.nodes.items }
        requires root { 0 < length self.old.nodes.items }
        requires leads { Leads self.old.nodes.items text.now path.old.items }
        ensures trie { OnOk result (IsTrie self.new.nodes.items) }
        ensures grows { OnOk result (Grows self.old.nodes.items self.new.nodes.items) }
        ensures leads { OnOk result (Leads self.new.nodes.items text.entry.now path.new.items) }
        ensures whole { OnOk result (length text.entry.now / 256 ≤ length path.new.items) }
        ensures goes_on { OnOk result ((more : List ℕ) × (path.new.items ≡ path.old.items ++ more)) }
        ensures paths { self.new.paths ≡ self.old.paths }
        ensures needed { OnOk result (length path.new.items ≤ max (length path.old.items) (length text.entry.now / 256)) }
    {
        while path.len() < text.len() / BLOCK {
            let next = self.reach(last_node(path), block(text, path.len()))?;
            path.push(next)?;
        }
        Ok(())
    }

    /// Adds the root if it is missing.
    fn make_root(&mut self) -> Result<(), AllocError>
        ensures root { OnOk result (0 < length self.new.nodes.items) }
        ensures grows { OnOk result (Grows self.old.nodes.items self.new.nodes.items) }
        ensures trie { OnOk result (IsTrie self.old.nodes.items → IsTrie self.new.nodes.items) }
        ensures paths { self.new.paths ≡ self.old.paths }
    {
        if self.nodes.is_empty() {
            self.add_node()?;
        }
        Ok(())
    }

    /// Takes out the path of the longest string added with this end.
    fn take_path(&mut self, end: u64) -> Vec<usize, A>
        ensures nodes { self.new.nodes ≡ self.old.nodes }
        ensures path { (file : List ℕ) → AreLongTextsOf file self.old → IsPath self.old.nodes.items file end result.items }
        ensures known { (file : List ℕ) → AreLongTextsOf file self.old → AreLongTextsOf file self.new }
    {
        match self.paths.remove(&end) {
            Some(path) => path,
            None => Vec::new(self.alloc),
        }
    }

    /// Adds the blocks of a string of this layout's file, and returns their node.
    fn enter(&mut self, _layout: &Layout<'a>, text: Text<'a>) -> Result<usize, AllocError>
        requires known { AreLongTextsOf (file_of _layout.now) self.old }
        requires text { IsTextOf (file_of _layout.now) text }
        ensures known { OnOk result (AreLongTextsOf (file_of _layout.now) self.new) }
        ensures grows { OnOk result (Grows self.old.nodes.items self.new.nodes.items) }
        ensures node { IfOk result (λ node. node_of self.new.nodes.items text.entry.bytes.now (length text.entry.bytes.now / 256) ≡ Some node) }
        ensures inside { IfOk result (λ node. node < length self.new.nodes.items) }
    {
        self.make_root()?;
        let mut path = self.take_path(text.end);
        self.follow(text.bytes, &mut path)?;
        let node = last_node(&path[..text.bytes.len() / BLOCK]);
        self.paths.insert(text.end, path)?;
        Ok(node)
    }

    /// Adds a string of this layout's file, unless it is stored, and returns whether it is new.
    pub fn add(
        &mut self,
        layout: &Layout<'a>,
        text: Text<'a>,
        target: Option<Target<'a>>,
    ) -> Result<bool, AllocError>
        requires known { AreLongTextsOf (file_of layout.now) self.old }
        requires text { IsTextOf (file_of layout.now) text }
        ensures known { OnOk result (AreLongTextsOf (file_of layout.now) self.new) }
        ensures held { IfOk result (λ is_new. (is_new ≡ is_none (long_held self.old.nodes.items text.entry.bytes.now))
            × ((other : List ℕ) → long_held self.new.nodes.items other ≡ (if is_new && bytes_eq other text.entry.bytes.now then Some target.entry else long_held self.old.nodes.items other))) }
    {
        let node = self.enter(layout, text)?;
        let front = front(text.bytes);
        if self.held_at(node, front).is_some() {
            return Ok(false);
        }
        self.set_target(node, front, target)?;
        Ok(true)
    }
}
