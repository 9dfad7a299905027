//! Numbers that watch one another, and the watchers of each one.

use std::alloc::{AllocError, Global};
use std::marker::Model;

/// What a number watches, and its place among those that watch the same.
#[derive(Clone, Copy)]
pub struct Link {
    /// The number that it watches, or 0.
    watch: u32,
    /// The highest of those that watch it.
    first: u32,
    /// The next lower one that watches the same.
    next: u32,
}

/// Numbers from 0 on, of which each but 0 may watch another. Contracts speak of how many there are, and of whom each
/// watches (`watches`).
#[derive(Drop)]
pub struct Watchers {
    // Lists threaded through one table, three numbers each: settling lets watchers go, and so takes no memory.
    links: Vec<Link>,
}

impl Model for Watchers {
    ghost use Rattle.std.specs.Prelude.{List};
    ghost use Rattle.base_lists.specs.declared.watch_lists.Link.{Link as Linked};
    ghost use Rattle.base_lists.specs.watch_lists.Listed.{WatcherLists, watches, firsts, nexts};

    ghost Value = { List Linked };

    ghost view = { λ w. w.links.items };

    ghost invariant = { λ w. WatcherLists (watches w.links.items) (firsts w.links.items) (nexts w.links.items) };
}

mod links;

impl Watchers {
    ghost use Rattle.std.specs.Prelude.{◌≡◌, ℕ, ◌<◌, ◌≤◌, ◌^◌, [], ◌∷◌, ◌++◌, length, IfSome, IfNone, OnOk, OnErr};
    ghost use Rattle.base_lists.specs.watch_lists.Watching.{put_watch};
    ghost use Rattle.base_lists.specs.watch_lists.Listed.{no_link, watches};

    /// No numbers. It takes no memory.
    pub fn new(alloc: Global) -> Watchers
        ensures { result ≡ [] }
    {
        Watchers {
            links: Vec::new(alloc),
        }
    }

    pub fn len(&self) -> usize
        ensures { result ≡ length self.now }
    {
        self.links.len()
    }

    /// Adds a number, which watches none. Where memory runs out nothing changes.
    pub fn push(&mut self) -> Result<(), AllocError>
        ensures ok { OnOk result (self.new ≡ self.old ++ no_link ∷ []) }
        ensures err { OnErr result (self.new ≡ self.old) }
    {
        self.links.push(Link {
            watch: 0,
            first: 0,
            next: 0,
        })?;
        Ok(())
    }

    /// The number that one watches, or 0.
    pub fn watched(&self, index: usize) -> u32
        requires { index < length self.now }
        ensures { result ≡ watches self.now index }
    {
        self.links[index].watch
    }

    /// A number watches another. It takes a step for each higher one that watches the same.
    pub fn watch(&mut self, index: usize, holder: usize)
        requires within { index < length self.old }
        requires counted { 0 < index }
        requires held { holder < length self.old }
        requires above { 0 < holder }
        requires apart { watches self.old index ≡ 0 }
        requires few { length self.old < 2 ^ 32 }
        ensures count { length self.new ≡ length self.old }
        ensures watch { (g : ℕ) → watches self.new g ≡ put_watch (watches self.old) index holder g }
    {
        links::enlist(&mut self.links, index, holder);
    }

    /// Lets the highest one go that watches a number.
    pub fn release(&mut self, holder: usize) -> Option<usize>
        requires held { holder < length self.old }
        requires above { 0 < holder }
        ensures count { length self.new ≡ length self.old }
        ensures some { IfSome result (λ x. (x < length self.old) × (watches self.old x ≡ holder)) }
        ensures highest { IfSome result (λ x. (h : ℕ) → watches self.old h ≡ holder → h ≤ x) }
        ensures watch { IfSome result (λ x. (g : ℕ) → watches self.new g ≡ put_watch (watches self.old) x 0 g) }
        ensures none { IfNone result ((g : ℕ) → watches self.old g ≡ holder → ⊥) }
        ensures same { IfNone result ((g : ℕ) → watches self.new g ≡ watches self.old g) }
    {
        if self.links[holder].first == 0 {
            return None;
        }
        Some(links::release_first(&mut self.links, holder))
    }
}
