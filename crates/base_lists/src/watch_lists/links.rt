//! Changes of the lists of watchers.
ghost use Rattle.std.specs.Prelude.{◌≡◌, ℕ, ◌<◌, ◌≤◌, ◌^◌, length};
ghost use Rattle.base_lists.specs.watch_lists.Watching.{put_watch};
ghost use Rattle.base_lists.specs.watch_lists.Listed.{WatcherLists, watches, firsts, nexts};

use crate::watch_lists::Link;

/// Where a number stands among the watchers of another: behind which of them.
fn place_of(links: &[Link], holder: usize, index: usize) -> usize
    requires lists { WatcherLists (watches links.now) (firsts links.now) (nexts links.now) }
    requires above { 0 < holder }
    requires within { holder < length links.now }
    requires apart { watches links.now index ≡ 0 }
    requires higher { index ≤ firsts links.now holder }
    requires counted { 0 < index }
    ensures watch { watches links.now result ≡ holder }
    ensures below { nexts links.now result < index }
    ensures higher { index < result }
    ensures inside { result < length links.now }
{
    let mut at = links[holder].first as usize;
    while links[at].next as usize > index {
        at = links[at].next as usize;
    }
    at
}

/// A number joins the watchers of another.
pub fn enlist(links: &mut [Link], index: usize, holder: usize)
    requires lists { WatcherLists (watches links.old) (firsts links.old) (nexts links.old) }
    requires within { index < length links.old }
    requires counted { 0 < index }
    requires held { holder < length links.old }
    requires above { 0 < holder }
    requires apart { watches links.old index ≡ 0 }
    requires few { length links.old < 2 ^ 32 }
    ensures len { length links.new ≡ length links.old }
    ensures lists { WatcherLists (watches links.new) (firsts links.new) (nexts links.new) }
    ensures watch { (g : ℕ) → watches links.new g ≡ put_watch (watches links.old) index holder g }
{
    let first = links[holder].first;
    if (first as usize) < index {
        put_behind(links, index, holder, first);
        set_first(links, holder, index as u32);
    } else {
        let place = place_of(links, holder, index);
        let next = links[place].next;
        put_behind(links, index, holder, next);
        set_next(links, place, index as u32);
    }
}

/// A number watches another, in front of the next one.
fn put_behind(links: &mut [Link], index: usize, holder: usize, next: u32)
    requires within { index < length links.old }
    requires few { holder < 2 ^ 32 }
    ensures len { length links.new ≡ length links.old }
    ensures watch { (g : ℕ) → watches links.new g ≡ put_watch (watches links.old) index holder g }
    ensures first { (g : ℕ) → firsts links.new g ≡ firsts links.old g }
    ensures next { (g : ℕ) → nexts links.new g ≡ put_watch (nexts links.old) index next g }
{
    links[index] = Link {
        watch: holder as u32,
        next,
        ..links[index]
    };
}

/// The highest watcher of a number is another.
fn set_first(links: &mut [Link], index: usize, first: u32)
    requires within { index < length links.old }
    ensures len { length links.new ≡ length links.old }
    ensures watch { (g : ℕ) → watches links.new g ≡ watches links.old g }
    ensures first { (g : ℕ) → firsts links.new g ≡ put_watch (firsts links.old) index first g }
    ensures next { (g : ℕ) → nexts links.new g ≡ nexts links.old g }
{
    links[index].first = first;
}

/// The next lower watcher behind a number is another.
fn set_next(links: &mut [Link], index: usize, next: u32)
    requires within { index < length links.old }
    ensures len { length links.new ≡ length links.old }
    ensures watch { (g : ℕ) → watches links.new g ≡ watches links.old g }
    ensures first { (g : ℕ) → firsts links.new g ≡ firsts links.old g }
    ensures next { (g : ℕ) → nexts links.new g ≡ put_watch (nexts links.old) index next g }
{
    links[index].next = next;
}

/// A number watches none.
fn set_watch(links: &mut [Link], index: usize)
    requires within { index < length links.old }
    ensures len { length links.new ≡ length links.old }
    ensures watch { (g : ℕ) → watches links.new g ≡ put_watch (watches links.old) index 0 g }
    ensures first { (g : ℕ) → firsts links.new g ≡ firsts links.old g }
    ensures next { (g : ℕ) → nexts links.new g ≡ nexts links.old g }
{
    links[index].watch = 0;
}

/// Lets the highest watcher of a number go.
pub fn release_first(links: &mut [Link], holder: usize) -> usize
    requires lists { WatcherLists (watches links.old) (firsts links.old) (nexts links.old) }
    requires held { holder < length links.old }
    requires above { 0 < holder }
    requires some { 0 < firsts links.old holder }
    ensures len { length links.new ≡ length links.old }
    ensures lists { WatcherLists (watches links.new) (firsts links.new) (nexts links.new) }
    ensures is { result ≡ firsts links.old holder }
    ensures inside { result < length links.old }
    ensures highest { (h : ℕ) → watches links.old h ≡ holder → h ≤ result }
    ensures watched { watches links.old result ≡ holder }
    ensures watch { (g : ℕ) → watches links.new g ≡ put_watch (watches links.old) result 0 g }
{
    let at = links[holder].first as usize;
    let next = links[at].next;
    set_watch(links, at);
    set_first(links, holder, next);
    at
}
