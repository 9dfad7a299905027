// Calls on a tree of files, with what a plain tree in Python answers. tools/store-calls.py writes them. Bytes are hexadecimal digits, or
// COUNT*FIRST, whose byte i is 7 i + FIRST modulo 256.
use crate::words::{Fault, Words, push_digits};
use spec_exchange::values::Basic;
use std::alloc::{AllocError, Global};
use std::fmt::Write;
use store_files::{Entry, Gone, StoreError, StoredFile, Tree};

/// Puts the answer to a call, as the calls' file spells it.
pub fn push_answer(
    said: &mut String,
    alloc: Global,
    tree: &mut Tree,
    words: &mut Words<'_>,
) -> Result<(), Fault> {
    match push_call(said, alloc, tree, words) {
        Ok(()) => Ok(()),
        Err(StoreError::Status(status)) => Ok(write!(said, "{status:08x}")?),
        Err(StoreError::Memory) => Err(Fault::Memory),
    }
}

// A call whose contract is large stands in a function of its own, so that it isn't in the way of the others' proofs.
fn push_call(
    said: &mut String,
    alloc: Global,
    tree: &mut Tree,
    words: &mut Words<'_>,
) -> Result<(), StoreError> {
    match words.next() {
        "make" => push_made(said, tree, words),
        "coded" => push_coded(said, alloc, tree, words),
        "find" => Ok(push_found(said, tree, path_in(words))?),
        "used" => Ok(write!(said, "{}", tree.used())?),
        "held" => Ok(write!(said, "{}", tree.held())?),
        "next" => Ok(write!(said, "{}", tree.next_file())?),
        "path" => Ok(said.push_str(shown(tree.path(words.number())))?),
        "info" => Ok(push_info(said, tree, words.number())?),
        "files" => push_files(said, tree),
        "list" => push_list(said, tree, words),
        "more" => push_more(said, tree, words),
        "below" => push_below(said, tree, words.number()),
        "read" => push_read(said, tree, words),
        "holds" => push_same(said, alloc, tree, words),
        kind => {
            change(alloc, tree, kind, words)?;
            Ok(said.push_str("ok")?)
        }
    }
}

// A call that tells nothing.
fn change(
    alloc: Global,
    tree: &mut Tree,
    kind: &str,
    words: &mut Words<'_>,
) -> Result<(), StoreError> {
    match kind {
        "write" => write_bytes(alloc, tree, words),
        "end" => set_end(tree, words),
        "rename" => rename(tree, words),
        "remove" => tree.remove(words.number()),
        "gone" => take_out(tree, words),
        "try" => give_up(alloc, tree, words),
        _ => {
            put(alloc, tree, kind, words);
            Ok(())
        }
    }
}

// A call that can't be refused.
fn put(alloc: Global, tree: &mut Tree, kind: &str, words: &mut Words<'_>) {
    let number = words.number();
    match kind {
        "new" => *tree = Tree::new(alloc, number),
        "room" => tree.set_room(number),
        "mark" => tree.mark(number, words.says("marked")),
        _ => {
            let basic = Basic {
                created: words.number(),
                accessed: words.number(),
                written: words.number(),
                changed: words.number(),
                attributes: words.small(),
            };
            tree.set_basic(number, basic);
        }
    }
}

fn push_found(said: &mut String, tree: &Tree, path: &str) -> Result<(), AllocError> {
    match tree.find(path) {
        Some(file) => write!(said, "{file}"),
        None => said.push_str("none"),
    }
}

fn push_made(said: &mut String, tree: &mut Tree, words: &mut Words<'_>) -> Result<(), StoreError> {
    let path = path_in(words);
    let directory = words.says("dir");
    let attributes = words.small();
    let made = tree.make(path, directory, attributes, words.number())?;
    Ok(write!(said, "{made}")?)
}

fn write_bytes(alloc: Global, tree: &mut Tree, words: &mut Words<'_>) -> Result<(), StoreError> {
    let file = words.number();
    let at = words.number();
    let bytes = bytes_in(alloc, words)?;
    tree.write(file, at, &bytes, words.number())
}

fn set_end(tree: &mut Tree, words: &mut Words<'_>) -> Result<(), StoreError> {
    let file = words.number();
    let length = words.number();
    tree.set_end(file, length, words.number())
}

fn rename(tree: &mut Tree, words: &mut Words<'_>) -> Result<(), StoreError> {
    let file = words.number();
    let path = path_in(words);
    tree.rename(file, path, words.says("replace"))
}

// Makes a file whose path is written as hexadecimal digits.
fn push_coded(
    said: &mut String,
    alloc: Global,
    tree: &mut Tree,
    words: &mut Words<'_>,
) -> Result<(), StoreError> {
    let path = bytes_in(alloc, words)?;
    let made = tree.make(std::str::from_utf8(&path).unwrap_or(""), false, 0, 1)?;
    Ok(write!(said, "{made}")?)
}

fn push_same(
    said: &mut String,
    alloc: Global,
    tree: &Tree,
    words: &mut Words<'_>,
) -> Result<(), StoreError> {
    let file = words.number();
    let at = words.number();
    let bytes = bytes_in(alloc, words)?;
    let same = tree.holds(file, at, &bytes)?;
    Ok(said.push_str(if same { "same" } else { "other" })?)
}

fn path_in<'a>(words: &mut Words<'a>) -> &'a str {
    match words.next() {
        "-" => "",
        path => path,
    }
}

fn shown(path: &str) -> &str {
    if path.is_empty() { "-" } else { path }
}

fn bytes_in(alloc: Global, words: &mut Words<'_>) -> Result<Vec<u8>, StoreError> {
    let mut ahead = *words;
    if ahead.next().contains("*") {
        return Ok(counted(alloc, words.next())?);
    }
    match words.bytes(alloc) {
        Ok(bytes) => Ok(bytes),
        Err(_) => Err(StoreError::Memory),
    }
}

fn counted(alloc: Global, word: &str) -> Result<Vec<u8>, AllocError> {
    let mut words = Words::new(word);
    let count = Words::new(words.until("*")).number();
    let first = words.number();
    let mut bytes = Vec::new(alloc);
    for i in 0..count {
        bytes.push((i.wrapping_mul(7).wrapping_add(first) % 256) as u8)?;
    }
    Ok(bytes)
}

// The sum of (i + 1) times byte i, modulo 2^32, from a place on.
#[derive(Clone, Copy)]
struct Sum {
    place: u32,
    sum: u32,
}

impl Sum {
    fn add(&mut self, bytes: &[u8]) {
        for byte in bytes {
            self.place = self.place.wrapping_add(1);
            self.sum = self.sum.wrapping_add(self.place.wrapping_mul(*byte as u32));
        }
    }
}

fn push_read(said: &mut String, tree: &Tree, words: &mut Words<'_>) -> Result<(), StoreError> {
    let file = words.number();
    let at = words.number();
    let bytes = tree.read(file, at, (words.number() % 65_537) as u32)?;
    if bytes.len() <= 24 {
        return Ok(push_digits(said, bytes.as_slice())?);
    }
    let mut sum = Sum { place: 0, sum: 0 };
    sum.add(bytes.as_slice());
    Ok(write!(said, "{}#{}", bytes.len(), sum.sum)?)
}

fn sum_of(files: &[StoredFile]) -> u32 {
    let mut sum = Sum { place: 0, sum: 0 };
    for file in files {
        sum.add(file.path.as_bytes());
        sum.add(&[0]);
        sum.add(&(file.bytes.len() as u64).to_le_bytes());
        sum.add(file.bytes.as_slice());
    }
    sum.sum
}

fn push_files(said: &mut String, tree: &Tree) -> Result<(), StoreError> {
    let files = tree.files()?;
    Ok(write!(said, "{}#{}", files.len(), sum_of(files.as_slice()))?)
}

// A file is taken out, and put back or dropped.
fn take_out(tree: &mut Tree, words: &mut Words<'_>) -> Result<(), StoreError> {
    match tree.take_out(words.number())? {
        Some(gone) if words.says("back") => put_back(tree, gone),
        _ => Ok(()),
    }
}

fn put_back(tree: &mut Tree, gone: Gone) -> Result<(), StoreError> {
    if tree.put_back(gone) {
        Ok(())
    } else {
        Err(StoreError::Memory)
    }
}

fn push_entries(said: &mut String, entries: &[Entry]) -> Result<(), AllocError> {
    for entry in entries {
        let between = if said.is_empty() { "" } else { " " };
        write!(said, "{between}{}/{}", entry.name.as_str(), entry.info.file)?;
    }
    Ok(())
}

fn push_list(said: &mut String, tree: &Tree, words: &mut Words<'_>) -> Result<(), StoreError> {
    let directory = words.number();
    let entries = tree.list(directory, path_in(words))?;
    Ok(push_entries(said, entries.as_slice())?)
}

fn push_more(said: &mut String, tree: &Tree, words: &mut Words<'_>) -> Result<(), StoreError> {
    let directory = words.number();
    let pattern = path_in(words);
    let last = match words.next() {
        "+" => None,
        name => Some(name),
    };
    let class = words.tiny();
    let room = (words.number() % 65_537) as u32;
    let listed = tree.list_from(directory, pattern, last, class, room, words.says("one"))?;
    if !listed.any {
        return Ok(said.push_str("none")?);
    }
    said.push_str("some")?;
    Ok(push_entries(said, listed.entries.as_slice())?)
}

fn push_below(said: &mut String, tree: &Tree, directory: u64) -> Result<(), StoreError> {
    let numbers = tree.below(directory)?;
    if numbers.as_slice().is_empty() {
        return Ok(said.push_str("none")?);
    }
    for number in numbers.as_slice() {
        let between = if said.is_empty() { "" } else { " " };
        write!(said, "{between}{number}")?;
    }
    Ok(())
}

// A call whose memory is taken, and which is then given up.
fn give_up(alloc: Global, tree: &mut Tree, words: &mut Words<'_>) -> Result<(), StoreError> {
    match words.next() {
        "make" => give_up_make(tree, words),
        "rename" => give_up_rename(tree, words),
        _ => give_up_write(alloc, tree, words),
    }
}

fn give_up_make(tree: &mut Tree, words: &mut Words<'_>) -> Result<(), StoreError> {
    let path = path_in(words);
    let directory = words.says("dir");
    let attributes = words.small();
    let new = tree.prepare_make(path, directory, attributes, words.number())?;
    tree.cancel_make(new);
    Ok(())
}

fn give_up_rename(tree: &mut Tree, words: &mut Words<'_>) -> Result<(), StoreError> {
    let file = words.number();
    let path = path_in(words);
    let moved = tree.prepare_rename(file, path, words.says("replace"))?;
    tree.cancel_rename(moved);
    Ok(())
}

fn give_up_write(alloc: Global, tree: &mut Tree, words: &mut Words<'_>) -> Result<(), StoreError> {
    let file = words.number();
    let at = words.number();
    let bytes = bytes_in(alloc, words)?;
    if !bytes.is_empty() {
        let _ = tree.prepare_write(file, at, &bytes)?;
    }
    Ok(())
}

fn push_info(said: &mut String, tree: &Tree, file: u64) -> Result<(), AllocError> {
    let info = tree.info(file);
    let kind = if info.directory { "dir" } else { "file" };
    let mark = if info.marked { "marked" } else { "kept" };
    let b = info.basic;
    write!(
        said,
        "{kind} {} {mark} {} {} {} {} {}",
        info.length, b.created, b.accessed, b.written, b.changed, b.attributes
    )
}
