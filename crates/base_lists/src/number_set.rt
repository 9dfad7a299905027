//! A set of numbers below a count, which tells its members one by one.

ghost use Rattle.std.specs.Prelude.{◌≡◌, ℕ, ◌+◌, ◌-◌, ◌==◌, ◌<◌, ◌^◌, true, false, if◌then◌else◌, length, take, slice_index, OnOk, OnErr};
ghost use Rattle.base_lists.specs.number_set.Members.{MembersFit, HasMemberPlace, count, has, is_in, member, place, size};

mod order;

use order::{add_last, front, make_room, swap_in};
use std::alloc::{AllocError, Global};

/// Numbers from 0 on, and which of them are members. Each call but `reserve` and `push` takes a few steps and no memory.
#[derive(Drop)]
pub struct Members {
    // Two lists, each the inverse of the other, in place of flags or a hash set: the members are a slice, and a swap
    // in both moves a number in or out without memory.
    /// All numbers, the members first.
    order: Vec<u32>,
    /// By number, where it stands there.
    places: Vec<u32>,
    /// How many are members.
    count: usize,
}

impl Members {
    /// No numbers. It takes no memory.
    pub fn new(alloc: Global) -> Members
        ensures fits { MembersFit result }
        ensures size { size result ≡ 0 }
        ensures count { count result ≡ 0 }
    {
        Members {
            order: Vec::new(alloc),
            places: Vec::new(alloc),
            count: 0,
        }
    }

    /// How many numbers there are.
    pub fn len(&self) -> usize
        ensures { result ≡ size self.now }
    {
        self.places.len()
    }

    /// How many members there are.
    pub fn count(&self) -> usize
        ensures { result ≡ count self.now }
    {
        self.count
    }

    /// Whether a number is a member.
    pub fn has(&self, number: usize) -> bool
        requires { number < size self.now }
        ensures { result ≡ has self.now number }
    {
        (self.places[number] as usize) < self.count
    }

    /// The member at a place, counted from 0.
    pub fn at(&self, index: usize) -> usize
        requires fits { MembersFit self.now }
        requires within { index < count self.now }
        ensures is { result ≡ member self.now index }
        ensures has { has self.now result ≡ true }
        ensures place { place self.now result ≡ index }
        ensures below { result < size self.now }
    {
        self.number_at(index)
    }

    fn number_at(&self, index: usize) -> usize
        requires { index < length self.now.order.items }
        ensures { result ≡ member self.now index }
    {
        self.order[index] as usize
    }

    fn place_of(&self, number: usize) -> usize
        requires { number < size self.now }
        ensures { result ≡ place self.now number }
    {
        self.places[number] as usize
    }

    /// Makes room for one number more. The set stays as it is, and where memory runs out too.
    pub fn reserve(&mut self) -> Result<(), AllocError>
        requires fits { MembersFit self.old }
        ensures fits { MembersFit self.new }
        ensures size { size self.new ≡ size self.old }
        ensures count { count self.new ≡ count self.old }
        ensures has { (h : ℕ) → has self.new h ≡ has self.old h }
        ensures members { (i : ℕ) → member self.new i ≡ member self.old i }
        ensures room { OnOk result (HasMemberPlace self.new) }
    {
        make_room(&mut self.order, &mut self.places)
    }

    /// Adds a number, which is no member, where there is room for it. It takes no memory.
    pub fn add(&mut self)
        requires fits { MembersFit self.old }
        requires few { size self.old + 1 < 2 ^ 32 }
        requires room { HasMemberPlace self.old }
        ensures fits { MembersFit self.new }
        ensures size { size self.new ≡ size self.old + 1 }
        ensures count { count self.new ≡ count self.old }
        ensures has { (h : ℕ) → h < size self.old → has self.new h ≡ has self.old h }
        ensures apart { has self.new (size self.old) ≡ false }
        ensures members { (i : ℕ) → i < count self.old → member self.new i ≡ member self.old i }
    {
        add_last(&mut self.order, &mut self.places);
    }

    /// Adds a number, which is no member. Where memory runs out nothing changes.
    pub fn push(&mut self) -> Result<(), AllocError>
        requires fits { MembersFit self.old }
        requires few { size self.old + 1 < 2 ^ 32 }
        ensures fits { MembersFit self.new }
        ensures ok { OnOk result (size self.new ≡ size self.old + 1) }
        ensures err { OnErr result (size self.new ≡ size self.old) }
        ensures count { count self.new ≡ count self.old }
        ensures has { (h : ℕ) → h < size self.old → has self.new h ≡ has self.old h }
        ensures apart { OnOk result (has self.new (size self.old) ≡ false) }
        ensures members { (i : ℕ) → i < count self.old → member self.new i ≡ member self.old i }
    {
        self.reserve()?;
        self.add();
        Ok(())
    }

    /// A number that is no member becomes the last one.
    pub fn put(&mut self, number: usize)
        requires fits { MembersFit self.old }
        requires within { number < size self.old }
        requires apart { has self.old number ≡ false }
        ensures fits { MembersFit self.new }
        ensures size { size self.new ≡ size self.old }
        ensures count { count self.new ≡ count self.old + 1 }
        ensures has { (h : ℕ) → h < size self.old → has self.new h ≡ (if h == number then true else has self.old h) }
        ensures last { place self.new number ≡ count self.old }
        ensures members { (i : ℕ) → i < count self.old → member self.new i ≡ member self.old i }
    {
        let place = self.place_of(number);
        swap_in(&mut self.order, &mut self.places, place, self.count);
        self.count += 1;
    }

    /// A member is none any more. The last one takes its place.
    pub fn remove(&mut self, number: usize)
        requires fits { MembersFit self.old }
        requires within { number < size self.old }
        requires present { has self.old number ≡ true }
        ensures fits { MembersFit self.new }
        ensures size { size self.new ≡ size self.old }
        ensures count { count self.new + 1 ≡ count self.old }
        ensures has { (h : ℕ) → h < size self.old → has self.new h ≡ (if h == number then false else has self.old h) }
        ensures members { (i : ℕ) → i < place self.old number → member self.new i ≡ member self.old i }
        ensures moved { member self.new (place self.old number) ≡ member self.old (count self.new) }
        ensures others { (i : ℕ) → i < count self.new → (i ≡ place self.old number → ⊥) → member self.new i ≡ member self.old i }
    {
        let place = self.place_of(number);
        let last = self.count - 1;
        swap_in(&mut self.order, &mut self.places, place, last);
        self.count = last;
    }

    /// The members, in their order.
    pub fn members(&self) -> &[u32]
        requires fits { MembersFit self.now }
        ensures is { result.now ≡ take (count self.now) self.now.order.items }
        ensures within { (i : ℕ) → i < length result.now → slice_index result.now i < size self.now }
        ensures all { (g : ℕ) → g < size self.now → has self.now g ≡ true → is_in g result.now ≡ true }
    {
        front(&self.order, self.count)
    }

    /// No number is a member any more.
    pub fn clear(&mut self)
        requires fits { MembersFit self.old }
        ensures fits { MembersFit self.new }
        ensures size { size self.new ≡ size self.old }
        ensures count { count self.new ≡ 0 }
        ensures has { (h : ℕ) → has self.new h ≡ false }
    {
        self.count = 0;
    }
}
