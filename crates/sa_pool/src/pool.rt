//! Which slots are free and which are live.

ghost use Rattle.std.specs.Prelude.{◌≡◌, ◌+◌, ◌*◌, ◌^◌, ◌<◌, ◌≤◌, ◌↔◌, [], length, slice_set, Contains, IsNone, IfSome, IfNone};
ghost use Rattle.sa_pool.specs.Chain.{start_of};
ghost use Rattle.sa_pool.specs.Changes.{GoesLive, KeepsLive};
ghost use Rattle.sa_pool.specs.Slots.{AreAllSlots};

use crate::head::Head;
use crate::word_mem::WordMem;
use std::marker::Model;

/// How many slots there are.
const SLOTS: u16 = 10_000;

/// 10,000 slots of so many words each, which follow one another after the first word of a memory. Contracts see the numbers of the free
/// slots and those of the live ones, how many words a slot has, and the words of the memory.
#[derive(Drop)]
pub struct Pool<M: WordMem> {
    mem: M,
    slot_words: u32,
}

impl<M: WordMem> Model for Pool<M> {
    ghost use Rattle.sa_pool.specs.Slots.{Slots};
    ghost use Rattle.sa_pool.specs.Chain.{slots_of, IsPool};

    ghost Value = { Slots };

    ghost view = { λ p. slots_of (M.words p.mem) p.slot_words };

    ghost invariant = { λ p. IsPool (M.words p.mem) p.slot_words };
}

impl<M: WordMem> Pool<M> {
    /// A pool in which no slot is live. Of a memory that is 0 no word changes.
    pub fn new(mut mem: M, slot_words: u32) -> Pool<M>
        requires some { 0 < slot_words }
        requires room { 10000 * slot_words + 1 ≤ length (M.words mem) }
        ensures none { result.live ≡ [] }
        ensures all { AreAllSlots result.free result.live }
        ensures words { result.words ≡ slice_set (M.words mem) 0 0 }
        ensures slot_words { result.slot_words ≡ slot_words }
    {
        mem.store(0, 0);
        Pool { mem, slot_words }
    }

    /// Allocates a free slot, which is live from then on. `None` where all are live.
    pub fn take(&mut self) -> Option<u32>
        ensures none { IsNone result ↔ (length self.old.live ≡ 10000) }
        ensures taken { IfSome result (GoesLive self.old self.new) }
        ensures unchanged { IfNone result (self.new ≡ self.old) }
        ensures kept { KeepsLive self.old self.new }
        ensures all { AreAllSlots self.new.free self.new.live }
    {
        let head = Head::of(self.mem.load(0));
        if head.top > 0 {
            let slot = head.top - 1;
            let next = self.mem.load(start(slot, self.slot_words));
            let after = Head {
                used: head.used,
                top: next as u16,
                live: head.live + 1,
            };
            self.mem.store(0, after.word());
            return Some(u32::from(slot));
        }
        if head.used == SLOTS {
            return None;
        }
        let after = Head {
            used: head.used + 1,
            top: 0,
            live: head.live + 1,
        };
        self.mem.store(0, after.word());
        Some(u32::from(head.used))
    }

    /// Frees a live slot.
    pub fn give(&mut self, slot: u32)
        requires { Contains self.old.live slot }
        ensures given { GoesLive self.new self.old slot }
        ensures kept { KeepsLive self.old self.new }
        ensures all { AreAllSlots self.new.free self.new.live }
    {
        let head = Head::of(self.mem.load(0));
        let slot = slot as u16;
        self.mem
            .store(start(slot, self.slot_words), u64::from(head.top));
        let after = Head {
            used: head.used,
            top: slot + 1,
            live: head.live - 1,
        };
        self.mem.store(0, after.word());
    }

    /// How many slots are live.
    pub fn live(&self) -> u32
        ensures { result ≡ length self.now.live }
    {
        u32::from(Head::of(self.mem.load(0)).live)
    }
}

/// Where a slot begins.
fn start(slot: u16, slot_words: u32) -> u32
    requires below { slot < 10000 }
    requires room { 10000 * slot_words + 1 < 2 ^ 32 }
    ensures { result ≡ start_of slot_words slot }
{
    u32::from(slot) * slot_words + 1
}
