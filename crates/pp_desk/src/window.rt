//! Bytes that are held of a source: taken at the end, given up at the front.
ghost use Rattle.std.specs.Prelude.{◌≡◌, ◌<◌, ◌≤◌, ◌-◌, [], length, take, drop, IfOk};
ghost use Rattle.pp_base.specs.Words.{Rose};
ghost use Rattle.pp_desk.specs.Window.{Fills};

use pp_base::{Memory, Source, SourceRead};
use std::alloc::Global;
use std::marker::Model;

/// The most bytes of a window: twice those of a line, so that a line that is still short of its end leaves room.
pub const WINDOW_LIMIT: usize = 131_072;

/// The bytes of a buffer from `start` to `end`.
#[derive(Debug, Drop)]
pub struct Window {
    buffer: Vec<u8>,
    start: usize,
    end: usize,
}

impl Model for Window {
    ghost use Rattle.std.specs.Prelude.{◌≡◌, ◌≤◌, ◌-◌, List, ℕ, length, take, drop};
    ghost use Rattle.pp_desk.specs.declared.window.TheConstants.{WINDOW_LIMIT};

    ghost Value = { List ℕ };

    ghost view = { λ w. take (w.end - w.start) (drop w.start w.buffer.items) };

    ghost invariant = { λ w. (w.start ≤ w.end) × (w.end ≤ WINDOW_LIMIT)
        × (length w.buffer.items ≡ WINDOW_LIMIT) };
}

impl Window {
    /// A window of no bytes, with all the memory that it will need.
    pub fn new(alloc: Global) -> Result<Self, Memory>
        ensures { IfOk result (λ window. window ≡ []) }
    {
        let buffer = vec![in alloc; 0; WINDOW_LIMIT]?;
        Ok(Window {
            buffer,
            start: 0,
            end: 0,
        })
    }

    /// The bytes that are held, in order.
    pub fn bytes(&self) -> &[u8]
        ensures { result.now ≡ self.now }
    {
        &self.buffer[self.start..self.end]
    }

    /// The number of bytes that are held.
    pub fn len(&self) -> usize
        ensures value { result ≡ length self.now }
        ensures limit { result ≤ WINDOW_LIMIT }
    {
        self.end - self.start
    }

    /// Gives up the first bytes, as many as this.
    pub fn skip(&mut self, count: usize)
        requires { count ≤ length self.old }
        ensures { self.new ≡ drop count self.old }
    {
        self.start += count;
    }

    /// Takes some bytes of the source behind those that are held, at most as many as this.
    pub fn fill<I: Source>(&mut self, input: &mut I, most: usize) -> SourceRead
        requires room { length self.old < WINDOW_LIMIT }
        requires most { 0 < most }
        ensures bytes { Fills (I.left input.old) (I.left input.new) self.old self.new most result }
        ensures limit { length self.new ≤ WINDOW_LIMIT }
        ensures later { I.faults input.old ≤ I.faults input.new }
        ensures failed { result ≡ SourceRead.Failed
            → Rose (I.faults input.old) (I.faults input.new) }
    {
        move_to_front(&mut self.buffer, self.start, self.end);
        self.end -= self.start;
        self.start = 0;
        let most = most.min(WINDOW_LIMIT - self.end);
        let answer = input.read(&mut self.buffer[self.end..self.end + most]);
        if let SourceRead::Got(count) = answer {
            self.end += count;
        }
        answer
    }
}

// Moves the bytes from `start` to `end` to the front. Each byte is moved once at most: from then on the start is 0
// until the bytes are given up.
fn move_to_front(buffer: &mut Vec<u8>, start: usize, end: usize)
    requires { (start ≤ end) × (end ≤ length buffer.old.items) }
    ensures front { take (end - start) buffer.new.items
        ≡ take (end - start) (drop start buffer.old.items) }
    ensures len { length buffer.new.items ≡ length buffer.old.items }
{
    if start > 0 {
        buffer.copy_within(start..end, 0);
    }
}
