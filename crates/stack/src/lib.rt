// The stack of a walk: blocks, each with how many of its arms have been started. Push and pop take it and hand it back.
// Its room is lent to it, so that what is handed back is a reference and a number.
#![tactic(auto)]

ghost use Rattle.std.specs.Prelude.{◌≡◌, [], ◌∷◌, ◌<◌, ◌≤◌, length};
ghost use Rattle.limits.specs.Limits.{blocks};

use limits::BLOCKS;

#[derive(Clone, Copy)]
pub struct Frame {
    pub block: u16,
    pub arm: u16,
}

// No block is entered twice, so there is room for as many frames as there are blocks. A table for each field: of a table of
// frames a pop reads both fields at once, which waits until the push before it, of one field and then the other, is through.
#[derive(Clone, Copy)]
pub struct Room {
    pub block: [u16; BLOCKS],
    pub arm: [u16; BLOCKS],
}

pub const EMPTY: Room = Room {
    block: [0; BLOCKS],
    arm: [0; BLOCKS],
};

// The room that is lent, and how many frames are on it: the first places, the top last.
#[derive(Drop)]
pub struct Stack<'a> {
    pub slots: &'a mut Room,
    pub len: usize,
    pub ghost within: { (len ≤ blocks) × (length slots.now.block ≡ blocks) × (length slots.now.arm ≡ blocks) },
}

// What a pop hands back: the stack without its top, and the top, if there was one.
#[derive(Drop)]
pub struct Popped<'a> {
    pub stack: Stack<'a>,
    pub top: Option<Frame>,
}

impl<'a> Stack<'a> {
    ghost use Rattle.stack.specs.Frames.{frame, stack_of, Pushed, PoppedOf};

    pub fn new(slots: &'a mut Room) -> Self
        ensures room { (result.slots ≡ slots.entry) × (result.len ≡ 0) }
        ensures frames { stack_of result ≡ [] }
    {
        Stack { slots, len: 0 }
    }

    // A store into its place of the room, and one frame more.
    pub fn push(mut self, block: u16, arm: u16) -> Self
        requires { self.len < blocks }
        ensures room { Pushed self.entry block arm result }
        ensures frames { stack_of result ≡ frame block arm ∷ stack_of self.entry }
    {
        let Stack { slots, len } = self;
        slots.block[len] = block;
        slots.arm[len] = arm;
        Stack {
            slots,
            len: len + 1,
        }
    }

    pub fn pop(mut self) -> Popped<'a>
        ensures { PoppedOf self.entry result }
    {
        let Stack { slots, len } = self;
        if len == 0 {
            return Popped {
                stack: Stack { slots, len },
                top: None,
            };
        }
        let top = len - 1;
        let frame = Frame {
            block: slots.block[top],
            arm: slots.arm[top],
        };
        Popped {
            stack: Stack { slots, len: top },
            top: Some(frame),
        }
    }
}
