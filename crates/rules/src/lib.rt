// What the rules and the code both speak of. The rules themselves are definitions: specs/ holds document 01,
// one file a section, and proofs/ what we have proved of it.
#![tactic(auto)]

ghost use Rattle.std.specs.Prelude.{◌≡◌};

// One record, taken apart; `Outside` where a field is outside the layout.
#[derive(Drop)]
pub enum Record {
    Block {
        number: u16,
        marks: u8,
        end: u8,
        weight: u64,
    },
    Arm {
        from: u16,
        to: u16,
        args: u8,
        weight: u64,
    },
    Outside,
}

// Why a file or a call is refused, in the order of document 01's table.
#[derive(Clone, Copy, Debug, PartialEq, Eq)]
pub enum Fault {
    TooLong,
    NotWhole,
    OutsideLayout,
    OutOfOrder,
    ListedBefore,
    SecondEntry,
    NotListed,
    TooManyArms,
    TooManyForEnd,
    NoRoom,
}

// The number that the table gives it.
impl From<Fault> for u64 {
    ghost use Rattle.rules.specs.Faults.{number_of};

    ghost from_gives = { λ fault n. n ≡ number_of fault };

    fn from(fault: Fault) -> u64 {
        match fault {
            Fault::TooLong => 1,
            Fault::NotWhole => 2,
            Fault::OutsideLayout => 3,
            Fault::OutOfOrder => 4,
            Fault::ListedBefore => 5,
            Fault::SecondEntry => 6,
            Fault::NotListed => 7,
            Fault::TooManyArms => 8,
            Fault::TooManyForEnd => 9,
            Fault::NoRoom => 10,
        }
    }
}

// What is refused, and the index of the record that is to blame.
#[derive(Clone, Copy, Debug, PartialEq, Eq)]
pub struct Refusal {
    pub fault: Fault,
    pub place: usize,
}

// What a public call answers: eight numbers, as include/layout.h has them for C (refusal 0 for none, split 256 for none).
#[repr(C)]
#[derive(Drop)]
pub struct Answer {
    pub refusal: u64,
    pub place: u64,
    pub needed: u64,
    pub written: u64,
    pub blocks: u64,
    pub bridges: u64,
    pub moved: u64,
    pub split: u64,
}

// How a block is left, by the cases that document 01 names, nothing among them; a bridge takes the arm with this index.
#[derive(Clone, Copy)]
pub enum Leaving {
    Nothing,
    Jump,
    Branch,
    Exchanged,
    Bridge { arm: usize },
}
