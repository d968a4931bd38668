// The types of document 01: places, operands, statements and blocks, as they stand in memory. What
// they mean is in specs/, one file for each paragraph of the document.

#![tactic(auto)]

ghost use Rattle.std.specs.Prelude.{◌≡◌};
ghost use Rattle.meaning.specs.Refusals.{number_of, needed_of};

// "A place is a variable or a cell (array and fixed index)."
#[derive(Clone, Copy)]
pub enum Place {
    Variable(u8),
    Cell(u8, u8),
}

// "An operand is a constant or a place." Nothing stands where there is none: right of a copy.
#[derive(Clone, Copy)]
pub enum Operand {
    Nothing,
    Constant(u32),
    Held(Place),
}

// "A statement has a destination, an operation and one or two operands."
#[derive(Clone, Copy)]
pub struct Statement {
    pub operation: u8,
    pub destination: Place,
    pub left: Operand,
    pub right: Operand,
}

impl Statement {
    // What stands in a slot that is not declared.
    pub const BLANK: Statement = Statement {
        operation: 0,
        destination: Place::Variable(0),
        left: Operand::Nothing,
        right: Operand::Nothing,
    };
}

// A block in memory. The counts say how many of the slots are declared.
#[derive(Clone, Copy)]
pub struct Block {
    pub variables: u8,
    pub live: u8,
    pub arrays: u8,
    pub count: u8,
    pub lengths: [u16; 8],
    pub statements: [Statement; 64],
}

// Why a call is refused: "Numbers returned", in their order.
#[derive(Clone, Copy, Debug, PartialEq, Eq)]
pub enum Refusal {
    Version,
    Length,
    Limits,
    Form,
    Undeclared,
    Sizes,
    Room { needed: usize },
    List,
    Rules,
}

impl Refusal {
    pub fn number(self) -> u8
        ensures { result ≡ number_of self }
    {
        match self {
            Refusal::Version => 1,
            Refusal::Length => 2,
            Refusal::Limits => 3,
            Refusal::Form => 4,
            Refusal::Undeclared => 5,
            Refusal::Sizes => 6,
            Refusal::Room { .. } => 7,
            Refusal::List => 8,
            Refusal::Rules => 9,
        }
    }

    // "7 also returns the length needed"
    pub fn needed(self) -> usize
        ensures { result ≡ needed_of self }
    {
        match self {
            Refusal::Room { needed } => needed,
            _ => 0,
        }
    }
}
