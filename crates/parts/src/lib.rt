// The table of the seven parts (document 01, "The sheet"), for the checker, the netlist writer and the listing.
#![tactic(auto)]

ghost use Rattle.std.specs.Prelude.{◌≡◌, length};
ghost use Rattle.parts.specs.Table.{said_part, entry_of, said_named, named, name_at, padded};

// A part: its inputs, its outputs and the shape of its type, as the number of arrows from the single bit: 0 is the bit itself,
// 1 reg's type, 2 the arrow from the bit to reg's type; and if it takes a pair of single bits to one in the second edition.
// The shape is a number since the definitions count arrows: an enum would be translated to that number in each contract.
#[derive(Clone, Copy, Debug, PartialEq, Eq)]
pub struct Part {
    pub inputs: u8,
    pub outputs: u8,
    pub shape: u8,
    pub paired: bool,
}

// A name: its letters, zeros behind them, and how many there are. An array and a count, and no slice: `name_of` promises the zeros too (`padded`).
#[derive(Clone, Copy, Debug, PartialEq, Eq)]
pub struct Name {
    pub letters: [u8; 4],
    pub count: u8,
}

// The numbers of the parts: the rows of the table, by name. Numbers and no enum: they are bytes of a sheet, and the working memory holds
// them in u16.
pub const ZERO: u16 = 0;

pub const REG: u16 = 1;

pub const AND: u16 = 2;

pub const OR: u16 = 3;

pub const XOR: u16 = 4;

pub const INV: u16 = 5;

pub const ONE: u16 = 6;

const PARTS: [Part; 7] = [
    // 0 zero
    Part {
        inputs: 0,
        outputs: 1,
        shape: 0,
        paired: false,
    },
    // 1 reg
    Part {
        inputs: 1,
        outputs: 1,
        shape: 1,
        paired: false,
    },
    // 2 and
    Part {
        inputs: 2,
        outputs: 1,
        shape: 2,
        paired: true,
    },
    // 3 or
    Part {
        inputs: 2,
        outputs: 1,
        shape: 2,
        paired: true,
    },
    // 4 xor
    Part {
        inputs: 2,
        outputs: 1,
        shape: 2,
        paired: true,
    },
    // 5 inv
    Part {
        inputs: 1,
        outputs: 1,
        shape: 1,
        paired: false,
    },
    // 6 one
    Part {
        inputs: 0,
        outputs: 1,
        shape: 0,
        paired: false,
    },
];

// The names stand beside the parts, so that a caller that looks up a part has no name on its stack.
const NAMES: [Name; 7] = [
    Name {
        letters: [b'z', b'e', b'r', b'o'],
        count: 4,
    },
    Name {
        letters: [b'r', b'e', b'g', 0],
        count: 3,
    },
    Name {
        letters: [b'a', b'n', b'd', 0],
        count: 3,
    },
    Name {
        letters: [b'o', b'r', 0, 0],
        count: 2,
    },
    Name {
        letters: [b'x', b'o', b'r', 0],
        count: 3,
    },
    Name {
        letters: [b'i', b'n', b'v', 0],
        count: 3,
    },
    Name {
        letters: [b'o', b'n', b'e', 0],
        count: 3,
    },
];

// The part that a number names, if any.
pub fn part_at(p: u8) -> Option<Part>
    ensures { said_named result ≡ named p }
{
    let i = p as usize;
    if i < 7 {
        let part = PARTS[i];
        Some(part)
    } else {
        None
    }
}

// The part of a number that has been checked; zero stands for any other.
pub fn part_of(p: u16) -> Part
    ensures { said_part result ≡ entry_of p }
{
    let i = p as usize;
    if i < 7 {
        let part = PARTS[i];
        return part;
    }
    let zero = PARTS[0];
    zero
}

// The name of a part; none where there is no such part.
pub fn name_of(p: u8) -> Name
    ensures { (result.letters ≡ padded (name_at p)) × (result.count ≡ length (name_at p)) }
{
    let i = p as usize;
    if i < 7 {
        let name = NAMES[i];
        return name;
    }
    Name {
        letters: [0, 0, 0, 0],
        count: 0,
    }
}
