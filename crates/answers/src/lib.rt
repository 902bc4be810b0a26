// How the code says a refusal: why, and where.
#![tactic(auto)]

ghost use Rattle.std.specs.Prelude.{◌≡◌};
ghost use Rattle.answers.specs.Refusals.{reason_number, refusal_at};

// Why something is refused. The numbers are those of the README's table; 38 and 39 stand for nothing.
#[derive(Clone, Copy, Debug, PartialEq, Eq)]
pub enum Reason {
    LittleMemory = 1,
    LongSheet = 2,
    CutShort = 3,
    UnknownKind = 4,
    UnknownType = 5,
    WrongSort = 6,
    RepeatedType = 7,
    PastLimit = 8,
    BytesBehind = 9,
    NotInScope = 10,
    OtherSort = 11,
    Misfit = 12,
    UsedAgain = 13,
    Unused = 14,
    UnknownPart = 15,
    ManyTerminals = 16,
    ShortOutput = 17,
    VerilogRing = 18,
    RingWithoutRegister = 19,
    WrongBits = 20,
    BrokenRecord = 21,
    WrongTerminal = 22,
    NotDrivenOnce = 23,
    WrongBatch = 24,
    PointBack = 25,
    WrongPartCount = 26,
    RootNoChain = 27,
    CardRing = 28,
    UnreadOutput = 29,
    LongText = 30,
    NoWord = 31,
    OtherWordDue = 32,
    UnknownName = 33,
    TextLimit = 34,
    WrongSide = 35,
    DefinedAbove = 36,
    ShortPlaces = 37,
    CanShow = 40,
    ManyRegisters = 41,
    ManyInputs = 42,
    WrongStarts = 43,
    NoSuchOutput = 44,
    ShortQueue = 45,
}

// A refusal: why, and where, and for a misfit the type number wanted and the one found. Callers pass it on unread.
// The two types are 0 for every other reason: Rattle gives numbers only to enums whose variants are all bare, so that a reason holds no types.
#[derive(Clone, Copy, Debug, PartialEq, Eq)]
pub struct Refusal {
    pub reason: Reason,
    pub place: usize,
    pub wanted: u16,
    pub found: u8,
}

impl Reason {
    // The number that callers in C see: the one that stands beside the variant, which `as` gives.
    pub fn number(self) -> u8
        ensures { result ≡ reason_number self }
    {
        self as u8
    }

    // A refusal that names no types.
    pub fn at(self, place: usize) -> Refusal
        ensures { result ≡ refusal_at self place }
    {
        Refusal {
            reason: self,
            place,
            wanted: 0,
            found: 0,
        }
    }
}
