// The table by terminal: an input's source, an output's kind; and the marks and bits.
ghost use Rattle.std.specs.Prelude.{◌≡◌, ◌+◌, ◌≤◌, ◌<◌, length, get_or};
ghost use Rattle.memory.specs.Map.{memory_size};
ghost use Rattle.trace_calculus.specs.Trace.{bit_byte_lem as bit};
ghost use Rattle.trace_steps.specs.Steps.{Looks, first_in, input_bit};
ghost use Rattle.trace_steps.specs.Words.{every_lane, input_word, chosen_word as chosen};

// What stands where during a run is said in specs/Map.
pub const REST: usize = memory::TARGETS;

pub const REGISTERS: usize = memory::TARGETS;

pub const ORDER: usize = memory::ELEMENTS;

pub const PINS: usize = memory::STACK;

pub const BITS: usize = memory::ROOTS;

// An output's entry is KIND and its element's kind: a part's number in the table of parts, or a point's.
pub const KIND: u16 = lean::KIND;

pub const ZERO_ENTRY: u16 = KIND + parts::ZERO;

pub const REGISTER_ENTRY: u16 = KIND + parts::REG;

pub const OR_ENTRY: u16 = KIND + parts::OR;

pub const XOR_ENTRY: u16 = KIND + parts::XOR;

// A gate of two inputs has a lower one.
pub const INVERTER_ENTRY: u16 = KIND + parts::INV;

pub const ONE_ENTRY: u16 = KIND + parts::ONE;

pub const POINT_ENTRY: u16 = KIND + memory::POINT;

// The number at i.
pub fn at(work: &[u16], i: usize) -> usize
    requires { i < length work.now }
    ensures { result ≡ get_or work.now i 0 }
{
    work[i] as usize
}

// The first of the inputs of the output o.
pub fn first_of(work: &[u16], o: usize) -> usize
    requires { Looks work.now o }
    ensures { result ≡ first_in work.now o }
{
    if work[o] < INVERTER_ENTRY {
        return o - 2;
    }
    o - 1
}

// The bit, or mark, of the source of input x.
pub fn is_fed(work: &[u16], x: usize) -> bool
    requires { (memory_size ≤ length work.now) × ((x < 8192) × (get_or work.now x 0 < 8192)) }
    ensures { result ≡ input_bit work.now x }
{
    work[BITS + work[x] as usize] == 1
}

// A bit as a number.
pub fn byte(b: bool) -> u16
    ensures { result ≡ bit b }
{
    if b { 1 } else { 0 }
}

// The bits of the source of input x.
pub fn fed(work: &[u16], x: usize) -> u16
    requires { (memory_size ≤ length work.now) × ((x < 8192) × (get_or work.now x 0 < 8192)) }
    ensures { result ≡ input_word work.now x }
{
    work[BITS + work[x] as usize]
}

// All bits, or none.
pub fn all(b: bool) -> u16
    ensures { result ≡ every_lane b }
{
    if b { 65535 } else { 0 }
}

// One of two numbers.
pub fn pick(b: bool, x: u16, y: u16) -> u16
    ensures { result ≡ chosen b x y }
{
    if b { x } else { y }
}
