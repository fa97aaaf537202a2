// The refusals of document 01, "Refusal numbers": every refusal has a number and a place.
#![tactic(auto)]

ghost use Rattle.std.specs.Prelude.{◌≡◌, Err};
ghost use Rattle.refusal.specs.Verdict.{number_in};

// Why a call is refused: the rules that 01 numbers, each with its number.
#[derive(Clone, Copy, Debug, PartialEq, Eq)]
pub enum Rule {
    // Tables.
    TableLength = 1,
    TableOrder = 2,
    TableMissing = 3,

    // Planning and search.
    TooManyStatements = 10,
    TooManySlots = 11,
    TooManySelects = 12,
    NoSelects = 13,
    NoSuchVariable = 14,
    UnusedVariable = 15,
    BoundTwice = 16,
    TooManyToSearch = 17,
    NoSoundOrder = 18,

    // Plans.
    PlanCounts = 20,
    OutOutEavt = 21,
    NoSuchSlot = 22,
    WritesSetSlot = 23,
    ReadsUnsetSlot = 24,
    SlotNeverSet = 25,
    NoSuchSelect = 26,
    CostTooLarge = 27,
    NoScans = 28,
    ConstantSelected = 29,

    // Names and text.
    NameEnds = 30,
    TextTooShort = 31,

    // Swaps.
    TooManyElements = 40,

    // Types.
    TypeTable = 50,
    NoSuchAttribute = 51,
    TypeClash = 52,

    // Stored plans.
    BitsRunOut = 60,
    NoSuchCode = 61,
    PadNotZero = 62,
    ByteTooMany = 63,
    NoRoomForImage = 64,

    // Building tables.
    HeapLength = 70,
    BufferTooShort = 71,
}

// A refusal: what is broken, and the place that 01's table gives it.
#[derive(Clone, Copy, Debug, PartialEq, Eq)]
pub struct Refused<R> {
    pub rule: R,
    pub place: usize,
}

// By one of 01's rules.
pub type Refusal = Refused<Rule>;

// What every public call says first: nothing is wrong, or the first refusal in 01's order.
pub type Verdict = Result<(), Refusal>;

impl Rule {
    // The rule's number in 01's table.
    pub fn number(self) -> u8
        ensures { result ≡ number_in self }
    {
        self as u8
    }
}

// The answer that refuses at a place: by a rule, or by any other number or name of what is broken.
pub fn refuse<T, R>(rule: R, place: usize) -> Result<T, Refused<R>>
    ensures { result ≡ Err (record { rule = rule; place = place }) }
{
    Err(Refused { rule, place })
}
