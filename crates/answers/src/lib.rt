#![tactic(auto)]
// What every call of the library answers: a success with its amount, or a refusal with 01's number.
ghost use Rattle.std.specs.Prelude.{◌≡◌, ℕ, cond};
ghost use Rattle.answers.specs.Counted.{counted_with};
ghost use Rattle.answers.specs.Numbers.{carried_by, number_of};
ghost use Rattle.answers.specs.Tells.{amount_found, packed_of, refusal, success, tells};

// Why a call is refused.
#[derive(Clone, Copy)]
pub enum Refusal {
    // There are fewer bytes than stand in front in any case: 16 of a record, 20 of a type chunk.
    TooFewBytes,
    // There are 16 bytes or more, and fewer than the record's size: the field of this row is the first that is cut.
    FieldCut(usize),
    // The age is not among the twelve.
    NotAnAge,
    // The record is held back at the age.
    HeldBack,
    // The lent buffer is shorter than what is to be written.
    ShortBuffer,
    // A field that isn't read at the record's size isn't zero.
    UnreadField,
    // There are more than 65,536 bytes of input.
    TooMuchInput,
    // There are 16 bytes or more, and fewer than the record's size: no field is cut, only undecoded bytes are lacking.
    UndecodedCut,
    // The type of a chunk isn't 0x0201.
    WrongType,
    // A chunk's header is shorter than 20 bytes or longer than the chunk, or the chunk is longer than the bytes given.
    WrongSizes,
    // A directory name isn't in the grammar: the part at this offset is the first that ends no name.
    NotAName(usize),
    // A number that is given for the marks in one word has a bit set from bit 28 up.
    TopBits,
}

// What an answer says in 01's numbers. A success has number 0 and an amount: the bytes taken or written, or what its answer enum says, as
// the order of two records or whether one is held back, and carries 0. A refusal has its number, amount 0, and what it carries.
#[derive(Clone, Copy)]
pub struct Told {
    pub number: u32,
    pub amount: usize,
    pub carried: usize,
}

// What the success of a call that writes a text gives: how many bytes it wrote, and how many replacements the text has.
#[derive(Clone, Copy)]
pub struct Counted {
    pub length: usize,
    pub replacements: usize,
}

impl Counted {
    // The answer of a call whose text has so many replacements. A refused call made none.
    pub fn of(answer: Result<usize, Refusal>, replacements: usize) -> Result<Self, Refusal>
        ensures { result ≡ counted_with replacements answer }
    {
        answer.map(|length| Self {
            length,
            replacements,
        })
    }
}

// What a call gives, seen as the amount that its success tells.
pub trait Amount {
    ghost amount_of: { Self → ℕ };

    fn amount(self) -> usize
        ensures { result ≡ amount_of self };
}

impl Amount for usize {
    ghost amount_of = { λ n. n };

    fn amount(self) -> usize {
        self
    }
}

impl Amount for u32 {
    ghost amount_of = { λ n. n };

    fn amount(self) -> usize {
        self as usize
    }
}

// A yes is 1.
impl Amount for bool {
    ghost amount_of = { λ yes. cond yes 1 0 };

    fn amount(self) -> usize {
        usize::from(self)
    }
}

// A place that was looked for is told from 1 on, and 0 tells that there is none.
impl Amount for Option<u32> {
    ghost amount_of = { amount_found };

    fn amount(self) -> usize {
        self.map_or(0, |place| 1 + place as usize)
    }
}

impl Amount for Counted {
    ghost amount_of = { λ counted. counted.length };

    fn amount(self) -> usize {
        self.length
    }
}

impl Refusal {
    // The refusal's number in 01's table.
    pub fn number(self) -> u32
        ensures { result ≡ number_of self }
    {
        match self {
            Self::TooFewBytes => 1,
            Self::FieldCut(_) => 2,
            Self::NotAnAge => 3,
            Self::HeldBack => 4,
            Self::ShortBuffer => 5,
            Self::UnreadField => 6,
            Self::TooMuchInput => 7,
            Self::UndecodedCut => 8,
            Self::WrongType => 9,
            Self::WrongSizes => 10,
            Self::NotAName(_) => 11,
            Self::TopBits => 12,
        }
    }

    // The number that the refusal carries beside its own, 0 where it carries none.
    pub fn carried(self) -> usize
        ensures { result ≡ carried_by self }
    {
        match self {
            Self::TooFewBytes => 0,
            Self::FieldCut(row) => row,
            Self::NotAnAge => 0,
            Self::HeldBack => 0,
            Self::ShortBuffer => 0,
            Self::UnreadField => 0,
            Self::TooMuchInput => 0,
            Self::UndecodedCut => 0,
            Self::WrongType => 0,
            Self::WrongSizes => 0,
            Self::NotAName(at) => at,
            Self::TopBits => 0,
        }
    }

    // What a refused call tells.
    pub fn told(self) -> Told
        ensures { result ≡ refusal self }
    {
        Told {
            number: self.number(),
            amount: 0,
            carried: self.carried(),
        }
    }
}

impl Told {
    // What a success tells.
    pub fn success(amount: usize) -> Self
        ensures { result ≡ success amount }
    {
        Told {
            number: 0,
            amount,
            carried: 0,
        }
    }

    // What is told as one number: the number times 2^32, and the lower 32 bits of a success's amount or of what a refusal carries.
    pub fn packed(self) -> u64
        ensures { result ≡ packed_of self }
    {
        if self.number == 0 {
            self.amount as u64 % 4294967296
        } else {
            self.number as u64 * 4294967296 + self.carried as u64 % 4294967296
        }
    }
}

// What an answer tells in 01's numbers.
impl<A: Amount + Drop> From<Result<A, Refusal>> for Told {
    ghost from_gives = { λ answer told. told ≡ tells A.amount_of answer };

    fn from(answer: Result<A, Refusal>) -> Told {
        match answer {
            Ok(given) => Told::success(given.amount()),
            Err(why) => why.told(),
        }
    }
}
