// The vocabulary: variables and literals, counts, classes of bytes, refusals and answers.
// What each of them means stands in specs/, in the paper's order.
#![tactic(auto)]

ghost use Rattle.std.specs.Prelude.{◌≡◌, ◌-◌, max, min, ltb};
ghost use Rattle.plan.specs.Literals.{lit_at, word_of, halved, sign_of, negated, signed_as, in_range, var_at, index_of, doubled, is_reset};

// A variable's index. Neither it nor a literal stands for the other: a doubling and a halving lead across.
#[derive(Clone, Copy)]
pub struct Var(u32);

// Twice a variable and the sign (AIGER report, section 6).
#[derive(Clone, Copy)]
pub struct Lit(u32);

impl Var {
    // The variable of an index that a table of variables holds.
    pub fn at(index: u32) -> Var
        ensures { result ≡ var_at index }
    {
        Var(index)
    }

    pub fn index(self) -> u32
        ensures { result ≡ index_of self }
    {
        self.0
    }

    // The doubling: the variable's literal without sign.
    pub fn lit(self) -> Lit
        ensures { result ≡ doubled self }
    {
        Lit(self.0 << 1)
    }
}

impl Lit {
    // The one door from a word of a circuit's table.
    pub fn at(word: u32) -> Lit
        ensures { result ≡ lit_at word }
    {
        Lit(word)
    }

    pub fn word(self) -> u32
        ensures { result ≡ word_of self }
    {
        self.0
    }

    // The halving.
    pub fn var(self) -> Var
        ensures { result ≡ halved self }
    {
        Var(self.0 / 2)
    }

    // 1 if the literal is negated, else 0.
    pub fn sign(self) -> u32
        ensures { result ≡ sign_of (word_of self) }
    {
        self.0 % 2
    }

    pub fn negated(self) -> Lit
        ensures { result ≡ negated self }
    {
        Lit(self.0 ^ 1)
    }

    // This literal, negated if the other is.
    pub fn signed_as(self, other: Lit) -> Lit
        ensures { result ≡ signed_as self other }
    {
        Lit(self.0 ^ other.sign())
    }

    // Whether the literal is in its range under M, where it defines a variable or does not.
    pub fn within(self, defines: bool, m: u32) -> bool
        ensures { result ≡ in_range defines m (word_of self) }
    {
        let v = self.var().index();
        if !defines {
            return v <= m;
        }
        if self.sign() == 1 {
            return false;
        }
        if v == 0 {
            return false;
        }
        v <= m
    }

    pub fn below(self, other: Lit) -> bool
        ensures { result ≡ ltb (word_of self) (word_of other) }
    {
        self.0 < other.0
    }

    // The larger right side of a gate stands first (AIGER report, section 11).
    pub fn larger(self, other: Lit) -> Lit
        ensures { result ≡ lit_at (max (word_of self) (word_of other)) }
    {
        let a = self.0;
        let b = other.0;
        if a < b {
            return Lit(b);
        }
        Lit(a)
    }

    pub fn smaller(self, other: Lit) -> Lit
        ensures { result ≡ lit_at (min (word_of self) (word_of other)) }
    {
        let a = self.0;
        let b = other.0;
        if a < b {
            return Lit(a);
        }
        Lit(b)
    }

    // The difference of two literals, 0 where the other is larger (AIGER report, section 11).
    pub fn minus(self, other: Lit) -> u32
        ensures { result ≡ word_of self - word_of other }
    {
        let a = self.0;
        let b = other.0;
        if a < b {
            return 0;
        }
        a - b
    }

    // The literal that lies a difference below this one, 0 where the difference is larger.
    pub fn down(self, difference: u32) -> Lit
        ensures { result ≡ lit_at (word_of self - difference) }
    {
        let a = self.0;
        if a < difference {
            return Lit(0);
        }
        Lit(a - difference)
    }
}

// Whether a word is a reset of the latch with this literal: 0, 1 or the latch's own literal, which is x (AIGER 1.9).
pub fn is_reset(own: u32, reset: u32) -> bool
    ensures { result ≡ is_reset own reset }
{
    if reset == 0 {
        return true;
    }
    if reset == 1 {
        return true;
    }
    reset == own
}

// M, I, L, O, A, B, C: the largest variable; the inputs, latches, outputs and gates, bad states and constraints.
#[derive(Clone, Copy)]
pub struct Counts {
    pub M: usize,
    pub I: usize,
    pub L: usize,
    pub O: usize,
    pub A: usize,
    pub B: usize,
    pub C: usize,
}

// The report of 2007, or 1.9, which goes on from it.
#[derive(Clone, Copy)]
pub enum Version {
    V2007,
    V19,
}

// The six classes of bytes: new line, space, digit 0, digits 1 to 9, other printable, the rest.
#[derive(Clone, Copy)]
pub enum Class {
    Line,
    Space,
    Zero,
    Digit,
    Print,
    Rest,
}

// One case for each refusal number from 1 to 27, in their order, each with its place.
#[derive(Clone, Copy)]
pub enum Refusal {
    WrongByte(usize),
    LargeCount(usize),
    WrongSum(usize),
    ShortTable(usize),
    OutOfRange(usize),
    DefinedTwice(usize),
    NotDefined(usize),
    Cyclic(usize),
    BadDifference(usize),
    BadSymbol(usize),
    ShortBuffer(usize),
    BadVector(usize),
    LongInput(usize),
    Unreadable(usize),
    NotInOrder(usize),
    LongDifference(usize),
    NotExplained(usize),
    WrongMark(usize),
    NotOnCards(usize),
    ManyX(usize),
    Justice(usize),
    NoGate(usize),
    WrongValue(usize),
    ManyGates(usize),
    ManyLatches(usize),
    ManyInputs(usize),
    NotAlike(usize),
}

// What the witness question finds: whether every filling of the x shows a 1, and how many were tried.
#[derive(Clone, Copy)]
pub enum Finding {
    Yes(usize),
    No(usize),
    Undecided(usize),
}

// What the search finds: it never happens, and how many states are reached; it can, by a list of so many steps; or the
// allowance is used up. Each with the tries made.
#[derive(Clone, Copy)]
pub enum Happening {
    Never(usize, usize),
    Can(usize, usize),
    Undecided(usize),
}
