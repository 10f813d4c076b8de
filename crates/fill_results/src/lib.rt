// The Result column of a section: where a section ends, the Result that ends it, and how a Result is carried up from the row below.
#![tactic(auto)]

ghost use Rattle.std.specs.Prelude.{◌≡◌};
ghost use Rattle.fill_results.specs.Results.{is_end, carry_lt, carry_log2_floor, carry_and, carry_pow, carry_pop_count};
ghost use Rattle.fill_results.specs.Results.{ending as ending_of, carry as carry_of};

use field::BFieldElement;
use isa::Opcode;

// The numbers in CI that stand for the six opcodes.
const SPLIT: u64 = Opcode::Split as u64;

const LT: u64 = Opcode::Lt as u64;

const LOG_2_FLOOR: u64 = Opcode::Log2Floor as u64;

const AND: u64 = Opcode::And as u64;

const POP_COUNT: u64 = Opcode::PopCount as u64;

const POW: u64 = Opcode::Pow as u64;

// Whether a row with these words ends its section.
// Words, and no method of `ResultRow`: `check_plain`, which asks it of a row of a table, would fill five fields from that row so that three are read.
#[tactic(auto, unfolding(crate::specs::Results::is_end))]
pub fn is_end(ci: u64, lhs: u64, rhs: u64) -> bool
    ensures { result ≡ is_end ci lhs rhs }
{
    rhs == 0 && (lhs == 0 || ci == Opcode::Pow as u64)
}

// A row whose Result is sought: the words that the Result is made from.
#[derive(Clone, Copy)]
pub struct ResultRow {
    pub copy_flag: u64,
    pub bits: u64,
    pub ci: u64,
    pub lhs: u64,
    pub rhs: u64,
}

impl ResultRow {
    // The Result, where the row ends its section; none where CI is none of the six.
    #[tactic(auto, unfolding(crate::specs::Results::ending))]
    pub fn ending(self) -> Option<u64>
        ensures { result ≡ ending_of self.ci self.bits }
    {
        match self.ci {
            LT if self.bits == 0 => Some(0),
            LT => Some(2),
            LOG_2_FLOOR => Some(BFieldElement::P - 1),
            POW => Some(1),
            SPLIT | AND | POP_COUNT => Some(0),
            _ => None,
        }
    }

    // The Result from that of the row below; none where CI is none of the six.
    #[tactic(auto, unfolding(crate::specs::Results::carry))]
    pub fn carry(self, below: u64) -> Option<u64>
        ensures { result ≡ carry_of self.ci self.copy_flag self.bits self.lhs self.rhs below }
    {
        match self.ci {
            SPLIT => Some(below),
            LT => Some(self.carry_lt(below)),
            AND => Some(self.carry_and(below)),
            LOG_2_FLOOR => Some(self.carry_log_2_floor(below)),
            POW => Some(self.carry_pow(below)),
            POP_COUNT => Some(self.carry_pop_count(below)),
            _ => None,
        }
    }

    #[tactic(auto, unfolding(crate::specs::Results::carry_lt))]
    fn carry_lt(self, below: u64) -> u64
        ensures { result ≡ carry_lt self.copy_flag self.lhs self.rhs below }
    {
        let lhs = self.lhs % 2;
        let rhs = self.rhs % 2;
        if below != 2 {
            below
        } else if lhs < rhs {
            1
        } else if rhs < lhs {
            0
        } else if self.copy_flag == 1 {
            0
        } else {
            2
        }
    }

    #[tactic(auto, unfolding(crate::specs::Results::carry_log2_floor))]
    fn carry_log_2_floor(self, below: u64) -> u64
        ensures { result ≡ carry_log2_floor self.bits self.lhs below }
    {
        if self.lhs == 0 {
            BFieldElement::P - 1
        } else if self.lhs / 2 == 0 {
            self.bits
        } else {
            below
        }
    }

    #[tactic(auto, unfolding(crate::specs::Results::carry_pow))]
    fn carry_pow(self, below: u64) -> u64
        ensures { result ≡ carry_pow self.lhs self.rhs below }
    {
        let b = BFieldElement(below);
        let square = b * b;
        if self.rhs % 2 == 0 {
            square.0
        } else {
            (square * BFieldElement(self.lhs)).0
        }
    }

    #[tactic(auto, unfolding(crate::specs::Results::carry_and))]
    fn carry_and(self, below: u64) -> u64
        ensures { result ≡ carry_and self.lhs self.rhs below }
    {
        let bits = BFieldElement(self.lhs % 2) * BFieldElement(self.rhs % 2);
        (BFieldElement(2) * BFieldElement(below) + bits).0
    }

    #[tactic(auto, unfolding(crate::specs::Results::carry_pop_count))]
    fn carry_pop_count(self, below: u64) -> u64
        ensures { result ≡ carry_pop_count self.lhs below }
    {
        (BFieldElement(below) + BFieldElement(self.lhs % 2)).0
    }
}
