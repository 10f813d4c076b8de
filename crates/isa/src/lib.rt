// The six instructions of the U32 table, and an entry of it: admission, height, order.
#![tactic(auto)]

ghost use Rattle.std.specs.Prelude.{◌≡◌, ◌+◌, ◌*◌, ◌≤◌, ◌<◌, not, ◌&&◌, eqb, ltb, length};
ghost use Rattle.words.specs.declared.Refusal.TheVariants.{Wide, BareLog};
ghost use Rattle.words.specs.Refusals.{decline_if};
ghost use Rattle.isa.specs.Opcodes.{op_log2_floor, opcode_number, Decodes};
ghost use Rattle.isa.specs.Entries.{lhs, rhs, lhs_limit, rhs_limit, entry, entry_in, entry_words, entry_width, judge_as_it_is, admit_stored, admitted, admission, dominant, height, compare_entries};
ghost use Rattle.isa.specs.Entries.{admit as admit_of};
ghost use Rattle.isa.specs.PlainFunctions.{floor_log2, plain_result};

use field::BFieldElement;
use std::cmp::Ordering;
use words::Refusal;

// The six, each with its number.
#[derive(Clone, Copy, PartialEq, Eq, Debug)]
pub enum Opcode {
    Split = 4,
    Lt = 6,
    Log2Floor = 12,
    And = 14,
    PopCount = 28,
    Pow = 30,
}

impl Opcode {
    // The left operand of the instruction is below this.
    fn left_limit(self) -> u64
        ensures { result ≡ lhs_limit (opcode_number self) }
    {
        if self == Opcode::Pow {
            BFieldElement::P
        } else {
            OPERAND_LIMIT
        }
    }
}

impl TryFrom<u64> for Opcode {
    type Error = Refusal;

    ghost try_from_gives = { Decodes };

    // Reason 2: the word is the number of none.
    fn try_from(word: u64) -> Result<Self, Refusal>
        ensures { Decodes word result }
    {
        match word {
            4 => Ok(Opcode::Split),
            6 => Ok(Opcode::Lt),
            12 => Ok(Opcode::Log2Floor),
            14 => Ok(Opcode::And),
            28 => Ok(Opcode::PopCount),
            30 => Ok(Opcode::Pow),
            _ => Err(Refusal::Stranger),
        }
    }
}

// Operands are below this, but the left one of pow is taken modulo p.
pub const OPERAND_LIMIT: u64 = 4294967296;

// An executed U32 instruction with its operands; any words. Entries are ordered by opcode, then the left operand, then the right one.
#[derive(Clone, Copy, PartialEq, Eq, PartialOrd, Ord, Debug)]
pub struct U32TableEntry {
    pub opcode: u64,
    pub left_operand: u64,
    pub right_operand: u64,
}

impl U32TableEntry {
    // The words of an entry, each of its fields one.
    pub const WIDTH: usize = 3;

    pub fn new(opcode: u64, left_operand: u64, right_operand: u64) -> Self
        ensures { result ≡ entry opcode left_operand right_operand }
    {
        Self {
            opcode,
            left_operand,
            right_operand,
        }
    }

    // The entry that stands at a place of words, three words an entry.
    pub fn at(words: &[u64], place: usize) -> Self
        requires { entry_width * place + 2 < length words.now }
        ensures { result ≡ entry_in words.now place }
    {
        let [opcode, left, right]: [u64; Self::WIDTH] = words::record_at(words, place);
        Self::new(opcode, left, right)
    }

    // The words of an entry, in the order of its fields.
    pub fn words(self) -> [u64; U32TableEntry::WIDTH]
        ensures { result ≡ entry_words self }
    {
        [self.opcode, self.left_operand, self.right_operand]
    }

    // Reason 3: an operand is outside its range, which for the left one is `limit`.
    fn judge_operands(self, limit: u64) -> Result<(), Refusal>
        ensures { result ≡ decline_if (not (ltb (lhs self) limit && ltb (rhs self) rhs_limit)) Wide }
    {
        if self.left_operand < limit && self.right_operand < OPERAND_LIMIT {
            Ok(())
        } else {
            Err(Refusal::Wide)
        }
    }

    // Reason 4: log_2_floor of 0.
    fn judge_logarithm(self) -> Result<(), Refusal>
        ensures { result ≡ decline_if (eqb self.opcode op_log2_floor && eqb (lhs self) 0) BareLog }
    {
        if self.opcode == Opcode::Log2Floor as u64 && self.left_operand == 0 {
            Err(Refusal::BareLog)
        } else {
            Ok(())
        }
    }

    // The first of the reasons 2, 3, 4 against the entry as it stands.
    pub fn judge(self) -> Result<(), Refusal>
        ensures { result ≡ judge_as_it_is self }
    {
        let opcode = Opcode::try_from(self.opcode)?;
        self.judge_operands(opcode.left_limit())?;
        self.judge_logarithm()
    }

    // The entry that admission hands back: the left operand of pow is taken modulo p.
    pub fn reduced(self) -> Self
        ensures { result ≡ admitted self }
    {
        if self.opcode == Opcode::Pow as u64 {
            Self {
                left_operand: BFieldElement::new(self.left_operand).0,
                ..self
            }
        } else {
            self
        }
    }

    // The entry as it is admitted, or why it is refused: it is the reduced one that is judged.
    pub fn admit(self) -> Result<Self, Refusal>
        ensures { result ≡ admit_of self }
    {
        let entry = self.reduced();
        entry.judge()?;
        Ok(entry)
    }

    // The same for an entry in stored bytes, which is judged as it stands there.
    pub fn admit_stored(self) -> Result<Self, Refusal>
        ensures { result ≡ admission (admit_stored self) self }
    {
        self.judge()?;
        Ok(self.reduced())
    }

    // The operand that decides how many rows the entry takes.
    fn dominant_operand(self) -> u64
        ensures { result ≡ dominant self }
    {
        if self.opcode != Opcode::Pow as u64 {
            self.left_operand.max(self.right_operand)
        } else {
            self.right_operand
        }
    }

    // The number of rows that the entry's section has.
    #[tactic(auto, using(crate::proofs::Logarithm::height_told), unfolding(crate::specs::Entries::height))]
    pub fn table_height_contribution(self) -> u64
        ensures exact { result ≡ height self }
        ensures bound { result ≤ 65 }
    {
        self.dominant_operand()
            .checked_ilog2()
            .map_or(1, |log| 2 + u64::from(log))
    }

    // The plain function of the instruction, which is the Result of the entry's first row; 0 for split, which has none, and for a word that is no
    // instruction's number.
    #[tactic(auto, using(crate::proofs::PlainLaws::none_of_split, crate::proofs::PlainLaws::none_of_stranger))]
    pub fn plain_result(self) -> u64
        ensures { result ≡ plain_result self.opcode (lhs self) (rhs self) }
    {
        match Opcode::try_from(self.opcode) {
            Ok(Opcode::Lt) => u64::from(self.left_operand < self.right_operand),
            Ok(Opcode::And) => self.left_operand & self.right_operand,
            Ok(Opcode::Log2Floor) => floor_log2(self.left_operand),
            Ok(Opcode::Pow) => BFieldElement(self.left_operand).pow(self.right_operand).0,
            Ok(Opcode::PopCount) => u64::from(self.left_operand.count_ones()),
            Ok(Opcode::Split) | Err(_) => 0,
        }
    }

    // The order of the two.
    pub fn compare(self, other: U32TableEntry) -> Ordering
        ensures { result ≡ compare_entries self other }
    {
        self.cmp(&other)
    }
}

// The logarithm to base 2 of n, rounded down; 0 for 0.
#[tactic(auto, using(crate::proofs::Logarithm::floor_log2_told))]
pub fn floor_log2(n: u64) -> u64
    ensures exact { result ≡ floor_log2 n }
    ensures bound { result ≤ 63 }
{
    u64::from(n.checked_ilog2().unwrap_or(0))
}
