// Replay: a trace of steps goes onto a list, in order. A step is three words: its opcode, its first and its second value.
#![tactic(auto)]

ghost use Rattle.std.specs.Prelude.{◌≡◌, ◌≢◌, ◌+◌, ◌*◌, ◌<◌, [], ◌∷◌, length, Ok};
ghost use Rattle.words.specs.Outcomes.{Leaves, completed_answer};
ghost use Rattle.isa.specs.Entries.{entry};
ghost use Rattle.isa.specs.Opcodes.{opcode_number};
ghost use Rattle.list_replay.specs.declared.StepEntries.TheVariants.{One};
ghost use Rattle.list.specs.Lent.{held_in_mut, SameArrays};
ghost use Rattle.list_replay.specs.Steps.{Names, step_width, split_step, div_mod_step, merkle_step, step_entries};
ghost use Rattle.list_replay.specs.Replay.{record_together, step_all, replay_all, replayed_answer};
ghost use Rattle.list_replay.specs.Together.{second_place};

use field::BFieldElement;
use isa::{OPERAND_LIMIT, Opcode, U32TableEntry};
use list::LentListMut;
use list_record::Place;
pub use list_record::Sizes;
use words::Refusal;

// The words of a step.
pub const STEP_WIDTH: usize = 3;

// The instructions that a trace names: the six of the table, and four more.
#[derive(Clone, Copy, PartialEq, Eq, Debug)]
pub enum Instruction {
    Plain(Opcode),
    DivMod,
    Xor,
    MerkleStep,
    MerkleStepMem,
}

impl TryFrom<u64> for Instruction {
    type Error = Refusal;

    ghost try_from_gives = { Names };

    // Reason 2: the word is the number of none.
    fn try_from(word: u64) -> Result<Self, Refusal>
        ensures { Names word result }
    {
        match word {
            20 => Ok(Instruction::DivMod),
            22 => Ok(Instruction::Xor),
            36 => Ok(Instruction::MerkleStep),
            44 => Ok(Instruction::MerkleStepMem),
            _ => Ok(Instruction::Plain(Opcode::try_from(word)?)),
        }
    }
}

// A step of a trace; any words.
#[derive(Clone, Copy)]
pub struct Step {
    pub opcode: u64,
    pub first: u64,
    pub second: u64,
}

// What a step records: an entry, or two, both or neither.
#[derive(Clone, Copy)]
pub enum StepEntries {
    One(U32TableEntry),
    Two(U32TableEntry, U32TableEntry),
}

// The reason of the first refused step, and how many went before it.
#[derive(Clone, Copy)]
pub struct Stopped {
    pub reason: Refusal,
    pub done: usize,
}

// A reason that comes before all steps.
impl From<Refusal> for Stopped {
    ghost from_gives = { λ reason stopped. stopped ≡ record { reason = reason; done = 0 } };

    fn from(reason: Refusal) -> Stopped
        ensures { result ≡ record { reason = reason; done = 0 } }
    {
        Stopped { reason, done: 0 }
    }
}

// The step records one entry.
fn one(opcode: Opcode, first: u64, second: u64) -> Result<StepEntries, Refusal>
    ensures { result ≡ Ok (One (entry (opcode_number opcode) first second)) }
{
    Ok(StepEntries::One(U32TableEntry::new(opcode as u64, first, second)))
}

// Both halves of a value below p.
fn split_step(value: u64) -> Result<StepEntries, Refusal>
    ensures { result ≡ split_step value }
{
    if value < BFieldElement::P {
        one(Opcode::Split, value % OPERAND_LIMIT, value / OPERAND_LIMIT)
    } else {
        Err(Refusal::Wide)
    }
}

// The remainder is below the divisor, and both numbers have 32 bits.
fn div_mod_step(numerator: u64, divisor: u64) -> Result<StepEntries, Refusal>
    ensures { result ≡ div_mod_step numerator divisor }
{
    if OPERAND_LIMIT <= numerator || OPERAND_LIMIT <= divisor {
        Err(Refusal::Wide)
    } else if divisor == 0 {
        Err(Refusal::ZeroDivisor)
    } else {
        let less = U32TableEntry::new(Opcode::Lt as u64, numerator % divisor, divisor);
        let halves = U32TableEntry::new(Opcode::Split as u64, numerator, numerator / divisor);
        Ok(StepEntries::Two(less, halves))
    }
}

// An index of 32 bits and its half.
fn merkle_step(index: u64) -> Result<StepEntries, Refusal>
    ensures { result ≡ merkle_step index }
{
    if index < OPERAND_LIMIT {
        one(Opcode::Split, index, index / 2)
    } else {
        Err(Refusal::Wide)
    }
}

// What a step of one of the six records.
#[tactic(auto, unfolding(crate::specs::Steps::step_entries))]
fn plain_step(opcode: Opcode, first: u64, second: u64) -> Result<StepEntries, Refusal>
    ensures { result ≡ step_entries (record { opcode = opcode_number opcode; first = first; second = second }) }
{
    match opcode {
        Opcode::Split => split_step(first),
        Opcode::Log2Floor | Opcode::PopCount => one(opcode, first, 0),
        Opcode::Lt | Opcode::And | Opcode::Pow => one(opcode, first, second),
    }
}

impl Step {
    ghost use Rattle.list_replay.specs.Steps.{step_at, step_entries};

    // The three words of step i.
    #[tactic(auto, unfolding(crate::specs::Steps::step_at))]
    fn at(trace: &[u64], i: usize) -> Step
        requires { step_width * i + 2 < length trace.now }
        ensures { result ≡ step_at trace.now i }
    {
        let [opcode, first, second]: [u64; STEP_WIDTH] = words::record_at(trace, i);
        Step {
            opcode,
            first,
            second,
        }
    }

    // What a step records. Whether the entry of one of the six is admitted, recording decides.
    pub fn entries(self) -> Result<StepEntries, Refusal>
        ensures { result ≡ step_entries self }
    {
        let Step {
            opcode,
            first,
            second,
        } = self;
        match Instruction::try_from(opcode)? {
            Instruction::Plain(plain) => plain_step(plain, first, second),
            Instruction::Xor => one(Opcode::And, first, second),
            Instruction::DivMod => div_mod_step(first, second),
            Instruction::MerkleStep | Instruction::MerkleStepMem => merkle_step(first),
        }
    }
}

// The second entry's place once the first is stored: a second new key needs a second unused place.
fn second_place(sizes: Sizes, first: Place, second: Place) -> Result<Place, Refusal>
    ensures { result ≡ second_place sizes (Ok first) (Ok second) }
{
    match (first, second) {
        (Place::New(_), Place::New(_)) if sizes.capacity.saturating_sub(sizes.used) < 2 => {
            Err(Refusal::ListFull)
        }
        _ => Ok(second),
    }
}

// Records two entries of different opcodes, both or neither. Both places are found before the first is stored.
fn record_both(list: &mut LentListMut, e: U32TableEntry, f: U32TableEntry) -> Result<(), Refusal>
    requires { e.opcode ≢ f.opcode }
    ensures outcome { Leaves (record_together (held_in_mut list.old) (e ∷ f ∷ [])) (completed_answer result) (held_in_mut list.new) }
    ensures same_arrays { SameArrays list.old list.new }
{
    let first = list_record::find_place(&list.view(), e)?;
    let ahead = list_record::find_place(&list.view(), f)?;
    let second = second_place(list.sizes, first, ahead)?;
    list_record::store(list, Ok(first), 1, 0)?;
    list_record::store(list, Ok(second), 1, 0)?;
    Ok(())
}

// Records what a step records; a refused step changes nothing.
fn replay_step(list: &mut LentListMut, step: Step) -> Result<(), Refusal>
    ensures outcome { Leaves (step_all (held_in_mut list.old) step) (completed_answer result) (held_in_mut list.new) }
    ensures same_arrays { SameArrays list.old list.new }
{
    match step.entries()? {
        StepEntries::One(entry) => {
            list_record::record_u32_table_entry(list, entry)?;
            Ok(())
        }
        StepEntries::Two(e, f) => record_both(list, e, f),
    }
}

// The steps of a trace go onto the list in order, up to the first that is refused, which changes nothing. The answer is how many they are.
pub fn replay(list: &mut LentListMut, trace: &[u64]) -> Result<usize, Stopped>
    ensures outcome { Leaves (replay_all (held_in_mut list.old) trace.now) (replayed_answer result) (held_in_mut list.new) }
    ensures same_arrays { SameArrays list.old list.new }
{
    // Two tests with one answer: joined by `||` they would drop the refusal that `held_shape` tells, and tell it anew.
    list.view().held_shape()?;
    if trace.len() % STEP_WIDTH != 0 {
        return Err(Stopped::from(Refusal::Shape));
    }
    let steps = trace.len() / STEP_WIDTH;
    for done in 0..steps {
        replay_step(list, Step::at(trace, done)).map_err(|reason| Stopped { reason, done })?;
    }
    Ok(steps)
}
