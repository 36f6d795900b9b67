// A compiled block is one array. From 0 on stand its sides, six elements each: the mask and the value of the
// constants, the mask of the positions that keep their label, the number of moves, and as the digits of two words the
// positions that moves read and those that they write. Behind the sides stand the costs of the rules; the sets of
// rules, one for each position and label and one of plain rules, which `rule_sets` writes; and how many positions,
// rules and goals there are.
ghost use Rattle.std.specs.Prelude.{◌≡◌};
ghost use Rattle.words.specs.Code as counted;

// How many elements a side has.
pub const SIDE: usize = 6;

// Where they stand behind the first, which is the mask of the constants: their value, the mask of what is kept, the
// number of moves, and the positions that moves read and write.
pub const VALUE: usize = 1;

pub const KEEP: usize = 2;

pub const MOVES: usize = 3;

pub const FROM: usize = 4;

pub const TO: usize = 5;

// The place of the first goal, behind two for each of 64 rules.
pub const FIRST_GOAL: usize = 128;

// Where the cost of rule 0 stands, behind the sides of all 136 places.
pub const COSTS: usize = 816;

// Where the sets of rules begin, and where the set of plain rules stands.
pub const SETS: usize = 880;

pub const PLAIN: usize = 1136;

// Where the numbers of positions, rules and goals stand.
pub const POSITIONS: usize = 1137;

pub const RULES: usize = 1138;

pub const GOALS: usize = 1139;

// A compiled block.
pub const CODE: usize = 1140;

pub type Code = [u64; CODE];

// How many positions a state has.
pub fn position_count(code: &Code) -> usize
    ensures { result ≡ counted.position_count code.now }
{
    code[POSITIONS] as usize
}

// How many goals there are.
pub fn goal_count(code: &Code) -> usize
    ensures { result ≡ counted.goal_count code.now }
{
    code[GOALS] as usize
}
