// The sizes of the largest list, and of the buffers that its plan takes.
pub const REGISTERS: usize = timing::MAX_REGISTERS as usize;

pub const PAIRS: usize = timing::MAX_PAIRS;

// Numbers, four for each pair and two for each register.
pub const READ: usize = 4 * PAIRS + 2 * REGISTERS;

// Words, three for each pair, the head and the end; and with a word for each register.
pub const PLAIN_WORDS: usize = 3 * PAIRS + 2;

pub const WORDS: usize = PLAIN_WORDS + REGISTERS;

// Places of the answer buffer and of the scratch.
pub const ANSWER: usize = 2 * REGISTERS;

pub const SCRATCH: usize = timing::MAX_SCRATCH;
