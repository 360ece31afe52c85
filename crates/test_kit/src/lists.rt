// Lists, by the numbers of their pairs and the needs of their registers.
ghost use Rattle.std.specs.Prelude.{◌≤◌, length};

use crate::largest;
use crate::places::{front, holds};
use refusals::Refused;
use words::WordKind;

// A pair: its launch and its capture register, and its least and its greatest delay.
pub type Pair = [u32; 4];

// What a register needs after the tick, and before it: hold and setup.
pub type Needs = [u32; 2];

// A list: its pairs, and the needs of each register.
#[derive(Clone, Copy)]
pub struct List<'a> {
    pub pairs: &'a [Pair],
    pub needs: &'a [Needs],
}

// The words of 0-1 7/10 and 0-1 2/4, which is refused: the second pair is not above the first.
pub const TWICE: [u32; 8] = [
    0x2000_2002,
    0x4000_0001,
    0x6000_0007,
    0x8000_000A,
    0x4000_0001,
    0x6000_0002,
    0x8000_0004,
    0xE000_201B,
];

// The pairs of P, 0-1 7/10 and 1-0 1/3.
pub const P: [Pair; 2] = [[0, 1, 7, 10], [1, 0, 1, 3]];

// Needs of its registers: hold 1 and setup 2 of register 0, hold 2 and setup 1 of register 1.
pub const P_NEEDS: [Needs; 2] = [[1, 2], [2, 1]];

// No needs.
pub const FREE: [Needs; largest::REGISTERS] = [[0, 0]; largest::REGISTERS];

impl<'a> List<'a> {
    pub fn registers(self) -> u32 {
        u32::try_from(self.needs.len()).unwrap_or(u32::MAX)
    }

    // The needs of a register.
    pub fn needs_of(self, register: u32) -> Needs {
        self.needs.get(register as usize).copied().unwrap_or([0, 0])
    }

    // Whether a buffer holds the numbers of the pairs, then the needs, and is kept behind them.
    pub fn is_read_into(self, buffer: &[u32]) -> bool {
        buffer
            .strip_prefix(self.pairs.as_flattened())
            .is_some_and(|behind| holds(behind, self.needs.as_flattened()))
    }

    // What the writer says of the list.
    pub fn write_to(self, words: &mut [u32]) -> Result<usize, Refused> {
        write_list::write(
            self.registers(),
            self.pairs.as_flattened(),
            self.needs.as_flattened(),
            words,
        )
    }

    // The words of the list, stored in the first places; none if the writer refuses.
    pub fn write(self, words: &mut [u32]) -> &[u32] {
        let written = self.write_to(words);
        front(words, written.unwrap_or(0))
    }

    // The same of a list whose pairs come in any order and may repeat.
    pub fn store(self, words: &mut [u32]) -> &[u32] {
        let written = write_list::write_stored(
            self.registers(),
            self.pairs.as_flattened(),
            self.needs.as_flattened(),
            words,
        );
        front(words, written.unwrap_or(0))
    }
}

// A list with needs.
pub fn needy<'a>(pairs: &'a [Pair], needs: &'a [Needs]) -> List<'a> {
    List { pairs, needs }
}

// A list of n registers without needs.
pub fn needless(n: usize, pairs: &[Pair]) -> List<'_> {
    List {
        pairs,
        needs: front(&FREE, n),
    }
}

// Up to M pairs, in the order in which they came.
#[derive(Clone, Copy)]
pub struct Pairs<const M: usize> {
    places: [Pair; M],
    count: usize,
}

impl<const M: usize> Pairs<M> {
    pub fn none() -> Pairs<M> {
        Pairs {
            places: [[0; 4]; M],
            count: 0,
        }
    }

    // One pair more, if there is a place.
    pub fn push(&mut self, p: Pair) {
        let k = self.count;
        if k < M {
            self.places[k] = p;
            self.count = k + 1;
        }
    }

    pub fn all(&self) -> &[Pair]
        ensures { length result.now ≤ M }
    {
        front(&self.places, self.count)
    }
}

// Makes the last word the end of the list of the words before it.
pub fn seal(words: &mut [u32]) {
    if let Some(last) = words.len().checked_sub(1) {
        words[last] = WordKind::End.word(words::end_payload(words, last));
    }
}
