// Chains and rings of 512 registers, along the list and against it: the pairs come in the order of their launch registers.
use crate::examples::show_free;
use std::io;
use test_kit::lists::{List, Needs, Pair};
use test_kit::places::front;
use test_kit::{largest, show};
use timing::{MAX_DELAY, MAX_NEED};

// The registers, the pairs of a chain of them, and the words of a ring.
const RING: usize = largest::REGISTERS;

const CHAIN: usize = RING - 1;

const WORDS: usize = 4 * RING + 2;

// How many pairs there are, whether they go against the list, and their delays.
#[derive(Clone, Copy)]
struct Shape {
    pairs: usize,
    against: bool,
    least: u32,
    greatest: u32,
}

impl Shape {
    // Pair k joins a register to the one after it, around the ring, or before it. The first launch register of a chain against the list
    // is register 1.
    fn pair(self, k: usize) -> Pair {
        let (launch, capture) = if self.against {
            let from = RING - self.pairs.min(RING) + k % RING;
            (from % RING, (from + RING - 1) % RING)
        } else {
            (k % RING, (k % RING + 1) % RING)
        };
        [launch as u32, capture as u32, self.least, self.greatest]
    }
}

// The free period of a list of such pairs, and the first, the second and the last timing.
fn free(rt: &impl Print, label: &str, shape: Shape) -> io::Result<()> {
    needy_free(rt, label, shape, [0, 0])
}

// The same where each register has these needs.
fn needy_free(rt: &impl Print, label: &str, shape: Shape, needs: Needs) -> io::Result<()> {
    let mut pairs = [[0u32; 4]; RING];
    let mut words = [0u32; WORDS];
    let mut answer = [0u32; RING];
    for (k, p) in pairs.iter_mut().enumerate() {
        *p = shape.pair(k);
    }
    let list = List {
        pairs: front(&pairs, shape.pairs),
        needs: &[needs; RING],
    };
    rt.print(label)?;
    show_free(rt, free_schedule::free(list.write(&mut words), &mut answer))?;
    show::numbers(rt, &[answer[0], answer[1], answer[RING - 1]])
}

// A chain and a ring of pairs with the same delays.
fn chain(against: bool, least: u32, greatest: u32) -> Shape {
    Shape {
        pairs: CHAIN,
        against,
        least,
        greatest,
    }
}

fn ring(against: bool, least: u32, greatest: u32) -> Shape {
    Shape {
        pairs: RING,
        against,
        least,
        greatest,
    }
}

pub fn chains(rt: &impl Print) -> io::Result<()> {
    free(rt, "chain of 512, 9/9: ", chain(false, 9, 9))?;
    free(rt, "the same against the list: ", chain(true, 9, 9))?;
    free(
        rt,
        "chain of 512, 1000000/1000000: ",
        chain(false, MAX_DELAY, MAX_DELAY),
    )
}

pub fn rings(rt: &impl Print) -> io::Result<()> {
    free(rt, "ring of 512, 0/1000000: ", ring(false, 0, MAX_DELAY))?;
    free(rt, "the same against the list: ", ring(true, 0, MAX_DELAY))?;
    free(
        rt,
        "ring of 512, 1000000/1000000: ",
        ring(false, MAX_DELAY, MAX_DELAY),
    )
}

// The longest chain and the longest ring with the largest needs.
pub fn needy(rt: &impl Print) -> io::Result<()> {
    needy_free(
        rt,
        "chain of 512, 1000000/1000000, setup 9999: ",
        chain(false, MAX_DELAY, MAX_DELAY),
        [0, MAX_NEED],
    )?;
    needy_free(
        rt,
        "the same against the list, hold 9999 too: ",
        chain(true, MAX_DELAY, MAX_DELAY),
        [MAX_NEED, MAX_NEED],
    )?;
    needy_free(
        rt,
        "ring of 512, 9999/1000000, hold and setup 9999: ",
        ring(false, MAX_NEED, MAX_DELAY),
        [MAX_NEED, MAX_NEED],
    )
}
