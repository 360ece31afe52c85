// Random small lists at every period and offset up to fifteen, against a plain search over all splits.
use std::io;
use test_kit::lists::List;
use test_kit::places::{DIRT, cleared};
use test_kit::tally::{Fate, Tally, many_lists};

// The longest period and the largest offset that are tried.
const MOST: u32 = 15;

// How many random lists there are.
const LISTS: u32 = 500;

// The largest need of the lists with needs.
const NEED: u32 = 3;

// Whether the split at one period and one offset is right, and the scratch zero where it was used.
fn tried(list: List<'_>, words: &[u32], period: u32, offset: u32) -> bool {
    let mut answer = [DIRT; 6];
    let mut scratch = [DIRT; 50];
    let said = split::split(words, period, offset, &mut answer, &mut scratch);
    cleared(&scratch, list.scratch()) && list.is_first_split(period, offset, said, &answer)
}

// Every offset at one period.
fn offsets(list: List<'_>, words: &[u32], period: u32) -> bool {
    (0..=MOST).all(|offset| tried(list, words, period, offset))
}

// Every period.
fn periods(list: List<'_>, words: &[u32]) -> Fate {
    Fate::from((1..=MOST).all(|period| offsets(list, words, period)))
}

// Random lists of up to four registers and five pairs with delays up to twelve less the largest hold, which is then added, and
// needs up to `most`.
fn many(most: u32) -> Tally {
    many_lists::<4, 5, _>(5, LISTS, 12 - most % 4, most, periods)
}

pub fn lists(rt: &impl Print) -> io::Result<()> {
    many(0).tell(
        rt,
        "random lists at 240 periods and offsets each, against all splits: ",
    )?;
    many(NEED).tell(rt, "the same with needs: ")
}
