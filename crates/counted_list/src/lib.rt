// The words of a list with the needs of its registers counted into the delays of its pairs. A pair is taken from them with no look
// at needs, and is the same pair.
// The contracts cite `specs/Counted.antt`; `proofs/CountedLaws.antt` has what the words are good for.
#![tactic(auto)]

ghost use Rattle.std.specs.Prelude.{◌≡◌, ◌++◌, take};
ghost use Rattle.buffers.specs.Run.{run};
ghost use Rattle.buffers.specs.Over.{over};
ghost use Rattle.list_format.specs.Lists.{pair_at};
ghost use Rattle.list_format.specs.Write.{three_of};
ghost use Rattle.counted_list.specs.Counted.{counted_in, Countable};

// The words of all m pairs, from place 1 on.
fn put_pairs(words: &[u32], m: usize, counted: &mut [u32])
    requires { Countable words.now m counted.old }
    ensures { counted.new ≡ over (take 1 counted.old ++ run (λ k. three_of (pair_at words.now k)) m) counted.old }
{
    for k in 0..m {
        let p = delay_list::pair_at(words, k);
        write_list::put(counted, delay_list::pair_place(0, k), p);
    }
}

// The head and the words of all m pairs fill the first 3m + 1 places; later places keep their contents.
pub fn count_in(words: &[u32], m: usize, counted: &mut [u32])
    requires { Countable words.now m counted.old }
    ensures { counted.new ≡ over (counted_in words.now) counted.old }
{
    counted[0] = words[0];
    put_pairs(words, m, counted);
}
