// A list anew: the registers and the needs of a list, with other pairs.
// `specs/Relist.antt` has the list that is made; the code that writes its front and joins pairs is that of `converter`.
#![tactic(auto)]

ghost use Rattle.std.specs.Prelude.{◌≡◌};
ghost use Rattle.list_format.specs.Lists.{pair_count, IsAccepted};

// m, the count of pairs of an accepted list.
pub fn pair_count(words: &[u32]) -> usize
    requires { IsAccepted words.now }
    ensures { result ≡ pair_count words.now }
{
    words::head_pairs(words[0]) as usize
}
