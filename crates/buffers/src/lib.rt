// Stretches of numbers strung together, and buffers that are filled from the front.
// The definitions stand in `specs/`, laws in `proofs/`.
#![tactic(auto)]

ghost use Rattle.std.specs.Prelude.{◌≡◌, ◌≤◌, ◌++◌, length, drop, replicate};

// The first k places are set to v.
pub fn level(places: &mut [u32], k: usize, v: u32)
    requires { k ≤ length places.old }
    ensures { places.new ≡ replicate k v ++ drop k places.old }
{
    places[..k].fill(v);
}

// The first k places are set to 0.
pub fn clear(places: &mut [u32], k: usize)
    requires { k ≤ length places.old }
    ensures { places.new ≡ replicate k 0 ++ drop k places.old }
{
    level(places, k, 0);
}
