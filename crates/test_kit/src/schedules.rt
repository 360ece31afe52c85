// All schedules of a few registers.
ghost use Rattle.std.specs.Iterator.{at_most};

// The schedules of the first n of N registers with timings up to `most`, from all at 0 on; the other registers stay at 0.
#[derive(Drop)]
pub struct Schedules<const N: usize> {
    next: [u32; N],
    n: u32,
    most: u32,
    left: u32,
}

impl<const N: usize> Schedules<N> {
    pub fn new(n: u32, most: u32) -> Schedules<N> {
        Schedules {
            next: [0; N],
            n,
            most,
            left: most.saturating_add(1).saturating_pow(n),
        }
    }
}

impl<const N: usize> Iterator for Schedules<N> {
    type Item = [u32; N];

    ghost remaining = { λ s. at_most s.left };

    fn next(&mut self) -> Option<[u32; N]> {
        if self.left == 0 {
            return None;
        }
        let s = self.next;
        self.left -= 1;
        self.next = after(s, self.n, self.most);
        Some(s)
    }
}

// The schedule after another: the first register that may is one later, and those before it are at 0.
fn after<const N: usize>(s: [u32; N], n: u32, most: u32) -> [u32; N] {
    let mut next = s;
    for x in next.iter_mut().take(n as usize) {
        if *x < most {
            *x += 1;
            return next;
        }
        *x = 0;
    }
    next
}
