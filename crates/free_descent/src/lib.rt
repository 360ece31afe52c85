// The free period from the common period down. At the common period all times may be 0. On the way down a rule comes to be broken;
// the register that it ends at is hung below the one that it starts from, with all that hangs below it. So the times are those of
// a forest of rules, the parents, until a rule would close a cycle: that cycle bounds the period (Young, Tarjan and Orlin 1991).
// All of this is a hint but the cycle, which is checked against the list.
#![tactic(auto)]

ghost use Rattle.std.specs.Prelude.{◌≡◌, length};
ghost use Rattle.list_format.specs.Lists.{pairs};
ghost use Rattle.free_laws.specs.Constraint.{Bound};

use delay_list::DelayList;
use free_forest::{ASIDE, Across, Forest, Here, Link, Span};
use pair_ends::{Ends, REGISTERS};
use timing::larger;

// ---- keys: up to which period a register has a broken rule into it, or longer, and the rule

// Rules are numbered below this.
const RULES: u32 = 0x1000;

// The key of a rule that is broken up to a period; 0 if it is not. A key is one number, so that the larger of two is found by
// one test.
fn key_of(until: u32, rule: u16) -> u32 {
    if until == 0 {
        return 0;
    }
    (until % 0x100000) * RULES + u32::from(rule % 0x1000)
}

fn until_of(key: u32) -> u32 {
    key / RULES
}

fn rule_of(key: u32) -> u16 {
    (key % RULES) as u16
}

// With all times 0 setup alone is broken, of each pair up to its greatest delay less 1.
fn first_key(greatest: u32, low: u32, k: usize) -> u32 {
    if greatest > low {
        return key_of(greatest - 1, 2 * ((k % 0x800) as u16));
    }
    0
}

// So many registers stand together; of them the one with the largest key is known.
const TOGETHER: usize = 16;

const GROUPS: usize = REGISTERS / TOGETHER;

// How many groups n registers make.
fn groups(n: usize) -> usize {
    (n / TOGETHER + 1).min(GROUPS)
}

// The key of each register, and of each group the register with the largest.
#[derive(Drop)]
struct Keys {
    key: [u32; REGISTERS],
    tops: [u16; GROUPS],
}

impl Keys {
    fn of(&self, r: usize) -> u32 {
        self.key[r % REGISTERS]
    }

    // The register of group g with the largest key.
    fn top_of(&self, g: usize) -> u16 {
        let first = (g % GROUPS) * TOGETHER;
        let mut top = first;
        for r in first..first + TOGETHER {
            if self.of(top) < self.of(r) {
                top = r;
            }
        }
        (top % REGISTERS) as u16
    }

    // Those of all groups of n registers.
    fn find_tops(&mut self, n: usize) {
        for g in 0..groups(n) {
            self.tops[g % GROUPS] = self.top_of(g);
        }
    }

    // Register r has at least that key.
    fn raise(&mut self, r: usize, to: u32) {
        let q = r % REGISTERS;
        if to <= self.key[q] {
            return;
        }
        self.key[q] = to;
        let g = q / TOGETHER;
        if self.of(usize::from(self.tops[g])) < to {
            self.tops[g] = q as u16;
        }
    }

    // The key of register r is lowered.
    fn lower(&mut self, r: usize, to: u32) {
        let q = r % REGISTERS;
        self.key[q] = to;
        let g = q / TOGETHER;
        if usize::from(self.tops[g]) == q {
            self.tops[g] = self.top_of(g);
        }
    }

    // Of n registers the one with the largest key.
    fn largest(&self, n: usize) -> usize {
        let mut top = usize::from(self.tops[0]);
        for g in 1..groups(n) {
            let r = usize::from(self.tops[g % GROUPS]);
            if self.of(top) < self.of(r) {
                top = r;
            }
        }
        top
    }

    // The keys with all times 0.
    fn begin(&mut self, list: DelayList, low: u32) {
        for k in 0..list.pairs {
            let p = list.pair(k);
            let r = (p.capture as usize) % REGISTERS;
            self.key[r] = larger(self.key[r], first_key(p.greatest, low, k));
        }
    }
}

// ---- moves at one period, which are taken back where a cycle is met there: the parents are then those of the period above

const MOVES: usize = REGISTERS;

// The registers that have been moved, so many, each with its parent before.
#[derive(Drop)]
struct Notes {
    registers: [u16; MOVES],
    parents: [u16; MOVES],
    count: usize,
}

impl Notes {
    // The parent of register r is noted before its move.
    fn note(&mut self, r: usize, parent: u16) {
        let i = self.count % MOVES;
        self.registers[i] = (r % REGISTERS) as u16;
        self.parents[i] = parent;
        if self.count < MOVES {
            self.count += 1;
        }
    }

    fn take_back(&self, parents: &mut [u16; REGISTERS]) {
        for i in (0..self.count).rev() {
            let r = usize::from(self.registers[i % MOVES]);
            parents[r % REGISTERS] = self.parents[i % MOVES];
        }
    }
}

// ---- turns

// How far the descent has come: times are told at the period `low`, and `level` is the one it has come down to; `height` is the
// count of registers put off until the one at hand has been moved by `rule`. Once it is over the rule closes a cycle there, if one
// was met.
#[derive(Drop)]
struct Descent {
    forest: Forest,
    keys: Keys,
    notes: Notes,
    low: u32,
    level: u32,
    height: usize,
    at: Option<usize>,
    rule: u16,
}

impl Descent {
    fn span(&self) -> Span {
        Span {
            low: self.low,
            level: self.level,
        }
    }

    // ---- walks along the ends at a register: the rule that starts at an end has the end's number, the one that ends there is the
    // other of the pair

    // The larger of a key and that of the rule that ends here, at an end.
    fn worse(&self, most: u32, h: Here, a: Across, end: u16) -> u32 {
        let l = a.rule_into(h, self.low);
        let source = self.forest.setups(a.register);
        let until = l.broken_until(source, h.setups, self.span());
        larger(most, key_of(until, end ^ 1))
    }

    // Of the rules that end at register r the largest key.
    fn worst_into(&self, list: DelayList, ends: Ends, x: &[u32], r: usize) -> u32
        requires { length x.now ≡ list.registers }
    {
        let h = self.forest.here(x, r);
        let mut most = 0;
        for end in ends.at(r) {
            let a = free_forest::across_at(list, x, end);
            most = self.worse(most, h, a, end);
        }
        most
    }

    // The register across, unless it moves, has at least the key of the rule that starts here.
    fn ask(&mut self, h: Here, a: Across, rule: u16) {
        let r = a.register;
        if self.forest.moves(r) {
            return;
        }
        let l = a.rule_from(h, self.low);
        let until = l.broken_until(h.setups, self.forest.setups(r), self.span());
        self.keys.raise(r, key_of(until, rule));
    }

    // All rules that start from register r.
    fn ask_from(&mut self, list: DelayList, ends: Ends, x: &[u32], r: usize)
        requires { length x.now ≡ list.registers }
    {
        let h = self.forest.here(x, r);
        for end in ends.at(r) {
            let a = free_forest::across_at(list, x, end);
            self.ask(h, a, end);
        }
    }

    // All rules that start below register r, in its branch to `last`.
    fn ask_below(&mut self, list: DelayList, ends: Ends, x: &[u32], r: usize, last: usize)
        requires { length x.now ≡ list.registers }
    {
        let mut q = r;
        for _ in 0..x.len() {
            if q == last {
                return;
            }
            let Some(next) = self.forest.after(q) else {
                return;
            };
            q = next;
            self.ask_from(list, ends, x, q);
        }
    }

    // Both rules of each pair at register r: those that start there are asked; the largest key of those that end there.
    fn meet_all(&mut self, list: DelayList, ends: Ends, x: &[u32], r: usize) -> u32
        requires { length x.now ≡ list.registers }
    {
        let h = self.forest.here(x, r);
        let mut most = 0;
        for end in ends.at(r) {
            let a = free_forest::across_at(list, x, end);
            self.ask(h, a, end);
            most = self.worse(most, h, a, end);
        }
        most
    }

    // The register put off last is at hand, or nobody.
    fn resume(&mut self) {
        self.at = None;
        if self.height > 0 {
            self.height -= 1;
            self.at = self.forest.aside_at(self.height);
        }
    }

    // The register at hand is put off until register r has been moved.
    fn put_off(&mut self, at: usize, r: usize) {
        self.forest.set_aside(self.height, at);
        if self.height < ASIDE {
            self.height += 1;
        }
        self.at = Some(r);
    }

    // The register at hand is moved below the one that the rule starts from, unless that hangs below it: then the rule closes a
    // cycle. Whether the descent goes on.
    fn hang(
        &mut self,
        list: DelayList,
        ends: Ends,
        x: &mut [u32],
        parents: &mut [u16; REGISTERS],
        r: usize,
        l: Link,
    ) -> bool
        requires { length x.old ≡ list.registers }
    {
        let by = self.forest.distance(l);
        let last = self.forest.move_branch(list, x, parents, r, by);
        if self.forest.moves(l.from) {
            return false;
        }
        self.notes.note(r, parents[r % REGISTERS]);
        parents[r % REGISTERS] = self.rule;
        self.forest.put_below(r, last, l.from);
        self.ask_below(list, ends, x, r, last);
        let worst = self.meet_all(list, ends, x, r);
        self.forest.stand_still(r, last);
        self.keys.lower(r, worst);
        self.resume();
        true
    }

    // Where nobody is at hand, of n registers the one with the largest key is. With a key of 0 nothing is broken at `low`.
    fn taken(&self, n: usize) -> Option<usize> {
        if self.at.is_some() {
            return self.at;
        }
        let r = self.keys.largest(n);
        if self.keys.of(r) == 0 { None } else { Some(r) }
    }

    // At a shorter period no move has been made yet.
    fn come_to(&mut self, until: u32) {
        if until < self.level {
            self.level = until;
            self.notes.count = 0;
        }
    }

    // Whether the register that a rule into register r starts from is to move first.
    fn moves_first(&self, r: usize, l: Link) -> bool {
        self.height < ASIDE && l.from != r && until_of(self.keys.of(l.from)) >= self.level
    }

    // One turn: the register at hand gets the key that it has by now, or is put off, or is moved. Whether the descent goes on. A
    // rule into the register at hand has to be broken up to its key, or, where it had been put off, up to the level.
    fn turn(
        &mut self,
        list: DelayList,
        ends: Ends,
        x: &mut [u32],
        parents: &mut [u16; REGISTERS],
    ) -> bool
        requires { length x.old ≡ list.registers }
    {
        let fresh = self.at.is_none();
        self.at = self.taken(x.len());
        let Some(r) = self.at else {
            return false;
        };
        let own = self.keys.of(r);
        self.rule = rule_of(own);
        let a = free_forest::across_at(list, x, self.rule);
        let l = a.rule_from(self.forest.here(x, a.at), self.low);
        let source = self.forest.setups(l.from);
        let until = l.broken_until(source, self.forest.setups(r), self.span());
        let due = if fresh { until_of(own) } else { self.level };
        if until < due {
            let worst = self.worst_into(list, ends, x, r);
            self.keys.lower(r, worst);
            self.resume();
            return true;
        }
        self.come_to(until);
        if self.moves_first(r, l) {
            self.put_off(r, l.from);
            return true;
        }
        self.hang(list, ends, x, parents, r, l)
    }

    // The period that the cycle asks for which the rule at the register at hand closes; 0 if it closes none. The parents are left
    // as they are at the shortest period without a cycle.
    fn closed(&self, list: DelayList, parents: &mut [u16; REGISTERS]) -> u32
        ensures { Bound (pairs list.entry.words.now) result }
    {
        let Some(r) = self.at else {
            return NOTHING;
        };
        if r >= list.registers {
            return NOTHING;
        }
        let own = parents[r % REGISTERS];
        parents[r % REGISTERS] = self.rule;
        let longer = free_cycles::around(list, parents, r as u32);
        parents[r % REGISTERS] = own;
        self.notes.take_back(parents);
        longer
    }
}

// No period is shown too short.
const NOTHING: u32 = 0;

// So many turns at most.
const TURNS: usize = 64 * REGISTERS;

// The descent to the period `low`. What a cycle that was met on the way asks for, else 0; the parents are left so that raises along
// them are seen to give the times of the shortest period without a cycle.
pub fn descend(
    list: DelayList,
    x: &mut [u32],
    parents: &mut [u16; REGISTERS],
    ends: Ends,
    low: u32,
) -> u32
    requires { length x.old ≡ list.registers }
    ensures { Bound (pairs list.entry.words.now) result }
{
    let mut d = Descent {
        forest: Forest {
            next: [0; REGISTERS],
            before: [0; REGISTERS],
            counts: [0; REGISTERS],
            aside: [0; ASIDE],
        },
        keys: Keys {
            key: [0; REGISTERS],
            tops: [0; GROUPS],
        },
        notes: Notes {
            registers: [0; MOVES],
            parents: [0; MOVES],
            count: 0,
        },
        low,
        level: timing::MAX_PERIOD,
        height: 0,
        at: None,
        rule: 0,
    };
    d.forest.set_apart(x, parents);
    d.keys.begin(list, low);
    d.keys.find_tops(x.len());
    for _ in 0..TURNS {
        if !d.turn(list, ends, x, parents) {
            break;
        }
    }
    d.closed(list, parents)
}
