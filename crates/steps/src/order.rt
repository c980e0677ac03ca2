// What step (c) remembers: the rules that have struck in some search, in the order in which they last did. Any content
// is right: a rule strikes only if it must, a try ends after as many rules that do not strike as there are, and then
// comes a pass over all of them. So no contract says what an order holds.
ghost use Rattle.std.specs.Prelude.{◌<◌, IfSome};

use book::tables::MOST_RULES;

// Where the ring begins and ends.
pub const START: usize = 2048;

// A list linked by index, in fixed memory: there is no heap, and a rule that strikes moves to the front at once.
#[derive(Clone, Copy)]
pub struct Order {
    // the rule after each, or START after the last; a rule that has never struck stands after itself. As options,
    // tried, they take twice the room
    pub next: [u16; 2049],
}

impl Order {
    // The order before the first search.
    pub fn empty() -> Self {
        let mut order = Order { next: [0; 2049] };
        for p in 0..2049 {
            order.next[p] = p as u16;
        }
        order
    }

    pub fn after(&self, p: usize) -> usize
        requires { p < 2049 }
    {
        usize::from(self.next[p])
    }

    fn insert(&mut self, front: usize, r: usize)
        requires front { front < 2049 }
        requires rule { r < 2049 }
    {
        self.next[r] = self.next[front];
        self.next[front] = r as u16;
    }

    // Rule r, which stands after p, moves to stand after `front`; the others keep their order. Returns after which one
    // the next of them stands.
    pub fn advance(&mut self, front: usize, p: usize, r: usize) -> usize
        requires front { front < 2049 }
        requires before { p < 2049 }
        requires rule { r < 2049 }
        ensures { result < 2049 }
    {
        if p == front {
            return r;
        }
        self.next[p] = self.next[r];
        self.insert(front, r);
        p
    }

    // After which one, from `front` on, rule r stands.
    fn before(&self, front: usize, r: usize) -> Option<usize>
        requires { front < 2049 }
        ensures { IfSome result (λ p. p < 2049) }
    {
        let mut p = front;
        for _ in 0..MOST_RULES {
            let next = self.after(p);
            if next == r {
                return Some(p);
            }
            if START <= next {
                return None;
            }
            p = next;
        }
        None
    }

    // Rule r, which struck in a pass, stands after `front` from now on.
    pub fn remember(&mut self, front: usize, r: usize)
        requires front { front < 2049 }
        requires rule { r < 2049 }
    {
        if self.after(r) == r {
            self.insert(front, r);
        } else if let Some(p) = self.before(front, r) {
            self.advance(front, p, r);
        }
    }
}
