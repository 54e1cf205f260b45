// The stack of what waits for its operand, so that parentheses, which may be nested as deep as a line is long, take no
// recursion.
ghost use Rattle.std.specs.Prelude.{◌≤◌};

// The most bytes of a line, each of which may put one thing on the stack.
const MOST: usize = 65536;

// An open parenthesis, the sign of an operand, or the operator of a sum.
#[derive(Clone, Copy, Debug, PartialEq, Eq)]
pub enum Waiting {
    Parenthesis,
    Sign,
    Plus,
    Minus,
}

#[derive(Clone, Copy)]
pub struct Stack {
    waiting: [Waiting; MOST],
    depth: usize,
    ghost within: { depth ≤ 65536 },
}

impl Stack {
    pub fn new() -> Stack {
        Stack {
            waiting: [Waiting::Parenthesis; MOST],
            depth: 0,
        }
    }

    fn top(&self) -> Option<Waiting> {
        self.waiting[..self.depth].last().copied()
    }

    // Puts one more thing on top, and answers whether there was room for it.
    pub fn push(&mut self, waiting: Waiting) -> bool {
        let has_room = self.depth < MOST;
        if has_room {
            self.waiting[self.depth] = waiting;
            self.depth += 1;
        }
        has_room
    }

    // Takes the top off.
    pub fn pop(&mut self) -> Option<Waiting> {
        let top = self.top();
        self.depth = self.depth.saturating_sub(1);
        top
    }

    // Takes the top off if it is that, and answers whether it is.
    pub fn accept(&mut self, waiting: Waiting) -> bool {
        let is_top = self.top() == Some(waiting);
        if is_top {
            self.pop();
        }
        is_top
    }

    // Takes the signs off that are on top, and answers how many they are.
    pub fn take_signs(&mut self) -> usize {
        let signs = self.waiting[..self.depth]
            .iter()
            .rev()
            .take_while(|waiting| **waiting == Waiting::Sign)
            .count();
        self.depth = self.depth.saturating_sub(signs);
        signs
    }
}
