// The nodes of a map while it is read: they are put into two lists, in postfix order. What has no place there is left out.
use reading::put_at;

// The most nodes of a map.
const MOST: usize = 256;

// The kinds of node, by the numbers that a record has for them.
#[derive(Clone, Copy, Debug, PartialEq, Eq)]
pub enum Kind {
    Variable,
    Constant,
    Sum,
    Product,
    Floordiv,
    Mod,
}

impl Kind {
    // The kind with a number, of which a record has none but the six.
    pub fn numbered(number: u8) -> Kind {
        match number {
            0 => Kind::Variable,
            1 => Kind::Constant,
            2 => Kind::Sum,
            4 => Kind::Floordiv,
            5 => Kind::Mod,
            _ => Kind::Product,
        }
    }
}

#[derive(Clone, Copy)]
pub struct Nodes {
    pub kinds: [u8; 256],
    pub values: [i64; 256],
    // Where the next node goes.
    pub place: usize,
    // Whether the last node is a constant: the tree that ends there is then that constant alone.
    is_constant: bool,
}

impl Nodes {
    pub fn new() -> Nodes {
        Nodes {
            kinds: [0; MOST],
            values: [0; MOST],
            place: 0,
            is_constant: false,
        }
    }

    // Goes on at a place.
    pub fn go_to(&mut self, place: usize) {
        self.place = place;
        self.is_constant = false;
    }

    // Past all places.
    pub fn go_past(&mut self) {
        self.go_to(MOST);
    }

    // Puts a node.
    pub fn put(&mut self, kind: Kind, value: i64) {
        put_at(&mut self.kinds, self.place, kind as u8);
        put_at(&mut self.values, self.place, value);
        self.place = self.place.saturating_add(1);
        self.is_constant = kind == Kind::Constant;
    }

    // Makes the tree that was put last its opposite: a constant the opposite constant, else a product by -1. That of -2^63,
    // which no map holds, stays as it is.
    pub fn oppose(&mut self) {
        if !self.is_constant {
            self.put(Kind::Product, -1);
            return;
        }
        let last = self.place.saturating_sub(1);
        if let Some(value) = self.values.get_mut(last) {
            *value = value.wrapping_neg();
        }
    }
}
