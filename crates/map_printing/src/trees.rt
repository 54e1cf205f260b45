// The trees of a map's nodes, which stand in postfix order.
use indexing::IndexingMap;
use map_reading::Kind;

// What a tree is to the tree that it belongs to. The left side of a sum is printed as a whole expression is.
#[derive(Clone, Copy, Debug, PartialEq, Eq)]
pub enum Role {
    Whole,
    Right,
    Operand,
}

// A node, the place where its tree starts, and what that tree is to the one that it belongs to.
#[derive(Clone, Copy, Debug)]
pub struct Node {
    pub kind: Kind,
    pub value: i64,
    pub start: usize,
    pub role: Role,
}

impl Node {
    pub fn is_leaf(self) -> bool {
        self.kind == Kind::Variable || self.kind == Kind::Constant
    }

    // Whether a tree is a product by -1, which is printed as a minus.
    pub fn is_opposite(self) -> bool {
        self.kind == Kind::Product && self.value == -1
    }

    // Whether a tree is a negative constant or a product by a negative number: on the right side of a sum its opposite is
    // subtracted.
    pub fn is_negative(self) -> bool {
        (self.kind == Kind::Constant || self.kind == Kind::Product) && self.value < 0
    }

    // Whether a tree is a variable or a constant that is not negative.
    fn is_plain(self) -> bool {
        self.kind == Kind::Variable || (self.kind == Kind::Constant && self.value >= 0)
    }

    // Whether a tree stands in parentheses.
    pub fn is_enclosed(self) -> bool {
        match self.role {
            Role::Whole => false,
            Role::Right => self.kind == Kind::Sum,
            Role::Operand => !self.is_plain(),
        }
    }
}

#[derive(Clone, Copy)]
pub struct Trees {
    nodes: [Node; 256],
}

impl Trees {
    // The trees of a map.
    pub fn of(map: &IndexingMap) -> Trees {
        let leaf = Node {
            kind: Kind::Constant,
            value: 0,
            start: 0,
            role: Role::Whole,
        };
        let mut trees = Trees { nodes: [leaf; 256] };
        for place in 0..trees.nodes.len() {
            trees.nodes[place] = Node {
                kind: Kind::numbered(map.kinds[place]),
                value: map.values[place],
                start: place,
                role: Role::Whole,
            };
            trees.join(place);
        }
        trees
    }

    // The node at a place, and past the last one a constant.
    pub fn node(&self, place: usize) -> Node {
        self.nodes.get(place).copied().unwrap_or(Node {
            kind: Kind::Constant,
            value: 0,
            start: place,
            role: Role::Whole,
        })
    }

    // Joins the trees below the node at a place to the one that ends there.
    fn join(&mut self, place: usize) {
        let below = place.saturating_sub(1);
        let last = self.node(below);
        let (start, role) = match self.node(place).kind {
            Kind::Variable | Kind::Constant => return,
            Kind::Sum => (self.node(last.start.saturating_sub(1)).start, Role::Right),
            _ => (last.start, Role::Operand),
        };
        if let Some(node) = self.nodes.get_mut(place) {
            node.start = start;
        }
        if let Some(node) = self.nodes.get_mut(below) {
            node.role = role;
        }
    }
}
