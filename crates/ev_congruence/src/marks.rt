//! Marks of sequents, by which lines are looked up. Equal sequents have equal marks.
use ev_forms::node_parts;
use ev_terms::{Name, Sym, Tree, Ty, Tys, extent};
use ev_typing::Sequent;

/// At most so many nodes of a sequent go into its mark, so that a mark costs about the same for each sequent.
const NODES: u32 = 64;

const MULTIPLIER: u64 = 0x9e37_79b9_7f4a_7c15;

const WORD: u128 = 0x1_0000_0000_0000_0000;

/// A mark that is being made, and how many more nodes go into it.
#[derive(Drop)]
struct Mark {
    value: u64,
    left: u32,
}

impl Mark {
    fn note(&mut self, part: u64) {
        self.value = (self.value.rotate_left(23) ^ part).wrapping_mul(MULTIPLIER);
    }

    fn note_name(&mut self, name: &Name) {
        self.note(name.len() as u64);
        for i in 0..8 {
            if let Some(byte) = name.get(i) {
                self.note(u64::from(*byte));
            }
        }
    }

    fn note_symbol(&mut self, sym: &Sym) {
        match sym {
            Sym::Base(row) => self.note(u64::from(*row)),
            Sym::User(name) => self.note_name(name),
        }
    }

    /// The outermost form of the first types.
    fn note_types(&mut self, types: &Tys) {
        for i in 0..3 {
            match types.get(i) {
                Some(Ty::Int) => self.note(1),
                Some(Ty::Bool) => self.note(2),
                Some(Ty::Prop) => self.note(3),
                Some(Ty::Pow(_)) => self.note(4),
                Some(Ty::Prod(_, _)) => self.note(5),
                Some(Ty::Data(name, _)) => self.note_name(name),
                Some(Ty::Param(i)) => self.note(6 + u64::from(*i)),
                None => {}
            }
        }
    }

    /// The first nodes of a term down to a level.
    #[cycle(note_tree)]
    fn note_tree(&mut self, tree: &Tree, level: u32) {
        if self.left == 0 || level == 0 {
            return;
        }
        self.left -= 1;
        let size = extent(tree).size;
        self.note(size);
        if let Some(i) = tree.var() {
            self.note(u64::from(i));
        }
        if let Some(n) = tree.lit() {
            self.note((n % WORD) as u64);
        }
        if let Some((sym, types, children)) = node_parts(tree) {
            self.note_symbol(sym);
            self.note_types(types);
            for child in children {
                self.note_tree(child, level - 1);
            }
        }
    }
}

/// The mark of a sequent, by the sizes of its parts and the first nodes of its goal and hypotheses.
pub(crate) fn mark_of(sequent: &Sequent) -> u64 {
    let mut mark = Mark {
        value: sequent.hyps.len() as u64,
        left: NODES,
    };
    mark.note_types(&sequent.context);
    mark.note_tree(&sequent.goal, NODES);
    for hyp in sequent.hyps.as_slice() {
        if mark.left == 0 {
            return mark.value;
        }
        mark.note_tree(hyp, NODES);
    }
    mark.value
}
