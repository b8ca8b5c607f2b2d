ghost use Rattle.std.specs.Prelude.{◌≡◌, IsTrue, map, length, slice_get};
ghost use Rattle.ev_typing.specs.Profiles.{base_profiles};
ghost use Rattle.ev_typing.specs.Table.{row_profile, all_well_formed};

/// A type of the table of base symbols over the type parameters A, B and C.
#[derive(Debug, Clone, Copy, PartialEq, Eq)]
pub enum Form {
    Prop,
    Int,
    Bool,
    A,
    B,
    /// A ** B
    Pair,
    SetInt,
    SetA,
    SetB,
    SetSetA,
    /// POW(A ** B)
    RelationAB,
    RelationBA,
    RelationBC,
    RelationAC,
    RelationAA,
    /// POW(POW(A ** B))
    SetRelation,
    /// POW((A ** B) ** A)
    FirstOf,
    /// POW((A ** B) ** B)
    SecondOf,
}

/// The types of a base symbol's children, of which there are at most two.
#[derive(Debug, Clone, Copy, PartialEq, Eq)]
pub enum Children {
    None,
    One(Form),
    Two(Form, Form),
}

/// The signature of a base symbol.
#[derive(Debug, Clone, Copy, PartialEq, Eq)]
pub struct Row {
    pub params: u32,
    pub children: Children,
    pub result: Form,
}

/// A table of N base symbols, each of whose rows is well formed: only its own type parameters occur in it, and `Prop` stands only as
/// a whole type.
#[derive(Drop)]
pub struct Symbols<const N: usize> {
    pub rows: &'static [Row],
    ghost count: { length rows.now ≡ N },
    ghost well_formed: { IsTrue (all_well_formed rows.now) },
}

/// How many base symbols there are.
pub const BASE_COUNT: usize = 64;

/// The table of the base symbols. Source: Métayer and Voisin, The Event-B Mathematical Language.
pub fn base_symbols() -> Symbols<BASE_COUNT>
    ensures { map row_profile result.rows.now ≡ base_profiles }
{
    Symbols { rows: &ROWS }
}

impl<const N: usize> Symbols<N> {
    /// The row of a symbol, from 0.
    pub fn row(&self, i: u16) -> Option<Row>
        ensures { result ≡ slice_get self.now.rows.now i }
    {
        let rows = self.rows;
        rows.get(usize::from(i)).copied()
    }
}

static ROWS: [Row; BASE_COUNT] = [
    Row {
        params: 0,
        children: Children::None,
        result: Form::Prop,
    },
    Row {
        params: 0,
        children: Children::None,
        result: Form::Prop,
    },
    Row {
        params: 0,
        children: Children::One(Form::Prop),
        result: Form::Prop,
    },
    Row {
        params: 0,
        children: Children::Two(Form::Prop, Form::Prop),
        result: Form::Prop,
    },
    Row {
        params: 0,
        children: Children::Two(Form::Prop, Form::Prop),
        result: Form::Prop,
    },
    Row {
        params: 0,
        children: Children::Two(Form::Prop, Form::Prop),
        result: Form::Prop,
    },
    Row {
        params: 0,
        children: Children::Two(Form::Prop, Form::Prop),
        result: Form::Prop,
    },
    Row {
        params: 1,
        children: Children::One(Form::Prop),
        result: Form::Prop,
    },
    Row {
        params: 1,
        children: Children::One(Form::Prop),
        result: Form::Prop,
    },
    Row {
        params: 1,
        children: Children::Two(Form::A, Form::A),
        result: Form::Prop,
    },
    Row {
        params: 1,
        children: Children::Two(Form::A, Form::SetA),
        result: Form::Prop,
    },
    Row {
        params: 1,
        children: Children::Two(Form::SetA, Form::SetA),
        result: Form::Prop,
    },
    Row {
        params: 0,
        children: Children::Two(Form::Int, Form::Int),
        result: Form::Prop,
    },
    Row {
        params: 0,
        children: Children::Two(Form::Int, Form::Int),
        result: Form::Prop,
    },
    Row {
        params: 1,
        children: Children::One(Form::SetA),
        result: Form::Prop,
    },
    Row {
        params: 0,
        children: Children::None,
        result: Form::Bool,
    },
    Row {
        params: 0,
        children: Children::None,
        result: Form::Bool,
    },
    Row {
        params: 0,
        children: Children::One(Form::Prop),
        result: Form::Bool,
    },
    Row {
        params: 0,
        children: Children::One(Form::Int),
        result: Form::Int,
    },
    Row {
        params: 0,
        children: Children::Two(Form::Int, Form::Int),
        result: Form::Int,
    },
    Row {
        params: 0,
        children: Children::Two(Form::Int, Form::Int),
        result: Form::Int,
    },
    Row {
        params: 0,
        children: Children::Two(Form::Int, Form::Int),
        result: Form::Int,
    },
    Row {
        params: 0,
        children: Children::Two(Form::Int, Form::Int),
        result: Form::Int,
    },
    Row {
        params: 0,
        children: Children::Two(Form::Int, Form::Int),
        result: Form::Int,
    },
    Row {
        params: 0,
        children: Children::Two(Form::Int, Form::Int),
        result: Form::Int,
    },
    Row {
        params: 1,
        children: Children::None,
        result: Form::SetA,
    },
    Row {
        params: 0,
        children: Children::None,
        result: Form::SetInt,
    },
    Row {
        params: 0,
        children: Children::None,
        result: Form::SetInt,
    },
    Row {
        params: 1,
        children: Children::None,
        result: Form::SetA,
    },
    Row {
        params: 1,
        children: Children::One(Form::Prop),
        result: Form::SetA,
    },
    Row {
        params: 2,
        children: Children::Two(Form::A, Form::B),
        result: Form::Pair,
    },
    Row {
        params: 2,
        children: Children::Two(Form::SetA, Form::SetB),
        result: Form::RelationAB,
    },
    Row {
        params: 1,
        children: Children::One(Form::SetA),
        result: Form::SetSetA,
    },
    Row {
        params: 1,
        children: Children::Two(Form::SetA, Form::SetA),
        result: Form::SetA,
    },
    Row {
        params: 1,
        children: Children::Two(Form::SetA, Form::SetA),
        result: Form::SetA,
    },
    Row {
        params: 1,
        children: Children::Two(Form::SetA, Form::SetA),
        result: Form::SetA,
    },
    Row {
        params: 1,
        children: Children::One(Form::SetSetA),
        result: Form::SetA,
    },
    Row {
        params: 1,
        children: Children::One(Form::SetSetA),
        result: Form::SetA,
    },
    Row {
        params: 2,
        children: Children::Two(Form::SetA, Form::SetB),
        result: Form::SetRelation,
    },
    Row {
        params: 2,
        children: Children::Two(Form::SetA, Form::SetB),
        result: Form::SetRelation,
    },
    Row {
        params: 2,
        children: Children::Two(Form::SetA, Form::SetB),
        result: Form::SetRelation,
    },
    Row {
        params: 2,
        children: Children::Two(Form::SetA, Form::SetB),
        result: Form::SetRelation,
    },
    Row {
        params: 2,
        children: Children::Two(Form::SetA, Form::SetB),
        result: Form::SetRelation,
    },
    Row {
        params: 2,
        children: Children::Two(Form::SetA, Form::SetB),
        result: Form::SetRelation,
    },
    Row {
        params: 2,
        children: Children::Two(Form::SetA, Form::SetB),
        result: Form::SetRelation,
    },
    Row {
        params: 2,
        children: Children::Two(Form::SetA, Form::SetB),
        result: Form::SetRelation,
    },
    Row {
        params: 2,
        children: Children::One(Form::RelationAB),
        result: Form::SetA,
    },
    Row {
        params: 2,
        children: Children::One(Form::RelationAB),
        result: Form::SetB,
    },
    Row {
        params: 2,
        children: Children::One(Form::RelationAB),
        result: Form::RelationBA,
    },
    Row {
        params: 3,
        children: Children::Two(Form::RelationAB, Form::RelationBC),
        result: Form::RelationAC,
    },
    Row {
        params: 2,
        children: Children::Two(Form::SetA, Form::RelationAB),
        result: Form::RelationAB,
    },
    Row {
        params: 2,
        children: Children::Two(Form::SetA, Form::RelationAB),
        result: Form::RelationAB,
    },
    Row {
        params: 2,
        children: Children::Two(Form::RelationAB, Form::SetB),
        result: Form::RelationAB,
    },
    Row {
        params: 2,
        children: Children::Two(Form::RelationAB, Form::SetB),
        result: Form::RelationAB,
    },
    Row {
        params: 2,
        children: Children::Two(Form::RelationAB, Form::RelationAB),
        result: Form::RelationAB,
    },
    Row {
        params: 2,
        children: Children::Two(Form::RelationAB, Form::SetA),
        result: Form::SetB,
    },
    Row {
        params: 2,
        children: Children::Two(Form::RelationAB, Form::A),
        result: Form::B,
    },
    Row {
        params: 1,
        children: Children::None,
        result: Form::RelationAA,
    },
    Row {
        params: 2,
        children: Children::None,
        result: Form::FirstOf,
    },
    Row {
        params: 2,
        children: Children::None,
        result: Form::SecondOf,
    },
    Row {
        params: 0,
        children: Children::Two(Form::Int, Form::Int),
        result: Form::SetInt,
    },
    Row {
        params: 1,
        children: Children::One(Form::SetA),
        result: Form::Int,
    },
    Row {
        params: 0,
        children: Children::One(Form::SetInt),
        result: Form::Int,
    },
    Row {
        params: 0,
        children: Children::One(Form::SetInt),
        result: Form::Int,
    },
];
