//! Constructors and inductive arguments, looked up in an environment.
ghost use Rattle.std.specs.Prelude.{◌≡◌, ◌≢◌, ◌<◌, ◌^◌, length, flat_map, bytes_eq, Some, None, IfSome, IfNone};
ghost use Rattle.std.specs.List.{list_any};
ghost use Rattle.ev_typing.specs.declared.typing.DataDecl.{DataDecl};
ghost use Rattle.ev_typing.specs.declared.typing.Con.{Con};
ghost use Rattle.ev_typing.specs.declared.typing.Var.{Var};
ghost use Rattle.ev_typing.specs.Env.{ConOf, look_up, symbols, con_symbols, find_symbol};
ghost use Rattle.ev_typing.specs.WellFormed.{inductive_data};
ghost use Rattle.ev_data.specs.inner.Found.{constructed};

use ev_terms::{Name, Ty, Tys};
use ev_typing::{Con, DataDecl, Entry, Env, Signature};

/// The constructor of the name, with its datatype. Linear in the datatype's names.
pub fn constructor<'a>(env: &'a Env, name: &Name) -> Option<(&'a DataDecl, &'a Con)>
    ensures found { IfSome result (λ p. find_symbol env.now name.now ≡ Some (ConOf p.0.now p.1.now)) }
    ensures none { IfNone result ((d : DataDecl) (c : Con) → find_symbol env.now name.now ≢ Some (ConOf d c)) }
    ensures small { IfSome result (λ p. length p.1.now.fields < 2 ^ 30) }
{
    match env.symbol(name) {
        Some(entry) => constructor_of(entry, name),
        None => None,
    }
}

/// The constructor of the name among the symbols that the entry declares.
#[tactic(auto, using(crate::proofs::Constructors::operators))]
fn constructor_of<'a>(entry: &'a Entry, name: &Name) -> Option<(&'a DataDecl, &'a Con)>
    ensures found { IfSome result (λ p. look_up (symbols entry.now) name.now ≡ Some (ConOf p.0.now p.1.now)) }
    ensures none { IfNone result (constructed (look_up (symbols entry.now) name.now) ≡ None) }
{
    match entry {
        Entry::Data(decl) => match constructor_in(decl, name) {
            Some(con) => Some((decl, con)),
            None => None,
        },
        Entry::Constant(_, _) | Entry::Direct(_, _, _) | Entry::Recursive(_, _, _, _) => None,
    }
}

/// Whether the constructor has a destructor of the name.
fn has_destructor(con: &Con, name: &Name) -> bool
    ensures { result ≡ list_any (λ (f : Var). bytes_eq f.name name.now) con.now.fields }
{
    con.fields
        .as_slice()
        .iter()
        .any(|field| field.name == *name)
}

/// The constructor of the name among those of the datatype.
#[tactic(auto, using(crate::proofs::Constructors::found))]
fn constructor_in<'a>(decl: &'a DataDecl, name: &Name) -> Option<&'a Con>
    ensures found { IfSome result (λ c. look_up (flat_map (con_symbols decl.now) decl.now.cons) name.now ≡ Some (ConOf decl.now c.now)) }
    ensures none { IfNone result (constructed (look_up (flat_map (con_symbols decl.now) decl.now.cons) name.now) ≡ None) }
{
    for con in decl.cons.as_slice() {
        if con.name == *name {
            return Some(con);
        }
        if has_destructor(con, name) {
            return None;
        }
    }
    None
}

/// The datatype of the argument at the inductive place, from 0, with its types.
pub fn inductive_argument<'a>(
    env: &'a Env,
    signature: &'a Signature,
    place: u32,
) -> Option<(&'a DataDecl, &'a Tys)>
    ensures found { IfSome result (λ p. inductive_data env.now signature.now place ≡ Some (p.0.now, p.1.now)) }
    ensures none { IfNone result (inductive_data env.now signature.now place ≡ None) }
{
    match signature.args.get(place as usize) {
        Some(Ty::Data(name, types)) => match env.datatype(name) {
            Some(decl) => Some((decl, types)),
            None => None,
        },
        _ => None,
    }
}
