ghost use Rattle.std.specs.Prelude.{◌≡◌, [], ◌∷◌, ◌++◌, length, slice_get, IfOk, OnOk, OnErr};
ghost use Rattle.std.specs.Option.{option_copied};

use crate::list::ListOf;
use crate::shared::Shared;
use crate::values::{NoMemory, Same, TryCopy};
use std::alloc::Global;
use std::hash::{Hash, Hasher};
use std::marker::Model;

/// A text, or a part of one, by its bytes.
pub type Bytes = ListOf<u8>;

/// A name by its bytes, which its copies share.
#[derive(Debug, Drop)]
pub struct Name {
    bytes: Option<Shared<Bytes>>,
}

pub type Names = ListOf<Name>;

impl Model for Name {
    ghost use Rattle.std.specs.Prelude.{List, ℕ, [], unwrap_or};
    ghost use Rattle.std.specs.Coded.{coded_list, coded_ℕ};

    ghost Value = { List ℕ };

    ghost coded = { coded_list coded_ℕ };

    ghost view = { λ n. unwrap_or n.bytes [] };
}

impl Name {
    /// The empty name, which takes no memory.
    pub fn new(_alloc: Global) -> Name
        ensures { result ≡ [] }
    {
        Name { bytes: None }
    }

    /// The name of these bytes, which are not copied.
    pub fn from_bytes(alloc: Global, bytes: Bytes) -> Result<Name, NoMemory>
        ensures { IfOk result (λ name. name ≡ bytes) }
    {
        let shared = Shared::new(alloc, bytes)?;
        Ok(Name {
            bytes: Some(shared),
        })
    }

    /// The name of a copy of these bytes.
    pub fn from_slice(alloc: Global, bytes: &[u8]) -> Result<Name, NoMemory>
        ensures { IfOk result (λ name. name ≡ bytes.now) }
    {
        Name::from_bytes(alloc, Bytes::from_vec(bytes.to_vec(alloc)?))
    }

    pub fn as_slice(&self) -> &[u8]
        ensures { result.now ≡ self.now }
    {
        match &self.bytes {
            Some(bytes) => bytes.get().as_slice(),
            None => &[],
        }
    }

    pub fn len(&self) -> usize
        ensures { result ≡ length self.now }
    {
        self.as_slice().len()
    }

    pub fn get(&self, i: usize) -> Option<&u8>
        ensures { option_copied result ≡ slice_get self.now i }
    {
        self.as_slice().get(i)
    }

    /// Appends a byte, and shares nothing with earlier copies any more. After `NoMemory` the name is as it was.
    pub fn push(&mut self, alloc: Global, item: u8) -> Result<(), NoMemory>
        ensures ok { OnOk result (self.new ≡ self.old ++ item ∷ []) }
        ensures err { OnErr result (self.new ≡ self.old) }
    {
        let mut bytes = Bytes::from_vec(self.as_slice().to_vec(alloc)?);
        bytes.push(alloc, item)?;
        *self = Name::from_bytes(alloc, bytes)?;
        Ok(())
    }
}

impl TryCopy for Name {
    fn try_copy(&self, _alloc: Global) -> Result<Name, NoMemory> {
        match &self.bytes {
            Some(bytes) => Ok(Name {
                bytes: Some(bytes.share()?),
            }),
            None => Ok(Name { bytes: None }),
        }
    }
}

impl Same for Name {
    fn same(&self, other: &Name) -> bool {
        self.as_slice() == other.as_slice()
    }
}

impl PartialEq for Name {
    ghost use Rattle.std.specs.Prelude.{nat_eq};
    ghost use Rattle.std.specs.Cmp.Lexicographic.{pointwise, nat_list_eq_equiv};
    ghost use Rattle.std.specs.Cmp.{partial_equiv_from_equiv};

    ghost eq = { λ x y. pointwise nat_eq x y };

    ghost laws = { partial_equiv_from_equiv nat_list_eq_equiv };

    fn eq(&self, other: &Name) -> bool {
        self.as_slice() == other.as_slice()
    }
}

impl Eq for Name {
    ghost use Rattle.std.specs.Cmp.Lexicographic.{nat_list_eq_equiv};

    ghost laws = { nat_list_eq_equiv };
}

impl Hash for Name {
    ghost use Rattle.std.specs.Hash as fed;
    ghost use Rattle.std.specs.Cmp.Rules.{hashing};
    ghost use Rattle.std.proofs.Common.{rules};

    ghost hash_input = { λ x. fed.slice fed.u8 x };

    ghost respects_eq = { Prim.search (hashing, rules) };

    fn hash<H: Hasher>(&self, state: &mut H) {
        self.as_slice().hash(state);
    }
}
