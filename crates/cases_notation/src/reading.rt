//! Types and terms in a prefix notation. Types are `INT BOOL PROP`, `?i`, `Set A`, `Pair A B`, `NAME/n` before n types, and `at:n A`
//! before n types that are put for the parameters of A. Terms are `vi` for the variable i, literals, base symbols by their signs
//! before their type arguments and children, `NAME/t/c` and `@row/t/c` before t type arguments and c children, and what the words of
//! `making` make. A text is read from its last word to its first, so that nothing recurs.
use crate::fault::Fault;
use crate::making::make;
use crate::symbols::{Head, child_count, row_at, row_of_sign};
use crate::words::{number, number_behind, words_from_last};
use ev_terms::{
    Name, NoMemory, Shared, Sym, Tree, Trees, Ty, Tys, extent, instantiate_type, make_lit,
    make_node, make_var,
};
use std::alloc::Global;

/// The deepest term that is read.
const DEPTH_LIMIT: u64 = 2_000;

/// What was read behind a word, the next one last.
#[derive(Drop)]
pub struct Reader {
    types: Vec<Ty>,
    trees: Vec<Tree>,
}

/// What a text was read as: its types, its terms.
#[derive(Drop)]
pub struct Items {
    pub types: Tys,
    pub trees: Trees,
}

fn plain_type(word: &str) -> Option<Ty> {
    match word {
        "INT" => Some(Ty::Int),
        "BOOL" => Some(Ty::Bool),
        "PROP" => Some(Ty::Prop),
        _ => Some(Ty::Param(number_behind(word, '?')?)),
    }
}

/// A variable or a literal.
fn leaf(alloc: Global, word: &str) -> Result<Option<Tree>, Fault> {
    if let Some(i) = number_behind(word, 'v') {
        return Ok(Some(make_var(alloc, i)?));
    }
    match word.parse::<u128>() {
        Ok(n) => if n < 1 << 127 {
            Ok(Some(make_lit(alloc, n)?))
        } else {
            Err(Fault::NoCase)
        },
        Err(_) => Ok(None),
    }
}

/// The base symbol of a sign.
fn base_head(word: &str) -> Option<Head> {
    let i = row_of_sign(word)?;
    let row = row_at(i)?;
    Some(Head {
        sym: Sym::Base(i),
        types: row.params,
        children: child_count(row),
    })
}

/// The symbol of `NAME/t/c`, or of `@row/t/c`.
fn counted_head(alloc: Global, word: &str) -> Result<Head, Fault> {
    let Some((name, counts)) = word.split_once('/') else {
        return Err(Fault::NoCase);
    };
    let Some((types, children)) = counts.split_once('/') else {
        return Err(Fault::NoCase);
    };
    Ok(Head {
        sym: symbol(alloc, name)?,
        types: number(types)?,
        children: number(children)?,
    })
}

fn symbol(alloc: Global, name: &str) -> Result<Sym, Fault> {
    match number_behind(name, '@') {
        Some(row) => match u16::try_from(row) {
            Ok(row) => Ok(Sym::Base(row)),
            Err(_) => Err(Fault::NoCase),
        },
        None => Ok(Sym::User(Name::from_slice(alloc, name.as_bytes())?)),
    }
}

impl Reader {
    fn new(alloc: Global) -> Reader {
        Reader {
            types: Vec::new(alloc),
            trees: Vec::new(alloc),
        }
    }

    /// The next type.
    pub fn ty(&mut self) -> Result<Ty, Fault> {
        self.types.pop().ok_or(Fault::NoCase)
    }

    /// The next term.
    pub fn tree(&mut self) -> Result<Tree, Fault> {
        self.trees.pop().ok_or(Fault::NoCase)
    }

    pub fn next_types(&mut self, alloc: Global, count: u32) -> Result<Tys, Fault> {
        let mut types = Tys::new(alloc);
        for _ in 0..count {
            types.push(alloc, self.ty()?)?;
        }
        Ok(types)
    }

    pub fn next_trees(&mut self, alloc: Global, count: u32) -> Result<Trees, Fault> {
        let mut trees = Trees::new(alloc);
        for _ in 0..count {
            trees.push(alloc, self.tree()?)?;
        }
        Ok(trees)
    }

    fn pair(&mut self, alloc: Global) -> Result<Ty, Fault> {
        let first = Shared::new(alloc, self.ty()?)?;
        let second = Shared::new(alloc, self.ty()?)?;
        Ok(Ty::Prod(first, second))
    }

    /// A datatype at types.
    fn data(&mut self, alloc: Global, name: &str, count: u32) -> Result<Ty, Fault> {
        let name = Name::from_slice(alloc, name.as_bytes())?;
        Ok(Ty::Data(name, self.next_types(alloc, count)?))
    }

    /// A type with types put in.
    fn instance(&mut self, alloc: Global, count: u32) -> Result<Ty, Fault> {
        let ty = self.ty()?;
        let types = self.next_types(alloc, count)?;
        Ok(instantiate_type(alloc, &ty, &types)?)
    }

    fn type_of_word(&mut self, alloc: Global, word: &str) -> Result<Option<Ty>, Fault> {
        if let Some(ty) = plain_type(word) {
            return Ok(Some(ty));
        }
        match word {
            "Set" => Ok(Some(Ty::Pow(Shared::new(alloc, self.ty()?)?))),
            "Pair" => Ok(Some(self.pair(alloc)?)),
            _ => self.counted_type(alloc, word),
        }
    }

    fn counted_type(&mut self, alloc: Global, word: &str) -> Result<Option<Ty>, Fault> {
        if let Some(count) = word.strip_prefix("at:") {
            return Ok(Some(self.instance(alloc, number(count)?)?));
        }
        let Some((name, count)) = word.split_once('/') else {
            return Ok(None);
        };
        match count.parse::<u32>() {
            Ok(count) => Ok(Some(self.data(alloc, name, count)?)),
            Err(_) => Ok(None),
        }
    }

    fn node(&mut self, alloc: Global, head: Head) -> Result<Tree, Fault> {
        let types = self.next_types(alloc, head.types)?;
        let children = self.next_trees(alloc, head.children)?;
        Ok(make_node(alloc, head.sym, types, children)?)
    }

    fn tree_of_word(&mut self, alloc: Global, word: &str) -> Result<Tree, Fault> {
        if let Some(tree) = leaf(alloc, word)? {
            return Ok(tree);
        }
        if let Some(tree) = make(alloc, self, word)? {
            return Ok(tree);
        }
        let head = counted_head(alloc, word)?;
        self.node(alloc, head)
    }

    fn push_tree(&mut self, tree: Tree) -> Result<(), Fault> {
        if extent(&tree).depth > DEPTH_LIMIT {
            return Err(Fault::NoCase);
        }
        self.trees.push(tree)?;
        Ok(())
    }

    fn read_word(&mut self, alloc: Global, word: &str) -> Result<(), Fault> {
        if let Some(head) = base_head(word) {
            let tree = self.node(alloc, head)?;
            return self.push_tree(tree);
        }
        if let Some(ty) = self.type_of_word(alloc, word)? {
            self.types.push(ty)?;
            return Ok(());
        }
        let tree = self.tree_of_word(alloc, word)?;
        self.push_tree(tree)
    }
}

fn read_words(alloc: Global, text: &str) -> Result<Reader, Fault> {
    let words = words_from_last(alloc, text)?;
    let mut reader = Reader::new(alloc);
    for word in words.as_slice() {
        reader.read_word(alloc, *word)?;
    }
    Ok(reader)
}

/// The list of a vector's types.
fn list_of(alloc: Global, types: Vec<Ty>) -> Result<Tys, NoMemory> {
    let mut list = Tys::new(alloc);
    for ty in types {
        list.push(alloc, ty)?;
    }
    Ok(list)
}

/// The types and the terms of a text, each in the order of the text.
pub fn read_items(alloc: Global, text: &str) -> Result<Items, Fault> {
    let Reader { types, trees } = read_words(alloc, text)?;
    let (mut types, mut trees) = (types, trees);
    types.reverse();
    trees.reverse();
    Ok(Items {
        types: list_of(alloc, types)?,
        trees: Trees::from_vec(trees),
    })
}

/// The types of a text, which has no terms.
pub fn read_types(alloc: Global, text: &str) -> Result<Tys, Fault> {
    let items = read_items(alloc, text)?;
    if items.trees.is_empty() {
        Ok(items.types)
    } else {
        Err(Fault::NoCase)
    }
}

/// The terms of a text, which has no types but theirs.
pub fn read_trees(alloc: Global, text: &str) -> Result<Trees, Fault> {
    let Items { types, trees } = read_items(alloc, text)?;
    match &types {
        Tys::Empty => Ok(trees),
        Tys::More(_, _) => Err(Fault::NoCase),
    }
}

/// The only term of a text.
pub fn read_tree(alloc: Global, text: &str) -> Result<Tree, Fault> {
    let mut trees = read_trees(alloc, text)?.into_vec();
    match (trees.pop(), trees.is_empty()) {
        (Some(tree), true) => Ok(tree),
        _ => Err(Fault::NoCase),
    }
}

/// The only type of a text.
pub fn read_type(alloc: Global, text: &str) -> Result<Ty, Fault> {
    let mut reader = read_words(alloc, text)?;
    let ty = reader.ty()?;
    if reader.types.is_empty() && reader.trees.is_empty() {
        Ok(ty)
    } else {
        Err(Fault::NoCase)
    }
}
