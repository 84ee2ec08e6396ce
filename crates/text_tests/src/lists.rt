// Texts, and lists, also of what has lists of its own kind.
use fold_base::{List, PieceTaker, Text, TextMakeFault};
use std::alloc::AllocError;
use std::collections::HashSet;
use std::test::Fail;

#[test]
fn is_a_key(rt: HostRuntime) -> Result<(), Fail> {
    let alloc = rt.alloc();
    let mut texts = HashSet::new(alloc);
    for (text, is_new) in [("a", true), ("b", true), ("a", false)] {
        let mut grown = Text::from_text(alloc, text)?;
        grown.push('é')?;
        assert_eq!(rt; texts.insert(grown).ok().ok_or("memory")?, is_new, "{text}");
    }
    Ok(())
}

#[test]
fn takes_utf8_alone(rt: HostRuntime) -> Result<(), Fail> {
    let alloc = rt.alloc();
    let accented = Text::from_bytes(alloc, "é".as_bytes()).ok().ok_or("utf-8")?;
    assert_eq!(rt; accented.copy(alloc)?.as_str(), "é");
    assert_eq!(rt;
        Text::from_bytes(alloc, b"\xc3").err(),
        Some(TextMakeFault::NotUtf8)
    );
    assert_eq!(rt; Text::from_ascii(alloc, b"e")?.as_str(), "e");
    Ok(())
}

#[test]
fn keeps_its_elements(rt: HostRuntime) -> Result<(), Fail> {
    let alloc = rt.alloc();
    let mut list = List::from_slice(alloc, b"ab")?;
    list.push(b'c')?;
    list.extend_from_slice(b"de")?;
    list.take_piece(b"f")?;
    assert_eq!(rt; list.as_slice(), b"abcdef".as_slice());
    list.fit();
    assert_eq!(rt; list.into_vec().as_slice(), b"abcdef".as_slice());
    let empty: List<u8> = List::with_room(alloc, 3)?;
    assert_eq!(rt; empty.len(), 0);
    Ok(())
}

#[derive(Drop)]
#[cycle(tree)]
enum Tree {
    Leaf(u8),
    Branches(List<Tree>),
    Named(List<Branch>),
}

#[derive(Drop)]
#[cycle(tree)]
struct Branch {
    name: Text,
    tree: Tree,
}

#[cycle(first_leaf)]
fn first_leaf(tree: &Tree) -> Option<u8> {
    match tree {
        Tree::Leaf(leaf) => Some(*leaf),
        Tree::Branches(branches) => first_leaf(branches.get(0)?),
        Tree::Named(branches) => first_leaf(&branches.get(0)?.tree),
    }
}

#[test]
fn reaches_itself(rt: HostRuntime) -> Result<(), Fail> {
    let alloc = rt.alloc();
    let mut leaves = List::new(alloc);
    leaves.push(Tree::Leaf(7)).map_err(AllocError::from)?;
    let branch = Branch {
        name: Text::from_text(alloc, "first")?,
        tree: Tree::Branches(leaves),
    };
    let mut branches = List::new(alloc);
    branches.push(branch).map_err(AllocError::from)?;
    assert_eq!(rt; first_leaf(&Tree::Named(branches)), Some(7));
    Ok(())
}
