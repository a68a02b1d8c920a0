//! Lists, texts and trees by the calls that take memory.
ghost use Rattle.std.specs.Prelude.{◌≡◌, []};
ghost use Rattle.py_base.specs.declared.node.Word.TheVariants as words;

use crate::compare::compare;
use py_base::{List, NameId, NoMemory, Node, NodeKind, Span, Text, Tree, Word};
use std::alloc::Global;
use std::test::Fail;

fn list_shown(alloc: Global) -> Result<String, Fail> {
    let mut list = List::new(alloc);
    list.push(3u8)?;
    let copy = list.copy(alloc)?;
    list.push(5)?;
    Ok(format!(in alloc; "{:?} {:?}", list.as_slice(), copy.as_slice())?)
}

fn text_shown(alloc: Global) -> Result<String, Fail> {
    let text = Text::from_str(alloc, "tür")?;
    let copy = text.copy(alloc)?;
    Ok(format!(in alloc; "{text:>5} {copy} {}", text.len())?)
}

fn leaf(alloc: Global) -> Node
    ensures parts { result.parts ≡ [] }
    ensures word { result.word ≡ words.Nothing }
{
    Node {
        kind: NodeKind::Pass,
        span: Span { from: 0, to: 1 },
        parts: List::new(alloc),
        word: Word::Nothing,
    }
}

fn interned(tree: &mut Tree, name: &str) -> Result<NameId, NoMemory> {
    if tree.name_count() > 1000 {
        return Err(NoMemory);
    }
    tree.intern(name)
}

fn tree_shown(alloc: Global) -> Result<String, Fail> {
    let mut tree = Tree::new(alloc)?;
    let node = tree.add(leaf(alloc))?;
    let first = interned(&mut tree, "object")?;
    let spam = interned(&mut tree, "spam")?;
    let again = interned(&mut tree, "spam")?;
    Ok(format!(in alloc; "{} {} {}", node.0, first.0, spam == again)?)
}

#[test]
fn values_of_py_base(rt: HostRuntime) -> Result<(), Fail> {
    let alloc = rt.alloc();
    compare(&rt, "a list", list_shown(alloc)?.as_str(), "[3, 5] [3]");
    compare(&rt, "a text", text_shown(alloc)?.as_str(), "  tür tür 4");
    compare(&rt, "a tree", tree_shown(alloc)?.as_str(), "0 0 true");
    Ok(())
}
