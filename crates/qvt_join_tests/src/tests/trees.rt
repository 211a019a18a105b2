//! The typed trees of texts.

use qvt_base::list_fault::ListFault;
use qvt_base::numbers::ExprNo;
use qvt_base::seq::Seq;
use qvt_base::text::Text;
use qvt_parser::fault::ParseFault;
use qvt_parser::parse::parse;
use qvt_tree_types::module::Module;
use qvt_types_data::note::Note;
use qvt_types_join::joined::joined;
use qvt_types_nodes::module::TypedModule;
use std::alloc::Global;

/// Why a text has no typed tree.
#[derive(Clone, Copy, Debug, PartialEq, Eq)]
pub enum Fault {
    Parse(ParseFault),
    List(ListFault),
    TooLong,
}

impl From<ParseFault> for Fault {
    fn from(fault: ParseFault) -> Fault {
        Fault::Parse(fault)
    }
}

impl From<ListFault> for Fault {
    fn from(fault: ListFault) -> Fault {
        Fault::List(fault)
    }
}

const SMALL: usize = 100_000;

fn tree_of(alloc: Global, text: &str) -> Result<Module, Fault> {
    if text.len() > SMALL {
        return Err(Fault::TooLong);
    }
    let tree = parse(alloc, text)?;
    Ok(tree)
}

/// So many notes, numbered from 0.
fn numbered_notes(alloc: Global, count: u32) -> Result<Seq<Note>, ListFault> {
    let mut notes = Seq::new(alloc);
    for number in 0..count {
        let mut note = Note::bare();
        note.number = Some(ExprNo(number));
        notes.push(note)?;
    }
    Ok(notes)
}

/// The text's tree, joined with so many notes.
pub fn typed_tree_of(alloc: Global, text: &str, notes: u32) -> Result<TypedModule, Fault> {
    let tree = tree_of(alloc, text)?;
    let notes = numbered_notes(alloc, notes)?;
    let typed = joined(alloc, &tree, notes)?;
    Ok(typed)
}

/// These three one after the other.
pub fn in_text(alloc: Global, first: &str, second: &str, third: &str) -> Result<Text, ListFault> {
    let mut text = Text::from_str(alloc, first)?;
    text.push_str(second)?;
    text.push_str(third)?;
    Ok(text)
}
