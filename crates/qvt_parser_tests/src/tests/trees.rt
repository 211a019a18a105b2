//! The trees of texts.

use qvt_base::list_fault::ListFault;
use qvt_base::text::Text;
use qvt_parser::fault::ParseFault;
use qvt_parser::parse::parse;
use qvt_tree::module::Module;
use std::alloc::Global;

/// Why a text was not read.
#[derive(Clone, Copy, Debug, PartialEq, Eq)]
pub enum Fault {
    Parse(ParseFault),
    List(ListFault),
    TooLong,
}

impl From<ParseFault> for Fault {
    fn from(fault: ParseFault) -> Fault {
        Fault::Parse(fault)
    }
}

impl From<ListFault> for Fault {
    fn from(fault: ListFault) -> Fault {
        Fault::List(fault)
    }
}

const SMALL: usize = 100_000;

pub fn tree_of(alloc: Global, text: &str) -> Result<Module, Fault> {
    if text.len() > SMALL {
        return Err(Fault::TooLong);
    }
    let tree = parse(alloc, text)?;
    Ok(tree)
}

/// These three one after the other.
pub fn joined(alloc: Global, first: &str, second: &str, third: &str) -> Result<Text, ListFault> {
    let mut text = Text::from_str(alloc, first)?;
    text.push_str(second)?;
    text.push_str(third)?;
    Ok(text)
}
