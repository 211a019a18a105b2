ghost use Rattle.std.specs.Prelude.{◌≡◌, None, Some, [], if◌then◌else◌};
ghost use Rattle.qvt_base.specs.Names.{is_name, is_file};
ghost use Rattle.qvt_json.specs.Shape.{leaf};
ghost use Rattle.qvt_json.specs.Leaves.{is_id, is_json_text, is_text_of, is_flag, is_json_object, is_count};

use crate::shape::Form;
use qvt_base::list_fault::ListFault;
use qvt_base::names::{is_file, is_name};
use qvt_base::text::Text;
use serde_json::Value;
use std::alloc::Global;

/// Whether the text is of the form of an object's id.
#[tactic(auto, unfolding(crate::specs::Leaves::is_id))]
pub fn is_id(text: &str) -> bool
    ensures { result ≡ is_id text.now }
{
    is_file(text) && !text.as_bytes().contains(&b':')
}

/// The answer for a value that is at fault itself, or is not.
fn here(alloc: Global, is_right: bool) -> Option<Text>
    ensures { result ≡ (if is_right then None else Some []) }
{
    if is_right {
        return None;
    }
    Some(Text::new(alloc))
}

/// A text.
pub struct TextForm {}

impl Form for TextForm {
    ghost form = { λ f. leaf is_json_text };

    fn fault(&self, alloc: Global, value: &Value) -> Result<Option<Text>, ListFault> {
        Ok(here(alloc, value.as_str().is_some()))
    }
}

/// A name.
pub struct NameForm {}

impl Form for NameForm {
    ghost form = { λ f. leaf (is_text_of is_name) };

    fn fault(&self, alloc: Global, value: &Value) -> Result<Option<Text>, ListFault> {
        let Some(text) = value.as_str() else {
            return Ok(here(alloc, false));
        };
        Ok(here(alloc, is_name(text)))
    }
}

/// The name of a file.
pub struct FileForm {}

impl Form for FileForm {
    ghost form = { λ f. leaf (is_text_of is_file) };

    fn fault(&self, alloc: Global, value: &Value) -> Result<Option<Text>, ListFault> {
        let Some(text) = value.as_str() else {
            return Ok(here(alloc, false));
        };
        Ok(here(alloc, is_file(text)))
    }
}

/// The id of an object.
pub struct IdForm {}

impl Form for IdForm {
    ghost form = { λ f. leaf (is_text_of is_id) };

    fn fault(&self, alloc: Global, value: &Value) -> Result<Option<Text>, ListFault> {
        let Some(text) = value.as_str() else {
            return Ok(here(alloc, false));
        };
        Ok(here(alloc, is_id(text)))
    }
}

/// True or false.
pub struct FlagForm {}

impl Form for FlagForm {
    ghost form = { λ f. leaf is_flag };

    fn fault(&self, alloc: Global, value: &Value) -> Result<Option<Text>, ListFault> {
        Ok(here(alloc, value.as_bool().is_some()))
    }
}

/// An object of any keys.
pub struct ObjectForm {}

impl Form for ObjectForm {
    ghost form = { λ f. leaf is_json_object };

    fn fault(&self, alloc: Global, value: &Value) -> Result<Option<Text>, ListFault> {
        Ok(here(alloc, value.as_object().is_some()))
    }
}

/// A whole number within these bounds, which belong to the range.
pub struct CountForm {
    pub low: u64,
    pub high: u64,
}

impl Form for CountForm {
    ghost form = { λ f. leaf (is_count f.low f.high) };

    fn fault(&self, alloc: Global, value: &Value) -> Result<Option<Text>, ListFault> {
        let Some(number) = value.as_u64() else {
            return Ok(here(alloc, false));
        };
        if number < self.low {
            return Ok(here(alloc, false));
        }
        Ok(here(alloc, number <= self.high))
    }
}
