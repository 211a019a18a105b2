ghost use Rattle.std.specs.Prelude.{◌≡◌, IfOk};
ghost use Rattle.serde_json.specs.View.{view};
ghost use Rattle.qvt_json.specs.Plain.{IsPlain, file_text, WrittenIsRead};

use qvt_base::list_fault::ListFault;
use qvt_base::lists::Bytes;
use serde_json::Value;
use std::alloc::Global;

/// The text of a file with this value. The value has whole numbers of 64 bits alone.
pub fn write_value(alloc: Global, value: &Value) -> Result<Bytes, ListFault>
    requires { IsPlain (view value.now) }
    ensures { IfOk result (λ bytes. bytes ≡ file_text (view value.now)) }
{
    let Ok(mut text) = value.to_vec(alloc) else {
        return Err(ListFault::NoMemory);
    };
    match text.push(b'\n') {
        Ok(()) => Ok(Bytes::from_vec(text)),
        Err(_) => Err(ListFault::NoMemory),
    }
}

/// What is written is read as the same value: for every plain value that nests no deeper than is read.
pub fn written_is_read()
    ensures { WrittenIsRead }
{}
