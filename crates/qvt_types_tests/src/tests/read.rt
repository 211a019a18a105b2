//! Programs and refusals of texts over one metamodel.

ghost use Rattle.std.specs.Prelude.{◌≡◌, None, IfOk};

use qvt_base::list_fault::ListFault;
use qvt_base::text::Text;
use qvt_meta::meta::read_meta;
use qvt_metas::metas::Metas;
use qvt_parser::parse::parse;
use qvt_types::accepting::accept;
use qvt_types::fault::TypingFault;
use qvt_types::program::Program;
use std::alloc::Global;
use std::test::Fail;

const META: &str =
    r#"{"classes":[{"features":[{"name":"a","type":"Integer"},{"name":"one","type":"C"},{"name":"many","type":"C","upper":"*"}],"name":"C"},{"abstract":true,"name":"A"},{"name":"D","supers":["C"]}],"name":"M"}"#;

const HEAD: &str = "modeltype MT uses 'M';\ntransformation T(in s : MT, out t : MT);\n";

/// The one metamodel of the tests.
pub fn metas_of(alloc: Global) -> Result<Metas, Fail>
    ensures { IfOk result (λ m. m.element ≡ None) }
{
    let Ok(meta) = read_meta(alloc, META.as_bytes()) else {
        return Err(Fail::new("the metamodel is refused"));
    };
    let mut metas = Metas::new(alloc);
    if !metas.has_room(&meta) {
        return Err(Fail::new("the metamodel is too large"));
    }
    match metas.add(meta) {
        Ok(()) => Ok(metas),
        Err(_) => Err(Fail::new("no memory for the metamodel")),
    }
}

/// Whether a text is accepted.
pub enum Answer {
    Accepted(Program),
    Refused(TypingFault),
    NotRead,
}

impl Drop for Answer {
    fn drop(self) {
        match self {
            Answer::Accepted(program) => {}
            Answer::Refused(fault) => {}
            Answer::NotRead => {}
        }
    }
}

impl Answer {
    /// The program, where the text is accepted.
    pub fn into_program(self) -> Result<Program, Fail> {
        match self {
            Answer::Accepted(program) => Ok(program),
            Answer::Refused(fault) => Err(Fail::new("refused")),
            Answer::NotRead => Err(Fail::new("not read")),
        }
    }
}

/// Whether the text is accepted over the metamodel.
pub fn asked(alloc: Global, metas: &Metas, text: &str) -> Answer
    requires { metas.now.element ≡ None }
{
    if text.len() > 100_000 {
        return Answer::NotRead;
    }
    let Ok(module) = parse(alloc, text) else {
        return Answer::NotRead;
    };
    match accept(alloc, &module, metas) {
        Ok(program) => Answer::Accepted(program),
        Err(fault) => Answer::Refused(fault),
    }
}

/// A text whose third line is this, behind a header with two models.
pub fn text_of(alloc: Global, units: &str) -> Result<Text, ListFault> {
    let mut text = Text::from_str(alloc, HEAD)?;
    text.push_str(units)?;
    Ok(text)
}

/// The program of a text whose third line this is.
pub fn program_of(alloc: Global, units: &str) -> Result<Program, Fail> {
    let metas = metas_of(alloc)?;
    let text = text_of(alloc, units)?;
    asked(alloc, &metas, text.as_str()).into_program()
}
