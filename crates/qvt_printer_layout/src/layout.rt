ghost use Rattle.std.specs.Prelude.{◌≡◌, ◌++◌, ◌<◌, OnOk, IfOk, flat_map, replicate, []};
ghost use Rattle.std.specs.Str.{chars};
ghost use Rattle.qvt_language.specs.declared.class.Class.TheVariants as class;
ghost use Rattle.qvt_printer_layout.specs.Layout as layout;
ghost use Rattle.qvt_words.specs.Words.{spelling};

use crate::piece::PrintPiece;
use qvt_base::list_fault::ListFault;
use qvt_base::seq::Seq;
use qvt_base::text::Text;
use qvt_language::class::Class;
use qvt_words::words::{is_reserved, spelling};
use std::alloc::Global;
use std::marker::Model;

fn is_tight_around(class: Class) -> bool
    ensures { result ≡ layout.is_tight_around class }
{
    match class {
        Class::Dot => true,
        Class::Arrow => true,
        Class::DoubleColon => true,
        Class::AtSign => true,
        Class::DotDot => true,
        _ => false,
    }
}

fn is_tight_after(class: Class) -> bool
    ensures { result ≡ layout.is_tight_after class }
{
    match class {
        Class::OpenRound => true,
        class => is_tight_around(class),
    }
}

fn is_tight_before(class: Class) -> bool
    ensures { result ≡ layout.is_tight_before class }
{
    match class {
        Class::CloseRound => true,
        Class::Comma => true,
        Class::Semicolon => true,
        class => is_tight_around(class),
    }
}

fn takes_brackets(class: Class) -> bool
    ensures { result ≡ layout.takes_brackets class }
{
    match class {
        Class::Name => true,
        Class::MainWord => true,
        Class::ForEachWord => true,
        Class::SetWord => true,
        Class::BagWord => true,
        Class::SequenceWord => true,
        Class::OrderedSetWord => true,
        Class::ResolveAllWord => true,
        Class::ResolveOneWord => true,
        Class::InvResolveWord => true,
        Class::InvResolveOneWord => true,
        Class::ResolveInWord => true,
        Class::ResolveOneInWord => true,
        Class::InvResolveInWord => true,
        Class::InvResolveOneInWord => true,
        _ => false,
    }
}

fn is_open_round(class: Class) -> bool
    ensures { result ≡ layout.is_open_round class }
{
    match class {
        Class::OpenRound => true,
        _ => false,
    }
}

/// Whether two tokens stand side by side without a blank.
fn is_joined(a: Class, b: Class) -> bool
    ensures { result ≡ layout.is_joined a b }
{
    is_tight_after(a) || is_tight_before(b) || (takes_brackets(a) && is_open_round(b))
}

/// The digit of a number below 16.
fn digit(n: u8) -> char
    requires { n < 16 }
    ensures { result ≡ layout.digit n }
{
    if n < 10 {
        (b'0' + n) as char
    } else {
        (b'a' - 10 + n) as char
    }
}

/// A character of a text in quotes that is written by its number.
fn numbered(text: &mut Text, c: char) -> Result<(), ListFault>
    requires { c < 128 }
    ensures { OnOk result (text.new ≡ text.old ++ layout.numbered c) }
{
    let number = c as u8;
    text.push_str("\\x")?;
    text.push(digit(number / 16))?;
    text.push(digit(number % 16))
}

/// A character of a text in quotes.
fn escaped(text: &mut Text, c: char) -> Result<(), ListFault>
    ensures { OnOk result (text.new ≡ text.old ++ layout.escaped c) }
{
    match c {
        '\\' => text.push_str("\\\\"),
        '\'' => text.push_str("\\'"),
        '\u{8}' => text.push_str("\\b"),
        '\t' => text.push_str("\\t"),
        '\n' => text.push_str("\\n"),
        '\u{c}' => text.push_str("\\f"),
        '\r' => text.push_str("\\r"),
        c => {
            if c < ' ' || c == '\u{7f}' {
                numbered(text, c)
            } else {
                text.push(c)
            }
        }
    }
}

fn escape_all(text: &mut Text, source: &str) -> Result<(), ListFault>
    ensures { OnOk result (text.new ≡ text.old ++ flat_map layout.escaped (chars source.now)) }
{
    for c in source.chars() {
        escaped(text, c)?;
    }
    Ok(())
}

/// The text in quotes.
fn quoted(text: &mut Text, source: &str) -> Result<(), ListFault>
    ensures { OnOk result (text.new ≡ text.old ++ layout.quoted source.now) }
{
    text.push('\'')?;
    escape_all(text, source)?;
    text.push('\'')
}

/// A name, in the escaped form where it is a reserved word.
fn name_text(text: &mut Text, name: &str) -> Result<(), ListFault>
    ensures { OnOk result (text.new ≡ text.old ++ layout.name_text name.now) }
{
    if is_reserved(name) {
        text.push_str("_'")?;
        text.push_str(name)?;
        text.push_str("'")
    } else {
        text.push_str(name)
    }
}

fn integer_text(alloc: Global, text: &mut Text, value: i64) -> Result<(), ListFault>
    ensures { OnOk result (text.new ≡ text.old ++ layout.integer_text value) }
{
    let Ok(digits) = format!(in alloc; "{value}") else {
        return Err(ListFault::NoMemory);
    };
    text.push_str(digits.as_str())
}

fn blanks(text: &mut Text, count: usize) -> Result<(), ListFault>
    ensures { OnOk result (text.new ≡ text.old ++ replicate count 32) }
{
    for _ in 0..count {
        text.push(' ')?;
    }
    Ok(())
}

/// What is printed so far, the blanks that a line begins with, and the token that a blank may have
/// to follow.
#[derive(Drop)]
pub struct Sheet {
    alloc: Global,
    text: Text,
    /// The blanks of the margin, one item each.
    margin: Seq<u8>,
    last: Option<Class>,
}

impl Model for Sheet {
    ghost use Rattle.qvt_printer_layout.specs.Seen.{seen};
    ghost use Rattle.qvt_printer_layout.specs.Layout as layout;

    ghost Value = { layout.Sheet };

    ghost view = { seen };
}

impl Sheet {
    fn new(alloc: Global) -> Sheet
        ensures { result ≡ layout.blank_sheet }
    {
        Sheet {
            alloc,
            text: Text::new(alloc),
            margin: Seq::new(alloc),
            last: None,
        }
    }

    /// The blank that has to stand before a token, and that this token stands there.
    fn begin(&mut self, class: Class) -> Result<(), ListFault>
        ensures { OnOk result (self.new ≡ layout.with_token self.old class []) }
    {
        if let Some(last) = self.last
            && !is_joined(last, class)
        {
            self.text.push(' ')?;
        }
        self.last = Some(class);
        Ok(())
    }

    fn plain(&mut self, class: Class) -> Result<(), ListFault>
        ensures { OnOk result (self.new ≡ layout.with_token self.old class (spelling class)) }
    {
        self.begin(class)?;
        self.text.push_str(spelling(class))
    }

    fn name(&mut self, name: &Text) -> Result<(), ListFault>
        ensures { OnOk result (self.new ≡ layout.with_token self.old class.Name (layout.name_text name.now)) }
    {
        self.begin(Class::Name)?;
        name_text(&mut self.text, name.as_str())
    }

    fn integer(&mut self, value: i64) -> Result<(), ListFault>
        ensures { OnOk result (self.new ≡ layout.with_token self.old class.Integer (layout.integer_text value)) }
    {
        self.begin(Class::Integer)?;
        integer_text(self.alloc, &mut self.text, value)
    }

    fn quote(&mut self, text: &Text) -> Result<(), ListFault>
        ensures { OnOk result (self.new ≡ layout.with_token self.old class.Str (layout.quoted text.now)) }
    {
        self.begin(Class::Str)?;
        quoted(&mut self.text, text.as_str())
    }

    /// Ends the line.
    fn line(&mut self) -> Result<(), ListFault>
        ensures { OnOk result (self.new ≡ layout.next_line self.old) }
    {
        self.text.push('\n')?;
        blanks(&mut self.text, self.margin.len())?;
        self.last = None;
        Ok(())
    }

    fn put(&mut self, piece: &PrintPiece) -> Result<(), ListFault>
        ensures { OnOk result (self.new ≡ layout.laid self.old piece.now) }
    {
        match piece {
            PrintPiece::Plain(class) => self.plain(*class),
            PrintPiece::Name(name) => self.name(name),
            PrintPiece::Integer(value) => self.integer(*value),
            PrintPiece::Quoted(text) => self.quote(text),
            PrintPiece::Tight => {
                self.last = None;
                Ok(())
            }
            PrintPiece::Line => self.line(),
            PrintPiece::Indent => self.indent(),
            PrintPiece::Dedent => {
                self.dedent();
                Ok(())
            }
        }
    }

    fn indent(&mut self) -> Result<(), ListFault>
        ensures { OnOk result (self.new ≡ layout.indented self.old) }
    {
        self.margin.extend(b"  ")
    }

    fn dedent(&mut self)
        ensures { self.new ≡ layout.dedented self.old }
    {
        let left = self.margin.len().saturating_sub(2);
        self.margin.truncate(left);
    }
}

/// The text that the pieces make.
#[tactic(auto, unfolding(crate::specs::Layout::laid_out))]
pub fn laid_out(alloc: Global, pieces: &[PrintPiece]) -> Result<Text, ListFault>
    ensures { IfOk result (λ text. text ≡ layout.laid_out pieces.now) }
{
    let mut sheet = Sheet::new(alloc);
    for piece in pieces {
        sheet.put(piece)?;
    }
    Ok(sheet.text)
}
