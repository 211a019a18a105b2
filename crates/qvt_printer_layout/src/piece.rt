use qvt_base::text::Text;
use qvt_language::class::Class;

/// A part of the printed text, or how the parts after it stand.
#[derive(Drop)]
pub enum PrintPiece {
    /// A sign or a reserved word.
    Plain(Class),
    Name(Text),
    Integer(i64),
    /// A text in quotes, told without them.
    Quoted(Text),
    /// No blank stands here.
    Tight,
    /// Here a line ends.
    Line,
    /// From here on lines begin two blanks further to the right.
    Indent,
    /// From here on lines begin two blanks further to the left.
    Dedent,
}
