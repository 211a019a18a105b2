ghost use Rattle.std.specs.Prelude.{◌≡◌, ◌++◌, ◌∷◌, [], OnOk};
ghost use Rattle.qvt_tree_types.specs.View.{type_view, optional_type};
ghost use Rattle.qvt_printer_layout.specs.declared.piece.PrintPiece.TheVariants.{Plain, Name, Quoted, Tight, Line, Indent, Dedent};
ghost use Rattle.qvt_language.specs.declared.class.Class.TheVariants as class;
ghost use Rattle.qvt_printer.specs.Expressions as printed;

use qvt_base::copied::Copied;
use qvt_base::list_fault::ListFault;
use qvt_base::seq::Seq;
use qvt_base::text::Text;
use qvt_language::class::Class;
use qvt_printer_layout::piece::PrintPiece;
use qvt_printer_layout::words::{kind_word, prefix_sign};
use qvt_tree_types::types::{ObjectVar, PathTree, TypeTree};
use qvt_tree_types::words::Sign;
use std::alloc::Global;
use std::marker::Model;

/// The pieces of the printed text so far.
#[derive(Drop)]
pub struct Pieces {
    alloc: Global,
    list: Seq<PrintPiece>,
}

impl Model for Pieces {
    ghost use Rattle.std.specs.Prelude.{List};
    ghost use Rattle.qvt_printer_layout.specs.declared.piece.PrintPiece.{PrintPiece};

    ghost Value = { List PrintPiece };

    ghost view = { λ p. p.list };
}

impl Pieces {
    pub fn new(alloc: Global) -> Pieces
        ensures { result ≡ [] }
    {
        Pieces {
            alloc,
            list: Seq::new(alloc),
        }
    }

    pub fn as_slice(&self) -> &[PrintPiece]
        ensures { result.now ≡ self.now }
    {
        self.list.as_slice()
    }

    pub fn put(&mut self, piece: PrintPiece) -> Result<(), ListFault>
        ensures { OnOk result (self.new ≡ self.old ++ piece ∷ []) }
    {
        self.list.push(piece)
    }

    pub fn word(&mut self, class: Class) -> Result<(), ListFault>
        ensures { OnOk result (self.new ≡ self.old ++ Plain class ∷ []) }
    {
        self.put(PrintPiece::Plain(class))
    }

    pub fn name(&mut self, name: &Text) -> Result<(), ListFault>
        ensures { OnOk result (self.new ≡ self.old ++ Name name.now ∷ []) }
    {
        let name = name.copy(self.alloc)?;
        self.put(PrintPiece::Name(name))
    }

    pub fn quoted(&mut self, text: &Text) -> Result<(), ListFault>
        ensures { OnOk result (self.new ≡ self.old ++ Quoted text.now ∷ []) }
    {
        let text = text.copy(self.alloc)?;
        self.put(PrintPiece::Quoted(text))
    }

    fn more_names(&mut self, names: &[Text]) -> Result<(), ListFault>
        ensures { OnOk result (self.new ≡ self.old ++ printed.more_names names.now) }
    {
        for name in names {
            self.word(Class::DoubleColon)?;
            self.name(name)?;
        }
        Ok(())
    }

    pub fn names(&mut self, names: &[Text]) -> Result<(), ListFault>
        ensures { OnOk result (self.new ≡ self.old ++ printed.names names.now) }
    {
        let Some((first, rest)) = names.split_first() else {
            return Ok(());
        };
        self.name(first)?;
        self.more_names(rest)
    }

    pub fn path(&mut self, path: &PathTree) -> Result<(), ListFault>
        ensures { OnOk result (self.new ≡ self.old ++ printed.path path.now) }
    {
        self.names(path.names.as_slice())
    }

    fn more_paths(&mut self, paths: &[PathTree]) -> Result<(), ListFault>
        ensures { OnOk result (self.new ≡ self.old ++ printed.more_paths paths.now) }
    {
        for path in paths {
            self.word(Class::Comma)?;
            self.path(path)?;
        }
        Ok(())
    }

    pub fn paths(&mut self, paths: &[PathTree]) -> Result<(), ListFault>
        ensures { OnOk result (self.new ≡ self.old ++ printed.paths paths.now) }
    {
        let Some((first, rest)) = paths.split_first() else {
            return Ok(());
        };
        self.path(first)?;
        self.more_paths(rest)
    }

    pub fn type_of(&mut self, kind: &TypeTree) -> Result<(), ListFault>
        ensures { OnOk result (self.new ≡ self.old ++ printed.type_of (type_view kind.now)) }
    {
        match kind {
            TypeTree::Coll { kind, item, .. } => {
                self.word(kind_word(*kind))?;
                self.word(Class::OpenRound)?;
                self.type_of(item)?;
                self.word(Class::CloseRound)
            }
            TypeTree::Path(path) => self.path(path),
        }
    }

    /// A colon and the type.
    pub fn typed(&mut self, kind: &TypeTree) -> Result<(), ListFault>
        ensures { OnOk result (self.new ≡ self.old ++ printed.typed (type_view kind.now)) }
    {
        self.word(Class::Colon)?;
        self.type_of(kind)
    }

    pub fn typed_if(&mut self, kind: &Option<TypeTree>) -> Result<(), ListFault>
        ensures { OnOk result (self.new ≡ self.old ++ printed.typed_if (optional_type kind.now)) }
    {
        match kind {
            None => Ok(()),
            Some(kind) => self.typed(kind),
        }
    }

    /// The extent after an `@`.
    pub fn extent(&mut self, extent: &Option<Text>) -> Result<(), ListFault>
        ensures { OnOk result (self.new ≡ self.old ++ printed.extent extent.now) }
    {
        match extent {
            None => Ok(()),
            Some(name) => {
                self.word(Class::AtSign)?;
                self.name(name)
            }
        }
    }

    /// The variable of an object expression, with its colon.
    pub fn variable(&mut self, variable: &Option<ObjectVar>) -> Result<(), ListFault>
        ensures { OnOk result (self.new ≡ self.old ++ printed.variable variable.now) }
    {
        match variable {
            None => Ok(()),
            Some(ObjectVar::Named { name, .. }) => {
                self.name(name)?;
                self.word(Class::Colon)
            }
            Some(ObjectVar::ResultVar { .. }) => {
                self.word(Class::ResultWord)?;
                self.word(Class::Colon)
            }
        }
    }

    pub fn signs(&mut self, signs: &[Sign]) -> Result<(), ListFault>
        ensures { OnOk result (self.new ≡ self.old ++ printed.signs signs.now) }
    {
        for sign in signs {
            self.word(prefix_sign(sign.op))?;
        }
        Ok(())
    }

    pub fn late_if(&mut self, late: bool) -> Result<(), ListFault>
        ensures { OnOk result (self.new ≡ self.old ++ printed.late_if late) }
    {
        if late {
            self.word(Class::LateWord)
        } else {
            Ok(())
        }
    }

    /// A name with its colon.
    pub fn named_if(&mut self, name: &Option<Text>) -> Result<(), ListFault>
        ensures { OnOk result (self.new ≡ self.old ++ printed.named_if name.now) }
    {
        match name {
            None => Ok(()),
            Some(name) => {
                self.name(name)?;
                self.word(Class::Colon)
            }
        }
    }

    pub fn comma_if(&mut self, comma: bool) -> Result<(), ListFault>
        ensures { OnOk result (self.new ≡ self.old ++ printed.comma_if comma) }
    {
        if comma {
            self.word(Class::Comma)
        } else {
            Ok(())
        }
    }

    /// What stands before the first part of a block.
    pub fn open_block(&mut self) -> Result<(), ListFault>
        ensures { OnOk result (self.new ≡ self.old ++ Plain class.OpenBrace ∷ Indent ∷ []) }
    {
        self.word(Class::OpenBrace)?;
        self.put(PrintPiece::Indent)
    }

    /// What stands after the last part of a block.
    pub fn close_block(&mut self) -> Result<(), ListFault>
        ensures { OnOk result (self.new ≡ self.old ++ Dedent ∷ Line ∷ Plain class.CloseBrace ∷ []) }
    {
        self.put(PrintPiece::Dedent)?;
        self.put(PrintPiece::Line)?;
        self.word(Class::CloseBrace)
    }

    /// What stands before the first item of a collection literal.
    pub fn open_items(&mut self) -> Result<(), ListFault>
        ensures { OnOk result (self.new ≡ self.old ++ Tight ∷ Plain class.OpenBrace ∷ Tight ∷ []) }
    {
        self.put(PrintPiece::Tight)?;
        self.word(Class::OpenBrace)?;
        self.put(PrintPiece::Tight)
    }

    /// What stands after the last item of a collection literal.
    pub fn close_items(&mut self) -> Result<(), ListFault>
        ensures { OnOk result (self.new ≡ self.old ++ Tight ∷ Plain class.CloseBrace ∷ []) }
    {
        self.put(PrintPiece::Tight)?;
        self.word(Class::CloseBrace)
    }
}
