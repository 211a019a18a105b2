ghost use Rattle.std.specs.Prelude.{◌≡◌, ◌<◌, ◌≤◌, ◌∷◌, length, map, OnOk};
ghost use Rattle.qvt_grammar.specs.Reader.{starts, made_at, then_at, maybe_at};
ghost use Rattle.qvt_tree_types.specs.View.{type_view, optional_type};
ghost use Rattle.qvt_language.specs.Tokens.{of, is, tok_of};
ghost use Rattle.qvt_language.specs.Readers.{the_at};
ghost use Rattle.qvt_language.specs.Firsts.{kind_first};
ghost use Rattle.qvt_language.specs.Trees as trees;
ghost use Rattle.qvt_language.specs.Trees.{second, text_of};
ghost use Rattle.qvt_language.specs.Reading.{name_at, more_names_at, path_at, paths_at, unit_path_at, extent_at, kind_word_at, coll_type_at, typed_at, colon_type_at, colon_path_at};
ghost use Rattle.qvt_language.specs.Nesting.{nested_at};
ghost use Rattle.qvt_parser_grammar.specs.Gives.{Gives, Makes, toks, same};

use crate::cursor::{ParseError, Parser};
use qvt_base::lists::NameList;
use qvt_base::seq::Seq;
use qvt_base::text::Text;
use qvt_language::class::Class;
use qvt_language::named::{Named, UnitPath};
use qvt_language::token::SyntaxToken;
use qvt_tree_types::types::{PathTree, TypeTree};
use qvt_tree_types::words::CollKind;
use std::alloc::Global;

/// The kind of collection that the word names.
pub fn coll_kind(class: Class) -> CollKind
    ensures { result ≡ trees.coll_kind class }
{
    match class {
        Class::SetWord => CollKind::Set,
        Class::BagWord => CollKind::Bag,
        Class::SequenceWord => CollKind::Sequence,
        _ => CollKind::OrderedSet,
    }
}

/// The texts of names.
fn names_of(alloc: Global, first: Named, more: Seq<Named>) -> Result<NameList, ParseError>
    ensures { Makes same result (first.text ∷ map (λ n. n.text) more) }
{
    let mut names = Seq::new(alloc);
    names.push(first.text)?;
    for name in more.into_vec() {
        names.push(name.text)?;
    }
    Ok(names)
}

/// The path of names, with the place of the first.
pub fn path_of(alloc: Global, first: Named, more: Seq<Named>) -> Result<PathTree, ParseError>
    ensures { Makes same result (trees.path_of (first, more)) }
{
    let place = first.place;
    let names = names_of(alloc, first, more)?;
    Ok(PathTree { names, place })
}

fn unit_path_of(alloc: Global, first: Named, more: Seq<Named>) -> Result<UnitPath, ParseError>
    ensures { Makes same result (trees.unit_path_of (first, more)) }
{
    let mut place = first.place;
    let mut names = Seq::new(alloc);
    names.push(first.text)?;
    for name in more.into_vec() {
        place = name.place;
        names.push(name.text)?;
    }
    Ok(UnitPath { names, place })
}

impl<'a> Parser<'a> {
    /// A name.
    #[tactic(auto, unfolding(qvt_language::specs::Reading::name_at))]
    pub fn name(&mut self) -> Result<Named, ParseError>
        ensures gives { Gives same result (toks self.new) (name_at (toks self.old)) }
        ensures fewer { length (toks self.new) ≤ length (toks self.old) }
        ensures less { OnOk result (length (toks self.new) < length (toks self.old)) }
    {
        let token = self.take(Class::Name)?;
        let text = Text::from_str(self.alloc, token.text)?;
        Ok(Named {
            text,
            place: token.place,
        })
    }

    fn next_name(&mut self) -> Result<Named, ParseError>
        ensures gives { Gives same result (toks self.new) (made_at second (then_at (the_at Class.DoubleColon) name_at) (toks self.old)) }
        ensures fewer { length (toks self.new) ≤ length (toks self.old) }
        ensures less { OnOk result (length (toks self.new) < length (toks self.old)) }
    {
        self.take(Class::DoubleColon)?;
        self.name()
    }

    /// The further names of a path, each after `::`.
    #[tactic(auto, unfolding(qvt_language::specs::Reading::more_names_at))]
    pub fn more_names(&mut self) -> Result<Seq<Named>, ParseError>
        ensures gives { Gives same result (toks self.new) (more_names_at (toks self.old)) }
        ensures fewer { length (toks self.new) ≤ length (toks self.old) }
    {
        let mut names = Seq::new(self.alloc);
        while self.at(Class::DoubleColon) {
            let next = self.next_name()?;
            names.push(next)?;
        }
        Ok(names)
    }

    /// A path: names with `::` between them, with the place of the first.
    #[tactic(auto, unfolding(qvt_language::specs::Reading::path_at))]
    pub fn path(&mut self) -> Result<PathTree, ParseError>
        ensures gives { Gives same result (toks self.new) (path_at (toks self.old)) }
        ensures fewer { length (toks self.new) ≤ length (toks self.old) }
        ensures less { OnOk result (length (toks self.new) < length (toks self.old)) }
    {
        let first = self.name()?;
        let more = self.more_names()?;
        path_of(self.alloc, first, more)
    }

    /// The path of a unit's name, with the place of the last name.
    #[tactic(auto, unfolding(qvt_language::specs::Reading::unit_path_at))]
    pub fn unit_path(&mut self) -> Result<UnitPath, ParseError>
        ensures gives { Gives same result (toks self.new) (unit_path_at (toks self.old)) }
        ensures fewer { length (toks self.new) ≤ length (toks self.old) }
        ensures less { OnOk result (length (toks self.new) < length (toks self.old)) }
    {
        let first = self.name()?;
        let more = self.more_names()?;
        unit_path_of(self.alloc, first, more)
    }

    fn next_path(&mut self) -> Result<PathTree, ParseError>
        ensures gives { Gives same result (toks self.new) (made_at second (then_at (the_at Class.Comma) path_at) (toks self.old)) }
        ensures fewer { length (toks self.new) ≤ length (toks self.old) }
        ensures less { OnOk result (length (toks self.new) < length (toks self.old)) }
    {
        self.take(Class::Comma)?;
        self.path()
    }

    /// Paths with commas between them, at least one.
    #[tactic(auto, unfolding(qvt_language::specs::Reading::paths_at))]
    pub fn paths(&mut self) -> Result<Seq<PathTree>, ParseError>
        ensures gives { Gives same result (toks self.new) (paths_at (toks self.old)) }
        ensures fewer { length (toks self.new) ≤ length (toks self.old) }
        ensures less { OnOk result (length (toks self.new) < length (toks self.old)) }
    {
        let mut paths = Seq::new(self.alloc);
        let first = self.path()?;
        paths.push(first)?;
        while self.at(Class::Comma) {
            let next = self.next_path()?;
            paths.push(next)?;
        }
        Ok(paths)
    }

    /// A name's text.
    pub fn name_text(&mut self) -> Result<Text, ParseError>
        ensures gives { Gives same result (toks self.new) (made_at text_of (the_at Class.Name) (toks self.old)) }
        ensures fewer { length (toks self.new) ≤ length (toks self.old) }
        ensures less { OnOk result (length (toks self.new) < length (toks self.old)) }
    {
        let token = self.take(Class::Name)?;
        let text = Text::from_str(self.alloc, token.text)?;
        Ok(text)
    }

    /// The extent that an object is made in, after `@`, if one is told.
    #[tactic(auto, unfolding(qvt_language::specs::Reading::extent_at))]
    pub fn extent(&mut self) -> Result<Option<Text>, ParseError>
        ensures gives { Gives same result (toks self.new) (extent_at (toks self.old)) }
        ensures fewer { length (toks self.new) ≤ length (toks self.old) }
    {
        if self.at(Class::AtSign) {
            self.take(Class::AtSign)?;
            let name = self.name_text()?;
            return Ok(Some(name));
        }
        Ok(None)
    }

    /// The word of a kind of collection.
    #[tactic(auto, unfolding(qvt_language::specs::Reading::kind_word_at))]
    pub fn kind_word(&mut self) -> Result<SyntaxToken<'a>, ParseError>
        ensures gives { Gives tok_of result (toks self.new) (kind_word_at (toks self.old)) }
        ensures fewer { length (toks self.new) ≤ length (toks self.old) }
        ensures less { OnOk result (length (toks self.new) < length (toks self.old)) }
    {
        if self.at(Class::SetWord) {
            return self.take(Class::SetWord);
        }
        if self.at(Class::BagWord) {
            return self.take(Class::BagWord);
        }
        if self.at(Class::SequenceWord) {
            return self.take(Class::SequenceWord);
        }
        self.take(Class::OrderedSetWord)
    }

    /// A path after a colon.
    #[tactic(auto, unfolding(qvt_language::specs::Reading::colon_path_at))]
    pub fn colon_path(&mut self) -> Result<PathTree, ParseError>
        ensures gives { Gives same result (toks self.new) (colon_path_at (toks self.old)) }
        ensures fewer { length (toks self.new) ≤ length (toks self.old) }
        ensures less { OnOk result (length (toks self.new) < length (toks self.old)) }
    {
        self.take(Class::Colon)?;
        self.path()
    }

    /// Whether the next token is the word of a kind of collection.
    pub fn at_kind(&self) -> bool
        ensures { result ≡ starts (of kind_first) (toks self.now) }
    {
        self.at(Class::SetWord)
            || self.at(Class::SequenceWord)
            || self.at(Class::OrderedSetWord)
            || self.at(Class::BagWord)
    }

    /// The type of a collection: its kind, and the type of its items in brackets.
    #[cycle(types)]
    #[tactic(auto, unfolding(qvt_language::specs::Reading::coll_type_at))]
    pub fn coll_type(&mut self, room: usize) -> Result<TypeTree, ParseError>
        ensures gives { Gives type_view result (toks self.new) (coll_type_at (nested_at room) (toks self.old)) }
        ensures fewer { length (toks self.new) ≤ length (toks self.old) }
        ensures less { OnOk result (length (toks self.new) < length (toks self.old)) }
    {
        let word = self.kind_word()?;
        self.take(Class::OpenRound)?;
        let item = self.kind(room)?;
        self.take(Class::CloseRound)?;
        let item = Box::new(self.alloc, item)?;
        Ok(TypeTree::Coll {
            kind: coll_kind(word.class),
            item,
            place: word.place,
        })
    }

    /// A type: that of a collection, or a path. Types are nested in at most `room` others.
    #[cycle(types)]
    #[tactic(auto, unfolding(qvt_language::specs::Reading::typed_at))]
    pub fn typed(&mut self, room: usize) -> Result<TypeTree, ParseError>
        ensures gives { Gives type_view result (toks self.new) (typed_at (nested_at room) (toks self.old)) }
        ensures fewer { length (toks self.new) ≤ length (toks self.old) }
        ensures less { OnOk result (length (toks self.new) < length (toks self.old)) }
    {
        if self.at_kind() {
            return self.coll_type(room);
        }
        let path = self.path()?;
        Ok(TypeTree::Path(path))
    }

    #[cycle(types)]
    #[tactic(auto, unfolding(qvt_language::specs::Nesting::nested_at))]
    fn kind(&mut self, room: usize) -> Result<TypeTree, ParseError>
        ensures gives { Gives type_view result (toks self.new) ((nested_at room).kind (toks self.old)) }
        ensures fewer { length (toks self.new) ≤ length (toks self.old) }
    {
        if room == 0 {
            return Err(ParseError::Syntax);
        }
        self.typed(room - 1)
    }

    /// A type after a colon.
    #[tactic(auto, unfolding(qvt_language::specs::Reading::colon_type_at))]
    pub fn colon_type(&mut self, room: usize) -> Result<TypeTree, ParseError>
        ensures gives { Gives type_view result (toks self.new) (colon_type_at (nested_at room) (toks self.old)) }
        ensures fewer { length (toks self.new) ≤ length (toks self.old) }
        ensures less { OnOk result (length (toks self.new) < length (toks self.old)) }
    {
        self.take(Class::Colon)?;
        self.typed(room)
    }

    /// A type after a colon, if a colon is next.
    pub fn optional_type(&mut self, room: usize) -> Result<Option<TypeTree>, ParseError>
        ensures gives { Gives optional_type result (toks self.new) (maybe_at (is Class.Colon) (colon_type_at (nested_at room)) (toks self.old)) }
        ensures fewer { length (toks self.new) ≤ length (toks self.old) }
    {
        if self.at(Class::Colon) {
            let kind = self.colon_type(room)?;
            return Ok(Some(kind));
        }
        Ok(None)
    }
}
