ghost use Rattle.std.specs.Prelude.{◌≡◌, ◌≢◌, ◌↔◌, ℕ, ◌^◌, List, [], true, false, length, None, IfOk, IfErr, IsTrue, OnOk, OnErr, IfSome, option_map, position, ◌==◌, ◌&&◌, ◌||◌, ◌<◌};
ghost use Rattle.std.specs.Str.{bytes_eq};
ghost use Rattle.std.specs.List.{list_any};
ghost use Rattle.qvt_metamodel.specs.Metamodels.{class_at, feature_at, shape_of, opposite, features_of};
ghost use Rattle.qvt_metamodel.specs.Descends.{descends, Descends};
ghost use Rattle.qvt_metamodel.specs.WellFormed.{IsWellFormed, IsRegular};
ghost use Rattle.qvt_metamodel.specs.Named.{is_text};

use crate::extending::{given_classes, given_features, have_texts, one_unnamed};
use crate::joining::{class_infos_on, feature_infos_on, lines_on, ranks_on, rows_on};
use crate::meta::Meta;
use crate::numbered::Numbered;
use qvt_base::copied::Copied;
use qvt_base::list_fault::ListFault;
use qvt_base::numbers::{ClassNo, FeatureNo};
use qvt_base::text::Text;
use qvt_meta_names::class_tables::class_tables;
use qvt_meta_names::enum_tables::{EnumTable, enum_tables};
use qvt_meta_names::feature_tables::{feature_table, name_numbers};
use qvt_meta_names::name_table::NameTable;
use qvt_meta_names::place_tables::{PlaceTables, place_in, place_tables};
use qvt_meta_tables::tables::tables_of;
use qvt_metamodel::begin::Begin;
use qvt_metamodel::copied::{copies, joined};
use qvt_metamodel::fault::MetasFault;
use qvt_metamodel::given::{ClassData, ClassDataList};
use qvt_metamodel::info::{
    ClassInfo, EnumInfo, FeatureInfo, FeatureShape, MetamodelInfo, TypeKind,
};
use qvt_metamodel::lists::FeatureLists;
use qvt_metamodel::row::{Row, is_marked};
use std::alloc::Global;
use std::marker::Model;

/// Metamodels with numbers: metamodels, classes and features are numbered from 0 in the order of
/// adding and then of the document. Every look-up by a number is total: past the end it answers
/// what a class or feature without anything would have.
pub struct Metas {
    metamodels: Vec<MetamodelInfo>,
    classes: Vec<ClassInfo>,
    features: Vec<FeatureInfo>,
    element: Option<ClassNo>,
    lists: FeatureLists,
    rows: Vec<Row>,
    ranks: Vec<u32>,
    names: Vec<NameTable>,
    feature_names: NameTable,
    numbers: Vec<u32>,
    places: PlaceTables,
    enum_tables: Vec<EnumTable>,
}

impl Drop for Metas {
    fn drop(self) {
        let Metas {
            metamodels,
            classes,
            features,
            element,
            lists,
            rows,
            ranks,
            names,
            feature_names,
            numbers,
            places,
            enum_tables,
        } = self;
    }
}

impl Model for Metas {
    ghost use Rattle.qvt_metamodel.specs.Metamodels.{Metamodels};
    ghost use Rattle.qvt_metas.specs.Held.{IsMetasKept};

    ghost Value = { Metamodels };

    ghost view = { λ m. record { metamodels = m.metamodels.items; classes = m.classes.items; features = m.features.items; element = m.element } };

    ghost invariant = { λ m. IsMetasKept (record { metamodels = m.metamodels.items; classes = m.classes.items; features = m.features.items; element = m.element }) m.lists m.rows.items m.ranks.items m.names.items m.feature_names m.numbers.items m.places m.enum_tables.items };
}

impl Metas {
    ghost use Rattle.qvt_metamodel.specs.Metamodels.{Metamodels};

    /// No metamodels. It takes no memory.
    pub fn new(alloc: Global) -> Metas
        ensures { result ≡ record { metamodels = []; classes = []; features = []; element = None } }
    {
        Metas {
            metamodels: Vec::new(alloc),
            classes: Vec::new(alloc),
            features: Vec::new(alloc),
            element: None,
            lists: FeatureLists::new(alloc),
            rows: Vec::new(alloc),
            ranks: Vec::new(alloc),
            names: Vec::new(alloc),
            feature_names: NameTable::new(alloc),
            numbers: Vec::new(alloc),
            places: PlaceTables::new(alloc),
            enum_tables: Vec::new(alloc),
        }
    }

    /// The metamodels of these parts, with their classes and features by name.
    fn whole(
        alloc: Global,
        metamodels: Vec<MetamodelInfo>,
        classes: Vec<ClassInfo>,
        features: Vec<FeatureInfo>,
        element: Option<ClassNo>,
        lists: FeatureLists,
        rows: Vec<Row>,
        ranks: Vec<u32>,
    ) -> Result<Metas, ListFault>
        requires { IsKept (record { metamodels = metamodels.items; classes = classes.items; features = features.items; element = element }) (all_lists lists) rows.items ranks.items }
        ensures { IfOk result (λ m. m ≡ record { metamodels = metamodels.items; classes = classes.items; features = features.items; element = element }) }
    {
        let count = classes.len() as u32;
        let names = class_tables(alloc, metamodels.len() as u32, classes.as_slice(), count)?;
        let feature_names = feature_table(alloc, features.as_slice(), features.len() as u32)?;
        let numbers = name_numbers(alloc, &feature_names, features.as_slice())?;
        let places = place_tables(alloc, numbers.as_slice(), &lists)?;
        let enumerations = enum_tables(alloc, metamodels.as_slice())?;
        Ok(Metas {
            metamodels,
            classes,
            features,
            element,
            lists,
            rows,
            ranks,
            names,
            feature_names,
            numbers,
            places,
            enum_tables: enumerations,
        })
    }

    ghost use Rattle.qvt_metamodel.specs.Kept.{IsKept};
    ghost use Rattle.qvt_metamodel.specs.Lists.{all_lists};

    /// Adds a metamodel: its numbers go on from those that are there, which stay. It is refused
    /// where a metamodel of its name is there. A refused call changes nothing. Where the class
    /// Element is there, it is above the classes that come too.
    pub fn add(&mut self, meta: Meta) -> Result<(), MetasFault>
        requires { HasRoom self.old meta }
        ensures ok { OnOk result (self.new ≡ added self.old meta) }
        ensures fresh { OnOk result (has_metamodel self.old meta.name ≡ false) }
        ensures element { OnOk result (self.new.element ≡ self.old.element) }
        ensures same { IfErr result (λ fault. fault ≢ MetasFault.NoMemory → (has_metamodel self.old meta.name ≡ true) × (fault ≡ MetasFault.SameMetamodel meta.name)) }
        ensures err { OnErr result (self.new ≡ self.old) }
    {
        let next = self.with_meta(&meta)?;
        *self = next;
        Ok(())
    }

    /// Whether the numbers still fit 32 bits when this metamodel is added.
    pub fn has_room(&self, meta: &Meta) -> bool
        ensures room { IsTrue result → HasRoom self.now meta.now }
        ensures full { HasRoom self.now meta.now → IsTrue result }
    {
        let others = meta.alone();
        let metamodels = self.metamodels.len() + others.metamodels.len();
        let classes = self.classes.len() + others.classes.len();
        let features = self.features.len() + others.features.len();
        if metamodels > u32::MAX as usize {
            return false;
        }
        if classes > u32::MAX as usize {
            return false;
        }
        features <= u32::MAX as usize
    }

    /// These metamodels with one more.
    fn with_meta(&self, meta: &Meta) -> Result<Metas, MetasFault>
        requires { HasRoom self.now meta.now }
        ensures ok { IfOk result (λ next. next ≡ added self.now meta.now) }
        ensures fresh { OnOk result (has_metamodel self.now meta.now.name ≡ false) }
        ensures element { IfOk result (λ next. next.element ≡ self.now.element) }
        ensures same { IfErr result (λ fault. fault ≢ MetasFault.NoMemory → (has_metamodel self.now meta.now.name ≡ true) × (fault ≡ MetasFault.SameMetamodel meta.now.name)) }
    {
        let alloc = *self.classes.allocator();
        if self.has_metamodel(meta.name()) {
            return Err(MetasFault::SameMetamodel(meta.name().copy(alloc)?));
        }
        Ok(self.with(meta.alone())?)
    }

    ghost use Rattle.qvt_metamodel.specs.Added.{added, HasRoom};
    ghost use Rattle.qvt_metamodel.specs.Named.{has_metamodel};

    /// Whether a metamodel of this name is there.
    fn has_metamodel(&self, name: &Text) -> bool
        ensures { result ≡ has_metamodel self.now name.now }
    {
        are_named(self.metamodels.as_slice(), name)
    }

    /// These metamodels, and then the others, whose numbers go on.
    fn with(&self, others: &Numbered) -> Result<Metas, ListFault>
        requires { FitTogether self.now others.now }
        ensures { IfOk result (λ next. next ≡ joined self.now others.now) }
    {
        let alloc = *self.classes.allocator();
        let begin = Begin {
            metamodel: self.metamodels.len() as u32,
            class: self.classes.len() as u32,
            feature: self.features.len() as u32,
        };
        let metamodels = copies(alloc, others.metamodels.as_slice())?;
        let classes = class_infos_on(alloc, begin, others.classes.as_slice())?;
        let features = feature_infos_on(alloc, begin, others.features.as_slice())?;
        let lines = lines_on(alloc, begin, others.lists.lines())?;
        let rows = rows_on(alloc, begin, others.rows.as_slice())?;
        let ranks = ranks_on(alloc, begin, others.ranks.as_slice())?;
        let next = Metas::whole(
            alloc,
            joined(alloc, self.metamodels.as_slice(), metamodels)?,
            joined(alloc, self.classes.as_slice(), classes)?,
            joined(alloc, self.features.as_slice(), features)?,
            self.element,
            self.lists.joined(alloc, &others.lists, lines)?,
            joined(alloc, self.rows.as_slice(), rows)?,
            joined(alloc, self.ranks.as_slice(), ranks)?,
        )?;
        Ok(next)
    }

    ghost use Rattle.qvt_metamodel.specs.Joined.{joined, FitTogether};

    /// These metamodels and one more, the last, which has no name: its first class is Element, which
    /// is abstract, has no features and is above every class, and after it come the given classes,
    /// whose superclasses are the given ones alone. Element is not there before: two of it would each
    /// be above the other.
    pub fn extended(&self, classes: &ClassDataList) -> Result<Metas, MetasFault>
        requires element { self.now.element ≡ None }
        requires given { AreGiven self.now classes.now }
        requires room { HasRoomFor self.now classes.now }
        ensures ok { IfOk result (λ next. next ≡ extended self.now classes.now) }
        ensures err { IfErr result (λ fault. fault ≡ MetasFault.NoMemory) }
    {
        Ok(self.with_given(classes.as_slice())?)
    }

    ghost use Rattle.qvt_metamodel.specs.Extended.{extended, AreGiven, HasRoomFor};

    /// The same of a slice.
    fn with_given(&self, classes: &[ClassData]) -> Result<Metas, ListFault>
        requires element { self.now.element ≡ None }
        requires given { AreGiven self.now classes.now }
        requires room { HasRoomFor self.now classes.now }
        ensures { IfOk result (λ next. next ≡ extended self.now classes.now) }
    {
        let alloc = *self.classes.allocator();
        have_texts(classes);
        let metamodel = self.metamodels.len() as u32;
        let element = self.classes.len() as u32;
        let first = self.features.len() as u32;
        let given = given_classes(alloc, metamodel, first, classes)?;
        let features = given_features(alloc, element + 1, classes)?;
        let infos = joined(alloc, self.classes.as_slice(), given)?;
        let tables = tables_of(alloc, infos.as_slice(), infos.len() as u32, usize::MAX)?;
        let next = Metas::whole(
            alloc,
            joined(alloc, self.metamodels.as_slice(), one_unnamed(alloc)?)?,
            infos,
            joined(alloc, self.features.as_slice(), features)?,
            Some(ClassNo(element)),
            tables.lists,
            tables.rows,
            tables.ranks,
        )?;
        Ok(next)
    }

    pub fn metamodel_count(&self) -> u32
        ensures { result ≡ length self.now.metamodels }
    {
        self.metamodels.len() as u32
    }

    pub fn class_count(&self) -> u32
        ensures count { result ≡ length self.now.classes }
        ensures well_formed { IsWellFormed self.now }
    {
        self.classes.len() as u32
    }

    /// The classes, in the order of their numbers.
    pub fn class_infos(&self) -> &[ClassInfo]
        ensures { result.now ≡ self.now.classes }
    {
        self.classes.as_slice()
    }

    /// The features, in the order of their numbers.
    pub fn feature_infos(&self) -> &[FeatureInfo]
        ensures { result.now ≡ self.now.features }
    {
        self.features.as_slice()
    }

    ghost use Rattle.qvt_metamodel.specs.Named.{metamodel_named, class_named, feature_named};

    /// The first metamodel whose name or uri this is.
    pub fn metamodel(&self, name: &str) -> Option<u32>
        ensures { result ≡ metamodel_named self.now name.now }
    {
        match find_metamodel(self.metamodels.as_slice(), name) {
            Some(place) => Some(place as u32),
            None => None,
        }
    }

    pub fn metamodel_name(&self, metamodel: u32) -> &str
        ensures { result.now ≡ (metamodel_at self.now metamodel).name }
    {
        let at = metamodel as usize;
        if at < self.metamodels.len() {
            self.metamodels[at].name.as_str()
        } else {
            ""
        }
    }

    ghost use Rattle.qvt_metamodel.specs.Named.{metamodel_at, enumeration_at, literal_at, enumeration_named, literal_named};

    /// The enumerations of a metamodel, in order.
    pub fn enumerations(&self, metamodel: u32) -> &[EnumInfo]
        ensures enumerations { result.now ≡ (metamodel_at self.now metamodel).enums }
        ensures few { length result.now < 2 ^ 32 }
    {
        let at = metamodel as usize;
        if at < self.metamodels.len() {
            self.metamodels[at].enums.as_slice()
        } else {
            &[]
        }
    }

    /// The literals of an enumeration, in order.
    pub fn literals(&self, metamodel: u32, enumeration: u32) -> &[Text]
        ensures literals { result.now ≡ (enumeration_at self.now metamodel enumeration).literals }
        ensures few { length result.now < 2 ^ 32 }
    {
        let at = metamodel as usize;
        let place = enumeration as usize;
        if at < self.metamodels.len() && place < self.metamodels[at].enums.len() {
            self.metamodels[at].enums.as_slice()[place]
                .literals
                .as_slice()
        } else {
            &[]
        }
    }

    /// The enumeration of this name in a metamodel.
    pub fn enumeration(&self, metamodel: u32, name: &str) -> Option<u32>
        ensures { result ≡ enumeration_named self.now metamodel name.now }
    {
        let at = metamodel as usize;
        if at >= self.enum_tables.len() {
            return None;
        }
        self.enum_tables[at].enumerations.find(name)
    }

    /// The literal of this name in an enumeration.
    pub fn literal(&self, metamodel: u32, enumeration: u32, name: &str) -> Option<u32>
        ensures { result ≡ literal_named self.now metamodel enumeration name.now }
    {
        let at = metamodel as usize;
        if at >= self.enum_tables.len() {
            return None;
        }
        let literals = self.enum_tables[at].literals.as_slice();
        let place = enumeration as usize;
        if place >= literals.len() {
            return None;
        }
        literals[place].find(name)
    }

    pub fn enumeration_name(&self, metamodel: u32, enumeration: u32) -> &str
        ensures { result.now ≡ (enumeration_at self.now metamodel enumeration).name }
    {
        let enums = self.enumerations(metamodel);
        let place = enumeration as usize;
        if place < enums.len() {
            enums[place].name.as_str()
        } else {
            ""
        }
    }

    pub fn literal_name(&self, metamodel: u32, enumeration: u32, literal: u32) -> &str
        ensures { result.now ≡ literal_at self.now metamodel enumeration literal }
    {
        let literals = self.literals(metamodel, enumeration);
        let place = literal as usize;
        if place < literals.len() {
            literals[place].as_str()
        } else {
            ""
        }
    }

    /// The class of this name in a metamodel.
    pub fn class(&self, metamodel: u32, name: &str) -> Option<ClassNo>
        ensures { option_map (λ c. c.0) result ≡ class_named self.now metamodel name.now }
    {
        let at = metamodel as usize;
        if at >= self.names.len() {
            return None;
        }
        match self.names[at].find(name) {
            Some(number) => Some(ClassNo(number)),
            None => None,
        }
    }

    /// The feature of this name that objects of the class have.
    pub fn feature(&self, class: ClassNo, name: &str) -> Option<FeatureNo>
        ensures { result ≡ feature_named self.now class.0 name.now }
    {
        let Some(number) = self.feature_names.find(name) else {
            return None;
        };
        let at = class.0 as usize;
        let features = self.lists.at(at);
        let numbers = self.numbers.as_slice();
        match place_in(numbers, &self.lists, &self.places, at, number) {
            Some(place) => Some(features[place]),
            None => None,
        }
    }

    /// The place of the feature among those of the class, from 0.
    pub fn place(&self, class: ClassNo, feature: FeatureNo) -> Option<usize>
        ensures { result ≡ position (λ f. f.0 == feature.0) (features_of self.now class.0) }
    {
        let at = class.0 as usize;
        let named = feature.0 as usize;
        if named >= self.numbers.len() {
            return None;
        }
        let features = self.lists.at(at);
        let number = self.numbers[named];
        let numbers = self.numbers.as_slice();
        let Some(place) = place_in(numbers, &self.lists, &self.places, at, number) else {
            return None;
        };
        if features[place].0 == feature.0 {
            Some(place)
        } else {
            None
        }
    }

    pub fn metamodel_of(&self, class: ClassNo) -> u32
        ensures { result ≡ (class_at self.now class.0).metamodel }
    {
        let at = class.0 as usize;
        if at < self.classes.len() {
            self.classes[at].metamodel
        } else {
            0
        }
    }

    pub fn is_abstract(&self, class: ClassNo) -> bool
        ensures { result ≡ (class_at self.now class.0).is_abstract }
    {
        let at = class.0 as usize;
        at < self.classes.len() && self.classes[at].is_abstract
    }

    pub fn class_name(&self, class: ClassNo) -> &str
        ensures { result.now ≡ (class_at self.now class.0).name }
    {
        let at = class.0 as usize;
        if at < self.classes.len() {
            self.classes[at].name.as_str()
        } else {
            ""
        }
    }

    /// The features of the class: those of its superclasses in order, each once, then its own.
    pub fn features(&self, class: ClassNo) -> &[FeatureNo]
        ensures { result.now ≡ features_of self.now class.0 }
    {
        self.lists.at(class.0 as usize)
    }

    /// Whether the first class is the second, or the second is above it.
    pub fn descends(&self, sub: ClassNo, sup: ClassNo) -> bool
        ensures { result ≡ descends self.now sub.0 sup.0 }
    {
        sub.0 == sup.0 || self.is_element(sup) || self.reaches(sub, sup)
    }

    /// A law: what every list of metamodels keeps.
    pub fn are_well_formed(&self)
        ensures well_formed { IsWellFormed self.now }
        ensures regular { IsRegular self.now }
    {
        let _ = &self.classes;
    }

    /// A law: the classes above a class are the least set that has its superclasses and what is
    /// above these.
    pub fn ancestors_are_least(&self)
        ensures { (sub sup : ℕ) → IsTrue (descends self.now sub sup) ↔ Descends self.now sub sup }
    {
        let _ = &self.classes;
    }

    /// A law: when a metamodel is added, and when Element and given classes are, the numbers that
    /// were there stay, and each look-up says of them what it said.
    pub fn numbers_stay(&self)
        ensures added { (d : MetaData) → NumbersStay self.now (added self.now d) }
        ensures extended { self.now.element ≡ None → (classes : List ClassData) → NumbersStay self.now (extended self.now classes) }
    {
        let _ = &self.classes;
    }

    ghost use Rattle.qvt_metamodel.specs.Stay.{NumbersStay};
    ghost use Rattle.qvt_metamodel.specs.declared.declared.MetaData.{MetaData};
    ghost use Rattle.qvt_metamodel.specs.declared.given.ClassData.{ClassData};
    ghost use Rattle.qvt_metamodel.specs.Metamodels.{is_element};

    fn is_element(&self, class: ClassNo) -> bool
        ensures { result ≡ is_element self.now class.0 }
    {
        match self.element {
            None => false,
            Some(element) => element.0 == class.0,
        }
    }

    ghost use Rattle.qvt_metamodel.specs.Descends.{reaches};

    fn reaches(&self, sub: ClassNo, sup: ClassNo) -> bool
        ensures { result ≡ reaches self.now sub.0 sup.0 }
    {
        let at = sub.0 as usize;
        at < self.rows.len() && is_marked(&self.rows[at], sup.0)
    }

    pub fn shape(&self, feature: FeatureNo) -> FeatureShape
        ensures { result ≡ shape_of self.now feature.0 }
    {
        let at = feature.0 as usize;
        if at < self.features.len() {
            self.features[at].shape
        } else {
            FeatureShape {
                kind: TypeKind::Int,
                lower: 0,
                upper: None,
                ordered: false,
                unique: false,
                containment: false,
            }
        }
    }

    pub fn opposite(&self, feature: FeatureNo) -> Option<FeatureNo>
        ensures { result ≡ opposite self.now feature.0 }
    {
        let at = feature.0 as usize;
        if at < self.features.len() {
            self.features[at].opposite
        } else {
            None
        }
    }

    pub fn feature_name(&self, feature: FeatureNo) -> &str
        ensures { result.now ≡ (feature_at self.now feature.0).name }
    {
        let at = feature.0 as usize;
        if at < self.features.len() {
            self.features[at].name.as_str()
        } else {
            ""
        }
    }
}

/// Whether one of the metamodels has this name.
fn are_named(metamodels: &[MetamodelInfo], name: &Text) -> bool
    ensures { result ≡ list_any (λ m. bytes_eq name.now m.name) metamodels.now }
{
    metamodels.iter().any(|m| name.as_str() == m.name.as_str())
}

impl Copied for Metas {
    fn copy(&self, alloc: Global) -> Result<Metas, ListFault> {
        let copy = Metas::whole(
            alloc,
            copies(alloc, self.metamodels.as_slice())?,
            copies(alloc, self.classes.as_slice())?,
            copies(alloc, self.features.as_slice())?,
            self.element,
            self.lists.copy(alloc)?,
            copies(alloc, self.rows.as_slice())?,
            copies(alloc, self.ranks.as_slice())?,
        )?;
        Ok(copy)
    }
}

fn is_text(text: &Option<Text>, name: &str) -> bool
    ensures { result ≡ is_text text.now name.now }
{
    match text {
        None => false,
        Some(text) => name == text.as_str(),
    }
}

fn find_metamodel(metamodels: &[MetamodelInfo], name: &str) -> Option<usize>
    ensures value { result ≡ position (λ m. bytes_eq name.now m.name || is_text m.uri name.now) metamodels.now }
    ensures bound { IfSome result (λ i. i < length metamodels.now) }
{
    metamodels
        .iter()
        .position(|m| name == m.name.as_str() || is_text(&m.uri, name))
}
