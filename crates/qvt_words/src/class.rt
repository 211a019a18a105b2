/// What a token is to the grammar: each symbol and each reserved word is a class of its own.
#[derive(Clone, Copy, PartialEq, Eq)]
pub enum Class {
    Name,
    Integer,
    Str,
    /// `(`
    OpenRound,
    /// `)`
    CloseRound,
    /// `{`
    OpenBrace,
    /// `}`
    CloseBrace,
    /// `,`
    Comma,
    /// `;`
    Semicolon,
    /// `:`
    Colon,
    /// `::`
    DoubleColon,
    /// `.`
    Dot,
    /// `..`
    DotDot,
    /// `->`
    Arrow,
    /// `|`
    Bar,
    /// `@`
    AtSign,
    /// `=`
    EqualSign,
    /// `==`
    DoubleEqual,
    /// `<>`
    Diamond,
    /// `!=`
    BangEqual,
    /// `<`
    LessSign,
    /// `<=`
    AtMost,
    /// `>`
    GreaterSign,
    /// `>=`
    AtLeast,
    /// `+`
    PlusSign,
    /// `-`
    MinusSign,
    /// `*`
    Star,
    /// `:=`
    Becomes,
    /// `+=`
    PlusEqual,
    AndWord,
    BagWord,
    ClassWord,
    ConstructorWord,
    DisjunctsWord,
    ElifWord,
    ElseWord,
    EndWord,
    EndifWord,
    ExtendsWord,
    FalseWord,
    ForEachWord,
    HelperWord,
    IfWord,
    ImpliesWord,
    ImportWord,
    InWord,
    InheritsWord,
    InitWord,
    InoutWord,
    IntermediateWord,
    InvResolveWord,
    InvResolveInWord,
    InvResolveOneWord,
    InvResolveOneInWord,
    LateWord,
    LibraryWord,
    MainWord,
    MapWord,
    MappingWord,
    MergesWord,
    ModelTypeWord,
    NewWord,
    NotWord,
    NullWord,
    ObjectWord,
    OrWord,
    OrderedSetWord,
    OutWord,
    PopulationWord,
    QueryWord,
    ResolveAllWord,
    ResolveInWord,
    ResolveOneWord,
    ResolveOneInWord,
    ResultWord,
    ReturnWord,
    SelfWord,
    SequenceWord,
    SetWord,
    ThenWord,
    TransformationWord,
    TrueWord,
    UsesWord,
    VarWord,
    WhenWord,
    WhileWord,
    XmapWord,
    XorWord,
}
