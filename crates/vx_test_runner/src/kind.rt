// What a line of a table asks.

/// The kind of a line: what its answer is of.
#[derive(Clone, Copy)]
pub enum Kind {
    OfSource(SourceKind),
    OfBound(BoundKind),
    OfTwo(PairKind),
    OfWords(WordsKind),
}

/// Kinds of lines that ask of a source.
#[derive(Clone, Copy)]
pub enum SourceKind {
    Text,
    TextLength,
    TreeText,
    TreeTextLength,
    Type,
    Built,
    BuiltBound,
    Depth,
    AnyQuery,
    Planned,
    PlannedPaths,
    PlannedSplit,
    Scan,
    Selected,
}

/// Kinds of lines that ask of a source that is bound to the scope.
#[derive(Clone, Copy)]
pub enum BoundKind {
    Source,
    Rows,
    OfRewritten(RewrittenKind),
    OfAnalysis(AnalysisKind),
    OfFields(FieldsKind),
    Pruned,
}

/// What is told of a tree: its text, or what it gives over each batch.
#[derive(Clone, Copy)]
pub enum Told {
    Text,
    Rows,
}

/// What a line asks of a tree that is made of the bound one.
#[derive(Clone, Copy)]
pub enum RewrittenKind {
    Validity(Told),
    Optimized(Told),
    OptimizedOrNone,
    OptimizedAtRoot,
    ByBranches(Told),
    ByBranchesOrNone,
    Folded(Told),
    FoldedOrNone,
    Fused(Told),
}

/// What a line asks of the paths and the labels of the bound tree.
#[derive(Clone, Copy)]
pub enum AnalysisKind {
    Paths,
    OptimizedPaths,
    Size,
    Sizes,
    Heights,
}

/// What a line asks of the fields that nodes of the bound tree read.
#[derive(Clone, Copy)]
pub enum FieldsKind {
    Fields,
    OwnFields,
    OwnAnnotations,
    Annotations,
    Covers,
    Split(Told),
    Replaced(Told),
}

/// Kinds of lines that ask of a tree by something else.
#[derive(Clone, Copy)]
pub enum PairKind {
    Passes,
    Query,
    QueryType,
    ScanOver,
    Partition,
    ReplacedBy,
    Equal,
    FusedAs,
}

/// Kinds of lines that ask of no tree.
#[derive(Clone, Copy)]
pub enum WordsKind {
    Like,
    Error,
    Function,
    ChildNames,
    NodeType,
    Kept,
    Swapped,
    TypeText,
    Parse,
    ParsedType,
    ParsedScalar,
    Places,
    ParseOver,
    Union,
    Scalar,
    Column,
    Joined,
    PathSet,
    Read,
    Reader,
    StatisticsOf,
    FirstMatch,
    Collected(CollectKind),
    ByChance,
    TextsByChance,
    PeeledText,
}

/// What a line asks of trees that are joined.
#[derive(Clone, Copy)]
pub enum CollectKind {
    Text,
    Bound,
    Depth,
}

impl Kind {
    /// The kind of that name.
    pub fn named(name: &str) -> Option<Kind> {
        if let Some(kind) = named(name, SOURCE) {
            return Some(Kind::OfSource(kind));
        }
        if let Some(kind) = named(name, PAIRS) {
            return Some(Kind::OfTwo(kind));
        }
        if let Some(kind) = named(name, WORDS) {
            return Some(Kind::OfWords(kind));
        }
        BoundKind::named(name).map(Kind::OfBound)
    }

    /// How many columns it has before the answer that is wanted.
    pub fn columns(self) -> usize {
        match self {
            Kind::OfSource(_) | Kind::OfBound(_) => 1,
            Kind::OfTwo(_) => 2,
            Kind::OfWords(kind) => match kind {
                WordsKind::Like
                | WordsKind::NodeType
                | WordsKind::Kept
                | WordsKind::ParseOver
                | WordsKind::Union
                | WordsKind::Column
                | WordsKind::Collected(_) => 2,
                WordsKind::Joined => 3,
                WordsKind::FirstMatch | WordsKind::PeeledText => 4,
                WordsKind::Error
                | WordsKind::Function
                | WordsKind::ChildNames
                | WordsKind::Swapped
                | WordsKind::TypeText
                | WordsKind::Parse
                | WordsKind::ParsedType
                | WordsKind::ParsedScalar
                | WordsKind::Places
                | WordsKind::Scalar
                | WordsKind::PathSet
                | WordsKind::Read
                | WordsKind::Reader
                | WordsKind::StatisticsOf
                | WordsKind::ByChance
                | WordsKind::TextsByChance => 1,
            },
        }
    }
}

impl BoundKind {
    fn named(name: &str) -> Option<BoundKind> {
        if let Some(kind) = named(name, REWRITTEN) {
            return Some(BoundKind::OfRewritten(kind));
        }
        if let Some(kind) = named(name, ANALYSIS) {
            return Some(BoundKind::OfAnalysis(kind));
        }
        if let Some(kind) = named(name, FIELDS) {
            return Some(BoundKind::OfFields(kind));
        }
        named(name, BOUND)
    }
}

// The kind that the list has of that name.
fn named<T: Copy>(name: &str, kinds: &[(&str, T)]) -> Option<T> {
    for (known, kind) in kinds {
        if *known == name {
            return Some(*kind);
        }
    }
    None
}

const SOURCE: &[(&str, SourceKind)] = &[
    ("text", SourceKind::Text),
    ("text length", SourceKind::TextLength),
    ("tree text", SourceKind::TreeText),
    ("tree text length", SourceKind::TreeTextLength),
    ("type", SourceKind::Type),
    ("built", SourceKind::Built),
    ("built bound", SourceKind::BuiltBound),
    ("depth", SourceKind::Depth),
    ("any query", SourceKind::AnyQuery),
    ("planned", SourceKind::Planned),
    ("planned paths", SourceKind::PlannedPaths),
    ("planned split", SourceKind::PlannedSplit),
    ("scan", SourceKind::Scan),
    ("selected", SourceKind::Selected),
];

const BOUND: &[(&str, BoundKind)] = &[
    ("source", BoundKind::Source),
    ("rows", BoundKind::Rows),
    ("pruned", BoundKind::Pruned),
];

const REWRITTEN: &[(&str, RewrittenKind)] = &[
    ("validity", RewrittenKind::Validity(Told::Text)),
    ("validity rows", RewrittenKind::Validity(Told::Rows)),
    ("optimized", RewrittenKind::Optimized(Told::Text)),
    ("optimized rows", RewrittenKind::Optimized(Told::Rows)),
    ("optimized or none", RewrittenKind::OptimizedOrNone),
    ("optimized at root", RewrittenKind::OptimizedAtRoot),
    ("by branches", RewrittenKind::ByBranches(Told::Text)),
    ("by branches rows", RewrittenKind::ByBranches(Told::Rows)),
    ("by branches or none", RewrittenKind::ByBranchesOrNone),
    ("folded", RewrittenKind::Folded(Told::Text)),
    ("folded rows", RewrittenKind::Folded(Told::Rows)),
    ("folded or none", RewrittenKind::FoldedOrNone),
    ("fused", RewrittenKind::Fused(Told::Text)),
    ("fused rows", RewrittenKind::Fused(Told::Rows)),
];

const ANALYSIS: &[(&str, AnalysisKind)] = &[
    ("paths", AnalysisKind::Paths),
    ("optimized paths", AnalysisKind::OptimizedPaths),
    ("size", AnalysisKind::Size),
    ("sizes", AnalysisKind::Sizes),
    ("heights", AnalysisKind::Heights),
];

const FIELDS: &[(&str, FieldsKind)] = &[
    ("fields", FieldsKind::Fields),
    ("own fields", FieldsKind::OwnFields),
    ("own annotations", FieldsKind::OwnAnnotations),
    ("annotations", FieldsKind::Annotations),
    ("covers", FieldsKind::Covers),
    ("split", FieldsKind::Split(Told::Text)),
    ("split rows", FieldsKind::Split(Told::Rows)),
    ("replaced", FieldsKind::Replaced(Told::Text)),
    ("replaced rows", FieldsKind::Replaced(Told::Rows)),
];

const PAIRS: &[(&str, PairKind)] = &[
    ("passes", PairKind::Passes),
    ("query", PairKind::Query),
    ("query type", PairKind::QueryType),
    ("scan over", PairKind::ScanOver),
    ("partition", PairKind::Partition),
    ("replaced by", PairKind::ReplacedBy),
    ("equal", PairKind::Equal),
    ("fused as", PairKind::FusedAs),
];

const WORDS: &[(&str, WordsKind)] = &[
    ("like", WordsKind::Like),
    ("error", WordsKind::Error),
    ("function", WordsKind::Function),
    ("child names", WordsKind::ChildNames),
    ("node type", WordsKind::NodeType),
    ("kept", WordsKind::Kept),
    ("swapped", WordsKind::Swapped),
    ("type text", WordsKind::TypeText),
    ("parse", WordsKind::Parse),
    ("parsed type", WordsKind::ParsedType),
    ("parsed scalar", WordsKind::ParsedScalar),
    ("places", WordsKind::Places),
    ("parse over", WordsKind::ParseOver),
    ("union", WordsKind::Union),
    ("scalar", WordsKind::Scalar),
    ("column", WordsKind::Column),
    ("joined", WordsKind::Joined),
    ("path set", WordsKind::PathSet),
    ("read", WordsKind::Read),
    ("reader", WordsKind::Reader),
    ("statistics of", WordsKind::StatisticsOf),
    ("first match", WordsKind::FirstMatch),
    ("collected", WordsKind::Collected(CollectKind::Text)),
    ("collected bound", WordsKind::Collected(CollectKind::Bound)),
    ("collected depth", WordsKind::Collected(CollectKind::Depth)),
    ("by chance", WordsKind::ByChance),
    ("texts by chance", WordsKind::TextsByChance),
    ("peeled text", WordsKind::PeeledText),
];
