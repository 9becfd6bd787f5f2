// The grammar of expressions by chance: by what an expression gives, the source text of a node.
//
// `T`, `N`, `S`, `B`, `E` and `P` stand for expressions that give a truth value, a number, a text, bytes, a measure and a
// pair, `X` for what the node gives, and `M` for a mask. The numbers of a row are of one type, which `#n` names, and so are
// its measures, by `#e`. `#N`, `#S`, `#B`, `#E`, `#T` and `#X` stand for literals, null among them, and `!N`, `!S`, `!B`,
// `!E` and `!T` for others than null. `*N`, `*S`, `*B`, `*E` and `*T` stand for literal lists of them, with nulls at times.
use crate::kinds::{Kind, Measure};
use vx_dtype::PType;

/// Nodes that give truth values.
const TRUTHS: [&str; 50] = [
    "(T and T)",
    "(T or T)",
    "(not T)",
    "(N = N)",
    "(N != #N)",
    "(N < N)",
    "(N <= #N)",
    "(N > N)",
    "(#N >= N)",
    "(S = S)",
    "(S != #S)",
    "(S < #S)",
    "(S >= S)",
    "(B = #B)",
    "(B < B)",
    "(B <= #B)",
    "(T = T)",
    "(T < T)",
    "(T >= #T)",
    "(N between N and N)",
    "(N < N < N)",
    "(#N <= N < #N)",
    "(N < N <= #N)",
    "(S between #S and S)",
    "(S < S < S)",
    "(#S <= S < #S)",
    "(B <= B < B)",
    "(S like #S)",
    "(S not like #S)",
    "(S ilike #S)",
    "(S not ilike #S)",
    "(S like #S)",
    "(S ilike #S)",
    "starts_with(S, #S)",
    "(byte_length(S) <= 3i64)",
    "(T is null)",
    "(N is null)",
    "(S is not null)",
    "(B is null)",
    "fill_null(T, !T)",
    "cast(T as bool?)",
    "cast(T as bool)",
    "(N + #N = N)",
    "(N % #N = N)",
    "list_contains(*N, N)",
    "list_contains(*N, N)",
    "(not list_contains(*N, N))",
    "list_contains(*S, S)",
    "list_contains(*B, B)",
    "list_contains(*T, T)",
];

const NUMBERS: [&str; 14] = [
    "(N + N)",
    "(N + #N)",
    "(#N + N)",
    "(N + !N)",
    "(N - N)",
    "(N - #N)",
    "(N * N)",
    "(N * #N)",
    "(N / N)",
    "(N / #N)",
    "(N % !N)",
    "fill_null(N, !N)",
    "cast(N as #n?)",
    "cast(N as #n)",
];

const TEXTS: [&str; 2] = ["fill_null(S, !S)", "cast(S as utf8?)"];

const OCTETS: [&str; 2] = ["fill_null(B, !B)", "cast(B as binary?)"];

const MEASURES: [&str; 2] = ["fill_null(E, !E)", "cast(E as #e?)"];

/// Little arithmetic, which has no text.
const SUMMED: [&str; 8] = [
    "fill_null(E, !E)",
    "fill_null(E, !E)",
    "fill_null(E, !E)",
    "cast(E as #e?)",
    "cast(E as #e?)",
    "cast(E as #e?)",
    "(E + #E)",
    "(E - #E)",
];

/// Nodes over measures that give truth values.
const OF_MEASURES: [&str; 13] = [
    "(E = E)",
    "(E != #E)",
    "(E < E)",
    "(E <= #E)",
    "(#E > E)",
    "(E >= E)",
    "(E between #E and E)",
    "(E < E < E)",
    "(#E <= E < #E)",
    "(E is null)",
    "(E is not null)",
    "list_contains(*E, E)",
    "(not list_contains(*E, E))",
];

/// Nodes that give what their children give.
const OF_ANY_KIND: [&str; 7] = [
    "case when T then X else X end",
    "case when T then X when T then X end",
    "case when T then X when T then #X else X end",
    "case when T then X end",
    "zip(X, X, T)",
    "zip(X, #X, T)",
    "mask(X, M)",
];

/// Masks, which are never null.
pub const MASKS: [&str; 5] = [
    "(N is null)",
    "(S is not null)",
    "(T is null)",
    "`from`",
    "true",
];

impl Kind {
    /// Nodes that give such values, and where the engine has pairs, nodes over them.
    pub fn nodes(self) -> &'static [&'static str] {
        match self {
            Kind::Truth => &TRUTHS,
            Kind::Number(_) => &NUMBERS,
            Kind::Text => &TEXTS,
            Kind::Octets => &OCTETS,
            Kind::Measure(Measure::Price | Measure::Amount | Measure::Single | Measure::Double) =>
                &SUMMED,
            Kind::Measure(Measure::Day | Measure::Clock | Measure::Moment) => &MEASURES,
            Kind::Pair => &["mask(P, M)"],
        }
    }

    /// Nodes that give what their children give: of pairs, no literal stands among those.
    pub fn of_any_kind(self) -> &'static [&'static str] {
        match self {
            Kind::Pair => &[
                "case when T then X else X end",
                "zip(X, X, T)",
                "mask(X, M)",
            ],
            _ => &OF_ANY_KIND,
        }
    }

    /// Nodes over measures that give such values.
    pub fn of_measures(self) -> &'static [&'static str] {
        match self {
            Kind::Truth => &OF_MEASURES,
            _ => &[],
        }
    }

    /// Nodes over pairs that give such values.
    pub fn of_pairs(self) -> &'static [&'static str] {
        match self {
            Kind::Truth => &["(P is null)", "(P is not null)"],
            Kind::Number(PType::I32) => &["P.f"],
            Kind::Text => &["P.g"],
            _ => &[],
        }
    }
}
